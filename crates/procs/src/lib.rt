// The procedures of a text, each with its node lines.

#![tactic(auto)]

ghost use Rattle.std.specs.Prelude.{◌<◌, ◌≤◌, ◌≡◌, length};
ghost use Rattle.nodes.specs.declared.Line.TheVariants.{Refused};
ghost use Rattle.nodes.specs.Answer.{scope_in, Fits};
ghost use Rattle.rows.specs.Rows.{LinesAt};
ghost use Rattle.procs.specs.Answer.{IsRefused, node_stands, is_further, line_due, number_below, SlotsAt, row_in};
ghost use Rattle.records.specs.Answer.{Counted};
ghost use Rattle.table.specs.Table.{no_slots, no_proc};

use nodes::{Line, Scope};
use records::Counts;
use rows::{Reached, Refusal};
use table::{Node, Proc, Slot};
use text::Fault;

// A procedure all 0.
pub fn empty_proc() -> Proc
    ensures { result ≡ no_proc }
{
    Proc {
        params: 0,
        vars: 0,
        nodes: 0,
        drop: 0,
        slots: [Slot { node: Node::Absent }; 32],
    }
}

// ---- node lines

// A refused line's fault and number.
fn refusal(row: Line) -> Refusal
    requires { IsRefused row }
    ensures { row ≡ Refused result.fault result.line }
{
    match row {
        Line::Node(_, _, _) => unreachable!(),
        Line::Refused(fault, line) => Refusal { fault, line },
    }
}

// Whether a line beginning `node=` stands there, also one that the text's end breaks off within that key.
fn node_stands(s: &[u8], at: usize) -> bool
    requires { at ≤ length s.now }
    ensures { result ≡ node_stands s.now at }
{
    match scan::after(s, at, b"node=") {
        Ok(_) => true,
        Err(Fault::Ended) => at < s.len(),
        Err(_) => false,
    }
}

// Whether the next line is a further one: in closed form, behind the first. `next` is the least number that it may have.
fn further(closed: bool, next: u64) -> bool
    ensures { result ≡ is_further closed next }
{
    closed && 0 < next
}

// Whether a line is due: in open form until n are read; in closed form the first, and then
// "each further line beginning `node=` belongs to the procedure before it".
fn due(s: &[u8], at: usize, closed: bool, next: u64, n: u64) -> bool
    requires { at ≤ length s.now }
    ensures { result ≡ line_due closed next n s.now at }
{
    if further(closed, next) {
        node_stands(s, at)
    } else {
        next < n
    }
}

// What the next line's number stays below: a further line's may be any below n, each other line's is `next`.
fn below(closed: bool, next: u64, n: u64) -> u64
    requires { next ≤ 32 }
    ensures { result ≡ number_below closed next n }
{
    if further(closed, next) { n } else { next + 1 }
}

// In open form n lines whose numbers count up from 0; in closed form the first line's number is 0, and numbers ascend strictly.
// The slots are filled in their place, and are all 0 again beside a refusal. `next_node` is called here alone, so that the compiler writes
// the line reader out in this loop.
fn node_rows(
    s: &[u8],
    at: usize,
    line: usize,
    c: Scope,
    slots: &mut [Slot; 32],
) -> Result<Reached, Refusal>
    requires { (at ≤ length s.now) × Fits c × (0 < c.nodes) × (line < 1000) × (slots.old ≡ no_slots) }
    ensures { SlotsAt (scope_in c) c.closed s.now at line slots.new result }
{
    let n = c.nodes;
    let mut p = at;
    let mut l = line;
    let mut next = 0u64;
    while due(s, p, c.closed, next, n) {
        let row = line_reader::next_node(s, p, l, c, next, below(c.closed, next, n));
        let Line::Node(node, j, e) = row else {
            *slots = [Slot { node: Node::Absent }; 32];
            return Err(refusal(row));
        };
        let k = j as usize;
        slots[k] = Slot { node };
        p = e;
        l += 1;
        next = j as u64 + 1;
    }
    Ok(Reached { at: p, line: l })
}

// ---- procedures

// A procedure's line and its node lines.
pub fn proc_row(
    s: &[u8],
    at: usize,
    line: usize,
    closed: bool,
    counts: Counts,
    i: u64,
) -> Result<(Proc, Reached), Refusal>
    requires { (at ≤ length s.now) × Counted counts × (i < 8) × (line < 999) }
    ensures { LinesAt (row_in closed counts i) 33 s.now at line result }
{
    let (head, e) = line_reader::next_proc(s, at, closed, i).map_err(|fault| Refusal {
        fault,
        line,
    })?;
    let c = Scope {
        closed,
        procs: counts.procs as u64,
        sems: counts.sems as u64,
        queues: counts.queues as u64,
        vars: head.vars as u64,
        nodes: head.nodes as u64,
    };
    let mut proc = Proc {
        params: head.params,
        vars: head.vars,
        nodes: head.nodes,
        drop: head.drop,
        slots: [Slot { node: Node::Absent }; 32],
    };
    let reached = node_rows(s, e, line + 1, c, &mut proc.slots)?;
    Ok((proc, reached))
}
