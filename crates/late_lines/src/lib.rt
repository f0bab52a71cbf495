// The first late fault of some lines, with its line.

#![tactic(auto)]

ghost use Rattle.std.specs.Prelude.{◌≡◌, Result, not, [], ◌∷◌, ◌+◌, ◌≤◌, ◌<◌, ◌^◌, MatchResult};
ghost use Rattle.table.specs.Mask.{pick, bit};
ghost use Rattle.table.specs.Table.{is_absent};
ghost use Rattle.text.specs.Reader.{all_below};
ghost use Rattle.checks.specs.Judging.{judged};
ghost use Rattle.late_nodes.specs.Terms.{present_in};
ghost use Rattle.late_lines.specs.Places.{drop_fault, task_fault_by, tasks_late_by, node_late_by, nodes_late_by, proc_late_by, first_at, step_at};

use late_nodes::Terms;
use table::{Node, Proc, Slot, Task};
use text::Fault;

// A late fault and its line.
#[derive(Clone, Copy)]
pub struct At {
    pub fault: Fault,
    pub line: usize,
}

// A line that is judged: the line behind it, or its fault.
fn step(judged: Result<(), Fault>, line: usize) -> Result<usize, At>
    requires { line ≤ 4096 }
    ensures { result ≡ step_at judged line }
{
    match judged {
        Ok(()) => Ok(line + 1),
        Err(fault) => Err(At { fault, line }),
    }
}

// An absent node has no line.
fn node_at(x: Node, c: Terms, present: u32, line: usize) -> Result<usize, At>
    requires { line ≤ 4096 }
    ensures found { result ≡ first_at line (node_late_by c present x) }
    ensures near { MatchResult result (λ l. l ≤ line + 1) (λ a. a.line ≤ line + 1) }
{
    if checks::absent(x) {
        return Ok(line);
    }
    step(late_nodes::node(x, c, present), line)
}

fn present_bit(x: Node, n: u8) -> u32
    requires { n < 32 }
    ensures { result ≡ pick (not (is_absent x)) (2 ^ n) 0 }
{
    if checks::absent(x) {
        0
    } else {
        late_nodes::power(n)
    }
}

// The set of a procedure's nodes.
fn present(q: Proc) -> u32
    ensures { result ≡ present_in q }
{
    let mut m = 0;
    for (n, s) in q.slots.iter().enumerate() {
        m += present_bit(s.node, n as u8);
    }
    m
}

// The node lines of a procedure, where the nodes of m are present.
fn nodes(q: Proc, c: Terms, m: u32, line: usize) -> Result<usize, At>
    requires { (q.nodes ≤ 32) × (line ≤ 4000) }
    ensures found { result ≡ first_at line (nodes_late_by c m q) }
    ensures near { MatchResult result (λ l. l ≤ line + 32) (λ a. a.line ≤ line + 32) }
{
    let mut l = line;
    for s in &q.slots[..usize::from(q.nodes)] {
        l = node_at(s.node, c, m, l)?;
    }
    Ok(l)
}

// All parameters are dropped.
fn all_dropped(params: u8, drop: u8) -> bool
    ensures { result ≡ all_below params (λ j. bit j drop) }
{
    params <= 8 && late_nodes::low(drop, params) == late_nodes::power(params) - 1
}

// In closed form a task's top procedure drops all parameters.
fn drops(closed: bool, params: u8, drop: u8) -> Result<(), Fault>
    ensures { result ≡ judged (drop_fault closed params drop) }
{
    if closed && !all_dropped(params, drop) {
        return Err(Fault::Unclosed);
    }
    Ok(())
}

fn task_at(x: Task, c: Terms, line: usize) -> Result<usize, At>
    requires { line ≤ 4096 }
    ensures found { result ≡ first_at line (task_fault_by c x ∷ []) }
    ensures near { MatchResult result (λ l. l ≤ line + 1) (λ a. a.line ≤ line + 1) }
{
    let p = late_nodes::callee_at(c.callee, x.top);
    step(drops(c.closed, p.params, p.drop), line)
}

// The tasks' lines are the first behind the first two.
pub fn tasks(task: [Task; 4], n: u8, c: Terms) -> Result<usize, At>
    requires { n ≤ 4 }
    ensures found { result ≡ first_at 3 (tasks_late_by c task n) }
    ensures near { MatchResult result (λ l. l ≤ 7) (λ a. a.line ≤ 7) }
{
    let mut line = 3;
    for x in &task[..usize::from(n)] {
        line = task_at(*x, c, line)?;
    }
    Ok(line)
}

// The lines of a procedure.
pub fn proc_at(q: Proc, c: Terms, line: usize) -> Result<usize, At>
    requires { (q.nodes ≤ 32) × (line ≤ 3000) }
    ensures found { result ≡ first_at line (proc_late_by c q) }
    ensures near { MatchResult result (λ l. l ≤ line + 33) (λ a. a.line ≤ line + 33) }
{
    let m = if c.closed { present(q) } else { 0 };
    nodes(q, c, m, line + 1)
}
