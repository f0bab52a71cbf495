// The closed table of an open one.

#![tactic(auto)]

ghost use Rattle.std.specs.Prelude.{◌≡◌, ℕ, ◌<◌, ◌%◌, length, get_or};
ghost use Rattle.table.specs.Mask.{pick, bit};
ghost use Rattle.table.specs.Table.{removed, proc_at, outside};
ghost use Rattle.masks.specs.Cells.{cell};
ghost use Rattle.closing.specs.Close.{close_table};
ghost use Rattle.analysis.specs.Ready.{Ready};
ghost use Rattle.closer.specs.Parts.{two_ends, end_of, arg_with, args_with, drop_in, arc_in, node_with, ClosedQueues, Counted, ClosedProc};

use table::{Args, Node, Proc, Queue, Table};

// The two targets of each place if it has no node: it stays where it is.
const SELF: [u32; 32] = [
    0, 33, 66, 99, 132, 165, 198, 231, 264, 297, 330, 363, 396, 429, 462, 495, 528, 561, 594, 627,
    660, 693, 726, 759, 792, 825, 858, 891, 924, 957, 990, 1023,
];

// Two targets as one number.
fn two_ends(f: usize, s: usize) -> u32
    requires { (f < 32) × (s < 32) }
    ensures { result ≡ two_ends f s }
{
    (f * 32 + s) as u32
}

// The two targets of a node.
#[tactic(auto, unfolding(table::specs::Table::parts))]
fn end_of(x: Node, n: usize) -> u32
    requires { n < 32 }
    ensures { result ≡ end_of x n }
{
    let f = flow::first_of(x, n);
    if let Node::Test { no, .. } = x {
        two_ends(f, flow::target(no))
    } else {
        two_ends(f, f)
    }
}

// The variable v, or `-` if k is in m.
fn unless(m: u32, k: u8, v: u8) -> u8
    ensures { result ≡ pick (bit (k % 32) m) removed v }
{
    if flow::has(m, k) { table::REMOVED } else { v }
}

// The k-th of len arguments, v, or `-` if the parameter is in d.
fn closed_arg(d: u32, len: u8, k: u8, v: u8) -> u8
    ensures { result ≡ arg_with d len k v }
{
    if k < len { unless(d, k, v) } else { v }
}

// d: the callee's dropped parameters.
fn closed_args(d: u32, x: Args) -> Args
    ensures { result ≡ args_with d x }
{
    Args {
        len: x.len,
        a0: closed_arg(d, x.len, 0, x.a0),
        a1: closed_arg(d, x.len, 1, x.a1),
        a2: closed_arg(d, x.len, 2, x.a2),
        a3: closed_arg(d, x.len, 3, x.a3),
    }
}

// The new arc of an open one.
fn arc(arcs: &[u32; 32], to: u32) -> u32
    ensures { result ≡ arc_in arcs.now to }
{
    arcs[flow::target(to) % 32]
}

// What a kept node becomes. i: the variables that are dirty before it.
#[tactic(auto, unfolding(table::specs::Table::parts, table::specs::Table::map_node, crate::specs::Parts::node_with))]
fn closed_node(x: Node, i: u32, cells: &[u32; 265], arcs: &[u32; 32]) -> Node
    ensures { result ≡ node_with i (drop_in cells.now) (cell cells.now 264) (arc_in arcs.now) x }
{
    let blank = cells[264];
    match x {
        Node::Absent => Node::Absent,
        Node::Start { to } => Node::Start { to: arc(arcs, to) },
        Node::Set { var, op, a, b, to } => Node::Set {
            var,
            op,
            a,
            b,
            to: arc(arcs, to),
        },
        Node::Test { op, a, b, yes, no } => Node::Test {
            op,
            a,
            b,
            yes: arc(arcs, yes),
            no: arc(arcs, no),
        },
        Node::Read { var, to } => Node::Read {
            var,
            to: arc(arcs, to),
        },
        Node::Call { callee, args, to } => {
            let d = cells[256 + (callee % 8) as usize];
            Node::Call {
                callee,
                args: closed_args(d, args),
                to: arc(arcs, to),
            }
        }
        Node::Wait { sem, to } => Node::Wait {
            sem,
            to: arc(arcs, to),
        },
        Node::Signal { sem, to } => Node::Signal {
            sem,
            to: arc(arcs, to),
        },
        Node::Send { queue, var, to } => Node::Send {
            queue,
            var: unless(blank, queue, var),
            to: arc(arcs, to),
        },
        Node::Recv { queue, var, to } => Node::Recv {
            queue,
            var: unless(blank, queue, var),
            to: arc(arcs, to),
        },
        Node::Assert { var, to } => Node::Assert {
            var: unless(i, var, var),
            to: arc(arcs, to),
        },
        Node::Out { var, to } => Node::Out {
            var: unless(i, var, var),
            to: arc(arcs, to),
        },
        Node::Return => Node::Return,
    }
}

// A node that is not kept leaves its number empty.
fn closed_slot(x: Node, kept: bool, i: u32, cells: &[u32; 265], arcs: &[u32; 32]) -> Node
    ensures { result ≡ pick kept (node_with i (drop_in cells.now) (cell cells.now 264) (arc_in arcs.now) x) Node.Absent }
{
    if kept {
        closed_node(x, i, cells, arcs)
    } else {
        Node::Absent
    }
}

// One procedure, closed. One loop finds which nodes are kept, which are gone and where each leads, the other closes each node in its place.
pub fn closed_proc(q: Proc, p: usize, cells: &[u32; 265]) -> Proc
    requires { (p < 8) × Counted q }
    ensures { ClosedProc q p cells.now result }
{
    let base = p * 32;
    let nodes = q.nodes as usize;
    let mut kept = 0;
    let mut gone = 0;
    let mut ends = SELF;
    for (n, slot) in q.slots[..nodes].iter().enumerate() {
        let yes = flow::kept_node(slot.node, cells[base + n]);
        kept = masks::with(kept, n, yes);
        gone = masks::with(gone, n, !yes);
        ends[n] = end_of(slot.node, n);
    }
    let arcs = reach::reach(kept, gone, &ends);
    let mut c = q;
    for k in 0..nodes {
        let yes = flow::has(kept, k as u8);
        c.slots[k].node = closed_slot(c.slots[k].node, yes, cells[base + k], cells, &arcs);
    }
    c.drop = (cells[256 + p] % 256) as u8;
    c
}

fn closed_procs(t: Table, cells: &[u32; 265]) -> [Proc; 8]
    requires { Ready t }
    ensures { (length result ≡ 8) × ((p : ℕ) → p < 8 → ClosedProc (proc_at t p) p cells.now (get_or result p outside)) }
{
    let mut r = t.proc;
    for (p, q) in r.iter_mut().enumerate() {
        *q = closed_proc(*q, p, cells);
    }
    r
}

// The closed queues of open ones. b: the blank ones.
pub fn closed_queues(queues: [Queue; 8], b: u32) -> [Queue; 8]
    ensures { ClosedQueues b queues result }
{
    let mut r = queues;
    for (i, q) in r.iter_mut().enumerate() {
        q.blank = flow::has(b, i as u8);
    }
    r
}

// The closed table of an open one.
pub fn closed_table(t: Table) -> Table
    requires { Ready t }
    ensures { result ≡ close_table t }
{
    let cells = analysis::dirty_cells(t);
    Table {
        closed: true,
        queue: closed_queues(t.queue, cells[264]),
        proc: closed_procs(t, &cells),
        ..t
    }
}
