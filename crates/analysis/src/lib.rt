// What is dirty in a table, and which nodes are kept.

#![tactic(auto)]

ghost use Rattle.std.specs.Prelude.{◌≡◌, None, MatchOption, ◌<◌, ◌≤◌, ◌^◌, ◌+◌, ◌-◌, ◌*◌, length};
ghost use Rattle.table.specs.Mask.{mask_of};
ghost use Rattle.table.specs.Table.{node_in};
ghost use Rattle.masks.specs.Cells.{cell, grown, is_new, Masks};
ghost use Rattle.flow.specs.Flow.{flow_of, pass_of, after_pass};
ghost use Rattle.analysis.specs.Ready.{Ready};
ghost use Rattle.analysis.specs.Decides.{Decides, KeptMasks};
ghost use Rattle.analysis.specs.Steps.{entered, passed_on, step_with, kept_in};
ghost use Rattle.analysis.specs.Sources.{is_read, is_recv, read_in, recv_in};
ghost use Rattle.analysis.specs.Plans.{Tells, stored_from, Planned};
ghost use Rattle.analysis.specs.Worklist.{todo_reached, woken, todo_blank, todo_passed, todo_stepped, next_to, todo_taken, Seen, pending_of};
ghost use Rattle.analysis.specs.Work.{Sized, Works};

use flow::Pass;
use table::{Node, Proc, Table};

// The mask m is added to the cell of node n of procedure p. If something was new, which is the answer, the node is to be seen.
#[tactic(auto, unfolding(masks::specs::Cells::grown, crate::specs::Worklist::todo_reached))]
fn reach(cells: &mut [u32; 265], todo: &mut [u32; 8], p: usize, n: usize, m: u32) -> bool
    requires { (p < 8) × ((n < 32) × Sized cells.old todo.old) }
    ensures list { cells.new ≡ grown cells.old (p * 32 + n) m }
    ensures todo { todo.new ≡ todo_reached cells.old todo.old p n m }
    ensures new { result ≡ is_new cells.old (p * 32 + n) m }
{
    let new = masks::grow(cells, p * 32 + n, m);
    if new {
        todo[p] |= 1 << n;
    }
    new
}

// The parameters m of procedure k are dropped.
#[tactic(auto, unfolding(crate::specs::Steps::entered))]
fn enter(cells: &mut [u32; 265], todo: &mut [u32; 8], k: usize, m: u32)
    requires { (k < 8) × Sized cells.old todo.old }
    ensures list { cells.new ≡ entered cells.old k m }
    ensures todo { todo.new ≡ todo_reached cells.old todo.old k 0 m }
{
    reach(cells, todo, k, 0, m);
    masks::grow(cells, 256 + k, m);
}

// The nodes of recvs are to be seen.
fn wake(todo: &mut [u32; 8], recvs: &[u32; 8])
    requires { length todo.old ≡ 8 }
    ensures { todo.new ≡ woken todo.old recvs.now }
{
    for (i, w) in todo.iter_mut().enumerate() {
        *w |= recvs[i];
    }
}

// The queues m are blank.
#[tactic(auto, unfolding(crate::specs::Worklist::todo_blank))]
fn blank(cells: &mut [u32; 265], todo: &mut [u32; 8], recvs: &[u32; 8], m: u32)
    requires { Sized cells.old todo.old }
    ensures list { cells.new ≡ grown cells.old 264 m }
    ensures todo { todo.new ≡ todo_blank recvs.now cells.old todo.old m }
{
    if masks::grow(cells, 264, m) {
        wake(todo, recvs);
    }
}

// What a node adds to the cell a: dropped parameters, or blank queues.
#[tactic(auto, unfolding(crate::specs::Steps::passed_on, crate::specs::Worklist::todo_passed))]
fn pass_on(cells: &mut [u32; 265], todo: &mut [u32; 8], recvs: &[u32; 8], a: usize, m: u32)
    requires { (256 ≤ a) × ((a < 265) × Sized cells.old todo.old) }
    ensures list { cells.new ≡ passed_on cells.old a m }
    ensures todo { todo.new ≡ todo_passed recvs.now cells.old todo.old a m }
{
    if a < 264 {
        enter(cells, todo, a - 256, m)
    } else {
        blank(cells, todo, recvs, m)
    }
}

// A node with one target: what is dirty before it goes there. The answer is the target, if it is to be seen.
fn pass(s: Pass, p: usize, n: usize, cells: &mut [u32; 265], todo: &mut [u32; 8]) -> Option<usize>
    requires { (p < 8) × ((n < 32) × ((s.to < 32) × Sized cells.old todo.old)) }
    ensures list { cells.new ≡ grown cells.old (p * 32 + s.to) (after_pass s (cell cells.old (p * 32 + n))) }
    ensures todo { todo.new ≡ todo_reached cells.old todo.old p s.to (after_pass s (cell cells.old (p * 32 + n))) }
    ensures next { result ≡ next_to cells.old p s.to (after_pass s (cell cells.old (p * 32 + n))) }
{
    let o = flow::after_pass(s, cells[p * 32 + n]);
    reach(cells, todo, p, s.to, o).then_some(s.to)
}

// Any node: what is dirty before it goes where the node leads. The answer is the first target, if it is to be seen.
fn spread(
    x: Node,
    p: usize,
    n: usize,
    cells: &mut [u32; 265],
    todo: &mut [u32; 8],
    recvs: &[u32; 8],
) -> Option<usize>
    requires { (p < 8) × ((n < 32) × Sized cells.old todo.old) }
    ensures list { cells.new ≡ step_with (flow_of x n (cell cells.old (p * 32 + n)) (cell cells.old 264)) p cells.old }
    ensures todo { todo.new ≡ todo_stepped recvs.now (flow_of x n (cell cells.old (p * 32 + n)) (cell cells.old 264)) p cells.old todo.old }
    ensures next { result ≡ next_to cells.old p (flow_of x n (cell cells.old (p * 32 + n)) (cell cells.old 264)).first (flow_of x n (cell cells.old (p * 32 + n)) (cell cells.old 264)).out }
{
    let f = flow::flow_of(x, n, cells[p * 32 + n], cells[264]);
    let on = reach(cells, todo, p, f.first, f.out);
    reach(cells, todo, p, f.second, f.out);
    pass_on(cells, todo, recvs, f.extra, f.add);
    on.then_some(f.first)
}

// One node, of which s says what it does if it has one target; with 32 for the target s says nothing.
fn visit(
    x: Node,
    s: Pass,
    p: usize,
    n: usize,
    cells: &mut [u32; 265],
    todo: &mut [u32; 8],
    recvs: &[u32; 8],
) -> Option<usize>
    requires { (p < 8) × ((n < 32) × (Sized cells.old todo.old × Tells x n s)) }
    ensures list { cells.new ≡ step_with (flow_of x n (cell cells.old (p * 32 + n)) (cell cells.old 264)) p cells.old }
    ensures todo { todo.new ≡ todo_stepped recvs.now (flow_of x n (cell cells.old (p * 32 + n)) (cell cells.old 264)) p cells.old todo.old }
    ensures next { result ≡ next_to cells.old p (flow_of x n (cell cells.old (p * 32 + n)) (cell cells.old 264)).first (flow_of x n (cell cells.old (p * 32 + n)) (cell cells.old 264)).out }
{
    if s.to < 32 {
        pass(s, p, n, cells, todo)
    } else {
        spread(x, p, n, cells, todo, recvs)
    }
}

// Node n of procedure p is taken out of those to be seen.
fn take(p: usize, n: usize, todo: &mut [u32; 8])
    requires { (p < 8) × (n < 32) }
    ensures { todo.new ≡ todo_taken todo.old p n }
{
    todo[p] = masks::minus(todo[p], n);
}

// The nodes of procedure p, until none is to be seen: along each chain as far as it leads.
fn proc_work(
    q: Proc,
    p: usize,
    plans: &[Pass; 256],
    cells: &mut [u32; 265],
    todo: &mut [u32; 8],
    recvs: &[u32; 8],
)
    requires { (p < 8) × (Masks 265 32 cells.old × (Masks 8 32 todo.old × (Masks 8 32 recvs.now × Planned q p plans.now))) }
    ensures seen { Seen recvs.now q p None cells.old todo.old cells.new todo.new }
    ensures works { Works recvs.now q p cells.old todo.old cells.new todo.new }
{
    while todo[p] != 0 {
        let mut next = Some(flow::target(todo[p]));
        while let Some(n) = next {
            take(p, n, todo);
            next = visit(q.slots[n].node, plans[p * 32 + n], p, n, cells, todo, recvs);
        }
    }
}

// The first procedure with a node that is to be seen.
fn pending(todo: &[u32; 8]) -> Option<usize>
    ensures first { result ≡ pending_of todo.now }
    ensures low { MatchOption result (Unit {0}) (λ p. p < 8) }
{
    todo.iter().position(|m| *m != 0)
}

// The numbers below k.
fn low_bits(k: u8) -> u32
    requires { k ≤ 4 }
    ensures { result ≡ 2 ^ k - 1 }
{
    (1 << k) - 1
}

// After a source a variable can be dirty though none is dirty before it: a read,
#[tactic(auto, unfolding(table::specs::Table::parts))]
fn is_read(x: Node) -> bool
    ensures { result ≡ is_read x }
{
    matches!(x, Node::Read { .. })
}

// or a receive, if its queue is blank.
#[tactic(auto, unfolding(table::specs::Table::parts))]
fn is_recv(x: Node) -> bool
    ensures { result ≡ is_recv x }
{
    matches!(x, Node::Recv { .. })
}

// The sources of a procedure.
#[derive(Clone, Copy)]
struct Sources {
    reads: u32,
    recvs: u32,
}

// What each node of procedure p does, if it has one target, in the place of the node among those of all procedures. The answer is the
// sources.
fn plan(q: Proc, p: usize, plans: &mut [Pass; 256]) -> Sources
    requires { (p < 8) × (q.nodes ≤ 32) }
    ensures plans { plans.new ≡ stored_from (p * 32) (λ n. pass_of (node_in q n) n) q.nodes plans.old }
    ensures reads { result.reads ≡ mask_of q.nodes (read_in q) }
    ensures recvs { result.recvs ≡ mask_of q.nodes (recv_in q) }
{
    let mut reads = 0;
    let mut recvs = 0;
    for (n, slot) in q.slots[..q.nodes as usize].iter().enumerate() {
        let x = slot.node;
        reads = masks::with(reads, n, is_read(x));
        recvs = masks::with(recvs, n, is_recv(x));
        plans[p * 32 + n] = flow::pass_of(x, n);
    }
    Sources { reads, recvs }
}

// What is dirty: the reads are seen at first, and each node after what comes to it has grown.
pub fn dirty_cells(t: Table) -> [u32; 265]
    requires { Ready t }
    ensures { Decides t result }
{
    let mut recvs = [0; 8];
    let mut todo = [0; 8];
    let mut plans = [Pass {
        uses: 0,
        sets: 0,
        to: 32,
    }; 256];
    for p in 0..t.procs as usize {
        let s = plan(t.proc[p], p, &mut plans);
        recvs[p] = s.recvs;
        todo[p] = s.reads;
    }
    let mut cells = [0; 265];
    for k in 0..t.tasks as usize {
        let top = t.task[k].top as usize;
        enter(&mut cells, &mut todo, top, low_bits(t.proc[top].params));
    }
    while let Some(p) = pending(&todo) {
        proc_work(t.proc[p], p, &plans, &mut cells, &mut todo, &recvs);
    }
    cells
}

// The kept nodes of a procedure, from what is dirty.
fn kept_mask(q: Proc, base: usize, cells: &[u32; 265]) -> u32
    requires { (base ≤ 224) × (q.nodes ≤ 32) }
    ensures { result ≡ mask_of q.nodes (kept_in q base cells.now) }
{
    let mut m = 0;
    for (n, slot) in q.slots[..q.nodes as usize].iter().enumerate() {
        m = masks::with(m, n, flow::kept_node(slot.node, cells[base + n]));
    }
    m
}

// The kept nodes of each procedure.
pub fn kept_masks(t: Table) -> [u32; 8]
    requires { Ready t }
    ensures { KeptMasks t result }
{
    let cells = dirty_cells(t);
    let mut r = [0; 8];
    for p in 0..t.procs as usize {
        r[p] = kept_mask(t.proc[p], p * 32, &cells);
    }
    r
}
