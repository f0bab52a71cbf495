// The fault of the lines that a hand-made table stands for.

#![tactic(auto)]

ghost use Rattle.std.specs.Prelude.{◌≡◌, ℕ, suc, ◌-◌, ◌≤◌, ◌<◌};
ghost use Rattle.table.specs.Table.{node_in, proc_at};
ghost use Rattle.text.specs.Value.{or_else};
ghost use Rattle.text.specs.Line.{line_fault};
ghost use Rattle.text.specs.Format.{proc_line as lineOf, describe};
ghost use Rattle.text.specs.Writer.{proc_vals};
ghost use Rattle.text.specs.Structure.{first_of, node_due, gap as gapFault, place_fault, head_fault, counts_fault, tasks_fault, sems_fault, queues_fault, proc_fault, procs_fault, lines_fault};
ghost use Rattle.targets.specs.Judged.{judged};
ghost use Rattle.checks.specs.NodeChecks.{scope_in};

use checks::Limits;
use table::{Node, Proc, Queue, Sem, Slot, Table, Task};
use text::Fault;

// The first two lines.
fn head(t: &Table) -> Result<(), Fault>
    ensures { result ≡ judged (or_else (head_fault t.now) (counts_fault t.now)) }
{
    checks::between(1, t.trap, 1)?;
    checks::between(1, t.tasks, 4)?;
    checks::between(1, t.procs, 8)?;
    checks::between(0, t.sems, 8)?;
    checks::between(0, t.queues, 8)
}

fn tasks(t: &Table) -> Result<(), Fault>
    requires { t.now.tasks ≤ 4 }
    ensures { result ≡ judged (tasks_fault t.now) }
{
    for x in &t.task[..usize::from(t.tasks)] {
        checks::reference(x.top, t.procs)?;
    }
    Ok(())
}

fn sems(t: &Table) -> Result<(), Fault>
    requires { t.now.sems ≤ 8 }
    ensures { result ≡ judged (sems_fault t.now) }
{
    for x in &t.sem[..usize::from(t.sems)] {
        checks::between(0, x.count, 255)?;
    }
    Ok(())
}

fn queues(t: &Table) -> Result<(), Fault>
    requires { t.now.queues ≤ 8 }
    ensures { result ≡ judged (queues_fault t.now) }
{
    for x in &t.queue[..usize::from(t.queues)] {
        checks::between(1, x.cap, 8)?;
    }
    Ok(())
}

// The line of a procedure.
fn proc_line(closed: bool, q: &Proc) -> Result<(), Fault>
    ensures { (p : ℕ) → result ≡ judged (line_fault (lineOf closed p) (proc_vals closed p q.now)) }
{
    checks::between(0, q.params, 4)?;
    checks::between(q.params, q.vars, 16)?;
    checks::between(2, q.nodes, 32)?;
    if closed {
        targets::dropped(q.params, q.drop)?;
    }
    Ok(())
}

// What stands behind a procedure's lines where a node is due: the text's end behind the last procedure, else another key.
fn node_due(last: bool) -> Fault
    ensures { result ≡ node_due last }
{
    if last { Fault::Ended } else { Fault::Form }
}

// What stands where node j is due that is absent: a later node, or what is behind the procedure's lines.
fn gap(last: bool, q: &Proc, j: usize) -> Fault
    requires { (j < q.now.nodes) × (q.now.nodes ≤ 32) }
    ensures { result ≡ gapFault last q.now (q.now.nodes - suc j) (suc j) }
{
    for i in j + 1..usize::from(q.nodes) {
        if !checks::absent(q.slots[i].node) {
            return Fault::Index;
        }
    }
    node_due(last)
}

// Place j of a procedure, the table's last or not.
fn place(last: bool, q: &Proc, j: usize, c: Limits) -> Result<(), Fault>
    requires { (j < q.now.nodes) × (q.now.nodes ≤ 32) × (c.nodes ≡ q.now.nodes) }
    ensures { result ≡ judged (place_fault (scope_in c) last q.now j (describe (scope_in c) (node_in q.now j))) }
{
    match checks::node(q.slots[j].node, j, c) {
        Some(judged) => judged,
        None => Err(gap(last, q, j)),
    }
}

fn nodes(last: bool, q: &Proc, c: Limits) -> Result<(), Fault>
    requires { (q.now.nodes ≤ 32) × (c.nodes ≡ q.now.nodes) }
    ensures { result ≡ judged (first_of (λ j. place_fault (scope_in c) last q.now j (describe (scope_in c) (node_in q.now j))) q.now.nodes 0) }
{
    for j in 0..usize::from(q.nodes) {
        place(last, q, j, c)?;
    }
    Ok(())
}

// Procedure p of a table.
fn proc(t: &Table, p: usize) -> Result<(), Fault>
    requires { (p < t.now.procs) × (t.now.procs ≤ 8) }
    ensures { result ≡ judged (proc_fault t.now p) }
{
    let q = &t.proc[p];
    proc_line(t.closed, q)?;
    let last = usize::from(t.procs) <= p + 1;
    nodes(
        last,
        q,
        Limits {
            closed: t.closed,
            procs: t.procs,
            sems: t.sems,
            queues: t.queues,
            vars: q.vars,
            nodes: q.nodes,
        },
    )
}

fn procs(t: &Table) -> Result<(), Fault>
    requires { t.now.procs ≤ 8 }
    ensures { result ≡ judged (procs_fault t.now) }
{
    for p in 0..usize::from(t.procs) {
        proc(t, p)?;
    }
    Ok(())
}

// The first fault of a line.
pub fn lines(t: Table) -> Result<(), Fault>
    ensures { result ≡ judged (lines_fault t) }
{
    head(&t)?;
    tasks(&t)?;
    sems(&t)?;
    queues(&t)?;
    procs(&t)
}
