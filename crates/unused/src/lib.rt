// The places of a hand-made table that are not used.

#![tactic(auto)]

ghost use Rattle.std.specs.Prelude.{◌≡◌, not, ◌||◌, ◌≤◌, ◌<◌, ℕ, drop, length, get_or};
ghost use Rattle.table.specs.Table.{arg_places, outside};
ghost use Rattle.text.specs.Writer.{every, is_zero, task_empty, sem_empty, queue_empty, slot_empty, proc_empty, args_empty, proc_tidy, tidy};
ghost use Rattle.unused.specs.Unused.{Ranged, spare as spareAt};

use table::{Args, Node, Proc, Queue, Sem, Slot, Table, Task};

fn tasks_empty(tasks: &[Task]) -> bool
    ensures { result ≡ every task_empty tasks.now }
{
    tasks.iter().all(|x| x.top == 0)
}

fn sems_empty(sems: &[Sem]) -> bool
    ensures { result ≡ every sem_empty sems.now }
{
    sems.iter().all(|x| x.count == 0)
}

fn queues_empty(queues: &[Queue]) -> bool
    ensures { result ≡ every queue_empty queues.now }
{
    queues.iter().all(|x| x.cap == 0 && !x.blank)
}

// Only a closed table has blank queues.
fn blanks_fit(closed: bool, queues: &[Queue]) -> bool
    ensures { result ≡ every (λ x. closed || not x.blank) queues.now }
{
    queues.iter().all(|x| closed || !x.blank)
}

// Place k behind a call's arguments is 0.
fn spare(len: u8, k: u8, v: u8) -> bool
    ensures { result ≡ spareAt len k v }
{
    k < len || v == 0
}

fn call_fits(xs: Args) -> bool
    ensures { result ≡ every is_zero (drop xs.len (arg_places xs)) }
{
    spare(xs.len, 0, xs.a0)
        && spare(xs.len, 1, xs.a1)
        && spare(xs.len, 2, xs.a2)
        && spare(xs.len, 3, xs.a3)
}

fn args_fit(x: Node) -> bool
    ensures { result ≡ args_empty x }
{
    match x {
        Node::Call { args, .. } => call_fits(args),
        _ => true,
    }
}

fn slots_empty(slots: &[Slot]) -> bool
    ensures { result ≡ every slot_empty slots.now }
{
    slots.iter().all(|s| checks::absent(s.node))
}

fn slots_fit(slots: &[Slot]) -> bool
    ensures { result ≡ every (λ s. args_empty s.node) slots.now }
{
    slots.iter().all(|s| args_fit(s.node))
}

fn proc_empty(q: &Proc) -> bool
    ensures { result ≡ proc_empty q.now }
{
    let counts = q.params == 0 && q.vars == 0 && q.nodes == 0 && q.drop == 0;
    counts && slots_empty(&q.slots)
}

// Behind its nodes and behind its calls' arguments, and what only a closed table drops.
fn proc_tidy(closed: bool, q: &Proc) -> bool
    requires { q.now.nodes ≤ 32 }
    ensures { result ≡ proc_tidy closed q.now }
{
    let n = usize::from(q.nodes);
    slots_empty(&q.slots[n..]) && slots_fit(&q.slots[..n]) && (closed || q.drop == 0)
}

fn procs_empty(procs: &[Proc]) -> bool
    ensures { result ≡ every proc_empty procs.now }
{
    for q in procs {
        if !proc_empty(q) {
            return false;
        }
    }
    true
}

fn procs_tidy(closed: bool, procs: &[Proc]) -> bool
    requires { (k : ℕ) → k < length procs.now → (get_or procs.now k outside).nodes ≤ 32 }
    ensures { result ≡ every (proc_tidy closed) procs.now }
{
    for q in procs {
        if !proc_tidy(closed, q) {
            return false;
        }
    }
    true
}

// Every place that is not used is as it must be.
pub fn all_tidy(t: Table) -> bool
    requires { Ranged t }
    ensures { result ≡ tidy t }
{
    let tasks = usize::from(t.tasks);
    let sems = usize::from(t.sems);
    let queues = usize::from(t.queues);
    let procs = usize::from(t.procs);
    tasks_empty(&t.task[tasks..])
        && sems_empty(&t.sem[sems..])
        && queues_empty(&t.queue[queues..])
        && procs_empty(&t.proc[procs..])
        && blanks_fit(t.closed, &t.queue[..queues])
        && procs_tidy(t.closed, &t.proc[..procs])
}
