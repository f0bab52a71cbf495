// The lines of a text before its node lines, each read at a place.

#![tactic(auto)]

ghost use Rattle.std.specs.Prelude.{◌≤◌, ◌<◌, length, true, false};
ghost use Rattle.text.specs.Format.{head_line, counts_line, task_line, sem_line, blank_field, task_of, sem_of};
ghost use Rattle.fields.specs.Answer.{LineAt};
ghost use Rattle.records.specs.Answer.{form_of, counts_of, last_counts, counted, CountsAt, QueueAt, capped, Sized, DropAt, SizesAt, ProcAt};

use text::Fault;

// The counts of a table's tasks, procedures, semaphores and queues.
#[derive(Clone, Copy)]
pub struct Counts {
    pub tasks: u8,
    pub procs: u8,
    pub sems: u8,
    pub queues: u8,
}

// What a procedure line says.
#[derive(Clone, Copy)]
pub struct ProcHead {
    pub params: u8,
    pub vars: u8,
    pub nodes: u8,
    pub drop: u8,
}

// ---- the lines before the procedures

// `trap=1 form=open` (or `closed`)
pub fn head_line(s: &[u8], at: usize) -> Result<((u8, bool), usize), Fault>
    requires { at ≤ length s.now }
    ensures { LineAt head_line form_of s.now at result }
{
    let (n, a) = numbers::number_field(s, at, b"trap=", 1, 2, Fault::Range)?;
    let (closed, b) = words::choice_field(s, a, b" form=", b"open", b"closed")?;
    let e = scan::feed(s, b)?;
    Ok(((n, closed), e))
}

// What stands behind the counts of tasks and procedures.
fn last_counts(s: &[u8], at: usize, tasks: u8, procs: u8) -> Result<(Counts, usize), Fault>
    requires { (at ≤ length s.now) × (tasks < 5) × (procs < 9) }
    ensures { CountsAt last_counts (counted tasks procs) s.now at result }
{
    let (sems, a) = numbers::number_field(s, at, b" sems=", 0, 9, Fault::Range)?;
    let (queues, b) = numbers::number_field(s, a, b" queues=", 0, 9, Fault::Range)?;
    let e = scan::feed(s, b)?;
    let counts = Counts {
        tasks,
        procs,
        sems,
        queues,
    };
    Ok((counts, e))
}

// `tasks=k procs=p sems=s queues=q`
pub fn counts_line(s: &[u8], at: usize) -> Result<(Counts, usize), Fault>
    requires { at ≤ length s.now }
    ensures { CountsAt counts_line counts_of s.now at result }
{
    let (tasks, a) = numbers::number_field(s, at, b"tasks=", 1, 5, Fault::Range)?;
    let (procs, b) = numbers::number_field(s, a, b" procs=", 1, 9, Fault::Range)?;
    last_counts(s, b, tasks, procs)
}

// `task=i top=p`
pub fn task_line(s: &[u8], at: usize, i: u64, procs: u64) -> Result<(table::Task, usize), Fault>
    requires { (at ≤ length s.now) × (i < 4) × (procs ≤ 8) }
    ensures { LineAt (task_line procs i) (task_of procs i) s.now at result }
{
    let (_, a) = numbers::number_field(s, at, b"task=", i, i + 1, Fault::Index)?;
    let (p, b) = numbers::number_field(s, a, b" top=", 0, procs, Fault::Reference)?;
    let e = scan::feed(s, b)?;
    Ok((table::Task { top: p }, e))
}

// `sem=i count=c`
pub fn sem_line(s: &[u8], at: usize, i: u64) -> Result<(table::Sem, usize), Fault>
    requires { (at ≤ length s.now) × (i < 8) }
    ensures { LineAt (sem_line i) (sem_of i) s.now at result }
{
    let (_, a) = numbers::number_field(s, at, b"sem=", i, i + 1, Fault::Index)?;
    let (n, b) = numbers::number_field(s, a, b" count=", 0, 256, Fault::Range)?;
    let e = scan::feed(s, b)?;
    Ok((table::Sem { count: n }, e))
}

fn open_queue(s: &[u8], at: usize, cap: u8) -> Result<(table::Queue, usize), Fault>
    requires { at ≤ length s.now }
    ensures { LineAt (blank_field false) (capped false cap) s.now at result }
{
    let e = scan::feed(s, at)?;
    Ok((table::Queue { cap, blank: false }, e))
}

// In closed form also `blank=yes` or `no`.
fn closed_queue(s: &[u8], at: usize, cap: u8) -> Result<(table::Queue, usize), Fault>
    requires { at ≤ length s.now }
    ensures { LineAt (blank_field true) (capped true cap) s.now at result }
{
    let (blank, a) = words::choice_field(s, at, b" blank=", b"no", b"yes")?;
    let e = scan::feed(s, a)?;
    Ok((table::Queue { cap, blank }, e))
}

// `queue=i cap=c`
pub fn queue_line(s: &[u8], at: usize, closed: bool, i: u64) -> Result<(table::Queue, usize), Fault>
    requires { (at ≤ length s.now) × (i < 8) }
    ensures { QueueAt closed i s.now at result }
{
    let (_, a) = numbers::number_field(s, at, b"queue=", i, i + 1, Fault::Index)?;
    let (cap, b) = numbers::number_field(s, a, b" cap=", 1, 9, Fault::Range)?;
    if closed {
        return closed_queue(s, b, cap);
    }
    open_queue(s, b, cap)
}

// ---- procedure lines

fn open_proc(
    s: &[u8],
    at: usize,
    params: u8,
    vars: u8,
    nodes: u8,
) -> Result<(ProcHead, usize), Fault>
    requires { (at ≤ length s.now) × Sized params vars nodes }
    ensures { DropAt false params vars nodes s.now at result }
{
    let e = scan::feed(s, at)?;
    let head = ProcHead {
        params,
        vars,
        nodes,
        drop: 0,
    };
    Ok((head, e))
}

// Closed form adds `drop=` and a list of parameters.
fn closed_proc(
    s: &[u8],
    at: usize,
    params: u8,
    vars: u8,
    nodes: u8,
) -> Result<(ProcHead, usize), Fault>
    requires { (at ≤ length s.now) × Sized params vars nodes }
    ensures { DropAt true params vars nodes s.now at result }
{
    let (drop, a) = lists::ascending_field(s, at, b" drop=", false, 0, params as u64)?;
    let e = scan::feed(s, a)?;
    let head = ProcHead {
        params,
        vars,
        nodes,
        drop: drop as u8,
    };
    Ok((head, e))
}

// What stands behind the count of parameters.
fn proc_sizes(s: &[u8], at: usize, closed: bool, params: u8) -> Result<(ProcHead, usize), Fault>
    requires { (at ≤ length s.now) × (params < 5) }
    ensures { SizesAt closed params s.now at result }
{
    let (vars, a) = numbers::number_field(s, at, b" vars=", params as u64, 17, Fault::Range)?;
    let (nodes, b) = numbers::number_field(s, a, b" nodes=", 2, 33, Fault::Range)?;
    if closed {
        return closed_proc(s, b, params, vars, nodes);
    }
    open_proc(s, b, params, vars, nodes)
}

// `proc=i params=k vars=m nodes=n`
pub fn proc_line(s: &[u8], at: usize, closed: bool, i: u64) -> Result<(ProcHead, usize), Fault>
    requires { (at ≤ length s.now) × (i < 8) }
    ensures { ProcAt closed i s.now at result }
{
    let (_, a) = numbers::number_field(s, at, b"proc=", i, i + 1, Fault::Index)?;
    let (params, b) = numbers::number_field(s, a, b" params=", 0, 5, Fault::Range)?;
    proc_sizes(s, b, closed, params)
}
