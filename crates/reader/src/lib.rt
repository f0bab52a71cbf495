// A whole text, read in one pass.

#![tactic(auto)]

ghost use Rattle.std.specs.Prelude.{◌≤◌, ◌≡◌, length};
ghost use Rattle.table.specs.Table.{no_table};
ghost use Rattle.text.specs.Reader.{table, bad, reading, read};
ghost use Rattle.records.specs.Answer.{Counted};
ghost use Rattle.rows.specs.Rows.{LinesAt};
ghost use Rattle.reader.specs.Answer.{object_rows, FrontAt, answered};

use late_nodes::{Callee, Terms};
use records::Counts;
use rows::{Reached, Refusal};
use table::{Node, Proc, Queue, Sem, Slot, Table, Task};
use text::{Fault, Reading};

// A table all 0, for any k. It is stored into at two computed places: so it is made and copied in one piece and not slot by slot.
fn blank_table(k: usize) -> Table
    ensures { result ≡ no_table }
{
    let mut slots = [Slot { node: Node::Absent }; 32];
    let j = k % 32;
    slots[j] = Slot { node: Node::Absent };
    let mut table = Table {
        trap: 0,
        closed: false,
        tasks: 0,
        procs: 0,
        sems: 0,
        queues: 0,
        task: [Task { top: 0 }; 4],
        sem: [Sem { count: 0 }; 8],
        queue: [Queue {
            cap: 0,
            blank: false,
        }; 8],
        proc: [Proc {
            params: 0,
            vars: 0,
            nodes: 0,
            drop: 0,
            slots,
        }; 8],
    };
    let i = k % 4;
    table.task[i] = Task { top: 0 };
    table
}

// A table all 0.
pub fn no_table() -> Table
    ensures { result ≡ no_table }
{
    blank_table(0)
}

// The tasks, semaphores and queues.
#[derive(Clone, Copy)]
struct Objects {
    task: [Task; 4],
    sem: [Sem; 8],
    queue: [Queue; 8],
}

// What stands before the procedures.
#[derive(Clone, Copy)]
struct Front {
    trap: u8,
    closed: bool,
    counts: Counts,
    objects: Objects,
}

// The lines of tasks, semaphores and queues.
fn object_rows(
    s: &[u8],
    at: usize,
    line: usize,
    closed: bool,
    counts: Counts,
) -> Result<(Objects, Reached), Refusal>
    requires { (at ≤ length s.now) × Counted counts × (line ≤ 3) }
    ensures { LinesAt (object_rows closed counts) 20 s.now at line result }
{
    let (task, a) = rows::task_rows(s, at, line, counts.tasks as usize, counts.procs as u64)?;
    let (sem, b) = rows::sem_rows(s, a.at, a.line, counts.sems as usize)?;
    let (queue, end) = rows::queue_rows(s, b.at, b.line, counts.queues as usize, closed)?;
    Ok((Objects { task, sem, queue }, end))
}

// The lines before the procedures.
fn front_rows(s: &[u8]) -> Result<(Front, Reached), Refusal>
    ensures { FrontAt s.now (answered (table 1 s.now)) result }
{
    let ((trap, closed), a) = line_reader::next_head(s, 0).map_err(|fault| Refusal {
        fault,
        line: 1,
    })?;
    let (counts, b) = line_reader::next_counts(s, a).map_err(|fault| Refusal { fault, line: 2 })?;
    let (objects, end) = object_rows(s, b, 3, closed, counts)?;
    Ok((
        Front {
            trap,
            closed,
            counts,
            objects,
        },
        end,
    ))
}

// The same of any bytes.
fn front_of(s: &[u8]) -> Result<(Front, Reached), Refusal>
    ensures { FrontAt s.now (read s.now) result }
{
    if s.len() > 65536 {
        return Err(Refusal {
            fault: Fault::Long,
            line: 0,
        });
    }
    front_rows(s)
}

// The answer where a fault was found.
fn refused(f: Fault, line: usize) -> Reading
    ensures { result ≡ reading (bad f line) }
{
    Reading {
        number: codes::number(f),
        line,
        table: blank_table(line),
    }
}

// Any bytes: the table, or the number and line of the first fault with a table all 0. The table is filled in its place, late faults
// are looked for procedure by procedure, and a refusal has a local of its own, so that the table is copied once only, into the answer:
// so faults are not handed on by `?` from a function that fills the table.
pub fn read(s: &[u8]) -> Reading
    ensures { result ≡ read s.now }
{
    let (front, start) = match front_of(s) {
        Ok(read) => read,
        Err(r) => {
            let bad = refused(r.fault, r.line);
            return bad;
        }
    };
    let counts = front.counts;
    let objects = front.objects;
    let task = objects.task;
    let sem = objects.sem;
    let queue = objects.queue;
    let none = procs::empty_proc();
    let mut table = Table {
        trap: front.trap,
        closed: front.closed,
        tasks: counts.tasks,
        procs: counts.procs,
        sems: counts.sems,
        queues: counts.queues,
        task,
        sem,
        queue,
        proc: [none; 8],
    };
    let mut callee = [Callee { params: 0, drop: 0 }; 8];
    let n = counts.procs as usize;
    let mut p = start.at;
    let mut l = start.line;
    for i in 0..n {
        match procs::proc_row(s, p, l, front.closed, counts, i as u64) {
            Ok((q, reached)) => {
                table.proc[i] = q;
                callee[i] = Callee {
                    params: q.params,
                    drop: q.drop,
                };
                p = reached.at;
                l = reached.line;
            }
            Err(r) => {
                let bad = refused(r.fault, r.line);
                return bad;
            }
        }
    }
    if p < s.len() {
        let bad = refused(Fault::Ended, l);
        return bad;
    }
    let terms = Terms {
        closed: front.closed,
        callee,
        queue,
    };
    let behind = match late_lines::tasks(task, counts.tasks, terms) {
        Ok(line) => line,
        Err(late) => {
            let bad = refused(late.fault, late.line);
            return bad;
        }
    };
    let mut k = behind + counts.sems as usize + counts.queues as usize;
    for i in 0..n {
        let q = table.proc[i];
        match late_lines::proc_at(q, terms, k) {
            Ok(line) => k = line,
            Err(late) => {
                let bad = refused(late.fault, late.line);
                return bad;
            }
        }
    }
    Reading {
        number: 0,
        line: 0,
        table,
    }
}
