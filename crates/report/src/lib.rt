// The report of a run, written into a lent buffer. Each function writes at a place, as far as the buffer reaches, and gives the place after
// what it wrote: on an empty buffer it measures.

#![tactic(auto)]

ghost use Rattle.std.specs.Prelude.{◌≤◌};
ghost use Rattle.put.specs.Put.{Put, LinesAt};
ghost use Rattle.machine.specs.Report.{answer_line, queue_line, state_lines, report};
ghost use Rattle.report.specs.Rows.{Shown, Reportable};

use lines::put_pair_line;
use machine::{Entries, Running, State};
use put::{put_byte, put_rows};
use put_fields::{put_count, put_size};
use report_steps::put_steps;
use report_tasks::{put_tasks, variable_counts};
use report_values::put_values_line;
use table::Table;

fn put_answer_line(out: &mut [u8], at: usize, r: Running) -> usize
    requires { LinesAt at }
    ensures { Put 70 out.old at (answer_line r) out.new result }
{
    let a = put_size(out, at, b"steps=", r.steps);
    let b = put_size(out, a, b" used=", r.used);
    let c = put_count(out, b, b" stop=", r.stop);
    put_byte(out, c, b'\n')
}

fn put_queue_line(out: &mut [u8], at: usize, i: u8, x: Entries) -> usize
    requires { LinesAt at }
    ensures { Put 3090 out.old at (queue_line i x) out.new result }
{
    let a = put_count(out, at, b"queue=", i);
    put_values_line(out, a, b" entries=", &x.items, x.len)
}

// A state: its tasks, semaphores and queues.
pub fn put_state(out: &mut [u8], at: usize, t: Table, s: State) -> usize
    requires { (at ≤ 600000000) × Shown t s }
    ensures { Put 124720 out.old at (state_lines t s) out.new result }
{
    let counts = variable_counts(t.proc);
    let a = put_tasks(out, at, t.tasks, s.depth, s.lost, s.frames, counts);
    let b = put_rows::<40, _>(out, a, t.sems as usize, |out, at, i| {
        put_pair_line(out, at, b"sem=", i as u8, b" count=", s.sems[i])
    });
    put_rows::<3090, _>(out, b, t.queues as usize, |out, at, i| {
        put_queue_line(out, at, i as u8, s.queues[i])
    })
}

// The report of a run, from the buffer's start.
pub fn put_report(out: &mut [u8], t: Table, r: Running, log: &[u8]) -> usize
    requires { Reportable t r log.now }
    ensures { Put 5925000 out.old 0 (report t r log.now) out.new result }
{
    let a = put_answer_line(out, 0, r);
    let b = put_steps(out, a, log, r.steps);
    put_state(out, b, t, r.state)
}
