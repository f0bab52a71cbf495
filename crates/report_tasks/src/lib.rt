// The lines of a state's tasks and their frames, written into a lent buffer. Each function writes at a place, as far as the buffer reaches,
// and gives the place after what it wrote.

#![tactic(auto)]

ghost use Rattle.std.specs.Prelude.{◌≡◌, ◌++◌, ◌*◌, ◌≤◌, ◌<◌, get_or};
ghost use Rattle.text.specs.Reader.{concat_from};
ghost use Rattle.put.specs.Put.{Put, LinesAt};
ghost use Rattle.machine.specs.Report.{frame_line, task_line};
ghost use Rattle.report_tasks.specs.Rows.{VariableCounts, frame_row, task_row, Few};

use machine::Frame;
use put::{put_rows, put_text};
use put_fields::put_count;
use report_values::put_values_line;
use table::Proc;

// How many variables each procedure has.
pub fn variable_counts(procs: [Proc; 8]) -> [u8; 8]
    ensures { VariableCounts procs result }
{
    let mut counts = [0u8; 8];
    for (i, q) in procs.iter().enumerate() {
        counts[i] = q.vars;
    }
    counts
}

// How many variables procedure p has, 0 past the last.
fn count_at(counts: [u8; 8], p: u8) -> u8
    ensures { result ≡ get_or counts p 0 }
{
    counts.get(p as usize).copied().unwrap_or(0)
}

fn put_frame_line(out: &mut [u8], at: usize, j: u8, f: Frame, n: u8) -> usize
    requires { LinesAt at }
    ensures { Put 3110 out.old at (frame_line j f n) out.new result }
{
    let a = put_count(out, at, b"frame=", j);
    let b = put_count(out, a, b" proc=", f.proc);
    let c = put_count(out, b, b" node=", f.node);
    put_values_line(out, c, b" vars=", &f.vars, n)
}

fn put_task_line(out: &mut [u8], at: usize, k: u8, n: u8, lost: bool) -> usize
    requires { LinesAt at }
    ensures { Put 40 out.old at (task_line k n lost) out.new result }
{
    let a = put_count(out, at, b"task=", k);
    let b = put_count(out, a, b" frames=", n);
    if lost {
        return put_text(out, b, b" lost=yes\n");
    }
    put_text(out, b, b" lost=no\n")
}

// A task's line and its frames.
fn put_task(
    out: &mut [u8],
    at: usize,
    k: u8,
    n: u8,
    lost: bool,
    frames: [Frame; 32],
    counts: [u8; 8],
) -> usize
    requires { (at ≤ 700000000) × (k < 4) × (n ≤ 8) }
    ensures { Put 24920 out.old at (task_line k n lost ++ concat_from (frame_row frames counts k) n 0) out.new result }
{
    let a = put_task_line(out, at, k, n, lost);
    put_rows::<3110, _>(out, a, n as usize, |out, at, j| {
        let f = frames[8 * (k as usize) + j];
        put_frame_line(out, at, j as u8, f, count_at(counts, f.proc))
    })
}

// The lines of the first n tasks.
pub fn put_tasks(
    out: &mut [u8],
    at: usize,
    n: u8,
    depth: [u8; 4],
    lost: [bool; 4],
    frames: [Frame; 32],
    counts: [u8; 8],
) -> usize
    requires { (at ≤ 600000000) × (n ≤ 4) × (Few depth) }
    ensures { Put (24920 * n) out.old at (concat_from (task_row depth lost frames counts) n 0) out.new result }
{
    put_rows::<24920, _>(out, at, n as usize, |out, at, k| {
        put_task(out, at, k as u8, depth[k], lost[k], frames, counts)
    })
}
