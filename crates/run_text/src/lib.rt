// A text's run over a schedule of task numbers, with a value list, the most dropped nodes per step and a log buffer.

#![tactic(auto)]

ghost use Rattle.std.specs.Prelude.{◌≡◌, ◌≤◌, min, length};
ghost use Rattle.text.specs.Writer.{fault};
ghost use Rattle.machine.specs.Run.{run};
ghost use Rattle.put.specs.Put.{Put};
ghost use Rattle.run_text.specs.Text.{run_report, PartRun, TextRun};

use table::Table;

// The report of a run of a table that has no fault.
fn run_table(
    t: Table,
    schedule: &[u8],
    values: &[i32],
    most: usize,
    log: &mut [u8],
    out: &mut [u8],
) -> usize
    requires { (0 ≡ fault t) × (length log.old ≤ 800000) }
    ensures printed { Put 5925000 out.old 0 (run_report t schedule.now values.now most log.old) out.new result }
    ensures log { log.new ≡ (run t schedule.now values.now most log.old).log }
{
    let r = runner::run_valid(t, schedule, values, most, log);
    report::put_report(out, t, r, log)
}

// The same with the first n bytes of a log buffer.
fn run_part(
    t: Table,
    schedule: &[u8],
    values: &[i32],
    most: usize,
    log: &mut [u8],
    n: usize,
    out: &mut [u8],
) -> usize
    requires { (0 ≡ fault t) × (n ≤ length log.old) × (n ≤ 800000) }
    ensures { PartRun t schedule.now values.now most n log.old log.new out.old out.new result }
{
    run_table(t, schedule, values, most, &mut log[..n], out)
}

// How many of a log buffer's bytes are used.
fn used(len: usize) -> usize
    ensures { result ≡ min len 800000 }
{
    if len < 800000 {
        return len;
    }
    800000
}

// The report of a text's run, or the refusal of the text. Of the log buffer the first 800,000 bytes are used.
pub fn run_text(
    s: &[u8],
    schedule: &[u8],
    values: &[i32],
    most: usize,
    log: &mut [u8],
    out: &mut [u8],
) -> usize
    ensures { TextRun s.now schedule.now values.now most log.old log.new out.old out.new result }
{
    let r = reader::read(s);
    if r.number != 0 {
        return refusals::put_refused(out, r.number, r.line);
    }
    let t = r.table;
    let n = used(log.len());
    run_part(t, schedule, values, most, log, n, out)
}
