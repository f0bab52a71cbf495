// The library: what a user calls. Each call first checks a hand-made table.

#![tactic(auto)]

ghost use Rattle.std.specs.Prelude.{◌≡◌};
ghost use Rattle.text.specs.Reader.{read};
ghost use Rattle.text.specs.Writer.{fault, write_to};
ghost use Rattle.machine.specs.State.{no_state};
ghost use Rattle.machine.specs.Run.{run};
ghost use Rattle.closing.specs.Close.{close, refusal};
ghost use Rattle.closing.specs.Program.{printed};
ghost use Rattle.exploring.specs.Explore.{explore};
ghost use Rattle.put.specs.Put.{Put};
ghost use Rattle.text.specs.Structure.{table_fault};
ghost use Rattle.faults.specs.FaultLaws.{judged};
ghost use Rattle.faults.specs.Checked.{number_of};

use closing::Closing;
use exploring::Exploring;
use machine::{Entries, Frame, Running, State};
use table::Table;
use text::{Fault, Reading, Writing};

fn refused(n: u8) -> Closing
    ensures { result ≡ refusal n }
{
    let table = reader::no_table();
    Closing {
        number: n,
        line: 0,
        table,
    }
}

// The closer's answer for a table that is checked.
fn close_checked(t: Table, checked: Result<(), Fault>) -> Closing
    requires { checked ≡ judged (table_fault t) }
    ensures { result ≡ close t }
{
    if let Err(f) = checked {
        return refused(codes::number(f));
    }
    if t.closed {
        return refused(9);
    }
    let table = closer::closed_table(t);
    Closing {
        number: 0,
        line: 0,
        table,
    }
}

// A state all 0.
fn no_state() -> State
    ensures { result ≡ no_state }
{
    let vars = [0i32; 16];
    let items = [0i32; 8];
    State {
        depth: [0; 4],
        lost: [false; 4],
        frames: [Frame {
            proc: 0,
            node: 0,
            vars,
        }; 32],
        sems: [0; 8],
        queues: [Entries { len: 0, items }; 8],
    }
}

// The runner's answer for a table that is checked.
fn run_checked(
    t: Table,
    checked: Result<(), Fault>,
    schedule: &[u8],
    values: &[i32],
    most: usize,
    log: &mut [u8],
) -> Running
    requires { checked ≡ judged (table_fault t) }
    ensures answer { result ≡ (run t schedule.now values.now most log.old).answer }
    ensures log { log.new ≡ (run t schedule.now values.now most log.old).log }
{
    if let Err(f) = checked {
        let state = no_state();
        return Running {
            steps: 0,
            used: 0,
            stop: codes::number(f),
            state,
        };
    }
    runner::run_valid(t, schedule, values, most, log)
}

// The explorer's answer for a table that is checked.
fn explore_checked(t: Table, checked: Result<(), Fault>, depth: usize, bound: u64) -> Exploring
    requires { checked ≡ judged (table_fault t) }
    ensures { result ≡ explore t depth bound }
{
    if let Err(f) = checked {
        return explore_answer::refused(codes::number(f));
    }
    if t.closed {
        if 24 < depth {
            return explore_answer::refused(17);
        }
        return explore_answer::explore_ready(t, depth, bound);
    }
    explore_answer::refused(9)
}

// The writer's answer for a table that is checked.
fn write_checked(t: Table, checked: Result<(), Fault>, out: &mut [u8]) -> Writing
    requires { checked ≡ judged (table_fault t) }
    ensures answer { result ≡ (write_to t out.old).answer }
    ensures buffer { out.new ≡ (write_to t out.old).buffer }
{
    if let Err(f) = checked {
        return Writing {
            number: codes::number(f),
            line: 0,
            len: 0,
        };
    }
    writer::write_ready(t, out)
}

// The first fault of a hand-made table, by the lines that it stands for.
pub fn check(t: Table) -> Result<(), Fault>
    ensures found { result ≡ judged (table_fault t) }
    ensures number { number_of result ≡ fault t }
{
    faults::fault(t)
}

// The table that a text says, or the number and line of its first fault with a table all 0.
pub fn read(s: &[u8]) -> Reading
    ensures { result ≡ read s.now }
{
    reader::read(s)
}

// Writes a table's text into a lent buffer.
pub fn write(t: Table, out: &mut [u8]) -> Writing
    ensures answer { result ≡ (write_to t out.old).answer }
    ensures buffer { out.new ≡ (write_to t out.old).buffer }
{
    write_checked(t, faults::fault(t), out)
}

// The closed table of an open one.
pub fn close(t: Table) -> Closing
    ensures { result ≡ close t }
{
    close_checked(t, faults::fault(t))
}

// Runs a schedule of task numbers, with a value list, the most dropped nodes per step and a log buffer.
pub fn run(t: Table, schedule: &[u8], values: &[i32], most: usize, log: &mut [u8]) -> Running
    ensures answer { result ≡ (run t schedule.now values.now most log.old).answer }
    ensures log { log.new ≡ (run t schedule.now values.now most log.old).log }
{
    run_checked(t, faults::fault(t), schedule, values, most, log)
}

// The first path of at most `depth` steps of a closed table that comes to a standstill or fails an assertion, in the order in which paths are tried, at most `bound` of them.
pub fn explore(t: Table, depth: usize, bound: u64) -> Exploring
    ensures { result ≡ explore t depth bound }
{
    explore_checked(t, faults::fault(t), depth, bound)
}

// What the closing program prints for a text: its bytes as far as the buffer reaches, and their number, at most 65,536.
pub fn close_text(s: &[u8], out: &mut [u8]) -> usize
    ensures { Put 65536 out.old 0 (printed s.now) out.new result }
{
    closed_text::close_text(s, out)
}
