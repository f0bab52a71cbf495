// Callers of the library, which get what the theorems of `promise` say of its calls. They ask nothing of their callers.

#![tactic(auto)]

ghost use Rattle.std.specs.Prelude.{◌≡◌};
ghost use Rattle.table.specs.Table.{no_table};
ghost use Rattle.text.specs.Writer.{write_to};
ghost use Rattle.closing.specs.Close.{close};
ghost use Rattle.machine.specs.Run.{run};
ghost use Rattle.callers.specs.WrittenAndRead.{written_and_read};
ghost use Rattle.callers.specs.SideBySide.{beside_of, Agrees};
ghost use Rattle.callers.specs.LineTwo.{sheet_of, Clears};

use exploring::Exploring;
use machine::Running;
use table::Table;
use text::Reading;

// The number of a refusal, with a table all 0.
fn refused(number: u8) -> Reading
    ensures { result ≡ record { number = number; line = 0; table = no_table } }
{
    let none = bufshani::read(b"");
    let table = none.table;
    Reading {
        number,
        line: 0,
        table,
    }
}

// Writes a table into a lent buffer and reads it back: the table itself, or the writer's refusal.
pub fn written_and_read(t: Table, out: &mut [u8]) -> Reading
    ensures answer { result ≡ written_and_read t out.old }
    ensures buffer { out.new ≡ (write_to t out.old).buffer }
{
    let w = bufshani::write(t, out);
    if w.number != 0 {
        return refused(w.number);
    }
    let n = w.len;
    bufshani::read(&out[..n])
}

// The closer's number, and the runs of a table and of its closed one.
#[derive(Clone, Copy)]
pub struct Beside {
    pub number: u8,
    pub original: Running,
    pub closed: Running,
}

// Closes a table and runs both over one schedule: the table with inputs, `most` and `log`, the closed one with tosses, `most2` and `log2`. Where the closer
// refuses, its table is all 0.
pub fn side_by_side(
    t: Table,
    schedule: &[u8],
    inputs: &[i32],
    tosses: &[i32],
    most: usize,
    most2: usize,
    log: &mut [u8],
    log2: &mut [u8],
) -> Beside
    ensures answer { result ≡ beside_of t schedule.now inputs.now tosses.now most most2 log.old log2.old }
    ensures log { log.new ≡ (run t schedule.now inputs.now most log.old).log }
    ensures log2 { log2.new ≡ (run (close t).table schedule.now tosses.now most2 log2.old).log }
    ensures demand_3 { Agrees t schedule.now inputs.now tosses.now most log.old log2.old result log.new log2.new }
{
    let c = bufshani::close(t);
    let original = bufshani::run(t, schedule, inputs, most, log);
    let table = c.table;
    let closed = bufshani::run(table, schedule, tosses, most2, log2);
    Beside {
        number: c.number,
        original,
        closed,
    }
}

// The closer's number, and what the explorer answers of the closed table.
#[derive(Clone, Copy)]
pub struct Sheet {
    pub number: u8,
    pub explored: Exploring,
}

// Closes a table and explores the closed one. Where nothing is found, no run of the open table of at most `depth` steps comes to a standstill or fails an
// assertion that keeps its variable.
pub fn line_two(t: Table, depth: usize, bound: u64) -> Sheet
    ensures answer { result ≡ sheet_of t depth bound }
    ensures line_2 { Clears t depth result }
{
    let c = bufshani::close(t);
    let table = c.table;
    let explored = bufshani::explore(table, depth, bound);
    Sheet {
        number: c.number,
        explored,
    }
}
