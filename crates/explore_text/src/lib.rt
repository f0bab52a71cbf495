// What the program `explore` prints for a text.

#![tactic(auto)]

ghost use Rattle.std.specs.Prelude.{◌≡◌};
ghost use Rattle.text.specs.Writer.{fault};
ghost use Rattle.put.specs.Put.{Put};
ghost use Rattle.exploring.specs.Program.{explore_text};
ghost use Rattle.explore_answer.specs.Ready.{Allowed};
ghost use Rattle.explore_text.specs.Text.{Prints};

use table::Table;

// The exploration of a closed table that has no fault, to a depth that is allowed: the length of the answer, which is printed unless the bound is met.
fn explore_ready(t: Table, depth: usize, bound: u64, out: &mut [u8]) -> Option<usize>
    requires { Allowed t depth }
    ensures { Prints t depth bound out.old out.new result }
{
    let task = t.task;
    let sem = t.sem;
    let mut marks = run_state::first(t.tasks, task, sem);
    let none = [0i32; 16];
    let mut cells = [none; 40];
    let no_row = [0u8; 12];
    let mut rows = [no_row; 24];
    let r = explorer::seek(t, depth, bound, &mut marks, &mut cells, &mut rows);
    if r.kind == 2 {
        return None;
    }
    let tried = bound - r.left;
    if r.kind == 0 {
        let len = explore_report::put_none(out, tried);
        return Some(len);
    }
    let a = run_state::answer(0, 0, 0, &marks, &cells);
    let s = a.state;
    let len = explore_report::put_found(out, t, &rows, r.steps, r.failed, tried, s);
    Some(len)
}

// The exploration of a table that has no fault.
pub fn explore_table(t: Table, depth: usize, bound: u64, out: &mut [u8]) -> Option<usize>
    requires { fault t ≡ 0 }
    ensures { Prints t depth bound out.old out.new result }
{
    if !t.closed {
        return Some(refusals::put_refused(out, 9, 0));
    }
    if 24 < depth {
        return Some(refusals::put_refused(out, 17, 0));
    }
    explore_ready(t, depth, bound, out)
}

// The answer for a text's table, or the refusal of the text: its bytes as far as the buffer reaches, and their number, at most 131,072.
pub fn explore_text(s: &[u8], depth: usize, bound: u64, out: &mut [u8]) -> usize
    ensures { Put 131072 out.old 0 (explore_text s.now depth bound) out.new result }
{
    let r = reader::read(s);
    if r.number != 0 {
        return refusals::put_refused(out, r.number, r.line);
    }
    let t = r.table;
    match explore_table(t, depth, bound, out) {
        Some(len) => len,
        None => refusals::put_refused(out, 18, 0),
    }
}
