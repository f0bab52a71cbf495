// The lines of a text, group by group.

#![tactic(auto)]

ghost use Rattle.std.specs.Prelude.{ℕ, ◌≤◌, ◌<◌, length, replicate, IfOk};
ghost use Rattle.table.specs.Table.{no_task, no_sem, no_queue};
ghost use Rattle.text.specs.Line.{Parser};
ghost use Rattle.text.specs.Reader.{rows, task_row, sem_row, queue_row};
ghost use Rattle.rows.specs.Rows.{RowAt, LinesAt};

use table::{Queue, Sem, Task};
use text::Fault;

// Where the text goes on after some lines, and on which line.
#[derive(Clone, Copy)]
pub struct Reached {
    pub at: usize,
    pub line: usize,
}

// The first fault of some lines, and its line.
#[derive(Clone, Copy)]
pub struct Refusal {
    pub fault: Fault,
    pub line: usize,
}

// n lines, the i-th read at a place p by `row(p, i)` and put into place i.
fn rows<T: Copy, const N: usize, F: Fn(usize, usize) -> Result<(T, usize), Fault>>(
    s: &[u8],
    at: usize,
    line: usize,
    n: usize,
    none: T,
    row: F,
) -> Result<([T; N], Reached), Refusal>
    requires sizes { (at ≤ length s.now) × (n ≤ N) × (N ≤ 8) × (line ≤ 1000) }
    requires calls { (p i : ℕ) → p ≤ length s.now → i < n → F.pre row p i }
    requires within { (p i : ℕ) (r : _) → p ≤ length s.now → i < n → F.post row p i r → IfOk r (λ a. a.1 ≤ length s.now) }
    ensures { (f : ℕ → Parser T) → ((p i : ℕ) (r : _) → p ≤ length s.now → i < n → F.post row p i r → RowAt (f i) s.now p r) → LinesAt (rows f n 0 (replicate N none)) N s.now at line result }
{
    let mut places = [none; N];
    let mut p = at;
    let mut l = line;
    for i in 0..n {
        let (x, e) = row(p, i).map_err(|fault| Refusal { fault, line: l })?;
        places[i] = x;
        p = e;
        l += 1;
    }
    Ok((places, Reached { at: p, line: l }))
}

pub fn task_rows(
    s: &[u8],
    at: usize,
    line: usize,
    n: usize,
    procs: u64,
) -> Result<([Task; 4], Reached), Refusal>
    requires { (at ≤ length s.now) × (n ≤ 4) × (procs ≤ 8) × (line ≤ 1000) }
    ensures { LinesAt (rows (task_row procs) n 0 (replicate 4 no_task)) 4 s.now at line result }
{
    let none = Task { top: 0 };
    rows(
        s,
        at,
        line,
        n,
        none,
        |p, i| line_reader::next_task(s, p, i as u64, procs),
    )
}

pub fn sem_rows(s: &[u8], at: usize, line: usize, n: usize) -> Result<([Sem; 8], Reached), Refusal>
    requires { (at ≤ length s.now) × (n ≤ 8) × (line ≤ 1000) }
    ensures { LinesAt (rows sem_row n 0 (replicate 8 no_sem)) 8 s.now at line result }
{
    let none = Sem { count: 0 };
    rows(
        s,
        at,
        line,
        n,
        none,
        |p, i| line_reader::next_sem(s, p, i as u64),
    )
}

pub fn queue_rows(
    s: &[u8],
    at: usize,
    line: usize,
    n: usize,
    closed: bool,
) -> Result<([Queue; 8], Reached), Refusal>
    requires { (at ≤ length s.now) × (n ≤ 8) × (line ≤ 1000) }
    ensures { LinesAt (rows (queue_row closed) n 0 (replicate 8 no_queue)) 8 s.now at line result }
{
    let none = Queue {
        cap: 0,
        blank: false,
    };
    rows(
        s,
        at,
        line,
        n,
        none,
        |p, i| line_reader::next_queue(s, p, closed, i as u64),
    )
}
