// The reader moves over a lent text one line after another. Each function is thin: it takes the reader apart and calls a function of `records` or
// `nodes` on the slice and the number.

#![tactic(auto)]

ghost use Rattle.std.specs.Prelude.{◌≤◌, ◌<◌, ◌≡◌, length};
ghost use Rattle.text.specs.Format.{head_line, counts_line, task_line, sem_line, task_of, sem_of};
ghost use Rattle.fields.specs.Answer.{LineAt};
ghost use Rattle.records.specs.Answer.{form_of, counts_of, CountsAt, QueueAt, ProcAt};
ghost use Rattle.nodes.specs.Answer.{scope_in, Fits, NodeAt};

use records::{Counts, ProcHead};
use table::{Queue, Sem, Task};
use text::Fault;

// The lent text and the position reached in it.
#[derive(Clone, Copy)]
pub struct LineReader<'a> {
    pub text: &'a [u8],
    pub at: usize,
}

// A reader that has reached a position.
pub fn new<'a>(text: &'a [u8], at: usize) -> LineReader<'a>
    ensures { (result.text ≡ text.entry) × (result.at ≡ at) }
{
    LineReader { text, at }
}

// ---- the line that stands at the position reached, of each kind

pub fn head<'a>(r: LineReader<'a>) -> Result<((u8, bool), usize), Fault>
    requires { r.at ≤ length r.text.now }
    ensures { LineAt head_line form_of r.entry.text.now r.entry.at result }
{
    records::head_line(r.text, r.at)
}

pub fn counts<'a>(r: LineReader<'a>) -> Result<(Counts, usize), Fault>
    requires { r.at ≤ length r.text.now }
    ensures { CountsAt counts_line counts_of r.entry.text.now r.entry.at result }
{
    records::counts_line(r.text, r.at)
}

pub fn task<'a>(r: LineReader<'a>, i: u64, procs: u64) -> Result<(Task, usize), Fault>
    requires { (r.at ≤ length r.text.now) × (i < 4) × (procs ≤ 8) }
    ensures { LineAt (task_line procs i) (task_of procs i) r.entry.text.now r.entry.at result }
{
    records::task_line(r.text, r.at, i, procs)
}

pub fn sem<'a>(r: LineReader<'a>, i: u64) -> Result<(Sem, usize), Fault>
    requires { (r.at ≤ length r.text.now) × (i < 8) }
    ensures { LineAt (sem_line i) (sem_of i) r.entry.text.now r.entry.at result }
{
    records::sem_line(r.text, r.at, i)
}

pub fn queue<'a>(r: LineReader<'a>, closed: bool, i: u64) -> Result<(Queue, usize), Fault>
    requires { (r.at ≤ length r.text.now) × (i < 8) }
    ensures { QueueAt closed i r.entry.text.now r.entry.at result }
{
    records::queue_line(r.text, r.at, closed, i)
}

pub fn proc<'a>(r: LineReader<'a>, closed: bool, i: u64) -> Result<(ProcHead, usize), Fault>
    requires { (r.at ≤ length r.text.now) × (i < 8) }
    ensures { ProcAt closed i r.entry.text.now r.entry.at result }
{
    records::proc_line(r.text, r.at, closed, i)
}

pub fn node<'a>(r: LineReader<'a>, line: usize, c: nodes::Scope, lo: u64, below: u64) -> nodes::Line
    requires { (r.at ≤ length r.text.now) × Fits c × (below ≤ 32) }
    ensures { NodeAt (scope_in c) lo below r.entry.text.now r.entry.at line result }
{
    nodes::node_line(r.text, r.at, line, c, lo, below)
}

// ---- the same for a caller that holds a text and a place

pub fn next_head(s: &[u8], at: usize) -> Result<((u8, bool), usize), Fault>
    requires { at ≤ length s.now }
    ensures { LineAt head_line form_of s.now at result }
{
    head(new(s, at))
}

pub fn next_counts(s: &[u8], at: usize) -> Result<(Counts, usize), Fault>
    requires { at ≤ length s.now }
    ensures { CountsAt counts_line counts_of s.now at result }
{
    counts(new(s, at))
}

pub fn next_task(s: &[u8], at: usize, i: u64, procs: u64) -> Result<(Task, usize), Fault>
    requires { (at ≤ length s.now) × (i < 4) × (procs ≤ 8) }
    ensures { LineAt (task_line procs i) (task_of procs i) s.now at result }
{
    task(new(s, at), i, procs)
}

pub fn next_sem(s: &[u8], at: usize, i: u64) -> Result<(Sem, usize), Fault>
    requires { (at ≤ length s.now) × (i < 8) }
    ensures { LineAt (sem_line i) (sem_of i) s.now at result }
{
    sem(new(s, at), i)
}

pub fn next_queue(s: &[u8], at: usize, closed: bool, i: u64) -> Result<(Queue, usize), Fault>
    requires { (at ≤ length s.now) × (i < 8) }
    ensures { QueueAt closed i s.now at result }
{
    queue(new(s, at), closed, i)
}

pub fn next_proc(s: &[u8], at: usize, closed: bool, i: u64) -> Result<(ProcHead, usize), Fault>
    requires { (at ≤ length s.now) × (i < 8) }
    ensures { ProcAt closed i s.now at result }
{
    proc(new(s, at), closed, i)
}

pub fn next_node(
    s: &[u8],
    at: usize,
    line: usize,
    c: nodes::Scope,
    lo: u64,
    below: u64,
) -> nodes::Line
    requires { (at ≤ length s.now) × Fits c × (below ≤ 32) }
    ensures { NodeAt (scope_in c) lo below s.now at line result }
{
    node(new(s, at), line, c, lo, below)
}
