// The lines of a run's steps, written from its log into a lent buffer. Each function writes at a place, as far as the buffer reaches, and
// gives the place after what it wrote.

#![tactic(auto)]

ghost use Rattle.std.specs.Prelude.{◌≡◌, ◌++◌, ℕ, ◌+◌, ◌*◌, ◌≤◌, ◌<◌, length};
ghost use Rattle.text.specs.Number.{bytes};
ghost use Rattle.text.specs.Reader.{concat_from};
ghost use Rattle.put.specs.Put.{Put, LinesAt};
ghost use Rattle.machine.specs.Report.{spell_value, logged_value, step_fields, step_line};
ghost use Rattle.report_steps.specs.Entries.{Entered};

use put::{put_byte, put_rows, put_text};
use put_fields::{put_constant, put_count, put_size};

// Four bytes, lowest first.
fn word(a: u8, b: u8, c: u8, d: u8) -> u32
    ensures { result ≡ a + 256 * b + 65536 * c + 16777216 * d }
{
    (a as u32) + 256 * (b as u32) + 65536 * (c as u32) + 16777216 * (d as u32)
}

// The value of the log's entry i.
fn logged_value(log: &[u8], i: usize) -> i32
    requires { 8 * i + 8 ≤ length log.now }
    ensures { result ≡ logged_value log.now i }
{
    let k = 8 * i;
    let w = word(log[k + 4], log[k + 5], log[k + 6], log[k + 7]);
    values::of_bits(w)
}

// A step's value.
fn put_value(out: &mut [u8], at: usize, v: i32) -> usize
    requires { at ≤ 940000000 }
    ensures { Put 18 out.old at (bytes " value=" ++ spell_value v) out.new result }
{
    let a = put_text(out, at, b" value=");
    put_constant(out, a, v)
}

// Step i without its line's end, as the log's entry j has it.
pub fn put_step_fields(out: &mut [u8], at: usize, i: usize, log: &[u8], j: usize) -> usize
    requires { (LinesAt at) × (8 * j + 8 ≤ length log.now) × (i < 100000) }
    ensures printed { Put 64 out.old at (step_fields i log.now j) out.new result }
    ensures short { Entered log.now j → length (step_fields i log.now j) ≤ 57 }
{
    let k = 8 * j;
    let a = put_size(out, at, b"step=", i);
    let b = put_count(out, a, b" task=", log[k]);
    let c = put_count(out, b, b" proc=", log[k + 1]);
    let d = put_count(out, c, b" node=", log[k + 2]);
    let e = put_count(out, d, b" flag=", log[k + 3]);
    let v = logged_value(log, j);
    put_value(out, e, v)
}

// The line of the log's entry i.
fn put_step_line(out: &mut [u8], at: usize, log: &[u8], i: usize) -> usize
    requires { (LinesAt at) × (8 * i + 8 ≤ length log.now) × (i < 100000) × Entered log.now i }
    ensures { Put 58 out.old at (step_line log.now i) out.new result }
{
    let a = put_step_fields(out, at, i, log, i);
    put_byte(out, a, b'\n')
}

// The lines of the first n steps, at most 58 bytes each.
pub fn put_steps(out: &mut [u8], at: usize, log: &[u8], n: usize) -> usize
    requires { (at ≤ 1000) × (n ≤ 100000) × (8 * n ≤ length log.now) × ((i : ℕ) → i < n → Entered log.now i) }
    ensures { Put (58 * n) out.old at (concat_from (step_line log.now) n 0) out.new result }
{
    put_rows::<58, _>(out, at, n, |out, at, i| put_step_line(out, at, log, i))
}
