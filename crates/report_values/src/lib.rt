// Lists of values in the report of a run, written into a lent buffer. Each function writes at a place, as far as the buffer reaches, and
// gives the place after what it wrote.

#![tactic(auto)]

ghost use Rattle.std.specs.Prelude.{◌≡◌, ◌∷◌, [], ◌++◌, ◌≤◌, length};
ghost use Rattle.put.specs.Put.{Put};
ghost use Rattle.machine.specs.State.{var_at};
ghost use Rattle.machine.specs.Report.{values_text};
ghost use Rattle.report_values.specs.Values.{ValuesAt, item_text};

use put::{put_byte, put_text};
use put_fields::put_constant;

// The value at a place, 0 past the last.
fn value_at(l: &[i32], i: usize) -> i32
    ensures { result ≡ var_at l.now i }
{
    l.get(i).copied().unwrap_or(0)
}

// Value i of a list, behind a comma but for the first.
fn put_value(out: &mut [u8], at: usize, i: u8, v: i32) -> usize
    requires { at ≤ 960000000 }
    ensures { Put 12 out.old at (item_text i v) out.new result }
{
    if i == 0 {
        return put_constant(out, at, v);
    }
    let a = put_byte(out, at, b',');
    put_constant(out, a, v)
}

// The first n of some values with commas between, or `none`.
fn put_values(out: &mut [u8], at: usize, l: &[i32], n: u8) -> usize
    requires { ValuesAt at }
    ensures { Put 3060 out.old at (values_text l.now n) out.new result }
{
    if n == 0 {
        return put_text(out, at, b"none");
    }
    let mut p = at;
    for i in 0..n {
        p = put_value(out, p, i, value_at(l, i as usize));
    }
    p
}

// A list of values under its key, and the end of its line.
pub fn put_values_line(out: &mut [u8], at: usize, key: &[u8], l: &[i32], n: u8) -> usize
    requires { (at ≤ 940000000) × (length key.now ≤ 16) }
    ensures { Put 3077 out.old at (key.now ++ (values_text l.now n ++ (10 ∷ []))) out.new result }
{
    let a = put_text(out, at, key);
    let b = put_values(out, a, l, n);
    put_byte(out, b, b'\n')
}
