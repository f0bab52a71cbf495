// Writing values into a lent buffer at a place. Each function gives the place after what it wrote. Those named put write as far as the
// buffer reaches: on an empty buffer they measure. Those named fill ask for room, and check nothing.

#![tactic(auto)]

ghost use Rattle.std.specs.Prelude.{◌∷◌, [], ◌+◌, ◌*◌, ◌≤◌, ◌<◌, length, ℕ, List};
ghost use Rattle.text.specs.Reader.{concat_from};
ghost use Rattle.text.specs.Number.{digits};
ghost use Rattle.text.specs.Value.{spell_variable};
ghost use Rattle.text.specs.Format.{name_of};
ghost use Rattle.put.specs.Put.{Put, ByteAt, DigitsAt};
ghost use Rattle.put.specs.Calls.{TakesRows, ShortRows, WritesRows, TakesBuffer, FillsShort, Fills};
ghost use Rattle.masks.specs.Lowest.{above};
ghost use Rattle.put.specs.Lists.{further, ten_of, items_text, list_text};

pub fn put_byte(out: &mut [u8], at: usize, b: u8) -> usize
    requires { ByteAt at }
    ensures { Put 1 out.old at (b ∷ []) out.new result }
{
    if at < out.len() {
        out[at] = b;
    }
    at + 1
}

// Byte by byte: `copy_from_slice` calls memmove, which the archives for C would then ask of whoever links them.
pub fn fill_text(out: &mut [u8], at: usize, t: &[u8]) -> usize
    requires { at + length t.now ≤ length out.old }
    ensures { Put (length t.now) out.old at t.now out.new result }
{
    for (i, b) in t.iter().enumerate() {
        out[at + i] = *b;
    }
    at + t.len()
}

pub fn fill_byte(out: &mut [u8], at: usize, b: u8) -> usize
    requires { at < length out.old }
    ensures { Put 1 out.old at (b ∷ []) out.new result }
{
    out[at] = b;
    at + 1
}

// A text of a line's length or shorter.
pub fn put_bytes(out: &mut [u8], at: usize, t: &[u8]) -> usize
    requires { (ByteAt at) × (length t.now ≤ 256) }
    ensures { Put (length t.now) out.old at t.now out.new result }
{
    let end = at + t.len();
    if end <= out.len() {
        return fill_text(out, at, t);
    }
    if out.len() <= at {
        return end;
    }
    let n = out.len() - at;
    fill_text(out, at, &t[..n]);
    end
}

pub fn put_text(out: &mut [u8], at: usize, t: &[u8]) -> usize
    requires { (ByteAt at) × (length t.now ≤ 64) }
    ensures { Put (length t.now) out.old at t.now out.new result }
{
    put_bytes(out, at, t)
}

// The decimal digits of a small number.
pub fn fill_small(out: &mut [u8], at: usize, n: u8) -> usize
    requires { at + 3 ≤ length out.old }
    ensures { Put 3 out.old at (digits n) out.new result }
{
    if n < 10 {
        return fill_byte(out, at, b'0' + n);
    }
    if n < 100 {
        let a = fill_byte(out, at, b'0' + n / 10);
        return fill_byte(out, a, b'0' + n % 10);
    }
    let a = fill_byte(out, at, b'0' + n / 100);
    let b = fill_byte(out, a, b'0' + n / 10 % 10);
    fill_byte(out, b, b'0' + n % 10)
}

// What fill writes at the start of a buffer of N bytes, as far as out reaches.
pub fn put_filled<const N: usize, F: Fn(&mut [u8]) -> usize>(
    out: &mut [u8],
    at: usize,
    fill: F,
) -> usize
    requires place { (ByteAt at) × (N ≤ 256) }
    requires takes { TakesBuffer (F.pre fill) N }
    requires short { FillsShort (F.post fill) N }
    ensures { (k : ℕ) (t : List ℕ) → Fills (F.post fill) N k t → Put k out.old at t out.new result }
{
    let mut t = [0u8; N];
    let k = fill(&mut t);
    put_bytes(out, at, &t[..k])
}

fn put_digits(out: &mut [u8], at: usize, n: u8) -> usize
    requires { DigitsAt at }
    ensures { Put 3 out.old at (digits n) out.new result }
{
    put_filled::<3, _>(out, at, |t| fill_small(t, 0, n))
}

// As far as the buffer reaches: one digit, which is the most, is compiled into the lines that use it.
pub fn put_small(out: &mut [u8], at: usize, n: u8) -> usize
    requires { DigitsAt at }
    ensures { Put 3 out.old at (digits n) out.new result }
{
    if n < 10 {
        return put_byte(out, at, b'0' + n);
    }
    put_digits(out, at, n)
}

// A variable, or `-`.
pub fn fill_variable(out: &mut [u8], at: usize, v: u8) -> usize
    requires { at + 3 ≤ length out.old }
    ensures { Put 3 out.old at (spell_variable (name_of v)) out.new result }
{
    if v == table::REMOVED {
        return fill_byte(out, at, b'-');
    }
    fill_small(out, at, v)
}

// A comma and the number of t tens and k ones.
fn fill_item(out: &mut [u8], at: usize, t: u8, k: u8) -> usize
    requires { (at + 3 ≤ length out.old) × ((t < 10) × (k < 10)) }
    ensures { Put 3 out.old at (44 ∷ digits (t * 10 + k)) out.new result }
{
    let a = fill_byte(out, at, b',');
    if t == 0 {
        return fill_byte(out, a, b'0' + k);
    }
    let b = fill_byte(out, a, b'0' + t);
    fill_byte(out, b, b'0' + k)
}

// The numbers in a mask of ten, each behind a comma, with t tens before.
fn fill_ten(out: &mut [u8], at: usize, t: u8, m: u32) -> usize
    requires { (at + 3 * length (ten_of t m) ≤ length out.old) × ((t < 10) × (m < 1024)) }
    ensures { Put (3 * length (ten_of t m)) out.old at (further (ten_of t m)) out.new result }
{
    let mut p = at;
    let mut rest = m;
    while rest != 0 {
        p = fill_item(out, p, t, rest.trailing_zeros() as u8);
        rest &= rest - 1;
    }
    p
}

// The numbers in a mask, each behind a comma.
fn fill_further(out: &mut [u8], at: usize, m: u32) -> usize
    requires { at + 3 * length (above 32 0 m) ≤ length out.old }
    ensures { Put (3 * length (above 32 0 m)) out.old at (further (above 32 0 m)) out.new result }
{
    let mut p = at;
    let mut rest = m;
    let mut t: u8 = 0;
    while rest != 0 {
        p = fill_ten(out, p, t, rest % 1024);
        rest /= 1024;
        t += 1;
    }
    p
}

// The numbers in a mask that has one, with commas between.
fn fill_items(out: &mut [u8], at: usize, m: u32) -> usize
    requires { (at + 96 ≤ length out.old) × (1 ≤ m) }
    ensures { Put 86 out.old at (items_text m) out.new result }
{
    let p = fill_small(out, at, m.trailing_zeros() as u8);
    fill_further(out, p, m & (m - 1))
}

pub fn fill_list(out: &mut [u8], at: usize, m: u32) -> usize
    requires { at + 96 ≤ length out.old }
    ensures { Put 86 out.old at (list_text m) out.new result }
{
    if m == 0 {
        return fill_text(out, at, b"none");
    }
    fill_items(out, at, m)
}

// n rows of at most MOST bytes each, one after another.
pub fn put_rows<const MOST: usize, F: Fn(&mut [u8], usize, usize) -> usize>(
    out: &mut [u8],
    at: usize,
    n: usize,
    row: F,
) -> usize
    requires takes { TakesRows (F.pre row) MOST n at }
    requires short { ShortRows (F.post row) MOST n }
    ensures within { result ≤ at + MOST * n }
    ensures rows { (f : ℕ → List ℕ) → WritesRows (F.post row) MOST n f → Put (MOST * n) out.old at (concat_from f n 0) out.new result }
{
    let mut p = at;
    for i in 0..n {
        p = row(out, p, i);
    }
    p
}
