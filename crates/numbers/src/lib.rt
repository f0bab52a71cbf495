// The numbers of a text, each read at a place.

#![tactic(auto)]

ghost use Rattle.std.specs.Prelude.{◌+◌, ◌-◌, ◌≤◌, ◌<◌, length, [], ◌∷◌, ◌≡◌};
ghost use Rattle.numbers.specs.Numerals.{DigitsTo, NumeralAt, short_of, short_value_of};
ghost use Rattle.numbers.specs.Answer.{within_of, NumberIn, NumberAt};

use text::Fault;

// Digits that are a whole value: "no needless leading zero".
fn spelt(s: &[u8], at: usize, e: usize, v: u64) -> Result<(u64, usize), Fault>
    requires { DigitsTo s.now at e v }
    ensures { NumeralAt s.now at result }
{
    if e == at {
        return Err(Fault::Misspelt);
    }
    if s[at] == b'0' && at + 1 < e {
        return Err(Fault::Misspelt);
    }
    Ok((v, e))
}

// The number that any value spells.
fn any_numeral(s: &[u8], at: usize) -> Result<(u64, usize), Fault>
    requires { at ≤ length s.now }
    ensures { NumeralAt s.now at result }
{
    let (b, e) = scan::value_at(s, at)?;
    let v = digits::number(&s[b..e]).ok_or(Fault::Misspelt)?;
    Ok((v, e))
}

// The number that the value at a place spells, at most 2^32, and the value's end; or the value spells none, or the text's end breaks it off.
// Digits up to its end are read in one pass.
pub fn numeral_at(s: &[u8], at: usize) -> Result<(u64, usize), Fault>
    requires { at ≤ length s.now }
    ensures { NumeralAt s.now at result }
{
    let d = digits::digits_at(s, at);
    if d.end < s.len() && scan::stops(s[d.end]) {
        return spelt(s, at, d.end, d.value);
    }
    any_numeral(s, at)
}

// A number of one or two digits, where three bytes are left, and where it ends.
pub fn short_number(u: &[u8], at: usize) -> Option<(u64, usize)>
    requires { at ≤ length u.now }
    ensures { result ≡ short_of u.now at }
{
    if u.len() - at < 3 {
        return None;
    }
    let a = digits::digit(u[at]);
    if 9 < a {
        return None;
    }
    let b = digits::digit(u[at + 1]);
    if 9 < b {
        return Some((u64::from(a), at + 1));
    }
    if a == 0 {
        return None;
    }
    Some((u64::from(a) * 10 + u64::from(b), at + 2))
}

// A short number that a space ends.
pub fn short_value(s: &[u8], at: usize) -> Option<(u64, usize)>
    requires { at ≤ length s.now }
    ensures { result ≡ short_value_of s.now at }
{
    let (v, e) = short_number(s, at)?;
    if s[e] == b' ' { Some((v, e)) } else { None }
}

// As `numeral_at`, short numbers first.
pub fn value_number(s: &[u8], at: usize) -> Result<(u64, usize), Fault>
    requires { at ≤ length s.now }
    ensures { NumeralAt s.now at result }
{
    match short_value(s, at) {
        Some(short) => Ok(short),
        None => numeral_at(s, at),
    }
}

fn within(v: u64, e: usize, lo: u64, below: u64, fault: Fault) -> Result<(u8, usize), Fault>
    requires { below ≤ 256 }
    ensures { result ≡ within_of lo below fault v e }
{
    if (lo..below).contains(&v) {
        Ok((v as u8, e))
    } else {
        Err(fault)
    }
}

// The number at a place and the place after it: at least lo and below the next; outside, the fault.
pub fn number_at(
    s: &[u8],
    at: usize,
    lo: u64,
    below: u64,
    fault: Fault,
) -> Result<(u8, usize), Fault>
    requires { (at ≤ length s.now) × (below ≤ 256) }
    ensures { NumberIn lo below fault s.now at result }
{
    let (v, e) = value_number(s, at)?;
    within(v, e, lo, below, fault)
}

// As `number_at`, behind a key.
pub fn number_field(
    s: &[u8],
    at: usize,
    key: &[u8],
    lo: u64,
    below: u64,
    fault: Fault,
) -> Result<(u8, usize), Fault>
    requires { (at ≤ length s.now) × (below ≤ 256) }
    ensures { NumberAt lo below fault key.now s.now at result }
{
    let b = scan::after(s, at, key)?;
    number_at(s, b, lo, below, fault)
}

// As `number_field`, behind a key of four bytes and `=`.
pub fn number_word(
    s: &[u8],
    at: usize,
    a: u8,
    b: u8,
    c: u8,
    d: u8,
    lo: u64,
    below: u64,
    fault: Fault,
) -> Result<(u8, usize), Fault>
    requires { (at ≤ length s.now) × (below ≤ 256) }
    ensures { NumberAt lo below fault (a ∷ b ∷ c ∷ d ∷ 61 ∷ []) s.now at result }
{
    let e = scan::after_word(s, at, a, b, c, d, b"=")?;
    number_at(s, e, lo, below, fault)
}
