// Keys, words and the places of values in a text.

#![tactic(auto)]

ghost use Rattle.std.specs.Prelude.{◌+◌, ◌-◌, ◌≤◌, ◌<◌, ◌≡◌, length, [], ◌∷◌};
ghost use Rattle.text.specs.Value.{same};
ghost use Rattle.text.specs.Line.{stops as stopsAt};
ghost use Rattle.scan.specs.Place.{quad_number, Bytes, QuadAt, AfterKey, RunEnd, ValueAt, TokenAt, FeedAt};

use text::Fault;

// The place after a key. Where something else stands there, the form is wrong; the text may also end first.
pub fn after(s: &[u8], at: usize, key: &[u8]) -> Result<usize, Fault>
    requires { at ≤ length s.now }
    ensures { AfterKey key.now s.now at result }
{
    for (j, b) in key.iter().enumerate() {
        let i = at + j;
        if s.len() <= i {
            return Err(Fault::Ended);
        }
        if *b != s[i] {
            return Err(Fault::Form);
        }
    }
    Ok(at + key.len())
}

// Four bytes as one number, the first lowest.
pub fn quad_of(a: u8, b: u8, c: u8, d: u8) -> u32
    ensures is { result ≡ quad_number a b c d }
    ensures bytes { Bytes a b c d }
{
    u32::from_le_bytes([a, b, c, d])
}

// The four bytes at a place as one number.
pub fn quad(s: &[u8], at: usize) -> u32
    requires { 4 ≤ length s.now - at }
    ensures { QuadAt s.now at result }
{
    quad_of(s[at], s[at + 1], s[at + 2], s[at + 3])
}

// A key of four bytes, compared as one number.
fn after_quad(s: &[u8], at: usize, a: u8, b: u8, c: u8, d: u8) -> Result<usize, Fault>
    requires { at ≤ length s.now }
    ensures { AfterKey (a ∷ b ∷ c ∷ d ∷ []) s.now at result }
{
    if s.len() - at < 4 {
        return after(s, at, &[a, b, c, d]);
    }
    if quad(s, at) == quad_of(a, b, c, d) {
        Ok(at + 4)
    } else {
        Err(Fault::Form)
    }
}

// A key of four bytes, which the clause and its callers name one by one, and the rest.
pub fn after_word(
    s: &[u8],
    at: usize,
    a: u8,
    b: u8,
    c: u8,
    d: u8,
    rest: &[u8],
) -> Result<usize, Fault>
    requires { at ≤ length s.now }
    ensures { AfterKey (a ∷ b ∷ c ∷ d ∷ rest.now) s.now at result }
{
    let e = after_quad(s, at, a, b, c, d)?;
    after(s, e, rest)
}

// "A value runs to the next space or LF": its end.
pub fn run(s: &[u8], at: usize) -> usize
    requires { at ≤ length s.now }
    ensures { RunEnd s.now at result }
{
    match s[at..].iter().position(|b| stops(*b)) {
        Some(n) => at + n,
        None => s.len(),
    }
}

// The value at a place: where it begins and ends. One that the text's end breaks off is an early end.
pub fn value_at(s: &[u8], at: usize) -> Result<(usize, usize), Fault>
    requires { at ≤ length s.now }
    ensures { ValueAt s.now at result }
{
    let e = run(s, at);
    if e < s.len() {
        Ok((at, e))
    } else {
        Err(Fault::Ended)
    }
}

// The value behind a key.
pub fn token_at(s: &[u8], at: usize, key: &[u8]) -> Result<(usize, usize), Fault>
    requires { at ≤ length s.now }
    ensures { TokenAt key.now s.now at result }
{
    let b = after(s, at, key)?;
    value_at(s, b)
}

// The place after the end of a line.
pub fn feed(s: &[u8], at: usize) -> Result<usize, Fault>
    requires { at ≤ length s.now }
    ensures { FeedAt s.now at result }
{
    after(s, at, b"\n")
}

// The end of a value.
pub fn stops(b: u8) -> bool
    ensures { result ≡ stopsAt b }
{
    b == b' ' || b == b'\n'
}

// Whether bytes are a word: `==`, with a clause that says it as text's `same`, which the laws of words and values cite.
pub fn is_word(t: &[u8], word: &[u8]) -> bool
    ensures { result ≡ same word.now t.now }
{
    word == t
}
