// Decimal numbers of any length, read off bytes.

#![tactic(auto)]

ghost use Rattle.std.specs.Prelude.{◌≡◌, ◌+◌, ◌-◌, ◌*◌, ◌≤◌, true, length, nat_lt};
ghost use Rattle.text.specs.Number.{spelt, value};
ghost use Rattle.digits.specs.Read.{digit_of, capped, digits_of, number_of, lead_of, lead_from, four_from, first_of};

// The number that the digits at a place say, at most 2^32, and where they end.
#[derive(Clone, Copy)]
pub struct Lead {
    pub value: u64,
    pub end: usize,
}

// A digit's number; more than 9 for any other byte.
pub fn digit(b: u8) -> u8
    ensures { result ≡ digit_of b }
{
    b.wrapping_sub(b'0')
}

// One digit more, at most 2^32.
fn push(v: u64, b: u8) -> u64
    requires { (v ≤ 4294967296) × (48 ≤ b) × (b ≤ 57) }
    ensures { result ≡ capped (v * 10 + (b - 48)) }
{
    let w = v * 10 + u64::from(b - b'0');
    w.min(4294967296)
}

// The number that digits say, or 2^32 for any that is larger.
pub fn digit_run(t: &[u8]) -> Option<u64>
    ensures { result ≡ digits_of t.now }
{
    let mut v: u64 = 0;
    for b in t {
        if !b.is_ascii_digit() {
            return None;
        }
        v = push(v, *b);
    }
    Some(v)
}

// The digits at a place, behind digits that say another number.
// The place is part of the answer, so the loop is over places, here and in `digits_at`; an index from the first digit on would be added to it each time.
fn further_digits(s: &[u8], from: usize, first: u64) -> Lead
    requires { (from ≤ length s.now) × (first ≤ 4294967296) }
    ensures { result ≡ lead_from first s.now from }
{
    let mut v = first;
    for i in from..s.len() {
        let b = s[i];
        if 9 < digit(b) {
            return Lead { value: v, end: i };
        }
        v = push(v, b);
    }
    Lead {
        value: v,
        end: s.len(),
    }
}

// The number that four digits say.
fn joined(a: u8, b: u8, c: u8, d: u8) -> u64
    requires { (a ≤ 9) × (b ≤ 9) × (c ≤ 9) × (d ≤ 9) }
    ensures { result ≡ a * 1000 + b * 100 + c * 10 + d }
{
    u64::from(a) * 1000 + u64::from(b) * 100 + u64::from(c) * 10 + u64::from(d)
}

// Four digits more, if there are four. All are read before one is judged, so that they can be judged at once.
fn four_more(s: &[u8], from: usize, first: u64) -> Lead
    requires { (from ≤ length s.now) × (first ≤ 9999) }
    ensures { result ≡ four_from first s.now from }
{
    let none = Lead {
        value: first,
        end: from,
    };
    if s.len() - from < 4 {
        return none;
    }
    let a = digit(s[from]);
    let b = digit(s[from + 1]);
    let c = digit(s[from + 2]);
    let d = digit(s[from + 3]);
    if 9 < a || 9 < b || 9 < c || 9 < d {
        return none;
    }
    Lead {
        value: first * 10000 + joined(a, b, c, d),
        end: from + 4,
    }
}

// None, four or eight digits at a place.
fn first_digits(s: &[u8], at: usize) -> Lead
    requires { at ≤ length s.now }
    ensures { result ≡ first_of s.now at }
{
    let four = four_more(s, at, 0);
    if four.end == at {
        return four;
    }
    four_more(s, four.end, four.value)
}

// The digits at a place. One digit more keeps a number below 429,496,729 within 2^32.
pub fn digits_at(s: &[u8], at: usize) -> Lead
    requires { at ≤ length s.now }
    ensures { result ≡ lead_of s.now at }
{
    let lead = first_digits(s, at);
    let mut v = lead.value;
    for i in lead.end..s.len() {
        let d = digit(s[i]);
        if 9 < d {
            return Lead { value: v, end: i };
        }
        if 429496729 <= v {
            return further_digits(s, i, v);
        }
        v = v * 10 + u64::from(d);
    }
    Lead {
        value: v,
        end: s.len(),
    }
}

// The number that bytes spell, with no needless leading zero.
pub fn number(t: &[u8]) -> Option<u64>
    ensures { result ≡ number_of t.now }
{
    if t.is_empty() {
        return None;
    }
    if t[0] == b'0' && 1 < t.len() {
        return None;
    }
    digit_run(t)
}

// Whether one number is below another, by their digits, however many those are.
pub fn less(a: &[u8], b: &[u8]) -> bool
    requires { (spelt a.now ≡ true) × (spelt b.now ≡ true) }
    ensures { result ≡ nat_lt (value a.now) (value b.now) }
{
    (a.len(), a) < (b.len(), b)
}
