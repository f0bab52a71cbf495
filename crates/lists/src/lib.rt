// The lists of a text, each read at a place.

#![tactic(auto)]

ghost use Rattle.std.specs.Prelude.{◌≤◌, ◌≡◌, true, false, [], ◌∷◌, length};
ghost use Rattle.text.specs.Value.{numeral, said_variable, split, each};
ghost use Rattle.text.specs.Format.{args_of};
ghost use Rattle.lists.specs.Items.{CommaAt, bit_of, item_of};
ghost use Rattle.lists.specs.Sets.{SetJudged, SetSaid, single_of, SetIn, SetAt};
ghost use Rattle.lists.specs.Short.{quick_of};
ghost use Rattle.lists.specs.Passing.{argument_of, argument_from, pushed_of, with_of, PassedJudged, PassedSaid, PassedAt};

use table::Args;
use text::Fault;

// ---- items

// The place of the next comma, or the end.
pub fn comma(t: &[u8], from: usize) -> usize
    requires { from ≤ length t.now }
    ensures { CommaAt t.now from result }
{
    match t[from..].iter().position(|b| *b == b',') {
        Some(n) => from + n,
        None => t.len(),
    }
}

// The set of a number that is at least lo and below the next; else no set, 0.
fn bit(v: u64, lo: u64, below: u64) -> u32
    requires { below ≤ 32 }
    ensures { result ≡ bit_of lo below v }
{
    if (lo..below).contains(&v) {
        1u32 << v
    } else {
        0
    }
}

// One item of a list of numbers: its bit, 0 for one that is outside, and where it ends.
fn item_at(t: &[u8], from: usize, lo: u64, below: u64) -> Option<(u32, usize)>
    requires { (from ≤ length t.now) × (below ≤ 32) }
    ensures { result ≡ item_of lo below t.now from }
{
    let to = comma(t, from);
    let v = digits::number(&t[from..to])?;
    Some((bit(v, lo, below), to))
}

// ---- lists that ascend

// Items with commas between, each above the one before: spelling and order come before any item's range.
// The loop goes from comma to comma, by steps that are no count. `within` says that no item so far is outside; such an item adds 0 to `mask`, so the sum does not tell.
fn rising(t: &[u8], e: usize, lo: u64, below: u64) -> Result<(u32, usize), Fault>
    requires { below ≤ 32 }
    ensures { SetJudged false lo below (each numeral (split t.now)) e result }
{
    let (b, end) = item_at(t, 0, lo, below).ok_or(Fault::Misspelt)?;
    let mut from = 0;
    let mut to = end;
    let mut mask = b;
    let mut within = b != 0;
    while to < t.len() {
        let next = to + 1;
        let (b, end) = item_at(t, next, lo, below).ok_or(Fault::Misspelt)?;
        if !digits::less(&t[from..to], &t[next..end]) {
            return Err(Fault::Misspelt); // out of order
        }
        mask += b;
        within &= b != 0;
        from = next;
        to = end;
    }
    if within {
        Ok((mask, e))
    } else {
        Err(Fault::Reference)
    }
}

// A list of one number v.
fn one_of(v: u64, e: usize, lo: u64, below: u64) -> Result<(u32, usize), Fault>
    requires { below ≤ 32 }
    ensures { result ≡ single_of lo below v e }
{
    let b = bit(v, lo, below);
    if b == 0 {
        Err(Fault::Reference)
    } else {
        Ok((b, e))
    }
}

// A list of one number.
fn single(t: &[u8], e: usize, lo: u64, below: u64) -> Result<(u32, usize), Fault>
    requires { below ≤ 32 }
    ensures { SetSaid true lo below t.now e result }
{
    let v = digits::number(t).ok_or(Fault::Misspelt)?;
    one_of(v, e, lo, below)
}

fn ascending_value(
    t: &[u8],
    e: usize,
    one: bool,
    lo: u64,
    below: u64,
) -> Result<(u32, usize), Fault>
    requires { below ≤ 32 }
    ensures { SetSaid one lo below t.now e result }
{
    if one {
        single(t, e, lo, below)
    } else if scan::is_word(t, b"none") {
        Ok((0, e))
    } else {
        rising(t, e, lo, below)
    }
}

// ---- short numbers that ascend, in one pass

// The list at a text's start and where it ends, if its numbers are short, inside and ascend.
// The loop goes from item to item, by steps that are no count.
fn short_list(u: &[u8], lo: u64, below: u64) -> Option<(u32, usize)>
    requires { below ≤ 32 }
    ensures { result ≡ quick_of lo below u.now }
{
    let mut from = 0;
    let mut mask = 0u32;
    while from < u.len() {
        let (v, to) = numbers::short_number(u, from)?;
        let b = bit(v, lo, below);
        if b <= mask {
            return None;
        }
        mask += b;
        let c = u[to];
        if scan::stops(c) {
            return Some((mask, to));
        }
        if c != b',' {
            return None;
        }
        from = to + 1;
    }
    None
}

// ---- lists at a place

// Any list.
fn any_list(s: &[u8], at: usize, one: bool, lo: u64, below: u64) -> Result<(u32, usize), Fault>
    requires { (at ≤ length s.now) × (below ≤ 32) }
    ensures { SetIn one lo below s.now at result }
{
    let (b, e) = scan::value_at(s, at)?;
    ascending_value(&s[b..e], e, one, lo, below)
}

fn many(s: &[u8], at: usize, lo: u64, below: u64) -> Result<(u32, usize), Fault>
    requires { (at ≤ length s.now) × (below ≤ 32) }
    ensures { SetIn false lo below s.now at result }
{
    match short_list(&s[at..], lo, below) {
        Some((m, n)) => Ok((m, at + n)),
        None => any_list(s, at, false, lo, below),
    }
}

fn single_at(s: &[u8], at: usize, lo: u64, below: u64) -> Result<(u32, usize), Fault>
    requires { (at ≤ length s.now) × (below ≤ 32) }
    ensures { SetIn true lo below s.now at result }
{
    match numbers::short_number(s, at) {
        Some((v, to)) if scan::stops(s[to]) => one_of(v, to, lo, below),
        _ => any_list(s, at, true, lo, below),
    }
}

fn ascending_at(s: &[u8], at: usize, one: bool, lo: u64, below: u64) -> Result<(u32, usize), Fault>
    requires { (at ≤ length s.now) × (below ≤ 32) }
    ensures { SetIn one lo below s.now at result }
{
    if one {
        single_at(s, at, lo, below)
    } else {
        many(s, at, lo, below)
    }
}

// A list that ascends strictly, of numbers at least lo and below the next; of one number or of any count.
pub fn ascending_field(
    s: &[u8],
    at: usize,
    key: &[u8],
    one: bool,
    lo: u64,
    below: u64,
) -> Result<(u32, usize), Fault>
    requires { (at ≤ length s.now) × (below ≤ 32) }
    ensures { SetAt one lo below key.now s.now at result }
{
    let b = scan::after(s, at, key)?;
    ascending_at(s, b, one, lo, below)
}

// As `ascending_field`, behind a key of four bytes and the rest.
pub fn ascending_word(
    s: &[u8],
    at: usize,
    a: u8,
    b: u8,
    c: u8,
    d: u8,
    rest: &[u8],
    one: bool,
    lo: u64,
    below: u64,
) -> Result<(u32, usize), Fault>
    requires { (at ≤ length s.now) × (below ≤ 32) }
    ensures { SetAt one lo below (a ∷ b ∷ c ∷ d ∷ rest.now) s.now at result }
{
    let from = scan::after_word(s, at, a, b, c, d, rest)?;
    ascending_at(s, from, one, lo, below)
}

// ---- a call's variables

// One of a call's variables; None is one that is not declared, which is no fault until every item is spelt.
fn argument_value(w: &[u8], closed: bool, vars: u64) -> Result<Option<u8>, Fault>
    requires { vars ≤ 256 }
    ensures { result ≡ argument_of closed vars w.now }
{
    if scan::is_word(w, b"-") {
        if closed {
            return Ok(Some(table::REMOVED));
        }
        return Err(Fault::Misspelt);
    }
    let v = digits::number(w).ok_or(Fault::Misspelt)?;
    if v < vars {
        Ok(Some(v as u8))
    } else {
        Ok(None)
    }
}

// The variable from a place to the next comma, and where it ends.
fn argument_at(t: &[u8], from: usize, closed: bool, vars: u64) -> Result<(Option<u8>, usize), Fault>
    requires { (from ≤ length t.now) × (vars ≤ 256) }
    ensures { result ≡ argument_from closed vars t.now from }
{
    let to = comma(t, from);
    let v = argument_value(&t[from..to], closed, vars)?;
    Ok((v, to))
}

// One variable more; the count is 5 for any above 4.
fn pushed(a: Args, v: u8) -> Args
    ensures { result ≡ pushed_of a v }
{
    let len = a.len.min(4) + 1;
    match a.len {
        0 => Args { len, a0: v, ..a },
        1 => Args { len, a1: v, ..a },
        2 => Args { len, a2: v, ..a },
        3 => Args { len, a3: v, ..a },
        _ => Args { len, ..a },
    }
}

fn no_args() -> Args
    ensures { result ≡ args_of [] }
{
    Args {
        len: 0,
        a0: 0,
        a1: 0,
        a2: 0,
        a3: 0,
    }
}

// The variables so far and one more; none if any of them is not declared.
fn with_variable(args: Option<Args>, v: Option<u8>) -> Option<Args>
    ensures { result ≡ with_of args v }
{
    match (args, v) {
        (Some(a), Some(v)) => Some(pushed(a, v)),
        _ => None,
    }
}

// Variables with commas between: spelling comes before any item's reference.
// The loop goes from comma to comma, by steps that are no count.
fn passing(t: &[u8], e: usize, closed: bool, vars: u64) -> Result<(Args, usize), Fault>
    requires { vars ≤ 256 }
    ensures { PassedJudged closed vars (each said_variable (split t.now)) e result }
{
    let mut args = Some(no_args());
    let mut from = 0;
    loop {
        let (v, to) = argument_at(t, from, closed, vars)?;
        args = with_variable(args, v);
        if t.len() <= to {
            let a = args.ok_or(Fault::Reference)?;
            return Ok((a, e));
        }
        from = to + 1;
    }
}

fn arguments_value(t: &[u8], e: usize, closed: bool, vars: u64) -> Result<(Args, usize), Fault>
    requires { vars ≤ 256 }
    ensures { PassedSaid closed vars t.now e result }
{
    if scan::is_word(t, b"none") {
        Ok((no_args(), e))
    } else {
        passing(t, e, closed, vars)
    }
}

// A call's variables, with so many declared; in closed form each may be `-`.
pub fn arguments_field(s: &[u8], at: usize, closed: bool, vars: u64) -> Result<(Args, usize), Fault>
    requires { (at ≤ length s.now) × (vars ≤ 256) }
    ensures { PassedAt closed vars s.now at result }
{
    let (b, e) = scan::token_at(s, at, b" args=")?;
    arguments_value(&s[b..e], e, closed, vars)
}
