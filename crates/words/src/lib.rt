// The words of a text, each read at a place: choices, the kinds of nodes, operations.

#![tactic(auto)]

ghost use Rattle.std.specs.Prelude.{◌≤◌, ◌≡◌, true, false, [], ◌∷◌, length};
ghost use Rattle.text.specs.Value.{chosen, kind_word, op_word, kinds, ops, named, kind_fault, op_fault};
ghost use Rattle.words.specs.Answer.{told, verdict_of, ChoiceAt, KindAt, OpAt, KindIn, OpIn, Stands};

use table::Op;
use text::{Fault, NodeKind};

// ---- choices

fn choice_named(t: &[u8], a: &[u8], b: &[u8]) -> Option<bool>
    ensures { result ≡ told (named (chosen a.now b.now) (false ∷ true ∷ []) t.now) }
{
    if scan::is_word(t, a) {
        Some(false)
    } else if scan::is_word(t, b) {
        Some(true)
    } else {
        None
    }
}

// One of two words: the first for false, the second for true.
pub fn choice_field(
    s: &[u8],
    at: usize,
    key: &[u8],
    a: &[u8],
    b: &[u8],
) -> Result<(bool, usize), Fault>
    requires { at ≤ length s.now }
    ensures { ChoiceAt a.now b.now key.now s.now at result }
{
    let (from, e) = scan::token_at(s, at, key)?;
    let v = choice_named(&s[from..e], a, b).ok_or(Fault::Form)?;
    Ok((v, e))
}

// ---- the kinds of nodes

// Tests one after the other, here and for operations: in the arm of a byte-string pattern the check knows the length alone, not the word.
fn kind_named(t: &[u8]) -> Option<NodeKind>
    ensures { result ≡ told (named kind_word kinds t.now) }
{
    if scan::is_word(t, b"start") {
        Some(NodeKind::Start)
    } else if scan::is_word(t, b"set") {
        Some(NodeKind::Set)
    } else if scan::is_word(t, b"test") {
        Some(NodeKind::Test)
    } else if scan::is_word(t, b"read") {
        Some(NodeKind::Read)
    } else if scan::is_word(t, b"call") {
        Some(NodeKind::Call)
    } else if scan::is_word(t, b"wait") {
        Some(NodeKind::Wait)
    } else if scan::is_word(t, b"signal") {
        Some(NodeKind::Signal)
    } else if scan::is_word(t, b"send") {
        Some(NodeKind::Send)
    } else if scan::is_word(t, b"recv") {
        Some(NodeKind::Recv)
    } else if scan::is_word(t, b"assert") {
        Some(NodeKind::Assert)
    } else if scan::is_word(t, b"out") {
        Some(NodeKind::Out)
    } else if scan::is_word(t, b"return") {
        Some(NodeKind::Return)
    } else {
        None
    }
}

// Any kind's word.
fn any_kind(s: &[u8], at: usize) -> Result<(NodeKind, usize), Fault>
    requires { at ≤ length s.now }
    ensures { KindIn s.now at result }
{
    let (from, e) = scan::value_at(s, at)?;
    let k = kind_named(&s[from..e]).ok_or(Fault::Form)?;
    Ok((k, e))
}

// A frequent kind, told by its bytes and the space behind, and where its word ends.
fn quick_kind(s: &[u8], at: usize) -> Option<(NodeKind, usize)>
    requires { at ≤ length s.now }
    ensures { Stands kind_word s.now at result }
{
    if s.len() - at < 5 {
        return None;
    }
    let w = scan::quad(s, at);
    if w == scan::quad_of(b's', b'e', b't', b' ') {
        return Some((NodeKind::Set, at + 3));
    }
    if w == scan::quad_of(b'o', b'u', b't', b' ') {
        return Some((NodeKind::Out, at + 3));
    }
    if w == scan::quad_of(b't', b'e', b's', b't') && s[at + 4] == b' ' {
        return Some((NodeKind::Test, at + 4));
    }
    None
}

fn kind_at(s: &[u8], at: usize) -> Result<(NodeKind, usize), Fault>
    requires { at ≤ length s.now }
    ensures { KindIn s.now at result }
{
    match quick_kind(s, at) {
        Some(found) => Ok(found),
        None => any_kind(s, at),
    }
}

// Node 0 is the only `start`, and a closed table has no `read`.
fn kind_check(k: NodeKind, closed: bool, j: u8) -> Result<(), Fault>
    ensures { result ≡ verdict_of (kind_fault closed j k) }
{
    match k {
        NodeKind::Start if j == 0 => Ok(()),
        NodeKind::Start => Err(Fault::Index),
        NodeKind::Read if closed => Err(Fault::Form),
        _ if j == 0 => Err(Fault::Index),
        _ => Ok(()),
    }
}

// The kind of node j.
pub fn kind_field(s: &[u8], at: usize, closed: bool, j: u8) -> Result<(NodeKind, usize), Fault>
    requires { at ≤ length s.now }
    ensures { KindAt closed j s.now at result }
{
    let b = scan::after_word(s, at, b' ', b'k', b'i', b'n', b"d=")?;
    let (k, e) = kind_at(s, b)?;
    kind_check(k, closed, j)?;
    Ok((k, e))
}

// ---- operations

fn operation_named(t: &[u8]) -> Option<Op>
    ensures { result ≡ told (named op_word ops t.now) }
{
    if scan::is_word(t, b"add") {
        Some(Op::Add)
    } else if scan::is_word(t, b"sub") {
        Some(Op::Sub)
    } else if scan::is_word(t, b"and") {
        Some(Op::And)
    } else if scan::is_word(t, b"or") {
        Some(Op::Or)
    } else if scan::is_word(t, b"xor") {
        Some(Op::Xor)
    } else if scan::is_word(t, b"shr") {
        Some(Op::Shr)
    } else if scan::is_word(t, b"lt") {
        Some(Op::Lt)
    } else if scan::is_word(t, b"eq") {
        Some(Op::Eq)
    } else {
        None
    }
}

// Any operation's word.
fn any_operation(s: &[u8], at: usize) -> Result<(Op, usize), Fault>
    requires { at ≤ length s.now }
    ensures { OpIn s.now at result }
{
    let (from, e) = scan::value_at(s, at)?;
    let o = operation_named(&s[from..e]).ok_or(Fault::Form)?;
    Ok((o, e))
}

// A set's operation of three letters, told by its bytes and the space behind, and where its word ends.
fn quick_calculation(s: &[u8], at: usize) -> Option<(Op, usize)>
    requires { at ≤ length s.now }
    ensures { Stands op_word s.now at result }
{
    if s.len() - at < 4 {
        return None;
    }
    let w = scan::quad(s, at);
    if w == scan::quad_of(b'a', b'd', b'd', b' ') {
        return Some((Op::Add, at + 3));
    }
    if w == scan::quad_of(b's', b'u', b'b', b' ') {
        return Some((Op::Sub, at + 3));
    }
    if w == scan::quad_of(b'a', b'n', b'd', b' ') {
        return Some((Op::And, at + 3));
    }
    if w == scan::quad_of(b'x', b'o', b'r', b' ') {
        return Some((Op::Xor, at + 3));
    }
    if w == scan::quad_of(b's', b'h', b'r', b' ') {
        return Some((Op::Shr, at + 3));
    }
    None
}

// A test's operation, told by its bytes and the first two of the next key, and where its word ends.
fn quick_comparison(s: &[u8], at: usize) -> Option<(Op, usize)>
    requires { at ≤ length s.now }
    ensures { Stands op_word s.now at result }
{
    if s.len() - at < 4 {
        return None;
    }
    let w = scan::quad(s, at);
    if w == scan::quad_of(b'l', b't', b' ', b'a') {
        return Some((Op::Lt, at + 2));
    }
    if w == scan::quad_of(b'e', b'q', b' ', b'a') {
        return Some((Op::Eq, at + 2));
    }
    None
}

// The operations that are frequent in a test, or in a set.
fn quick_operation(s: &[u8], at: usize, test: bool) -> Option<(Op, usize)>
    requires { at ≤ length s.now }
    ensures { Stands op_word s.now at result }
{
    if test {
        quick_comparison(s, at)
    } else {
        quick_calculation(s, at)
    }
}

fn operation_at(s: &[u8], at: usize, test: bool) -> Result<(Op, usize), Fault>
    requires { at ≤ length s.now }
    ensures { OpIn s.now at result }
{
    match quick_operation(s, at, test) {
        Some(found) => Ok(found),
        None => any_operation(s, at),
    }
}

// A test has `lt` or `eq`.
fn operation_check(o: Op, test: bool) -> Result<(), Fault>
    ensures { result ≡ verdict_of (op_fault test o) }
{
    match o {
        Op::Lt | Op::Eq => Ok(()),
        _ if test => Err(Fault::Form),
        _ => Ok(()),
    }
}

// An operation; in a test or not.
pub fn operation_field(s: &[u8], at: usize, test: bool) -> Result<(Op, usize), Fault>
    requires { at ≤ length s.now }
    ensures { OpAt test s.now at result }
{
    let b = scan::after_word(s, at, b' ', b'o', b'p', b'=', b"")?;
    let (o, e) = operation_at(s, b, test)?;
    operation_check(o, test)?;
    Ok((o, e))
}
