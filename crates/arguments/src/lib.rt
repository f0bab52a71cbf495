// The words of the programs, each read into a number or a lent list.

#![tactic(auto)]

ghost use Rattle.std.specs.Prelude.{◌≡◌, ℕ, List, eqb, length};
ghost use Rattle.std.proofs.Math.Option.{Option as Said};
ghost use Rattle.std.proofs.lemmas.List.Edits.{sets};
ghost use Rattle.table.specs.Mask.{pick};
ghost use Rattle.text.specs.Value.{numeral, as_var, as_const, as_negative, said_operand};
ghost use Rattle.operands.specs.Answer.{OperandJudged};
ghost use Rattle.put.specs.Put.{Put};
ghost use Rattle.machine.specs.Words.{said_up_to, file_word};
ghost use Rattle.machine.specs.Program.{said_value, said_items, most_nodes, most_bytes};
ghost use Rattle.arguments.specs.Answers.{answer_of, digits_up_to, count_of, leading, length_of};

use table::Operand;
use text::Fault;

// The length of a text that a program prints, or of what it says in its place on the standard error stream. It is no `Result`, since what is said
// is an answer as well.
#[derive(Clone, Copy)]
pub enum Answer {
    Prints(usize),
    Says(usize),
}

// Either length.
pub fn length(a: Answer) -> usize
    ensures { result ≡ length_of a }
{
    match a {
        Answer::Prints(n) | Answer::Says(n) => n,
    }
}

// ---- numbers

// The number that digits say, if it is at most m.
fn digits_up_to(t: &[u8], m: usize) -> Option<usize>
    ensures { result ≡ answer_of (digits_up_to m t.now) }
{
    let mut v: usize = 0;
    for b in t {
        if !b.is_ascii_digit() {
            return None;
        }
        let d = usize::from(*b - b'0');
        if m < d || (m - d) / 10 < v {
            return None;
        }
        v = v * 10 + d;
    }
    Some(v)
}

// The number that bytes spell, if it is at most m.
pub fn up_to(t: &[u8], m: usize) -> Option<usize>
    ensures { result ≡ answer_of (said_up_to m t.now) }
{
    match t {
        [] | [b'0', _, ..] => None,
        _ => digits_up_to(t, m),
    }
}

// What the digits behind `v`, behind `-` or alone say.
fn named(t: &[u8]) -> Result<(Operand, usize), Fault>
    ensures { OperandJudged 0 (as_var (numeral t.now)) 0 result }
{
    let x = digits::number(t).ok_or(Fault::Misspelt)?;
    operands::named_operand(x, 0, 0)
}

fn negative(t: &[u8]) -> Result<(Operand, usize), Fault>
    ensures { OperandJudged 0 (as_negative (numeral t.now)) 0 result }
{
    let x = digits::number(t).ok_or(Fault::Misspelt)?;
    operands::negative_operand(x, 0, 0)
}

fn constant(t: &[u8]) -> Result<(Operand, usize), Fault>
    ensures { OperandJudged 0 (as_const (numeral t.now)) 0 result }
{
    let x = digits::number(t).ok_or(Fault::Misspelt)?;
    operands::constant_operand(x, 0, 0)
}

// A constant; no variable is declared.
fn operand_value(t: &[u8]) -> Result<(Operand, usize), Fault>
    ensures { OperandJudged 0 (said_operand t.now) 0 result }
{
    match t {
        [] => Err(Fault::Misspelt),
        [b'v', name @ ..] => named(name),
        [b'-', size @ ..] => negative(size),
        _ => constant(t),
    }
}

// A signed 32-bit number.
fn signed(t: &[u8]) -> Option<i32>
    ensures { result ≡ answer_of (said_value t.now) }
{
    match operand_value(t) {
        Ok((Operand::Const(z), _)) => Some(z),
        _ => None,
    }
}

// ---- a file

// A comma for an LF.
fn separator(b: u8) -> u8
    ensures { result ≡ pick (eqb b 10) 44 b }
{
    if b == b'\n' { b',' } else { b }
}

// The word that a file stands for is put in the place of its bytes. The answer is its length.
pub fn file_word(file: &mut [u8]) -> usize
    ensures { Put (length file.old) file.old 0 (file_word file.old) file.new result }
{
    let n = file.len();
    if n == 0 {
        return 0;
    }
    let last = n - 1;
    for b in file[..last].iter_mut() {
        *b = separator(*b);
    }
    if file[last] == b'\n' { last } else { n }
}

// ---- the words

// An item of a list.
trait Item: Copy {
    ghost says: { List ℕ → Said Self };

    fn read(t: &[u8]) -> Option<Self>
        ensures { result ≡ answer_of (says t.now) };
}

// A task number.
impl Item for u8 {
    ghost says = { said_up_to 255 };

    fn read(t: &[u8]) -> Option<u8> {
        let k = up_to(t, 255)?;
        Some(k as u8)
    }
}

// A value.
impl Item for i32 {
    ghost says = { said_value };

    fn read(t: &[u8]) -> Option<i32> {
        signed(t)
    }
}

// A list's items are put into a lent list, those before the first that can't be read, as far as the lent list reaches. The answer is their count.
fn items<T: Item>(word: &[u8], out: &mut [T]) -> Option<usize>
    ensures answer { result ≡ answer_of (count_of (said_items (length out.old) T.says word.now)) }
    ensures list { out.new ≡ sets out.old 0 (leading T.says word.now) }
{
    if scan::is_word(word, b"none") {
        return Some(0);
    }
    let mut from = 0;
    for (n, slot) in out.iter_mut().enumerate() {
        let to = lists::comma(word, from);
        *slot = T::read(&word[from..to])?;
        if word.len() <= to {
            return Some(n + 1);
        }
        from = to + 1;
    }
    None
}

// SCHEDULE: its task numbers.
pub fn schedule(word: &[u8], out: &mut [u8]) -> Option<usize>
    ensures answer { result ≡ answer_of (count_of (said_items (length out.old) (said_up_to 255) word.now)) }
    ensures list { out.new ≡ sets out.old 0 (leading (said_up_to 255) word.now) }
{
    items(word, out)
}

// VALUES: its values.
pub fn values(word: &[u8], out: &mut [i32]) -> Option<usize>
    ensures answer { result ≡ answer_of (count_of (said_items (length out.old) said_value word.now)) }
    ensures list { out.new ≡ sets out.old 0 (leading said_value word.now) }
{
    items(word, out)
}

// MOST: a number of dropped nodes.
pub fn most(word: &[u8]) -> Option<usize>
    ensures { result ≡ answer_of (said_up_to most_nodes word.now) }
{
    up_to(word, usize::MAX)
}

// LOG: a number of bytes.
pub fn log(word: &[u8]) -> Option<usize>
    ensures { result ≡ answer_of (said_up_to most_bytes word.now) }
{
    up_to(word, 800000)
}
