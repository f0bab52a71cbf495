// What the program `explore` answers to its words and a text, in two steps: what the words ask for, and the search or the word's line. On a long
// search it says on the standard error stream how far it is.

#![tactic(auto)]

ghost use Rattle.std.specs.Prelude.{◌≡◌, ◌∷◌, [], ◌<◌, ◌≤◌, min};
ghost use Rattle.text.specs.Writer.{fault};
ghost use Rattle.machine.specs.Words.{given};
ghost use Rattle.exploring.specs.Program.{explored_text, explore_text, said, word_line, explore_answer};
ghost use Rattle.put.specs.Put.{Put};
ghost use Rattle.arguments.specs.Answers.{AnswerPut};
ghost use Rattle.explore_words.specs.Words.{word_of, asked_words};

use arguments::Answer;
use std::io::{Print, Stderr};
use table::Table;

// The words; Further is one too many.
#[derive(Clone, Copy)]
pub enum Word {
    Depth,
    Bound,
    Further,
}

// The search that the words ask for: its depth and the most steps tried.
#[derive(Clone, Copy)]
pub struct Asked {
    pub depth: usize,
    pub bound: usize,
}

// What n words ask for, of which the first two are given; or the first word that can't be read, is missing or is too many.
pub fn ask(n: usize, first: &[u8], second: &[u8]) -> Result<Asked, Word>
    ensures { said (given n (first.now ∷ second.now ∷ [])) ≡ asked_words result }
{
    if n == 0 {
        return Err(Word::Depth);
    }
    let depth = arguments::up_to(first, usize::MAX).ok_or(Word::Depth)?;
    let left = n - 1;
    if left == 0 {
        return Err(Word::Bound);
    }
    let bound = arguments::up_to(second, usize::MAX).ok_or(Word::Bound)?;
    let further = left != 1;
    if further {
        return Err(Word::Further);
    }
    Ok(Asked { depth, bound })
}

// Which word, and what was expected.
pub fn word_line(w: Word, out: &mut [u8]) -> usize
    ensures { Put 256 out.old 0 (word_line (word_of w)) out.new result }
{
    match w {
        Word::Depth => put::put_bytes(
            out,
            0,
            b"word 1, DEPTH: expected a number of steps, at most 18446744073709551615\n",
        ),
        Word::Bound => put::put_bytes(
            out,
            0,
            b"word 2, BOUND: expected a number of steps tried, at most 18446744073709551615\n",
        ),
        Word::Further => put::put_bytes(
            out,
            0,
            b"word 3: expected no more than two words, DEPTH BOUND\n",
        ),
    }
}

// How far a long search is.
fn say(err: Stderr, tried: u64) {
    let mut line = [0u8; 64];
    let a = put_fields::put_size(&mut line, 0, b"tried=", tried as usize);
    let n = put::put_text(&mut line, a, b", nothing found yet\n");
    let _ = err.write_all(&line[..n]);
}

// The bound of the first search.
fn first_bound(most: u64) -> u64
    ensures { (result ≤ most) × (min most 1 ≤ result) }
{
    if most < 10000000 { most } else { 10000000 }
}

// That of the search after one in vain: ten times as many steps, or as many as are asked for.
fn next_bound(b: u64, most: u64) -> u64
    requires { (0 < b) × (b < most) }
    ensures { (b < result) × (result ≤ most) }
{
    if b < most / 10 { 10 * b } else { most }
}

// The exploration of a table that has no fault, by searches of growing bounds.
fn explore_loudly(err: Stderr, t: Table, depth: usize, most: u64, out: &mut [u8]) -> usize
    requires { fault t ≡ 0 }
    ensures { Put 131072 out.old 0 (explored_text t depth most) out.new result }
{
    let mut b = first_bound(most);
    loop {
        if let Some(len) = explore_text::explore_table(t, depth, b, out) {
            return len;
        }
        if most <= b {
            return refusals::put_refused(out, 18, 0);
        }
        say(err, b);
        b = next_bound(b, most);
    }
}

// The search that was asked for: the answer for a text's table, or the refusal of the text.
pub fn explore_asked(err: Stderr, s: &[u8], asked: Asked, out: &mut [u8]) -> usize
    ensures { Put 131072 out.old 0 (explore_text s.now asked.depth asked.bound) out.new result }
{
    let r = reader::read(s);
    if r.number != 0 {
        return refusals::put_refused(out, r.number, r.line);
    }
    let t = r.table;
    explore_loudly(err, t, asked.depth, asked.bound as u64, out)
}

// What the program answers to n words, of which the first two are given, and to a text on its standard input.
pub fn explore_words(
    err: Stderr,
    n: usize,
    first: &[u8],
    second: &[u8],
    s: &[u8],
    out: &mut [u8],
) -> Answer
    ensures { AnswerPut 131072 out.old (explore_answer (given n (first.now ∷ second.now ∷ [])) s.now) out.new result }
{
    match ask(n, first, second) {
        Ok(asked) => Answer::Prints(explore_asked(err, s, asked, out)),
        Err(w) => Answer::Says(word_line(w, out)),
    }
}
