// What the program `run` answers to its words and a text, in two steps: what the words ask for, and the run or the word's line.

#![tactic(auto)]

ghost use Rattle.std.specs.Prelude.{◌≡◌, List, ◌∷◌, [], ℕ, ◌≤◌, ℤ, IfOk, length, take, replicate};
ghost use Rattle.machine.specs.Words.{given};
ghost use Rattle.machine.specs.Program.{most_items, most_bytes, said, word_line, run_text, run_answer};
ghost use Rattle.put.specs.Put.{Put};
ghost use Rattle.arguments.specs.Answers.{AnswerPut};
ghost use Rattle.run_words.specs.Words.{from_most, word_of, asked_words, unread_of, NumbersFit, Fits};

use arguments::Answer;
use log_word::Unread;

// The words; Further is one too many.
#[derive(Clone, Copy)]
pub enum Word {
    Schedule,
    Values,
    Most,
    Log,
    Further,
}

impl From<Unread> for Word {
    ghost from_gives = { λ u w. w ≡ unread_of u };

    fn from(word: Unread) -> Word {
        match word {
            Unread::Log => Word::Log,
            Unread::Further => Word::Further,
        }
    }
}

// The run that the words ask for: how many task numbers and values the lent lists have, the most dropped nodes per step and the log buffer's length.
#[derive(Clone, Copy)]
pub struct Asked {
    pub schedule: usize,
    pub values: usize,
    pub most: usize,
    pub log: usize,
}

// ---- what the words ask for; or the first word that can't be read, is missing or is too many

// From the word MOST on; n words are left.
fn ask_numbers(
    n: usize,
    schedule: usize,
    values: usize,
    third: &[u8],
    fourth: &[u8],
) -> Result<Asked, Word>
    ensures says { (ks : List ℕ) (vs : List ℤ) → from_most (take schedule ks) (take values vs) (given n (third.now ∷ fourth.now ∷ [])) ≡ asked_words ks vs result }
    ensures fits { IfOk result (NumbersFit schedule values) }
{
    if n == 0 {
        return Err(Word::Most);
    }
    let most = arguments::most(third).ok_or(Word::Most)?;
    let log = log_word::last_words(n - 1, fourth)?;
    Ok(Asked {
        schedule,
        values,
        most,
        log,
    })
}

// What n words ask for, of which the first four are given; the lists of a run are put into the lent ones.
pub fn ask(
    n: usize,
    first: &[u8],
    second: &[u8],
    third: &[u8],
    fourth: &[u8],
    schedule: &mut [u8],
    values: &mut [i32],
) -> Result<Asked, Word>
    requires { (most_items ≡ length schedule.old) × (most_items ≡ length values.old) }
    ensures says { said (given n (first.now ∷ second.now ∷ third.now ∷ fourth.now ∷ [])) ≡ asked_words schedule.new values.new result }
    ensures fits { IfOk result (Fits schedule.new values.new) }
{
    if n == 0 {
        return Err(Word::Schedule);
    }
    let a = arguments::schedule(first, schedule).ok_or(Word::Schedule)?;
    let left = n - 1;
    if left == 0 {
        return Err(Word::Values);
    }
    let b = arguments::values(second, values).ok_or(Word::Values)?;
    ask_numbers(left - 1, a, b, third, fourth)
}

// ---- what is answered

// Which word, and what was expected.
pub fn word_line(w: Word, out: &mut [u8]) -> usize
    ensures { Put 256 out.old 0 (word_line (word_of w)) out.new result }
{
    match w {
        Word::Schedule => put::put_bytes(
            out,
            0,
            b"word 1, SCHEDULE: expected at most 100000 task numbers from 0 to 255 with commas between, or none, or @FILE, a file with such a list, by commas or lines\n",
        ),
        Word::Values => put::put_bytes(
            out,
            0,
            b"word 2, VALUES: expected at most 100000 numbers from -2147483648 to 2147483647 with commas between, or none, or @FILE, a file with such a list, by commas or lines\n",
        ),
        Word::Most => put::put_bytes(
            out,
            0,
            b"word 3, MOST: expected a number of dropped nodes, at most 18446744073709551615\n",
        ),
        Word::Log => put::put_bytes(
            out,
            0,
            b"word 4, LOG: expected a number of bytes, at most 800000\n",
        ),
        Word::Further => put::put_bytes(
            out,
            0,
            b"word 5: expected no more than four words, SCHEDULE VALUES MOST LOG\n",
        ),
    }
}

// Zeros: the places of a log buffer.
fn log_buffer() -> [u8; 800000]
    ensures { result ≡ replicate 800000 0 }
{
    [0; 800000]
}

// The run that was asked for: its report, or the refusal of the text.
pub fn run_asked(asked: Asked, schedule: &[u8], values: &[i32], s: &[u8], out: &mut [u8]) -> usize
    requires { Fits schedule.now values.now asked }
    ensures { Put 5925000 out.old 0 (run_text s.now (take asked.schedule schedule.now) (take asked.values values.now) asked.most (replicate asked.log 0)) out.new result }
{
    let mut log = log_buffer();
    run_text::run_text(
        s,
        &schedule[..asked.schedule],
        &values[..asked.values],
        asked.most,
        &mut log[..asked.log],
        out,
    )
}

// What the program answers to n words, of which the first four are given, and to a text on its standard input.
pub fn run_words(
    n: usize,
    first: &[u8],
    second: &[u8],
    third: &[u8],
    fourth: &[u8],
    s: &[u8],
    schedule: &mut [u8],
    values: &mut [i32],
    out: &mut [u8],
) -> Answer
    requires { (most_items ≡ length schedule.old) × (most_items ≡ length values.old) }
    ensures { AnswerPut 5925000 out.old (run_answer (given n (first.now ∷ second.now ∷ third.now ∷ fourth.now ∷ [])) s.now) out.new result }
{
    match ask(n, first, second, third, fourth, schedule, values) {
        Ok(asked) => Answer::Prints(run_asked(asked, schedule, values, s, out)),
        Err(w) => Answer::Says(word_line(w, out)),
    }
}
