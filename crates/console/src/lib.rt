// What the programs share with the shell: their words, the standard streams, and what is told of a read or a write that failed.

#![tactic(auto)]

ghost use Rattle.std.specs.Prelude.{◌≡◌, ◌≤◌, ◌<◌, IfSome, OnOk, length, take};
ghost use Rattle.std.specs.Io.KnownBytes.{Consumes, IsAtEnd};
ghost use Rattle.text.specs.Number.{bytes};
ghost use Rattle.text.specs.Value.{same};

use std::env::{Env, FillError};
use std::io;
use std::io::{Error, Print, Read, Write};

// Whether word i was given.
fn is_given(rt: HostRuntime, i: usize) -> bool {
    let mut first = [0u8; 1];
    !matches!(rt.arg(i, &mut first), Err(FillError::NotPresent))
}

// How many words follow the program's name.
pub fn word_count(rt: HostRuntime) -> usize {
    (1..=usize::MAX).take_while(|i| is_given(rt, *i)).count()
}

// Puts word i at the start of a buffer, and answers its length; 0 where it is missing or longer than the buffer.
pub fn word(rt: HostRuntime, i: usize, buffer: &mut [u8]) -> usize
    ensures { result ≤ length buffer.new }
{
    rt.arg(i, buffer).unwrap_or(0)
}

// Whether a word asks for help.
pub fn is_help(word: &[u8]) -> bool
    ensures { result ≡ same (bytes "--help") word.now }
{
    scan::is_word(word, b"--help")
}

// Whether the first word asks for help, which is then shown.
pub fn helped(rt: HostRuntime, help: &[u8]) -> bool {
    let mut first = [0u8; 8];
    let n = word(rt, 1, &mut first);
    let asked = is_help(&first[..n]);
    if asked {
        show(rt, help);
    }
    asked
}

// Whether a program that takes no words has none; else it shows its help if that is asked for, or says that a word is too many.
pub fn no_words(rt: HostRuntime, help: &[u8], surplus: &[u8]) -> bool {
    let none = word_count(rt) == 0;
    if !none && !helped(rt, help) {
        say(rt, surplus);
    }
    none
}

// ---- reading

// Reads until the buffer is full, the input ends or a read fails: how many bytes it put at the start of the buffer, and the failure.
pub fn fill<R: Read>(from: &mut R, buffer: &mut [u8]) -> (usize, io::Result<()>)
    ensures within { result.0 ≤ length buffer.new }
    ensures bytes { Consumes (R.remaining from.old) (R.remaining from.new) (take result.0 buffer.new) }
    ensures end { OnOk result.1 (result.0 < length buffer.new → IsAtEnd (R.remaining from.new)) }
{
    let mut done = 0;
    while done < buffer.len() {
        match from.read(&mut buffer[done..]) {
            Ok(0) => break,
            Ok(n) => done += n,
            Err(error) => return (done, Err(error)),
        }
    }
    (done, Ok(()))
}

// The same, where a failure is told under a name: how many bytes were read, or none if a read failed.
pub fn read<R: Read>(rt: HostRuntime, from: &mut R, name: &[u8], buffer: &mut [u8]) -> Option<usize>
    ensures { IfSome result (λ n. n ≤ length buffer.new) }
{
    let (n, read) = fill(from, buffer);
    if let Err(error) = read {
        fail(rt, name, &error);
        return None;
    }
    Some(n)
}

// The text on standard input.
pub fn read_input(rt: HostRuntime, buffer: &mut [u8]) -> Option<usize>
    ensures { IfSome result (λ n. n ≤ length buffer.new) }
{
    read(rt, &mut rt.stdin(), b"standard input", buffer)
}

// ---- writing

// Writes on the standard error stream.
pub fn say(rt: HostRuntime, text: &[u8]) {
    let _ = rt.stderr().write_all(text);
}

// Writes on standard output, and answers whether all was written; if not, that is told.
pub fn show(rt: HostRuntime, text: &[u8]) -> bool {
    match rt.stdout().write_all(text) {
        Ok(()) => true,
        Err(error) => {
            fail(rt, b"standard output", &error);
            false
        }
    }
}

// Where an error's words end: at its number, which stands behind them in parentheses, or at the first byte that was not written.
fn words_end(text: &[u8]) -> usize
    ensures { result ≤ length text.now }
{
    for at in 0..text.len() {
        if text[at] == 0 || text[at..].starts_with(b" (os error ") {
            return at;
        }
    }
    text.len()
}

// Tells on the standard error stream that something failed, under its name, and the system's words for the error.
pub fn fail(rt: HostRuntime, name: &[u8], error: &Error) {
    let mut text = [0u8; 128];
    let mut room = text.as_mut_slice();
    let _ = write!(room, "{error}");
    let n = words_end(&text);
    say(rt, name);
    say(rt, b": ");
    say(rt, &text[..n]);
    say(rt, b"\n");
}
