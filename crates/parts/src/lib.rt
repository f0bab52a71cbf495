// Standard input in parts, each behind its length in five digits; and what is printed of a buffer.

#![tactic(auto)]

ghost use Rattle.std.specs.Prelude.{◌≡◌};
ghost use Rattle.parts.specs.Parts.{digit_of, size_of, Bytes, Next, Word};

use std::io::{Print, Stdin, Stdout};

// Why there is no whole part.
#[derive(Clone, Copy)]
pub enum Missing {
    // standard input ends before the five digits
    Ended,
    // the buffer has no room for as many bytes as the digits say, and none of them is read
    Long(usize),
    // standard input ends, or a read fails, before the part's end: how many bytes the digits say, and how many were read
    Cut(usize, usize),
}

// The value of a digit.
fn digit(b: u8) -> usize
    ensures { result ≡ digit_of b }
{
    (usize::from(b) + 2) % 10
}

// A number of five digits.
fn size(h: [u8; 5]) -> usize
    ensures { result ≡ size_of h }
{
    digit(h[0]) * 10000 + digit(h[1]) * 1000 + digit(h[2]) * 100 + digit(h[3]) * 10 + digit(h[4])
}

// Reads a part of n bytes to the start of a buffer, and answers n.
fn bytes(mut input: Stdin, n: usize, buffer: &mut [u8]) -> Result<usize, Missing>
    ensures { Bytes n buffer.old buffer.new result }
{
    if buffer.len() < n {
        return Err(Missing::Long(n));
    }
    let (len, _) = console::fill(&mut input, &mut buffer[..n]);
    if len < n {
        return Err(Missing::Cut(n, len));
    }
    Ok(n)
}

// Reads the next part to the start of a buffer, and answers its length.
pub fn next(mut input: Stdin, buffer: &mut [u8]) -> Result<usize, Missing>
    ensures { Next buffer.old buffer.new result }
{
    let mut h = [0u8; 5];
    if console::fill(&mut input, &mut h).0 < 5 {
        return Err(Missing::Ended);
    }
    bytes(input, size(h), buffer)
}

// Reads the next part, and answers how many bytes were read of it: all of them, those there of one cut short, none of one too long or missing.
pub fn word(input: Stdin, buffer: &mut [u8]) -> usize
    ensures { Word buffer.old buffer.new result }
{
    match next(input, buffer) {
        Ok(n) | Err(Missing::Cut(_, n)) => n,
        Err(_) => 0,
    }
}

// Prints the first n bytes of a buffer, if it has as many.
pub fn print(out: Stdout, buffer: &[u8], n: usize) {
    if n <= buffer.len() {
        let _ = out.write_all(&buffer[..n]);
    }
}
