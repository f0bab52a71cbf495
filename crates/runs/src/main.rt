// Prints what the program `run` answers to many words and texts, so that it can be compared with what it should answer. Standard input holds
// the cases: the words SCHEDULE, VALUES, MOST and LOG and a text, each behind its length in five digits.

#![tactic(auto)]

use std::io::{Stdin, Stdout};

fn print(to: Stdout, first: &[u8], second: &[u8], third: &[u8], fourth: &[u8], text: &[u8]) {
    let mut schedule = [0u8; 100000];
    let mut values = [0i32; 100000];
    let mut out = [0u8; 65536];
    let a = run_words::run_words(
        4,
        first,
        second,
        third,
        fourth,
        text,
        &mut schedule,
        &mut values,
        &mut out,
    );
    let n = arguments::length(a);
    parts::print(to, &out, n);
}

// Prints the answer to the next case, read into buffers; none where there is no case.
fn answer_next(
    input: Stdin,
    to: Stdout,
    first: &mut [u8],
    second: &mut [u8],
    third: &mut [u8],
    fourth: &mut [u8],
    text: &mut [u8],
) -> Option<()> {
    let a = parts::word(input, first);
    let b = parts::word(input, second);
    let c = parts::word(input, third);
    let d = parts::word(input, fourth);
    let n = parts::next(input, text).ok()?;
    print(
        to,
        &first[..a],
        &second[..b],
        &third[..c],
        &fourth[..d],
        &text[..n],
    );
    Some(())
}

fn main(rt: HostRuntime) {
    let mut first = [0u8; 512];
    let mut second = [0u8; 512];
    let mut third = [0u8; 32];
    let mut fourth = [0u8; 32];
    let mut text = [0u8; 65537];
    for _ in 0..100000 {
        let next = answer_next(
            rt.stdin(),
            rt.stdout(),
            &mut first,
            &mut second,
            &mut third,
            &mut fourth,
            &mut text,
        );
        if next.is_none() {
            return;
        }
    }
}
