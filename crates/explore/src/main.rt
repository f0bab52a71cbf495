// explore DEPTH BOUND < closed.txt

#![tactic(auto)]

use explore_words::{Asked, Word};

// What the words ask for; or the first that can't be read.
fn words(rt: HostRuntime) -> Result<Asked, Word> {
    let mut first = [0u8; 32];
    let a = console::word(rt, 1, &mut first);
    let mut second = [0u8; 32];
    let b = console::word(rt, 2, &mut second);
    let n = console::word_count(rt);
    explore_words::ask(n, &first[..a], &second[..b])
}

// Says which word can't be read, and what was expected.
fn say_word(rt: HostRuntime, w: Word) {
    let mut line = [0u8; 256];
    let n = explore_words::word_line(w, &mut line);
    console::say(rt, &line[..n]);
}

// Prints the answer to the search that was asked for, or the refusal of the text.
fn print_search(rt: HostRuntime, asked: Asked) {
    let mut text = [0u8; 65537];
    let Some(n) = console::read_input(rt, &mut text) else {
        return;
    };
    let mut out = [0u8; 131072];
    let len = explore_words::explore_asked(rt.stderr(), &text[..n], asked, &mut out);
    reasons::print(rt, &out[..len]);
}

fn main(rt: HostRuntime) {
    let help = b"explore DEPTH BOUND < closed.txt\n\
        Tries every task order and every toss of the closed table on standard input, and prints the first path that comes to a standstill or fails \
        an assertion, with the state; or found=none.\n\
        DEPTH: the most steps of a path, at most 24.\n\
        BOUND: the most steps tried in all.\n\
        The standard error stream says how many steps a long search has tried and why a text is refused, and last written=BYTES if all was written.\n\
        Example: paths of at most 12 steps, and at most a million steps tried.\n\
        explore 12 1000000 < closed.txt\n";
    if console::helped(rt, help) {
        return;
    }
    match words(rt) {
        Ok(asked) => print_search(rt, asked),
        Err(w) => say_word(rt, w),
    }
}
