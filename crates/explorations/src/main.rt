// Prints what the program `explore` answers to many words and texts, so that it can be compared with what it should answer. Standard input holds
// the cases: the words DEPTH and BOUND and a text, each behind its length in five digits.

#![tactic(auto)]

fn print(rt: HostRuntime, first: &[u8], second: &[u8], text: &[u8]) {
    let mut out = [0u8; 65536];
    let a = explore_words::explore_words(rt.stderr(), 2, first, second, text, &mut out);
    let n = arguments::length(a);
    parts::print(rt.stdout(), &out, n);
}

// Prints the answer to the next case, read into buffers; none where there is no case.
fn answer_next(
    rt: HostRuntime,
    first: &mut [u8],
    second: &mut [u8],
    text: &mut [u8],
) -> Option<()> {
    let a = parts::word(rt.stdin(), first);
    let b = parts::word(rt.stdin(), second);
    let n = parts::next(rt.stdin(), text).ok()?;
    print(rt, &first[..a], &second[..b], &text[..n]);
    Some(())
}

fn main(rt: HostRuntime) {
    let mut first = [0u8; 32];
    let mut second = [0u8; 32];
    let mut text = [0u8; 65537];
    for _ in 0..100000 {
        if answer_next(rt, &mut first, &mut second, &mut text).is_none() {
            return;
        }
    }
}
