// Closes the table whose text is on standard input: prints its closed text, or `refused=N line=L`.

#![tactic(auto)]

fn main(rt: HostRuntime) {
    let help = b"close < table.txt > closed.txt\n\
        Prints the closed table of the open table on standard input, or refused=N line=L if the text has a fault or is a closed table.\n\
        The standard error stream says why, and last written=BYTES if all was written.\n";
    if !console::no_words(
        rt,
        help,
        b"word 1: expected no word, as in close < table.txt\n",
    ) {
        return;
    }
    let mut text = [0u8; 65537];
    let Some(n) = console::read_input(rt, &mut text) else {
        return;
    };
    let mut out = [0u8; 65536];
    let len = closed_text::close_text(&text[..n], &mut out);
    reasons::print(rt, &out[..len]);
}
