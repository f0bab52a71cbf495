// Prints the control-flow graphs of the table on standard input, in the language DOT: `graph < table.txt | dot -Tsvg > table.svg`. A text that
// is refused gives `refused=N line=L`.

#![tactic(auto)]

// Room for the longest graphs.
fn room() -> [u8; 936000] {
    [0; 936000]
}

fn main(rt: HostRuntime) {
    let help = b"graph < table.txt | dot -Tsvg > table.svg\n\
        Prints the control-flow graphs of the table on standard input, open or closed, in the language DOT of graphviz,\n\
        or refused=N line=L if the text has a fault. The standard error stream says why, and last written=BYTES if all was written.\n";
    if !console::no_words(
        rt,
        help,
        b"word 1: expected no word, as in graph < table.txt\n",
    ) {
        return;
    }
    let mut text = [0u8; 65537];
    let Some(n) = console::read_input(rt, &mut text) else {
        return;
    };
    let mut out = room();
    let len = graphs::graph_text(&text[..n], &mut out);
    reasons::print(rt, &out[..len]);
}
