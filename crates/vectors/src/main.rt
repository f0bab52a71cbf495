// Shows what the library answers to many texts, so that it can be compared with what it should answer. Standard input holds the texts,
// each behind its length in five digits. For each, a line with the reader's number and line; for an accepted one also what writing its table
// answers in a buffer of the text's length, whether that gives the same text, and what it answers in a buffer of one byte less; then
// what the closing program prints.

#![tactic(auto)]

ghost use Rattle.std.specs.Prelude.{◌≤◌, length};

use std::io::{Print, Stdout};

fn show(out: Stdout, key: &[u8], n: usize)
    requires { length key.now ≤ 64 }
{
    let mut line = [0u8; 128];
    let e = put_fields::put_size(&mut line, 0, key, n);
    if e <= 128 {
        let _ = out.write_all(&line[..e]);
    }
}

// Writing into a buffer of the text's length.
fn exact(to: Stdout, s: &[u8], t: table::Table, out: &mut [u8]) {
    let w = bufshani::write(t, out);
    show(to, b" write=", w.number as usize);
    show(to, b" length=", w.len);
    if scan::is_word(out, s) {
        let _ = to.write_all(b" same=yes");
    } else {
        let _ = to.write_all(b" same=no");
    }
}

// Writing into a buffer of one byte less.
fn short(to: Stdout, t: table::Table, out: &mut [u8]) {
    let w = bufshani::write(t, out);
    show(to, b" short=", w.number as usize);
}

fn written(to: Stdout, s: &[u8], t: table::Table, out: &mut [u8]) {
    let n = s.len();
    if n == 0 || out.len() < n {
        return;
    }
    exact(to, s, t, &mut out[..n]);
    short(to, t, &mut out[..n - 1]);
}

fn answers(to: Stdout, s: &[u8]) {
    let mut out = [0u8; 65536];
    let r = bufshani::read(s);
    show(to, b"number=", r.number as usize);
    show(to, b" line=", r.line);
    if r.number == 0 {
        let t = r.table;
        written(to, s, t, &mut out);
    }
    let _ = to.write_all(b"\n");
    print(to, s);
}

// What the closing program prints.
fn print(to: Stdout, s: &[u8]) {
    let mut out = [0u8; 65536];
    let n = bufshani::close_text(s, &mut out);
    let _ = to.write_all(&out[..n]);
}

fn main(rt: HostRuntime) {
    let mut text = [0u8; 65537];
    for _ in 0..100000 {
        let Ok(n) = parts::next(rt.stdin(), &mut text) else {
            return;
        };
        answers(rt.stdout(), &text[..n]);
    }
}
