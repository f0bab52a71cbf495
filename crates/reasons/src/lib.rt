// What the programs say on the standard error stream of a text that they printed: the reason of a refusal, or of a run's stop.

#![tactic(auto)]

ghost use Rattle.std.specs.Prelude.{◌≡◌, ◌++◌, ◌∷◌, [], ◌≤◌, ◌<◌, length};
ghost use Rattle.closing.specs.Reasons.{reason, place, reason_line, stop_line, stopped_line, of_stop, explained, written_line};
ghost use Rattle.text.specs.Line.{line};
ghost use Rattle.put.specs.Put.{Put};
ghost use Rattle.reasons.specs.Answer.{CountIn, CountAt, RefusalOf, StopOf};

use put::put_bytes;

// ---- reading

// The number from lo to hi at a place, and the place after it.
fn count_in(s: &[u8], at: usize, lo: u64, hi: u64) -> Option<(usize, usize)>
    requires { (at ≤ length s.now) × (hi < 4294967296) }
    ensures { CountIn lo hi s.now at result }
{
    let Ok((v, e)) = numbers::value_number(s, at) else {
        return None;
    };
    if v < lo || hi < v {
        return None;
    }
    Some((v as usize, e))
}

// That behind a key.
fn count_at(s: &[u8], at: usize, key: &[u8], lo: u64, hi: u64) -> Option<(usize, usize)>
    requires { (at ≤ length s.now) × (hi < 4294967296) }
    ensures { CountAt lo hi key.now s.now at result }
{
    let Ok(b) = scan::after(s, at, key) else {
        return None;
    };
    count_in(s, b, lo, hi)
}

// `refused=N line=L`: the number and the line.
fn refusal(s: &[u8]) -> Option<(usize, usize)>
    ensures { RefusalOf s.now result }
{
    let (n, a) = count_at(s, 0, b"refused=", 1, 20)?;
    let (l, b) = count_at(s, a, b" line=", 0, 999999)?;
    let Ok(_) = scan::feed(s, b) else {
        return None;
    };
    Some((n, l))
}

// `steps=S used=U stop=N`: the number and the steps.
fn stop(s: &[u8]) -> Option<(usize, usize)>
    ensures { StopOf s.now result }
{
    let (k, a) = count_at(s, 0, b"steps=", 0, 999999)?;
    let (_, b) = count_at(s, a, b" used=", 0, 999999)?;
    let (n, d) = count_at(s, b, b" stop=", 1, 20)?;
    let Ok(_) = scan::feed(s, d) else {
        return None;
    };
    Some((n, k))
}

// ---- writing

// The words of 1 to 7, the reader's numbers of document 01.
fn put_reader(out: &mut [u8], at: usize, n: usize) -> usize
    requires { (at ≤ 64) × (1 ≤ n) × (n ≤ 7) }
    ensures { Put 96 out.old at (reason n) out.new result }
{
    match n {
        1 => put_bytes(out, at, b"the text is longer than 65,536 bytes"),
        2 => put_bytes(
            out,
            at,
            b"wrong key, key order, kind, other word or spacing",
        ),
        3 => put_bytes(out, at, b"number outside its range"),
        4 => put_bytes(
            out,
            at,
            b"index is not the one due, node 0 is not a start, or a start stands elsewhere",
        ),
        5 => put_bytes(
            out,
            at,
            b"reference to an undeclared item, or a target outside 1 to nodes-1",
        ),
        6 => put_bytes(
            out,
            at,
            b"the call's argument count differs from the callee's params",
        ),
        _ => put_bytes(
            out,
            at,
            b"in closed form: absent target, wrong `-`, or a top procedure's parameter is not dropped",
        ),
    }
}

// Those of 8 and 9, the writer's and the closer's.
fn put_closer(out: &mut [u8], at: usize, n: usize) -> usize
    requires { (at ≤ 64) × (8 ≤ n) × (n ≤ 9) }
    ensures { Put 96 out.old at (reason n) out.new result }
{
    match n {
        8 => put_bytes(out, at, b"the buffer is shorter than the text"),
        _ => put_bytes(
            out,
            at,
            b"the table has the wrong form: an open one can be closed, a closed one explored",
        ),
    }
}

// Those of 10 to 16, the runner's.
fn put_runner(out: &mut [u8], at: usize, n: usize) -> usize
    requires { (at ≤ 64) × (10 ≤ n) × (n ≤ 16) }
    ensures { Put 96 out.old at (reason n) out.new result }
{
    match n {
        10 => put_bytes(out, at, b"no such task"),
        11 => put_bytes(out, at, b"fewer than 8 log bytes are left"),
        12 => put_bytes(out, at, b"the task is lost"),
        13 => put_bytes(out, at, b"the task is blocked"),
        14 => put_bytes(out, at, b"one dropped node more than allowed"),
        15 => put_bytes(out, at, b"the value list is spent"),
        _ => put_bytes(
            out,
            at,
            b"toss value below 0 or not below the arc's count of targets",
        ),
    }
}

// Those of 17 to 20: the explorer's, and the reader's of document 02.
fn put_later(out: &mut [u8], at: usize, n: usize) -> usize
    requires { (at ≤ 64) × (17 ≤ n) × (n ≤ 20) }
    ensures { Put 96 out.old at (reason n) out.new result }
{
    match n {
        17 => put_bytes(out, at, b"the depth is over 24"),
        18 => put_bytes(
            out,
            at,
            b"one step more than the bound is needed before an answer",
        ),
        19 => put_bytes(
            out,
            at,
            b"misspelt number, operand or list, or a list out of order",
        ),
        _ => put_bytes(
            out,
            at,
            b"the text ends early, or carries on after its last line",
        ),
    }
}

fn put_reason(out: &mut [u8], at: usize, n: usize) -> usize
    requires { (at ≤ 64) × (1 ≤ n) × (n ≤ 20) }
    ensures { Put 96 out.old at (reason n) out.new result }
{
    if n <= 7 {
        return put_reader(out, at, n);
    }
    if n <= 9 {
        return put_closer(out, at, n);
    }
    if n <= 16 {
        return put_runner(out, at, n);
    }
    put_later(out, at, n)
}

// The words and an LF.
fn put_words(out: &mut [u8], at: usize, n: usize) -> usize
    requires { (at ≤ 64) × (1 ≤ n) × (n ≤ 20) }
    ensures { Put 97 out.old at (reason n ++ (10 ∷ [])) out.new result }
{
    let a = put_reason(out, at, n);
    put::put_byte(out, a, b'\n')
}

// `line L: ` or `step K: `.
fn put_place(out: &mut [u8], key: &[u8], n: usize) -> usize
    requires { length key.now ≤ 5 }
    ensures { Put 27 out.old 0 (place key.now n) out.new result }
{
    let a = put_fields::put_size(out, 0, key, n);
    put::put_text(out, a, b": ")
}

fn put_refusal(out: &mut [u8], n: usize, line: usize) -> usize
    requires { (1 ≤ n) × (n ≤ 20) }
    ensures { Put 124 out.old 0 (reason_line n line) out.new result }
{
    if line == 0 {
        return put_words(out, 0, n);
    }
    let a = put_place(out, b"line ", line);
    put_words(out, a, n)
}

fn put_stop(out: &mut [u8], n: usize, steps: usize) -> usize
    requires { (1 ≤ n) × (n ≤ 20) }
    ensures { Put 124 out.old 0 (stop_line steps n) out.new result }
{
    let a = put_place(out, b"step ", steps);
    put_words(out, a, n)
}

// Of a text that is no refusal.
fn explain_stop(printed: &[u8], out: &mut [u8]) -> usize
    ensures { Put 124 out.old 0 (of_stop (line stopped_line 1 printed.now)) out.new result }
{
    match stop(printed) {
        Some((n, steps)) => put_stop(out, n, steps),
        None => 0,
    }
}

// The reason of the refusal that a program printed, or of the stop of the run that it reported; nothing of any other text.
pub fn explain(printed: &[u8], out: &mut [u8]) -> usize
    ensures { Put 124 out.old 0 (explained printed.now) out.new result }
{
    match refusal(printed) {
        Some((n, line)) => put_refusal(out, n, line),
        None => explain_stop(printed, out),
    }
}

// What is said last, when all of a text of n bytes was written.
fn put_written(out: &mut [u8], n: usize) -> usize
    ensures { Put 29 out.old 0 (written_line n) out.new result }
{
    let a = put_fields::put_size(out, 0, b"written=", n);
    put::put_byte(out, a, b'\n')
}

fn say_written(rt: HostRuntime, n: usize) {
    let mut line = [0u8; 32];
    let k = put_written(&mut line, n);
    console::say(rt, &line[..k]);
}

// Writes a text on standard output, and on the standard error stream what is said of it, whose length is the answer; last, if all of it was
// written, its length.
pub fn print(rt: HostRuntime, text: &[u8]) -> usize
    ensures { result ≡ length (explained text.now) }
{
    let mut line = [0u8; 128];
    let n = explain(text, &mut line);
    let whole = console::show(rt, text);
    console::say(rt, &line[..n]);
    if whole {
        say_written(rt, text.len());
    }
    n
}
