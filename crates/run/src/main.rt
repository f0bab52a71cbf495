// run SCHEDULE VALUES MOST LOG < table.txt

#![tactic(auto)]

ghost use Rattle.std.specs.Prelude.{◌≡◌, ◌≤◌, ◌+◌, IfSome, IfOk, length, replicate};
ghost use Rattle.machine.specs.Program.{most_items};
ghost use Rattle.run_words.specs.Words.{Fits};

use run_words::{Asked, Word};
use std::fs::File;
use std::io::Error;

// ---- places: for task numbers, for values, and for what is printed

fn task_buffer() -> [u8; 100000]
    ensures { most_items ≡ length result }
{
    [0; 100000]
}

fn value_buffer() -> [i32; 100000]
    ensures { most_items ≡ length result }
{
    [0i32; 100000]
}

fn out_buffer() -> [u8; 5925000]
    ensures { result ≡ replicate 5925000 0 }
{
    [0; 5925000]
}

// Room for a word that names a file.
fn word_buffer() -> [u8; 4096]
    ensures { 4096 ≡ length result }
{
    [0; 4096]
}

// ---- the words

// The errors of a name that is too long, and of one that is no text: the system's numbers for them.
const TOO_LONG: i32 = 36;

const NO_TEXT: i32 = 84;

// A file that is open for reading. What fails is told under the file's name.
fn open(rt: HostRuntime, name: &[u8]) -> Option<File> {
    let Ok(path) = std::str::from_utf8(name) else {
        console::fail(rt, name, &Error::from_raw_os_error(NO_TEXT));
        return None;
    };
    match File::open(&rt, path) {
        Ok(file) => Some(file),
        Err(error) => {
            console::fail(rt, name, &error);
            None
        }
    }
}

// A file's bytes, fewer than the buffer has places. What fails is told under the file's name.
fn read_file(rt: HostRuntime, name: &[u8], buffer: &mut [u8]) -> Option<usize>
    ensures { IfSome result (λ n. n ≤ length buffer.new) }
{
    let mut file = open(rt, name)?;
    let n = console::read(rt, &mut file, name, buffer)?;
    if n == buffer.len() {
        console::say(rt, name);
        console::say(rt, b": longer than the longest list\n");
        return None;
    }
    Some(n)
}

// The word that the file stands for that word i names behind its first byte.
fn file_word(rt: HostRuntime, i: usize, buffer: &mut [u8]) -> Option<usize>
    ensures { IfSome result (λ n. n ≤ length buffer.new) }
{
    let mut word = word_buffer();
    let n = console::word(rt, i, &mut word);
    if n == 0 {
        console::fail(rt, b"@FILE", &Error::from_raw_os_error(TOO_LONG));
        return None;
    }
    let k = read_file(rt, &word[1..n], buffer)?;
    let m = arguments::file_word(&mut buffer[..k]);
    Some(m)
}

// Word i, or the file's for `@FILE`; none where the file can't be read, which is told.
fn list_word(rt: HostRuntime, i: usize, buffer: &mut [u8]) -> Option<usize>
    ensures { IfSome result (λ n. n ≤ length buffer.new) }
{
    let n = console::word(rt, i, buffer);
    if 1 < n && buffer[0] == b'@' {
        return file_word(rt, i, buffer);
    }
    Some(n)
}

// Word i, put into a part of a place.
fn word_at(rt: HostRuntime, i: usize, place: &mut [u8], from: usize, to: usize) -> Option<usize>
    requires { (from ≤ to) × (to ≤ length place.old) }
    ensures { IfSome result (λ n. from + n ≤ to) }
{
    let n = list_word(rt, i, &mut place[from..to])?;
    Some(n)
}

// What the words ask for, where those of both lists stand in one place; the lists of a run are put into the lent ones.
fn ask(
    rt: HostRuntime,
    place: &[u8],
    a: usize,
    second: usize,
    end: usize,
    schedule: &mut [u8],
    values: &mut [i32],
) -> Result<Asked, Word>
    requires { (a ≤ length place.now) × (second ≤ end) × (end ≤ length place.now) × (most_items ≡ length schedule.old) × (most_items ≡ length values.old) }
    ensures { IfOk result (Fits schedule.new values.new) }
{
    let mut third = [0u8; 32];
    let c = console::word(rt, 3, &mut third);
    let mut fourth = [0u8; 32];
    let d = console::word(rt, 4, &mut fourth);
    let n = console::word_count(rt);
    run_words::ask(
        n,
        &place[..a],
        &place[second..end],
        &third[..c],
        &fourth[..d],
        schedule,
        values,
    )
}

// The same, with the place lent: the longest word of each list and one byte more; none where a file can't be read, which is told.
fn words(
    rt: HostRuntime,
    place: &mut [u8],
    schedule: &mut [u8],
    values: &mut [i32],
) -> Option<Result<Asked, Word>>
    requires { (1600002 ≤ length place.old) × (most_items ≡ length schedule.old) × (most_items ≡ length values.old) }
    ensures { IfSome result (λ r. IfOk r (Fits schedule.new values.new)) }
{
    let a = word_at(rt, 1, place, 0, 400001)?;
    let b = word_at(rt, 2, place, 400001, 1600002)?;
    Some(ask(rt, place, a, 400001, 400001 + b, schedule, values))
}

// ---- the answer

// Says which word can't be read, and what was expected.
fn say_word(rt: HostRuntime, w: Word) {
    let mut line = [0u8; 256];
    let n = run_words::word_line(w, &mut line);
    console::say(rt, &line[..n]);
}

// Prints the report of the run that was asked for, or the refusal of the text.
fn print_run(rt: HostRuntime, asked: Asked, schedule: &[u8], values: &[i32], out: &mut [u8])
    requires { (Fits schedule.now values.now asked) × (5925000 ≤ length out.old) }
{
    let mut text = [0u8; 65537];
    let Some(n) = console::read_input(rt, &mut text) else {
        return;
    };
    let len = run_words::run_asked(asked, schedule, values, &text[..n], out);
    reasons::print(rt, &out[..len]);
}

fn main(rt: HostRuntime) {
    let help = b"run SCHEDULE VALUES MOST LOG < table.txt\n\
        Runs the table on standard input and prints the completed steps, the values used and the stop number, each step, and the state.\n\
        SCHEDULE: the task number of each step, from 0 to 255 with commas between, at most 100000; or none.\n\
        VALUES: what the sensors of an open table read, or the tosses of a closed one, in the order of use: numbers from -2147483648 to 2147483647 \
        with commas between, at most 100000; or none.\n\
        MOST: the most dropped nodes of a step.\n\
        LOG: the length of the log in bytes, 8 for each step, at most 800000.\n\
        In the place of SCHEDULE or VALUES, @FILE names a file with the list, whose items have commas or lines between.\n\
        The standard error stream says why a text is refused or a run stops, and last written=BYTES if all was written.\n\
        Example: three steps of task 0, whose sensor reads 120, with at most 5 dropped nodes each.\n\
        run 0,0,0 120 5 24 < table.txt\n";
    if console::helped(rt, help) {
        return;
    }
    let mut schedule = task_buffer();
    let mut values = value_buffer();
    // the words stand where the answer is printed from, since both and the log don't fit the default stack
    let mut out = out_buffer();
    match words(rt, &mut out, &mut schedule, &mut values) {
        Some(Ok(asked)) => print_run(rt, asked, &schedule, &values, &mut out),
        Some(Err(w)) => say_word(rt, w),
        None => {}
    }
}
