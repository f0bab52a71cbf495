// The library for Rust and C: texts and numbers in, numbers and lent bytes out. A refusal is its number times 2^32 plus its line (`packed`).

#![tactic(auto)]

ghost use Rattle.std.specs.Prelude.{◌≡◌};
ghost use Rattle.text.specs.Reader.{read};
ghost use Rattle.closing.specs.Program.{printed};
ghost use Rattle.put.specs.Put.{Put};
ghost use Rattle.run_text.specs.Text.{TextRun};
ghost use Rattle.codes.specs.Code.{packed};
ghost use Rattle.bufshani_c.specs.Texts.{rewritten, stepped};

use codes::pack;

// 0 for an accepted text, or its refusal.
#[unsafe(no_mangle)]
pub extern "C" fn bufshani_read(text: &[u8]) -> u64
    ensures { result ≡ packed (read text.now).number (read text.now).line }
{
    let r = reader::read(text);
    pack(r.number, r.line)
}

// Writes the table of a text into a buffer: the length written, or the refusal of the text or of the buffer.
#[unsafe(no_mangle)]
pub extern "C" fn bufshani_write(text: &[u8], out: &mut [u8]) -> u64
    ensures answer { result ≡ (rewritten text.now out.old).answer }
    ensures buffer { out.new ≡ (rewritten text.now out.old).buffer }
{
    let r = reader::read(text);
    if r.number != 0 {
        return pack(r.number, r.line);
    }
    let t = r.table;
    let w = writer::write_ready(t, out);
    pack(w.number, w.len)
}

// What the closing program prints, as far as the buffer reaches, and its length.
#[unsafe(no_mangle)]
pub extern "C" fn bufshani_close(text: &[u8], out: &mut [u8]) -> usize
    ensures { Put 65536 out.old 0 (printed text.now) out.new result }
{
    closed_text::close_text(text, out)
}

// What the program `run` prints for a text, as far as the buffer reaches, and its length, at most 5,925,000. Of the log buffer the first
// 800,000 bytes are used, which is room for 100,000 steps.
#[unsafe(no_mangle)]
pub extern "C" fn bufshani_run(
    text: &[u8],
    schedule: &[u8],
    values: &[i32],
    most: usize,
    log: &mut [u8],
    out: &mut [u8],
) -> usize
    ensures { TextRun text.now schedule.now values.now most log.old log.new out.old out.new result }
{
    run_text::run_text(text, schedule, values, most, log, out)
}

// Runs the table of a text with no report: the stop number times 2^32 plus the low 32 bits of the steps completed, or the refusal of the text. All
// of the log buffer is used.
#[unsafe(no_mangle)]
pub extern "C" fn bufshani_steps(
    text: &[u8],
    schedule: &[u8],
    values: &[i32],
    most: usize,
    log: &mut [u8],
) -> u64
    ensures answer { result ≡ (stepped text.now schedule.now values.now most log.old).answer }
    ensures log { log.new ≡ (stepped text.now schedule.now values.now most log.old).buffer }
{
    let r = reader::read(text);
    if r.number != 0 {
        return pack(r.number, r.line);
    }
    let t = r.table;
    let a = runner::run_valid(t, schedule, values, most, log);
    pack(a.stop, a.steps)
}
