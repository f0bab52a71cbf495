// The line that the programs print of a refusal.

#![tactic(auto)]

ghost use Rattle.closing.specs.Program.{refused_line};
ghost use Rattle.put.specs.Put.{Put};

// `refused=N line=L` and an LF.
pub fn put_refused(out: &mut [u8], n: u8, line: usize) -> usize
    ensures { Put 38 out.old 0 (refused_line n line) out.new result }
{
    let a = put_fields::put_count(out, 0, b"refused=", n);
    let b = put_fields::put_size(out, a, b" line=", line);
    put::put_byte(out, b, b'\n')
}
