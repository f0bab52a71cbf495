// The number of a fault, and two numbers in one, as the library for Rust and C answers them.

#![tactic(auto)]

ghost use Rattle.std.specs.Prelude.{◌≡◌};
ghost use Rattle.text.specs.Fault.{number as number_of};
ghost use Rattle.codes.specs.Code.{packed};

use text::Fault;

// Document 01's number for a fault.
pub fn number(f: Fault) -> u8
    ensures { result ≡ number_of f }
{
    match f {
        Fault::Long => text::LONG,
        Fault::Form => text::FORM,
        Fault::Misspelt => text::MISSPELT,
        Fault::Ended => text::ENDED,
        Fault::Range => text::RANGE,
        Fault::Index => text::INDEX,
        Fault::Reference => text::REFERENCE,
        Fault::Arguments => text::ARGUMENTS,
        Fault::Unclosed => text::UNCLOSED,
        Fault::Unused => text::UNUSED,
        Fault::Short => text::SHORT,
    }
}

// A fault's or a stop's number times 2^32, plus the low 32 bits of a line, a length or a count of steps.
pub fn pack(number: u8, low: usize) -> u64
    ensures { result ≡ packed number low }
{
    (number as u64) * 4294967296 + (low as u64) % 4294967296
}
