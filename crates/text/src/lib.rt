// The faults of texts and tables, and what the reader and the writer answer.
#![tactic(auto)]

#[derive(Clone, Copy)]
pub enum Fault {
    // text over 65,536 bytes
    Long,
    // a wrong key, key order, kind, other word or spacing
    Form,
    // a misspelt number, operand or list, one out of order included
    Misspelt,
    // text that ends early or carries on after its last line
    Ended,
    // number outside its range
    Range,
    // index not the one due; node 0 not start, or start elsewhere
    Index,
    // reference to an undeclared item, or a target outside 1 to n-1
    Reference,
    // argument count differs from the callee's
    Arguments,
    // closed: absent target, wrong `-`, top parameter not dropped
    Unclosed,
    // an unused place that isn't 0
    Unused,
    // buffer shorter than the text
    Short,
}

// The number of each, as `number` in specs/ gives it.
pub const LONG: u8 = 1;

pub const FORM: u8 = 2;

pub const MISSPELT: u8 = 19;

pub const ENDED: u8 = 20;

pub const RANGE: u8 = 3;

pub const INDEX: u8 = 4;

pub const REFERENCE: u8 = 5;

pub const ARGUMENTS: u8 = 6;

pub const UNCLOSED: u8 = 7;

pub const UNUSED: u8 = 2;

pub const SHORT: u8 = 8;

// The kinds of nodes, by their words.
#[derive(Clone, Copy)]
pub enum NodeKind {
    Start,
    Set,
    Test,
    Read,
    Call,
    Wait,
    Signal,
    Send,
    Recv,
    Assert,
    Out,
    Return,
}

// The table, with number and line 0; or the number and the line of the first fault, with a table all 0.
// No Result, since a refusal too has a number, a line and a table all 0: `read`, and the round trips `written_read` and `read_written`.
#[derive(Clone, Copy)]
pub struct Reading {
    pub number: u8,
    pub line: usize,
    pub table: table::Table,
}

// The length of the text written, with number and line 0; or the number of the refusal, with line and length 0.
// No Result, since a refusal too has a number, a line and a length 0: `write_to`.
#[derive(Clone, Copy)]
pub struct Writing {
    pub number: u8,
    pub line: usize,
    pub len: usize,
}
