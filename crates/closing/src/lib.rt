#![tactic(auto)]

// What the closer answers: the closed table, with number and line 0; or the number of the refusal, with line 0 and a table all 0.
// No Result, since a refusal too has a number, a line and a table all 0: `Answers`, and the theorem `close_is`.
#[derive(Clone, Copy)]
pub struct Closing {
    pub number: u8,
    pub line: usize,
    pub table: table::Table,
}
