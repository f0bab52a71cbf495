// The state of a run, and what the runner answers.
#![tactic(auto)]

// An open frame: its procedure, the node before which it stands (below the topmost: its call node), its variables.
#[derive(Clone, Copy)]
pub struct Frame {
    pub proc: u8,
    pub node: u8,
    pub vars: [i32; 16],
}

// A queue's entries, the oldest first, in the first `len` of eight places, since there is no heap.
#[derive(Clone, Copy)]
pub struct Entries {
    pub len: u8,
    pub items: [i32; 8],
}

// A state. Task i has `depth[i]` frames open, from place 8 i on; unused places are 0. Of a lost task the topmost frame's node is 0.
#[derive(Clone, Copy)]
pub struct State {
    pub depth: [u8; 4],
    pub lost: [bool; 4],
    pub frames: [Frame; 32],
    pub sems: [u8; 8],
    pub queues: [Entries; 8],
}

// Steps completed, values used, the stop number, 0 when the schedule ends, and the state.
// No Result, since a run that stops has all four too: `run`, and the theorems `demand_3` and `demand_3_stopped`.
#[derive(Clone, Copy)]
pub struct Running {
    pub steps: usize,
    pub used: usize,
    pub stop: u8,
    pub state: State,
}

// Document 01's numbers of the stops of a run.
pub const NO_SUCH_TASK: u8 = 10;

pub const LOG_FULL: u8 = 11;

pub const TASK_LOST: u8 = 12;

pub const TASK_BLOCKED: u8 = 13;

pub const TOO_MANY: u8 = 14;

pub const VALUES_SPENT: u8 = 15;

pub const BAD_TOSS: u8 = 16;
