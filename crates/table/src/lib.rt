// A task table as a plain value. A caller may make one by hand, faulty or not.
#![tactic(auto)]

// The number that stands for `-`, a removed variable, where a variable may be removed.
pub const REMOVED: u8 = 255;

#[derive(Clone, Copy)]
pub enum Operand {
    Var(u8),
    Const(i32),
}

#[derive(Clone, Copy)]
pub enum Op {
    Add,
    Sub,
    And,
    Or,
    Xor,
    Shr,
    Lt,
    Eq,
}

// The variables that a call passes, the first `len` of four places. No callee has more than four parameters, so a greater `len` is a fault.
// No list, since a hand-made table can have any count and any unused place, which `fault` judges.
#[derive(Clone, Copy)]
pub struct Args {
    pub len: u8,
    pub a0: u8,
    pub a1: u8,
    pub a2: u8,
    pub a3: u8,
}

// A node line. An arc is a set of targets: bit j for node j. `Absent` is a number with no node line.
#[derive(Clone, Copy)]
pub enum Node {
    Absent,
    Start {
        to: u32,
    },
    Set {
        var: u8,
        op: Op,
        a: Operand,
        b: Operand,
        to: u32,
    },
    Test {
        op: Op,
        a: Operand,
        b: Operand,
        yes: u32,
        no: u32,
    },
    Read {
        var: u8,
        to: u32,
    },
    Call {
        callee: u8,
        args: Args,
        to: u32,
    },
    Wait {
        sem: u8,
        to: u32,
    },
    Signal {
        sem: u8,
        to: u32,
    },
    Send {
        queue: u8,
        var: u8,
        to: u32,
    },
    Recv {
        queue: u8,
        var: u8,
        to: u32,
    },
    Assert {
        var: u8,
        to: u32,
    },
    Out {
        var: u8,
        to: u32,
    },
    Return,
}

// A place for a node.
#[derive(Clone, Copy)]
pub struct Slot {
    pub node: Node,
}

// A task line.
#[derive(Clone, Copy)]
pub struct Task {
    pub top: u8,
}

// A semaphore line.
#[derive(Clone, Copy)]
pub struct Sem {
    pub count: u8,
}

// A queue line. `blank` is of the closed form.
#[derive(Clone, Copy)]
pub struct Queue {
    pub cap: u8,
    pub blank: bool,
}

// A procedure line with its node lines. `drop`, of the closed form, is a set of parameters: bit i for parameter i.
#[derive(Clone, Copy)]
pub struct Proc {
    pub params: u8,
    pub vars: u8,
    pub nodes: u8,
    pub drop: u8,
    pub slots: [Slot; 32],
}

// A table. Places at or beyond a count are unused, and 0 in a table without a fault. No lists, since there is no heap, and since `fault` judges
// counts and unused places of a hand-made table, and `Shaped` in the round trip `written_read` has them.
#[derive(Clone, Copy)]
pub struct Table {
    pub trap: u8,
    pub closed: bool,
    pub tasks: u8,
    pub procs: u8,
    pub sems: u8,
    pub queues: u8,
    pub task: [Task; 4],
    pub sem: [Sem; 8],
    pub queue: [Queue; 8],
    pub proc: [Proc; 8],
}
