// The arrays that hold a state while it is stepped.
// `marks_of` and `cells_of` (specs/Arrays.antt) say what stands where: `marks` has the frames open of each task, from 4 on whether it is lost, from 8 on the semaphores' counts, from 16 on the queues' lengths, from 32
// on the frames' procedures and from 64 on their nodes; `cells` has the frames' variables and from row 32 on the queues' entries.

#![tactic(auto)]

ghost use Rattle.std.specs.Prelude.{◌≡◌, true, List, [], ℕ, ◌<◌, ◌≤◌, ◌+◌, length, get_or, take, drop, pos};
ghost use Rattle.table.specs.Mask.{pick};
ghost use Rattle.table.specs.declared.Table.{Table};
ghost use Rattle.machine.specs.declared.State.{State};
ghost use Rattle.machine.specs.State.{begin};
ghost use Rattle.run_state.specs.Good.{Shape};
ghost use Rattle.run_state.specs.Arrays.{marks_of, cells_of};
ghost use Rattle.run_state.specs.Begins.{first_marks, no_cells, needed_in, input_row, Takes, Tops, Begins, Frames, entries_of, Queues, Stated, running_of};

use machine::{Entries, Frame, Running, State};
use table::{Sem, Task};

// The marks of the first state.
pub fn first(tasks: u8, task: [Task; 4], sem: [Sem; 8]) -> [u8; 96]
    requires { tasks ≤ 4 }
    ensures { result ≡ first_marks tasks task sem }
{
    let mut r = [0u8; 96];
    for i in 0..tasks as usize {
        r[i] = 1;
        r[32 + 8 * i] = task[i].top;
    }
    for j in 0..8 {
        r[8 + j] = sem[j].count;
    }
    r
}

// How many values the tasks take as inputs, `takes` of them by a top.
fn needed(tasks: u8, task: [Task; 4], takes: &[u8; 8]) -> usize
    requires { Tops tasks task takes.now }
    ensures { result ≡ needed_in task takes.now tasks 0 }
{
    let mut sum: usize = 0;
    for i in 0..tasks as usize {
        let p = task[i].top as usize;
        sum += takes[p] as usize;
    }
    sum
}

// The value at a place, or 0.
fn input(values: &[i32], at: usize, on: bool) -> i32
    requires { on ≡ true → at < length values.now }
    ensures { result ≡ pick on (get_or values.now at (pos 0)) (pos 0) }
{
    if on { values[at] } else { 0 }
}

// Variables with the next m values as inputs.
fn input_row(values: &[i32], used: usize, m: u8) -> [i32; 16]
    requires { (m ≤ 4) × (used + m ≤ length values.now) }
    ensures { result ≡ input_row (take m (drop used values.now)) }
{
    let a = input(values, used, 0 < m);
    let b = input(values, used + 1, 1 < m);
    let c = input(values, used + 2, 2 < m);
    let d = input(values, used + 3, 3 < m);
    [a, b, c, d, 0, 0, 0, 0, 0, 0, 0, 0, 0, 0, 0, 0]
}

// The cells of the first state, which are all 0, take the inputs: how many values are used then, none if there are too few.
pub fn begin<'a>(
    tasks: u8,
    task: [Task; 4],
    takes: &'a [u8; 8],
    cells: &'a mut [[i32; 16]; 40],
    values: &'a [i32],
) -> Option<usize>
    requires { Tops tasks task takes.now × (cells.old ≡ no_cells) }
    ensures { (t : Table) → Takes t tasks task takes.now → Begins t values.now (begin t values.now) result cells.new }
{
    if values.len() < needed(tasks, task, takes) {
        return None;
    }
    let mut used: usize = 0;
    for i in 0..tasks as usize {
        let p = task[i].top as usize;
        let m = takes[p];
        cells[8 * i] = input_row(values, used, m);
        used += m as usize;
    }
    Some(used)
}

// ---- the state that the arrays hold

fn frames<'a>(marks: &'a [u8; 96], cells: &'a [[i32; 16]; 40]) -> [Frame; 32]
    ensures { Frames marks.now cells.now result }
{
    let none = Frame {
        proc: 0,
        node: 0,
        vars: [0; 16],
    };
    let mut r = [none; 32];
    for i in 0..32 {
        r[i] = Frame {
            proc: marks[32 + i],
            node: marks[64 + i],
            vars: cells[i],
        };
    }
    r
}

fn entries(len: u8, row: &[i32; 16]) -> Entries
    requires { length row.now ≡ 16 }
    ensures { result ≡ entries_of len row.now }
{
    Entries {
        len,
        items: [
            row[0], row[1], row[2], row[3], row[4], row[5], row[6], row[7],
        ],
    }
}

fn queues<'a>(marks: &'a [u8; 96], cells: &'a [[i32; 16]; 40]) -> [Entries; 8]
    requires { (j : ℕ) → j < 40 → length (get_or cells.now j []) ≡ 16 }
    ensures { Queues marks.now cells.now result }
{
    let none = Entries {
        len: 0,
        items: [0; 8],
    };
    let mut r = [none; 8];
    for i in 0..8 {
        r[i] = entries(marks[16 + i], &cells[32 + i]);
    }
    r
}

// What the runner answers, with the state that the arrays hold.
pub fn answer<'a>(
    steps: usize,
    used: usize,
    stop: u8,
    marks: &'a [u8; 96],
    cells: &'a [[i32; 16]; 40],
) -> Running
    requires { Stated marks.now cells.now }
    ensures { (s : State) → Shape s → marks.now ≡ marks_of s → cells.now ≡ cells_of s → result ≡ running_of steps used stop s }
{
    let f = frames(marks, cells);
    let q = queues(marks, cells);
    Running {
        steps,
        used,
        stop,
        state: State {
            depth: [marks[0], marks[1], marks[2], marks[3]],
            lost: [marks[4] != 0, marks[5] != 0, marks[6] != 0, marks[7] != 0],
            frames: f,
            sems: [
                marks[8], marks[9], marks[10], marks[11], marks[12], marks[13], marks[14],
                marks[15],
            ],
            queues: q,
        },
    }
}
