// The fault of each value and of each node line.

#![tactic(auto)]

ghost use Rattle.std.specs.Prelude.{◌≡◌, Result, true, false, not, ◌&&◌, ◌||◌, ℕ, suc, ◌≤◌, ◌<◌};
ghost use Rattle.table.specs.Table.{is_absent};
ghost use Rattle.text.specs.Value.{check, from, one_of, operation, operand as operand_of, variable as variable_of, arguments as argumentsOf, unless, or_else, due_at, none_removed, all_declared};
ghost use Rattle.text.specs.declared.Fault.TheVariants.{Form, Index};
ghost use Rattle.text.specs.Format.{name_of, arg_names, describe};
ghost use Rattle.targets.specs.Judged.{judged};
ghost use Rattle.checks.specs.ArgumentChecks.{removed_at, declared_at};
ghost use Rattle.checks.specs.NodeChecks.{scope_in, described_fault, place_judged};

use table::{Args, Node, Op, Operand, REMOVED};
use targets::targets;
use text::Fault;

// What the values of a node line are judged by.
#[derive(Clone, Copy)]
pub struct Limits {
    pub closed: bool,
    pub procs: u8,
    pub sems: u8,
    pub queues: u8,
    pub vars: u8,
    pub nodes: u8,
}

// A number from lo to hi.
pub fn between(lo: u8, v: u8, hi: u8) -> Result<(), Fault>
    ensures { result ≡ judged (check (from lo hi) v) }
{
    if v < lo || hi < v {
        return Err(Fault::Range);
    }
    Ok(())
}

// A reference to one of n.
pub fn reference(v: u8, n: u8) -> Result<(), Fault>
    ensures { result ≡ judged (check (one_of n) v) }
{
    if v < n { Ok(()) } else { Err(Fault::Reference) }
}

// A test has lt or eq.
pub fn compares(o: Op) -> Result<(), Fault>
    ensures { result ≡ judged (check (operation true) o) }
{
    match o {
        Op::Lt | Op::Eq => Ok(()),
        Op::Add | Op::Sub | Op::And | Op::Or | Op::Xor | Op::Shr => Err(Fault::Form),
    }
}

// An operand, with so many variables declared.
pub fn operand(o: Operand, vars: u8) -> Result<(), Fault>
    ensures { result ≡ judged (check (operand_of vars) o) }
{
    match o {
        Operand::Var(v) => reference(v, vars),
        Operand::Const(z) => constant(z),
    }
}

// A constant has 32 bits, so it lies in its range.
fn constant(z: i32) -> Result<(), Fault>
    ensures { (n : ℕ) → result ≡ judged (check (operand_of n) (Operand.Const z)) }
{
    Ok(())
}

// A variable, which in closed form may be removed.
pub fn variable(closed: bool, vars: u8, v: u8) -> Result<(), Fault>
    ensures { result ≡ judged (check (variable_of closed vars) (name_of v)) }
{
    if v != REMOVED {
        return reference(v, vars);
    }
    if closed { Ok(()) } else { Err(Fault::Misspelt) }
}

// Place k of a call with so many arguments is used and removed.
pub fn removed_at(len: u8, k: u8, v: u8) -> bool
    ensures { result ≡ removed_at len k v }
{
    k < len && v == REMOVED
}

// Place k of a call with so many arguments is unused, removed or a variable that is declared.
fn declared_at(len: u8, k: u8, v: u8, vars: u8) -> bool
    ensures { result ≡ declared_at vars len k v }
{
    len <= k || v == REMOVED || v < vars
}

fn some_removed(xs: Args) -> bool
    ensures { result ≡ not (none_removed (arg_names xs)) }
{
    removed_at(xs.len, 0, xs.a0)
        || removed_at(xs.len, 1, xs.a1)
        || removed_at(xs.len, 2, xs.a2)
        || removed_at(xs.len, 3, xs.a3)
}

// Arguments past the fourth repeat the fourth.
fn all_declared(vars: u8, xs: Args) -> bool
    ensures { result ≡ all_declared vars (arg_names xs) }
{
    declared_at(xs.len, 0, xs.a0, vars)
        && declared_at(xs.len, 1, xs.a1, vars)
        && declared_at(xs.len, 2, xs.a2, vars)
        && declared_at(xs.len, 3, xs.a3, vars)
}

// Only a closed table removes arguments.
fn misspelt(closed: bool, xs: Args) -> bool
    ensures { result ≡ not (closed || none_removed (arg_names xs)) }
{
    !closed && some_removed(xs)
}

// A call's variables, which in closed form may be removed.
pub fn arguments(closed: bool, vars: u8, xs: Args) -> Result<(), Fault>
    ensures { result ≡ judged (check (argumentsOf closed vars) (arg_names xs)) }
{
    if misspelt(closed, xs) {
        return Err(Fault::Misspelt);
    }
    if !all_declared(vars, xs) {
        return Err(Fault::Reference);
    }
    Ok(())
}

// Node 0 is the only start: place j has one, or another kind.
fn due(start: bool, j: usize) -> Result<(), Fault>
    ensures { result ≡ judged (unless (due_at j start) Index) }
{
    if start == (j == 0) {
        Ok(())
    } else {
        Err(Fault::Index)
    }
}

// A closed table has no read.
fn reads(closed: bool, j: usize) -> Result<(), Fault>
    ensures { result ≡ judged (or_else (unless (not closed) Form) (unless (due_at j false) Index)) }
{
    if closed {
        return Err(Fault::Form);
    }
    due(false, j)
}

// The line of the node at place j; none where a node is due and absent: which fault that is depends on the places behind it. Only in closed form, and there
// behind place 0, may a node be absent.
pub fn node(x: Node, j: usize, c: Limits) -> Option<Result<(), Fault>>
    requires { c.nodes ≤ 32 }
    ensures { result ≡ place_judged (scope_in c) j (describe (scope_in c) x) }
{
    if !absent(x) {
        return Some(line(x, j, c));
    }
    if c.closed && j != 0 {
        Some(Ok(()))
    } else {
        None
    }
}

// The line of the node at place j.
fn line(x: Node, j: usize, c: Limits) -> Result<(), Fault>
    requires { c.nodes ≤ 32 }
    ensures { result ≡ judged (described_fault (scope_in c) j (describe (scope_in c) x)) }
{
    match x {
        Node::Absent => Ok(()),
        Node::Start { to } => {
            due(true, j)?;
            targets(c.closed, c.nodes, to)
        }
        Node::Set { var, a, b, to, .. } => {
            due(false, j)?;
            reference(var, c.vars)?;
            operand(a, c.vars)?;
            operand(b, c.vars)?;
            targets(c.closed, c.nodes, to)
        }
        Node::Test { op, a, b, yes, no } => {
            due(false, j)?;
            compares(op)?;
            operand(a, c.vars)?;
            operand(b, c.vars)?;
            targets(c.closed, c.nodes, yes)?;
            targets(c.closed, c.nodes, no)
        }
        Node::Read { var, to } => {
            reads(c.closed, j)?;
            reference(var, c.vars)?;
            targets(c.closed, c.nodes, to)
        }
        Node::Call { callee, args, to } => {
            due(false, j)?;
            reference(callee, c.procs)?;
            arguments(c.closed, c.vars, args)?;
            targets(c.closed, c.nodes, to)
        }
        Node::Wait { sem, to } | Node::Signal { sem, to } => {
            due(false, j)?;
            reference(sem, c.sems)?;
            targets(c.closed, c.nodes, to)
        }
        Node::Send { queue, var, to } | Node::Recv { queue, var, to } => {
            due(false, j)?;
            reference(queue, c.queues)?;
            variable(c.closed, c.vars, var)?;
            targets(c.closed, c.nodes, to)
        }
        Node::Assert { var, to } | Node::Out { var, to } => {
            due(false, j)?;
            variable(c.closed, c.vars, var)?;
            targets(c.closed, c.nodes, to)
        }
        Node::Return => due(false, j),
    }
}

pub fn absent(x: Node) -> bool
    ensures { result ≡ is_absent x }
{
    matches!(x, Node::Absent)
}
