// The late fault of a node: an argument count that differs from the callee's, and what only a closed table can have wrong.

#![tactic(auto)]

ghost use Rattle.std.specs.Prelude.{◌≡◌, Result, ◌≤◌, ◌<◌, ◌%◌, ◌^◌, get_or};
ghost use Rattle.table.specs.Mask.{pick, mask_of};
ghost use Rattle.table.specs.Table.{no_queue, arg_at};
ghost use Rattle.text.specs.Reader.{iff};
ghost use Rattle.targets.specs.Judged.{judged};
ghost use Rattle.checks.specs.ArgumentChecks.{removed_at};
ghost use Rattle.late_nodes.specs.Terms.{no_callee, if_closed, arc_fault, count_fault, removal_fault, blank_fault, call_fault, transfer_fault, node_fault_by};

use table::{Args, Node, Queue, REMOVED};
use text::Fault;

// What a call is judged by.
#[derive(Clone, Copy)]
pub struct Callee {
    pub params: u8,
    pub drop: u8,
}

// What the nodes of a table are judged by.
#[derive(Clone, Copy)]
pub struct Terms {
    pub closed: bool,
    pub callee: [Callee; 8],
    pub queue: [Queue; 8],
}

// The arguments are as many as the parameters.
fn count(len: u8, params: u8) -> Result<(), Fault>
    ensures { result ≡ judged (count_fault len params) }
{
    if len == params {
        Ok(())
    } else {
        Err(Fault::Arguments)
    }
}

// What only a closed table can have wrong.
fn unclosed(closed: bool, right: bool) -> Result<(), Fault>
    ensures { result ≡ judged (if_closed closed right) }
{
    if closed && !right {
        return Err(Fault::Unclosed);
    }
    Ok(())
}

// In closed form every target is one of the nodes present.
fn arc(closed: bool, present: u32, to: u32) -> Result<(), Fault>
    ensures { result ≡ judged (arc_fault closed present to) }
{
    unclosed(closed, to & present == to)
}

// The mask with k alone.
pub fn power(k: u8) -> u32
    requires { k < 32 }
    ensures { result ≡ 2 ^ k }
{
    1u32 << k
}

// The parameters below the n-th that are dropped.
pub fn low(drop: u8, n: u8) -> u32
    ensures { result ≡ drop % 2 ^ n }
{
    if 8 <= n {
        return u32::from(drop);
    }
    u32::from(drop) % power(n)
}

fn removed_bit(len: u8, k: u8, v: u8) -> u32
    requires { k < 4 }
    ensures held { result ≡ pick (removed_at len k v) (2 ^ k) 0 }
    ensures small { result ≤ 8 }
{
    if checks::removed_at(len, k, v) {
        power(k)
    } else {
        0
    }
}

// The set of the arguments that are removed.
fn removed(xs: Args) -> u32
    ensures { result ≡ mask_of 4 (λ i. removed_at xs.len i (arg_at xs i)) }
{
    let a = removed_bit(xs.len, 0, xs.a0);
    let b = removed_bit(xs.len, 1, xs.a1);
    let c = removed_bit(xs.len, 2, xs.a2);
    let d = removed_bit(xs.len, 3, xs.a3);
    a + b + c + d
}

// In closed form an argument is removed if and only if its parameter is dropped.
fn removals(closed: bool, drop: u8, xs: Args) -> Result<(), Fault>
    ensures { result ≡ judged (removal_fault closed drop xs) }
{
    unclosed(closed, removed(xs) == low(drop, xs.len))
}

// In closed form what is sent or received is removed if and only if the queue is blank.
fn blanks(closed: bool, var: u8, blank: bool) -> Result<(), Fault>
    ensures { result ≡ judged (blank_fault closed var blank) }
{
    unclosed(closed, (var == REMOVED) == blank)
}

// What a call of procedure k is judged by.
pub fn callee_at(callee: [Callee; 8], k: u8) -> Callee
    ensures { result ≡ get_or callee k no_callee }
{
    if k < 8 {
        callee[usize::from(k)]
    } else {
        Callee { params: 0, drop: 0 }
    }
}

fn blank_at(queue: [Queue; 8], k: u8) -> bool
    ensures { result ≡ (get_or queue k no_queue).blank }
{
    k < 8 && queue[usize::from(k)].blank
}

fn call(c: Terms, present: u32, callee: u8, args: Args, to: u32) -> Result<(), Fault>
    ensures { result ≡ judged (call_fault c present callee args to) }
{
    let p = callee_at(c.callee, callee);
    count(args.len, p.params)?;
    arc(c.closed, present, to)?;
    removals(c.closed, p.drop, args)
}

// A send or a recv.
fn transfer(c: Terms, present: u32, queue: u8, var: u8, to: u32) -> Result<(), Fault>
    ensures { result ≡ judged (transfer_fault c present queue var to) }
{
    arc(c.closed, present, to)?;
    blanks(c.closed, var, blank_at(c.queue, queue))
}

// A node of the procedure whose nodes are the set present.
pub fn node(x: Node, c: Terms, present: u32) -> Result<(), Fault>
    ensures { result ≡ judged (node_fault_by c present x) }
{
    match x {
        Node::Absent | Node::Return => Ok(()),
        Node::Start { to }
        | Node::Set { to, .. }
        | Node::Read { to, .. }
        | Node::Wait { to, .. }
        | Node::Signal { to, .. }
        | Node::Assert { to, .. }
        | Node::Out { to, .. } => arc(c.closed, present, to),
        Node::Test { yes, no, .. } => {
            arc(c.closed, present, yes)?;
            arc(c.closed, present, no)
        }
        Node::Call { callee, args, to } => call(c, present, callee, args, to),
        Node::Send { queue, var, to } | Node::Recv { queue, var, to } => {
            transfer(c, present, queue, var, to)
        }
    }
}
