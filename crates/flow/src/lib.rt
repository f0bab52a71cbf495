// What one node does to the masks of dirty variables.

#![tactic(auto)]

ghost use Rattle.std.specs.Prelude.{◌≡◌, ◌++◌, ◌^◌, ◌%◌};
ghost use Rattle.table.specs.Mask.{bit};
ghost use Rattle.table.specs.Table.{operand_uses, parts};
ghost use Rattle.flow.specs.Flow.{low, any_of, after_set, one_flow, plain_flow, setting_flow, test_flow, arg_bit, passed_bits, call_flow, sent_bit, send_flow, first_to, flow_of, uses_of, plain_pass, set_pass, pass_of, after_pass, kept_with};

use table::{Args, Node, Operand};

// Where the dirty variables of a node go: `out` to two nodes of its procedure, `add` to one more cell. Of 265 cells the
// first 256 are the nodes', 8 are the procedures' dropped parameters, and the last, 264, is the blank queues.
#[derive(Clone, Copy)]
pub struct Flow {
    pub first: usize,
    pub second: usize,
    pub out: u32,
    pub extra: usize,
    pub add: u32,
}

// Whether k is in m.
#[tactic(auto, unfolding(table::specs::Mask::bit))]
pub fn has(m: u32, k: u8) -> bool
    ensures { result ≡ bit (k % 32) m }
{
    (m >> (k % 32)) % 2 == 1
}

// The mask of k alone.
fn only(k: u8) -> u32
    ensures { result ≡ 2 ^ (k % 32) }
{
    1 << (k % 32)
}

// The one target of an open arc.
pub fn target(to: u32) -> usize
    ensures { result ≡ low to }
{
    (to.trailing_zeros() % 32) as usize
}

fn operand_dirty(o: Operand, i: u32) -> bool
    ensures { result ≡ any_of (operand_uses o) i }
{
    match o {
        Operand::Var(v) => has(i, v),
        Operand::Const(_) => false,
    }
}

// Whether a `set` or a `test` has a dirty use.
fn operands_dirty(a: Operand, b: Operand, i: u32) -> bool
    ensures { result ≡ any_of (operand_uses a ++ operand_uses b) i }
{
    operand_dirty(a, i) || operand_dirty(b, i)
}

// The variables that are dirty after a node that sets the variable of m.
fn after_set(i: u32, dirty: bool, m: u32) -> u32
    ensures { result ≡ after_set i dirty m }
{
    if dirty { i | m } else { i ^ (i & m) }
}

fn one_flow(to: u32, out: u32, extra: usize, add: u32) -> Flow
    ensures { result ≡ one_flow to out extra add }
{
    let k = target(to);
    Flow {
        first: k,
        second: k,
        out,
        extra,
        add,
    }
}

// A node that sets a variable, dirty or clean.
fn setting_flow(v: u8, to: u32, i: u32, dirty: bool) -> Flow
    ensures { result ≡ setting_flow v to i dirty }
{
    one_flow(to, after_set(i, dirty, only(v)), 264, 0)
}

fn test_flow(yes: u32, no: u32, i: u32) -> Flow
    ensures { result ≡ test_flow yes no i }
{
    let f = target(yes);
    let s = target(no);
    Flow {
        first: f,
        second: s,
        out: i,
        extra: 264,
        add: 0,
    }
}

// The parameter k is dropped if the k-th of len arguments is dirty.
#[tactic(auto, unfolding(crate::specs::Flow::arg_bit))]
fn arg_bit(i: u32, len: u8, k: u8, a: u8) -> u32
    ensures { result ≡ arg_bit i len k a }
{
    if k < len && has(i, a) { only(k) } else { 0 }
}

#[tactic(auto, unfolding(crate::specs::Flow::passed_bits))]
fn passed_bits(i: u32, xs: Args) -> u32
    ensures { result ≡ passed_bits i xs }
{
    let b0 = arg_bit(i, xs.len, 0, xs.a0);
    let b1 = arg_bit(i, xs.len, 1, xs.a1);
    let b2 = arg_bit(i, xs.len, 2, xs.a2);
    let b3 = arg_bit(i, xs.len, 3, xs.a3);
    (b0 | b1) | (b2 | b3)
}

fn call_flow(callee: u8, xs: Args, to: u32, i: u32) -> Flow
    ensures { result ≡ call_flow callee xs to i }
{
    one_flow(to, i, 256 + (callee % 8) as usize, passed_bits(i, xs))
}

// The queue q is blank if the variable v is dirty.
#[tactic(auto, unfolding(crate::specs::Flow::sent_bit))]
fn sent_bit(i: u32, q: u8, v: u8) -> u32
    ensures { result ≡ sent_bit i q v }
{
    if has(i, v) { only(q) } else { 0 }
}

fn send_flow(q: u8, v: u8, to: u32, i: u32) -> Flow
    ensures { result ≡ send_flow q v to i }
{
    one_flow(to, i, 264, sent_bit(i, q, v))
}

// The first target of a node; one without an arc, at place n, stays where it is.
#[tactic(auto, unfolding(table::specs::Table::parts))]
pub fn first_of(x: Node, n: usize) -> usize
    ensures { result ≡ first_to n (parts x).exit }
{
    match x {
        Node::Absent | Node::Return => n,
        Node::Test { yes, .. } => target(yes),
        Node::Start { to }
        | Node::Set { to, .. }
        | Node::Read { to, .. }
        | Node::Call { to, .. }
        | Node::Wait { to, .. }
        | Node::Signal { to, .. }
        | Node::Send { to, .. }
        | Node::Recv { to, .. }
        | Node::Assert { to, .. }
        | Node::Out { to, .. } => target(to),
    }
}

// What is dirty goes on to node k, and no more.
fn plain_flow(k: usize, i: u32) -> Flow
    ensures { result ≡ plain_flow k i }
{
    Flow {
        first: k,
        second: k,
        out: i,
        extra: 264,
        add: 0,
    }
}

// The node x at place n. i: the variables that are dirty before it; b: the blank queues.
#[tactic(auto, unfolding(table::specs::Table::parts, crate::specs::Flow::flow_of))]
pub fn flow_of(x: Node, n: usize, i: u32, b: u32) -> Flow
    ensures { result ≡ flow_of x n i b }
{
    match x {
        Node::Set {
            var,
            a,
            b: c,
            to,
            ..
        } => {
            let dirty = operands_dirty(a, c, i);
            setting_flow(var, to, i, dirty)
        }
        Node::Test { yes, no, .. } => test_flow(yes, no, i),
        Node::Read { var, to } => setting_flow(var, to, i, true),
        Node::Call { callee, args, to } => call_flow(callee, args, to, i),
        Node::Send { queue, var, to } => send_flow(queue, var, to, i),
        Node::Recv { queue, var, to } => {
            let blank = has(b, queue);
            setting_flow(var, to, i, blank)
        }
        _ => plain_flow(first_of(x, n), i),
    }
}

// What a node with one target does, and nothing more: the variable of `sets` is dirty after it if one of `uses` is dirty before it, and
// clean if none is. `to` is the target, or 32 for every other node.
#[derive(Clone, Copy)]
pub struct Pass {
    pub uses: u32,
    pub sets: u32,
    pub to: usize,
}

// The variable of an operand.
fn operand_uses(o: Operand) -> u32
    ensures { result ≡ uses_of o }
{
    match o {
        Operand::Var(v) => only(v),
        Operand::Const(_) => 0,
    }
}

// A node that sets nothing.
fn plain_pass(to: usize) -> Pass
    ensures { result ≡ plain_pass to }
{
    Pass {
        uses: 0,
        sets: 0,
        to,
    }
}

#[tactic(auto, using(crate::specs::FlowLaws::mask_both))]
fn set_pass(var: u8, a: Operand, b: Operand, to: u32) -> Pass
    ensures { result ≡ set_pass var a b to }
{
    let x = operand_uses(a);
    let y = operand_uses(b);
    Pass {
        uses: x | y,
        sets: only(var),
        to: target(to),
    }
}

// The node x at place n.
#[tactic(auto, unfolding(table::specs::Table::parts, crate::specs::Flow::pass_of))]
pub fn pass_of(x: Node, n: usize) -> Pass
    ensures { result ≡ pass_of x n }
{
    match x {
        Node::Set { var, a, b, to, .. } => set_pass(var, a, b, to),
        Node::Test { .. }
        | Node::Read { .. }
        | Node::Call { .. }
        | Node::Send { .. }
        | Node::Recv { .. } => plain_pass(32),
        _ => plain_pass(first_of(x, n)),
    }
}

// The variables that are dirty after such a node.
pub fn after_pass(s: Pass, i: u32) -> u32
    ensures { result ≡ after_pass s i }
{
    after_set(i, i & s.uses != 0, s.sets)
}

// Whether the node is kept. i: the variables that are dirty before it.
#[tactic(auto, unfolding(table::specs::Table::parts))]
pub fn kept_node(x: Node, i: u32) -> bool
    ensures { result ≡ kept_with x i }
{
    match x {
        Node::Absent | Node::Read { .. } => false,
        Node::Set { a, b, .. } | Node::Test { a, b, .. } => !operands_dirty(a, b, i),
        _ => true,
    }
}
