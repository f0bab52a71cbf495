// Writing a node's line into a lent buffer at a place, with room for it. Each function gives the place after what it wrote.

#![tactic(auto)]

ghost use Rattle.std.specs.Prelude.{[], ◌+◌, ◌≤◌, length};
ghost use Rattle.put.specs.Put.{Put};
ghost use Rattle.node_lines.specs.NodeLines.{node, to_text, operands_text, arcs_text, number_text, variable_text, pass_text, start_text, call_text, set_text, test_text, return_text, node_bytes, FewArgs};

use put::{fill_byte, fill_list, fill_small, fill_text, fill_variable};
use put_fields::{fill_args, fill_op, fill_operand};
use table::{Args, Node, Op, Operand};

// A node's number.
fn fill_index(out: &mut [u8], at: usize, j: u8) -> usize
    requires { at + 8 ≤ length out.old }
    ensures { Put 8 out.old at (node j []) out.new result }
{
    let a = fill_text(out, at, b"node=");
    fill_small(out, a, j)
}

// A node line from its arc on.
fn fill_arc(out: &mut [u8], at: usize, to: u32) -> usize
    requires { at + 100 ≤ length out.old }
    ensures { Put 91 out.old at (to_text to) out.new result }
{
    let a = fill_text(out, at, b" to=");
    let b = fill_list(out, a, to);
    fill_byte(out, b, b'\n')
}

fn fill_start(out: &mut [u8], at: usize, j: u8, to: u32) -> usize
    requires { at + 256 ≤ length out.old }
    ensures { Put 240 out.old at (start_text j to) out.new result }
{
    let a = fill_index(out, at, j);
    let b = fill_text(out, a, b" kind=start");
    fill_arc(out, b, to)
}

// A node with a number under a key: read, wait and signal.
fn fill_number_node(out: &mut [u8], at: usize, j: u8, key: &[u8], n: u8, to: u32) -> usize
    requires { (at + 256 ≤ length out.old) × (length key.now ≤ 64) }
    ensures { Put 240 out.old at (number_text j key.now n to) out.new result }
{
    let a = fill_index(out, at, j);
    let b = fill_text(out, a, key);
    let c = fill_small(out, b, n);
    fill_arc(out, c, to)
}

// A node with a variable under a key: assert and out.
fn fill_variable_node(out: &mut [u8], at: usize, j: u8, key: &[u8], v: u8, to: u32) -> usize
    requires { (at + 256 ≤ length out.old) × (length key.now ≤ 64) }
    ensures { Put 240 out.old at (variable_text j key.now v to) out.new result }
{
    let a = fill_index(out, at, j);
    let b = fill_text(out, a, key);
    let c = fill_variable(out, b, v);
    fill_arc(out, c, to)
}

// A node with a queue and a variable: send and recv.
fn fill_pass(out: &mut [u8], at: usize, j: u8, key: &[u8], q: u8, v: u8, to: u32) -> usize
    requires { (at + 256 ≤ length out.old) × (length key.now ≤ 64) }
    ensures { Put 240 out.old at (pass_text j key.now q v to) out.new result }
{
    let a = fill_index(out, at, j);
    let b = fill_text(out, a, key);
    let c = fill_small(out, b, q);
    let d = fill_text(out, c, b" var=");
    let e = fill_variable(out, d, v);
    fill_arc(out, e, to)
}

fn fill_call(out: &mut [u8], at: usize, j: u8, q: u8, x: Args, to: u32) -> usize
    requires { (at + 256 ≤ length out.old) × (x.len ≤ 4) }
    ensures { Put 240 out.old at (call_text j q x to) out.new result }
{
    let a = fill_index(out, at, j);
    let b = fill_text(out, a, b" kind=call proc=");
    let c = fill_small(out, b, q);
    let d = fill_text(out, c, b" args=");
    let e = fill_args(out, d, x);
    fill_arc(out, e, to)
}

// An operation and its operands.
fn fill_operands(out: &mut [u8], at: usize, o: Op, x: Operand, y: Operand) -> usize
    requires { at + 37 ≤ length out.old }
    ensures { Put 35 out.old at (operands_text o x y []) out.new result }
{
    let a = fill_text(out, at, b" op=");
    let b = fill_op(out, a, o);
    let c = fill_text(out, b, b" a=");
    let d = fill_operand(out, c, x);
    let e = fill_text(out, d, b" b=");
    fill_operand(out, e, y)
}

fn fill_set(
    out: &mut [u8],
    at: usize,
    j: u8,
    v: u8,
    o: Op,
    x: Operand,
    y: Operand,
    to: u32,
) -> usize
    requires { at + 256 ≤ length out.old }
    ensures { Put 240 out.old at (set_text j v o x y to) out.new result }
{
    let a = fill_index(out, at, j);
    let b = fill_text(out, a, b" kind=set var=");
    let c = fill_small(out, b, v);
    let d = fill_operands(out, c, o, x, y);
    fill_arc(out, d, to)
}

// A test line from its arcs on.
fn fill_arcs(out: &mut [u8], at: usize, yes: u32, no: u32) -> usize
    requires { at + 191 ≤ length out.old }
    ensures { Put 182 out.old at (arcs_text yes no) out.new result }
{
    let a = fill_text(out, at, b" yes=");
    let b = fill_list(out, a, yes);
    let c = fill_text(out, b, b" no=");
    let d = fill_list(out, c, no);
    fill_byte(out, d, b'\n')
}

fn fill_test(
    out: &mut [u8],
    at: usize,
    j: u8,
    o: Op,
    x: Operand,
    y: Operand,
    yes: u32,
    no: u32,
) -> usize
    requires { at + 256 ≤ length out.old }
    ensures { Put 240 out.old at (test_text j o x y yes no) out.new result }
{
    let a = fill_index(out, at, j);
    let b = fill_text(out, a, b" kind=test");
    let c = fill_operands(out, b, o, x, y);
    fill_arcs(out, c, yes, no)
}

fn fill_return(out: &mut [u8], at: usize, j: u8) -> usize
    requires { at + 256 ≤ length out.old }
    ensures { Put 240 out.old at (return_text j) out.new result }
{
    let a = fill_index(out, at, j);
    fill_text(out, a, b" kind=return\n")
}

// A node's line; nothing where there is no node.
pub fn fill_node(out: &mut [u8], at: usize, j: u8, x: Node) -> usize
    requires { (at + 256 ≤ length out.old) × (FewArgs x) }
    ensures { Put 240 out.old at (node_bytes j x) out.new result }
{
    match x {
        Node::Absent => at,
        Node::Start { to } => fill_start(out, at, j, to),
        Node::Set { var, op, a, b, to } => fill_set(out, at, j, var, op, a, b, to),
        Node::Test { op, a, b, yes, no } => fill_test(out, at, j, op, a, b, yes, no),
        Node::Read { var, to } => fill_number_node(out, at, j, b" kind=read var=", var, to),
        Node::Call { callee, args, to } => fill_call(out, at, j, callee, args, to),
        Node::Wait { sem, to } => fill_number_node(out, at, j, b" kind=wait sem=", sem, to),
        Node::Signal { sem, to } => fill_number_node(out, at, j, b" kind=signal sem=", sem, to),
        Node::Send { queue, var, to } => fill_pass(
            out,
            at,
            j,
            b" kind=send queue=",
            queue,
            var,
            to,
        ),
        Node::Recv { queue, var, to } => fill_pass(
            out,
            at,
            j,
            b" kind=recv queue=",
            queue,
            var,
            to,
        ),
        Node::Assert { var, to } => fill_variable_node(out, at, j, b" kind=assert var=", var, to),
        Node::Out { var, to } => fill_variable_node(out, at, j, b" kind=out var=", var, to),
        Node::Return => fill_return(out, at, j),
    }
}
