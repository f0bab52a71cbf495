// Writing what a node says into a lent buffer. Each function writes at a place, as far as the buffer reaches, and gives the place after what
// it wrote.

#![tactic(auto)]

ghost use Rattle.std.specs.Prelude.{◌++◌, ◌*◌, ◌≤◌, ◌<◌, length};
ghost use Rattle.text.specs.Number.{bytes, digits};
ghost use Rattle.text.specs.Reader.{concat_from};
ghost use Rattle.put.specs.Put.{Put, ValueAt, FieldAt};
ghost use Rattle.node_lines.specs.NodeLines.{FewArgs};
ghost use Rattle.labels.specs.Label.{variable_text, argument_text, operation_text, set_text, call_text, pass_text, node_says, SaysAt};

use put::{put_byte, put_rows, put_text};
use put_fields::{put_count, put_op_value, put_operand_value};
use table::{Args, Node, Op, Operand};

// A variable, or `-`.
fn put_variable(out: &mut [u8], at: usize, v: u8) -> usize
    requires { ValueAt at }
    ensures { Put 11 out.old at (variable_text v) out.new result }
{
    if v == table::REMOVED {
        return put_byte(out, at, b'-');
    }
    put_operand_value(out, at, Operand::Var(v))
}

// A blank and an argument.
fn put_argument(out: &mut [u8], at: usize, v: u8) -> usize
    requires { FieldAt at }
    ensures { Put 12 out.old at (bytes " " ++ variable_text v) out.new result }
{
    let a = put_byte(out, at, b' ');
    put_variable(out, a, v)
}

fn put_arguments(out: &mut [u8], at: usize, x: Args) -> usize
    requires { (at ≤ 1000000320) × (x.len ≤ 4) }
    ensures { Put (12 * x.len) out.old at (concat_from (argument_text x) x.len 0) out.new result }
{
    let args = [x.a0, x.a1, x.a2, x.a3];
    put_rows::<12, _>(
        out,
        at,
        x.len as usize,
        |out, at, i| put_argument(out, at, args[i]),
    )
}

// An operation between its operands.
fn put_operation(out: &mut [u8], at: usize, o: Op, x: Operand, y: Operand) -> usize
    requires { FieldAt at }
    ensures { Put 27 out.old at (operation_text o x y) out.new result }
{
    let a = put_operand_value(out, at, x);
    let b = put_byte(out, a, b' ');
    let c = put_op_value(out, b, o);
    let d = put_byte(out, c, b' ');
    put_operand_value(out, d, y)
}

fn put_set(out: &mut [u8], at: usize, v: u8, o: Op, x: Operand, y: Operand) -> usize
    requires { SaysAt at }
    ensures { Put 64 out.old at (set_text v o x y) out.new result }
{
    let a = put_count(out, at, b"set v", v);
    let b = put_text(out, a, b" = ");
    put_operation(out, b, o, x, y)
}

fn put_test(out: &mut [u8], at: usize, o: Op, x: Operand, y: Operand) -> usize
    requires { SaysAt at }
    ensures { Put 64 out.old at (bytes "test " ++ operation_text o x y) out.new result }
{
    let a = put_text(out, at, b"test ");
    put_operation(out, a, o, x, y)
}

fn put_call(out: &mut [u8], at: usize, q: u8, x: Args) -> usize
    requires { (SaysAt at) × (x.len ≤ 4) }
    ensures { Put 64 out.old at (call_text q x) out.new result }
{
    let a = put_count(out, at, b"call proc ", q);
    put_arguments(out, a, x)
}

// A word and a number: read, wait and signal.
fn put_number(out: &mut [u8], at: usize, word: &[u8], n: u8) -> usize
    requires { (SaysAt at) × (length word.now ≤ 16) }
    ensures { Put 64 out.old at (word.now ++ digits n) out.new result }
{
    put_count(out, at, word, n)
}

// A word and a variable: assert and out.
fn put_use(out: &mut [u8], at: usize, word: &[u8], v: u8) -> usize
    requires { (SaysAt at) × (length word.now ≤ 16) }
    ensures { Put 64 out.old at (word.now ++ variable_text v) out.new result }
{
    let a = put_text(out, at, word);
    put_variable(out, a, v)
}

// A word, a queue and a variable: send and recv.
fn put_pass(out: &mut [u8], at: usize, word: &[u8], q: u8, v: u8) -> usize
    requires { (SaysAt at) × (length word.now ≤ 16) }
    ensures { Put 64 out.old at (pass_text word.now q v) out.new result }
{
    let a = put_count(out, at, word, q);
    let b = put_byte(out, a, b' ');
    put_variable(out, b, v)
}

// A word alone: start and return.
fn put_word(out: &mut [u8], at: usize, word: &[u8]) -> usize
    requires { (SaysAt at) × (length word.now ≤ 16) }
    ensures { Put 64 out.old at word.now out.new result }
{
    put_text(out, at, word)
}

// What a node says.
pub fn put_says(out: &mut [u8], at: usize, x: Node) -> usize
    requires { (SaysAt at) × (FewArgs x) }
    ensures { Put 64 out.old at (node_says x) out.new result }
{
    match x {
        Node::Absent => at,
        Node::Start { .. } => put_word(out, at, b"start"),
        Node::Set { var, op, a, b, .. } => put_set(out, at, var, op, a, b),
        Node::Test { op, a, b, .. } => put_test(out, at, op, a, b),
        Node::Read { var, .. } => put_number(out, at, b"read v", var),
        Node::Call { callee, args, .. } => put_call(out, at, callee, args),
        Node::Wait { sem, .. } => put_number(out, at, b"wait sem ", sem),
        Node::Signal { sem, .. } => put_number(out, at, b"signal sem ", sem),
        Node::Send { queue, var, .. } => put_pass(out, at, b"send queue ", queue, var),
        Node::Recv { queue, var, .. } => put_pass(out, at, b"recv queue ", queue, var),
        Node::Assert { var, .. } => put_use(out, at, b"assert ", var),
        Node::Out { var, .. } => put_use(out, at, b"out ", var),
        Node::Return => put_word(out, at, b"return"),
    }
}
