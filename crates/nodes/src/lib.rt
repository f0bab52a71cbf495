// The node lines of a text, each read at a place.

#![tactic(auto)]

ghost use Rattle.std.specs.Prelude.{◌≤◌, ◌≡◌, [], ◌∷◌, length};
ghost use Rattle.text.specs.declared.NodeKind.TheVariants.{Start as start, Set as set_kind, Test as test, Read as read, Call as call, Wait as wait, Signal as signal, Send as send, Recv as recv, Assert as assert, Out as out, Return as return};
ghost use Rattle.fields.specs.Answer.{LineAt};
ghost use Rattle.nodes.specs.Answer.{last_line, last_set, scope_in, Fits, set_line, set_node, test_line, test_node, BodyAt, NodeAt};

use table::{Node, Op};
use text::{Fault, NodeKind};

// The form of a table and the counts of declared items, by which a node line's references are judged.
#[derive(Clone, Copy)]
pub struct Scope {
    pub closed: bool,
    pub procs: u64,
    pub sems: u64,
    pub queues: u64,
    pub vars: u64,
    pub nodes: u64,
}

// A node, its number and the place after its line, or the fault and the line: the form that document 01 names.
#[derive(Clone, Copy)]
pub enum Line {
    Node(Node, u8, usize),
    Refused(Fault, usize),
}

// Targets with a name of two letters, and the end of the line.
fn targets_end(
    s: &[u8],
    at: usize,
    a: u8,
    b: u8,
    one: bool,
    nodes: u64,
) -> Result<(u32, usize), Fault>
    requires { (at ≤ length s.now) × (nodes ≤ 32) }
    ensures { LineAt (last_line (32 ∷ a ∷ b ∷ 61 ∷ []) one nodes) (last_set (32 ∷ a ∷ b ∷ 61 ∷ []) one nodes) s.now at result }
{
    let (to, p) = lists::ascending_word(s, at, 32, a, b, 61, b"", one, 1, nodes)?;
    let e = scan::feed(s, p)?;
    Ok((to, e))
}

fn start_node(s: &[u8], at: usize, c: Scope) -> Result<(Node, usize), Fault>
    requires { (at ≤ length s.now) × Fits c }
    ensures { BodyAt (scope_in c) start s.now at result }
{
    let (to, e) = targets_end(s, at, b't', b'o', !c.closed, c.nodes)?;
    Ok((Node::Start { to }, e))
}

// What stands behind a set node's operation. The operands are taken out of their answers last: an answer is written in small pieces, and read as a
// whole directly after that it makes the processor wait.
fn set_operands(s: &[u8], at: usize, c: Scope, var: u8, op: Op) -> Result<(Node, usize), Fault>
    requires { (at ≤ length s.now) × Fits c }
    ensures { LineAt (set_line (scope_in c)) (set_node (scope_in c) var op) s.now at result }
{
    let a_field = operands::operand_field(s, at, b'a', c.vars);
    let (_, p) = a_field?;
    let b_field = operands::operand_field(s, p, b'b', c.vars);
    let (_, q) = b_field?;
    let (to, e) = targets_end(s, q, b't', b'o', !c.closed, c.nodes)?;
    let (a, _) = a_field.unwrap();
    let (b, _) = b_field.unwrap();
    Ok((Node::Set { var, op, a, b, to }, e))
}

fn set_node(s: &[u8], at: usize, c: Scope) -> Result<(Node, usize), Fault>
    requires { (at ≤ length s.now) × Fits c }
    ensures { BodyAt (scope_in c) set_kind s.now at result }
{
    let (var, a) = numbers::number_word(
        s,
        at,
        b' ',
        b'v',
        b'a',
        b'r',
        0,
        c.vars,
        Fault::Reference,
    )?;
    let (op, b) = words::operation_field(s, a, false)?;
    set_operands(s, b, c, var, op)
}

// What stands behind a test's operation. Its operands too are taken out of their answers last.
fn test_operands(s: &[u8], at: usize, c: Scope, op: Op) -> Result<(Node, usize), Fault>
    requires { (at ≤ length s.now) × Fits c }
    ensures { LineAt (test_line (scope_in c)) (test_node (scope_in c) op) s.now at result }
{
    let a_field = operands::operand_field(s, at, b'a', c.vars);
    let (_, p) = a_field?;
    let b_field = operands::operand_field(s, p, b'b', c.vars);
    let (_, q) = b_field?;
    let (yes, t) = lists::ascending_word(
        s, q, b' ', b'y', b'e', b's', b"=", !c.closed, 1, c.nodes,
    )?;
    let (no, e) = targets_end(s, t, b'n', b'o', !c.closed, c.nodes)?;
    let (a, _) = a_field.unwrap();
    let (b, _) = b_field.unwrap();
    Ok((Node::Test { op, a, b, yes, no }, e))
}

fn test_node(s: &[u8], at: usize, c: Scope) -> Result<(Node, usize), Fault>
    requires { (at ≤ length s.now) × Fits c }
    ensures { BodyAt (scope_in c) test s.now at result }
{
    let (op, p) = words::operation_field(s, at, true)?;
    test_operands(s, p, c, op)
}

fn read_node(s: &[u8], at: usize, c: Scope) -> Result<(Node, usize), Fault>
    requires { (at ≤ length s.now) × Fits c }
    ensures { BodyAt (scope_in c) read s.now at result }
{
    let (var, a) = numbers::number_word(
        s,
        at,
        b' ',
        b'v',
        b'a',
        b'r',
        0,
        c.vars,
        Fault::Reference,
    )?;
    let (to, e) = targets_end(s, a, b't', b'o', !c.closed, c.nodes)?;
    Ok((Node::Read { var, to }, e))
}

fn call_node(s: &[u8], at: usize, c: Scope) -> Result<(Node, usize), Fault>
    requires { (at ≤ length s.now) × Fits c }
    ensures { BodyAt (scope_in c) call s.now at result }
{
    let (callee, a) = numbers::number_field(s, at, b" proc=", 0, c.procs, Fault::Reference)?;
    let (args, b) = lists::arguments_field(s, a, c.closed, c.vars)?;
    let (to, e) = targets_end(s, b, b't', b'o', !c.closed, c.nodes)?;
    Ok((Node::Call { callee, args, to }, e))
}

fn wait_node(s: &[u8], at: usize, c: Scope) -> Result<(Node, usize), Fault>
    requires { (at ≤ length s.now) × Fits c }
    ensures { BodyAt (scope_in c) wait s.now at result }
{
    let (sem, a) = numbers::number_field(s, at, b" sem=", 0, c.sems, Fault::Reference)?;
    let (to, e) = targets_end(s, a, b't', b'o', !c.closed, c.nodes)?;
    Ok((Node::Wait { sem, to }, e))
}

fn signal_node(s: &[u8], at: usize, c: Scope) -> Result<(Node, usize), Fault>
    requires { (at ≤ length s.now) × Fits c }
    ensures { BodyAt (scope_in c) signal s.now at result }
{
    let (sem, a) = numbers::number_field(s, at, b" sem=", 0, c.sems, Fault::Reference)?;
    let (to, e) = targets_end(s, a, b't', b'o', !c.closed, c.nodes)?;
    Ok((Node::Signal { sem, to }, e))
}

fn send_node(s: &[u8], at: usize, c: Scope) -> Result<(Node, usize), Fault>
    requires { (at ≤ length s.now) × Fits c }
    ensures { BodyAt (scope_in c) send s.now at result }
{
    let (queue, a) = numbers::number_field(s, at, b" queue=", 0, c.queues, Fault::Reference)?;
    let (var, b) = operands::variable_field(s, a, c.closed, c.vars)?;
    let (to, e) = targets_end(s, b, b't', b'o', !c.closed, c.nodes)?;
    Ok((Node::Send { queue, var, to }, e))
}

fn recv_node(s: &[u8], at: usize, c: Scope) -> Result<(Node, usize), Fault>
    requires { (at ≤ length s.now) × Fits c }
    ensures { BodyAt (scope_in c) recv s.now at result }
{
    let (queue, a) = numbers::number_field(s, at, b" queue=", 0, c.queues, Fault::Reference)?;
    let (var, b) = operands::variable_field(s, a, c.closed, c.vars)?;
    let (to, e) = targets_end(s, b, b't', b'o', !c.closed, c.nodes)?;
    Ok((Node::Recv { queue, var, to }, e))
}

fn assert_node(s: &[u8], at: usize, c: Scope) -> Result<(Node, usize), Fault>
    requires { (at ≤ length s.now) × Fits c }
    ensures { BodyAt (scope_in c) assert s.now at result }
{
    let (var, a) = operands::variable_field(s, at, c.closed, c.vars)?;
    let (to, e) = targets_end(s, a, b't', b'o', !c.closed, c.nodes)?;
    Ok((Node::Assert { var, to }, e))
}

fn out_node(s: &[u8], at: usize, c: Scope) -> Result<(Node, usize), Fault>
    requires { (at ≤ length s.now) × Fits c }
    ensures { BodyAt (scope_in c) out s.now at result }
{
    let (var, a) = operands::variable_field(s, at, c.closed, c.vars)?;
    let (to, e) = targets_end(s, a, b't', b'o', !c.closed, c.nodes)?;
    Ok((Node::Out { var, to }, e))
}

fn return_node(s: &[u8], at: usize, c: Scope) -> Result<(Node, usize), Fault>
    requires { at ≤ length s.now }
    ensures { BodyAt (scope_in c) return s.now at result }
{
    let e = scan::feed(s, at)?;
    Ok((Node::Return, e))
}

// What stands behind the kind.
fn node_body(s: &[u8], at: usize, c: Scope, k: NodeKind) -> Result<(Node, usize), Fault>
    requires { (at ≤ length s.now) × Fits c }
    ensures { BodyAt (scope_in c) k s.now at result }
{
    match k {
        NodeKind::Start => start_node(s, at, c),
        NodeKind::Set => set_node(s, at, c),
        NodeKind::Test => test_node(s, at, c),
        NodeKind::Read => read_node(s, at, c),
        NodeKind::Call => call_node(s, at, c),
        NodeKind::Wait => wait_node(s, at, c),
        NodeKind::Signal => signal_node(s, at, c),
        NodeKind::Send => send_node(s, at, c),
        NodeKind::Recv => recv_node(s, at, c),
        NodeKind::Assert => assert_node(s, at, c),
        NodeKind::Out => out_node(s, at, c),
        NodeKind::Return => return_node(s, at, c),
    }
}

// A node line whose number is at least lo and below the next.
pub fn node_line(s: &[u8], at: usize, line: usize, c: Scope, lo: u64, below: u64) -> Line
    requires { (at ≤ length s.now) × Fits c × (below ≤ 32) }
    ensures { NodeAt (scope_in c) lo below s.now at line result }
{
    // The node goes into the line as it is read, with no copy on the way: so the faults are not handed on by `?`.
    let (j, p) = match numbers::number_word(
        s,
        at,
        b'n',
        b'o',
        b'd',
        b'e',
        lo,
        below,
        Fault::Index,
    ) {
        Ok(number) => number,
        Err(f) => return Line::Refused(f, line),
    };
    let (k, q) = match words::kind_field(s, p, c.closed, j) {
        Ok(kind) => kind,
        Err(f) => return Line::Refused(f, line),
    };
    match node_body(s, q, c, k) {
        Ok((node, e)) => Line::Node(node, j, e),
        Err(f) => Line::Refused(f, line),
    }
}
