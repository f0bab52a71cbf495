// Writing a node of a control-flow graph, with its arcs, and a call's arc to its callee, in the language DOT into a lent buffer. Each function writes at a place, as far as
// the buffer reaches, and gives the place after what it wrote.

#![tactic(auto)]

ghost use Rattle.std.specs.Prelude.{[], ◌++◌, ◌≤◌};
ghost use Rattle.table.specs.Table.{act};
ghost use Rattle.text.specs.Number.{bytes};
ghost use Rattle.put.specs.Put.{Put, FieldAt, LineAt};
ghost use Rattle.node_lines.specs.NodeLines.{FewArgs};
ghost use Rattle.labels.specs.Graph.{box_mark, box_end, box_text, arc_text, arcs_text, node_text, callee_text};
ghost use Rattle.arcs.specs.Edges.{NodeAt};

use arcs::put_arc;
use edges::{put_call_edge, put_name};
use labels::put_says;
use put::{put_byte, put_text};
use put_fields::put_count;
use table::Node;

fn put_box_mark(out: &mut [u8], at: usize, seen: bool) -> usize
    requires { FieldAt at }
    ensures { Put 11 out.old at (box_mark seen) out.new result }
{
    if seen {
        return at;
    }
    put_text(out, at, b"\\nunreached")
}

fn put_box_end(out: &mut [u8], at: usize, kept: bool) -> usize
    requires { FieldAt at }
    ensures { Put 17 out.old at (box_end kept) out.new result }
{
    if kept {
        return put_text(out, at, b"\"];\n");
    }
    put_text(out, at, b"\" style=dashed];\n")
}

fn put_box(out: &mut [u8], at: usize, p: u8, n: u8, kept: bool, seen: bool, x: Node) -> usize
    requires { (LineAt at) × (FewArgs x) }
    ensures { Put 120 out.old at (box_text p n kept seen x) out.new result }
{
    let a = put_name(out, at, p, n);
    let b = put_count(out, a, b" [label=\"", n);
    let c = put_byte(out, b, b' ');
    let d = put_says(out, c, x);
    let e = put_box_mark(out, d, seen);
    put_box_end(out, e, kept)
}

// The arc of a node that is no test.
fn put_plain(out: &mut [u8], at: usize, p: u8, n: u8, to: u32) -> usize
    requires { NodeAt at }
    ensures { Put 3456 out.old at (arc_text p n [] to) out.new result }
{
    put_arc(out, at, p, n, b"", to)
}

// The arcs of a test.
fn put_arms(out: &mut [u8], at: usize, p: u8, n: u8, yes: u32, no: u32) -> usize
    requires { NodeAt at }
    ensures { Put 3456 out.old at (arc_text p n (bytes " yes") yes ++ arc_text p n (bytes " no") no) out.new result }
{
    let a = put_arc(out, at, p, n, b" yes", yes);
    put_arc(out, a, p, n, b" no", no)
}

fn put_arcs(out: &mut [u8], at: usize, p: u8, n: u8, x: Node) -> usize
    requires { NodeAt at }
    ensures { Put 3456 out.old at (arcs_text p n x) out.new result }
{
    match x {
        Node::Absent | Node::Return => at,
        Node::Test { yes, no, .. } => put_arms(out, at, p, n, yes, no),
        Node::Start { to }
        | Node::Set { to, .. }
        | Node::Read { to, .. }
        | Node::Call { to, .. }
        | Node::Wait { to, .. }
        | Node::Signal { to, .. }
        | Node::Send { to, .. }
        | Node::Recv { to, .. }
        | Node::Assert { to, .. }
        | Node::Out { to, .. } => put_plain(out, at, p, n, to),
    }
}

// A node's box and its arcs; nothing where there is no node.
pub fn put_node(out: &mut [u8], at: usize, p: u8, n: u8, kept: bool, seen: bool, x: Node) -> usize
    requires { (at ≤ 997000000) × (FewArgs x) }
    ensures { Put 3576 out.old at (node_text p n kept seen x) out.new result }
{
    if checks::absent(x) {
        return at;
    }
    let a = put_box(out, at, p, n, kept, seen, x);
    put_arcs(out, a, p, n, x)
}

// A call's arc to its callee; nothing for any other node.
pub fn put_callee(out: &mut [u8], at: usize, p: u8, n: u8, x: Node) -> usize
    requires { LineAt at }
    ensures { Put 54 out.old at (callee_text p n (act x)) out.new result }
{
    match x {
        Node::Call { callee, .. } => put_call_edge(out, at, p, n, callee),
        _ => at,
    }
}
