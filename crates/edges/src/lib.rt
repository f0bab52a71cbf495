// Writing an edge of a control-flow graph in the language DOT into a lent buffer. Each function writes at a place, as far as the buffer
// reaches, and gives the place after what it wrote.

#![tactic(auto)]

ghost use Rattle.std.specs.Prelude.{◌≤◌, length};
ghost use Rattle.put.specs.Put.{Put, FieldAt, LineAt};
ghost use Rattle.labels.specs.Label.{SaysAt};
ghost use Rattle.labels.specs.Graph.{name_text, solid_end, edge_end, edge_text, dead_end, call_edge};

use put::put_text;
use put_fields::put_count;

// The name of node n of procedure p.
pub fn put_name(out: &mut [u8], at: usize, p: u8, n: u8) -> usize
    requires { SaysAt at }
    ensures { Put 8 out.old at (name_text p n) out.new result }
{
    let a = put_count(out, at, b"p", p);
    put_count(out, a, b"n", n)
}

// The end of an edge that is no toss.
fn put_solid_end(out: &mut [u8], at: usize, word: &[u8]) -> usize
    requires { (FieldAt at) × (length word.now ≤ 4) }
    ensures { Put 17 out.old at (solid_end word.now) out.new result }
{
    if word.len() == 0 {
        return put_text(out, at, b";\n");
    }
    let a = put_text(out, at, b" [label=\"");
    let b = put_text(out, a, word);
    put_text(out, b, b"\"];\n")
}

fn put_edge_end(out: &mut [u8], at: usize, word: &[u8], toss: bool, i: u8) -> usize
    requires { (SaysAt at) × (length word.now ≤ 4) }
    ensures { Put 34 out.old at (edge_end word.now toss i) out.new result }
{
    if toss {
        let a = put_text(out, at, b" [style=dashed label=\"");
        let b = put_text(out, a, word);
        let c = put_count(out, b, b" ", i);
        return put_text(out, c, b"\"];\n");
    }
    put_solid_end(out, at, word)
}

// The edge from node n to node m, which is target i of its arc.
pub fn put_edge(
    out: &mut [u8],
    at: usize,
    p: u8,
    n: u8,
    word: &[u8],
    toss: bool,
    i: u8,
    m: u8,
) -> usize
    requires { (LineAt at) × (length word.now ≤ 4) }
    ensures { Put 54 out.old at (edge_text p n word.now toss i m) out.new result }
{
    let a = put_name(out, at, p, n);
    let b = put_text(out, a, b" -> ");
    let c = put_name(out, b, p, m);
    put_edge_end(out, c, word, toss, i)
}

// An arc with no target leads to a point.
pub fn put_dead_end(out: &mut [u8], at: usize, p: u8, n: u8, word: &[u8]) -> usize
    requires { (LineAt at) × (length word.now ≤ 4) }
    ensures { Put 69 out.old at (dead_end p n word.now) out.new result }
{
    let a = put_name(out, at, p, n);
    let b = put_text(out, a, b"none [shape=point];\n");
    let c = put_name(out, b, p, n);
    let d = put_text(out, c, b" -> ");
    let e = put_name(out, d, p, n);
    let f = put_text(out, e, b"none");
    put_solid_end(out, f, word)
}

// The dotted arc from node n, a call, to node 0 of the callee q.
pub fn put_call_edge(out: &mut [u8], at: usize, p: u8, n: u8, q: u8) -> usize
    requires { LineAt at }
    ensures { Put 54 out.old at (call_edge p n q) out.new result }
{
    let a = put_name(out, at, p, n);
    let b = put_text(out, a, b" -> ");
    let c = put_name(out, b, q, 0);
    put_text(out, c, b" [style=dotted constraint=false];\n")
}
