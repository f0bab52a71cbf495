// Writing an arc of a node, with the edges to its targets, in the language DOT into a lent buffer. Each function writes at a place, as far
// as the buffer reaches, and gives the place after what it wrote.

#![tactic(auto)]

ghost use Rattle.std.specs.Prelude.{◌≡◌, ◌≤◌, length};
ghost use Rattle.table.specs.Mask.{members};
ghost use Rattle.put.specs.Put.{Put};
ghost use Rattle.labels.specs.Graph.{edges_text, arc_text};
ghost use Rattle.arcs.specs.Edges.{ArcAt};

use edges::{put_dead_end, put_edge};

// The edges to the targets of an arc.
fn put_edges(out: &mut [u8], at: usize, p: u8, n: u8, word: &[u8], toss: bool, to: u32) -> usize
    requires { (ArcAt at) × (length word.now ≤ 4) }
    ensures { Put 1728 out.old at (edges_text p n word.now toss (members to)) out.new result }
{
    let mut a = at;
    let mut i: u8 = 0;
    for m in 0..32 {
        if flow::has(to, m) {
            a = put_edge(out, a, p, n, word, toss, i, m);
            i += 1;
        }
    }
    a
}

// How many numbers a mask holds.
pub fn count(m: u32) -> u8
    ensures { result ≡ length (members m) }
{
    m.count_ones() as u8
}

// An arc, with its word.
pub fn put_arc(out: &mut [u8], at: usize, p: u8, n: u8, word: &[u8], to: u32) -> usize
    requires { (ArcAt at) × (length word.now ≤ 4) }
    ensures { Put 1728 out.old at (arc_text p n word.now to) out.new result }
{
    let k = count(to);
    if k == 0 {
        return put_dead_end(out, at, p, n, word);
    }
    put_edges(out, at, p, n, word, 1 < k, to)
}
