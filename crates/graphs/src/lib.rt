// A table's control-flow graphs in the language DOT, written into a lent buffer, and what the graph program prints. A function that
// writes at a place does so as far as the buffer reaches, and gives the place after what it wrote.

#![tactic(auto)]

ghost use Rattle.std.specs.Prelude.{◌≡◌, ◌≤◌, length};
ghost use Rattle.std.proofs.lemmas.List.Edits.{sets};
ghost use Rattle.put.specs.Put.{Put};
ghost use Rattle.labels.specs.Graph.{opening, graph, graph_printed};
ghost use Rattle.graphs.specs.Graphs.{mask_kept, Drawable};

use captions::put_caption;
use clusters::{put_calls, put_proc};
use put::{put_rows, put_text};
use table::Table;

fn put_opening(out: &mut [u8]) -> usize
    ensures { Put 125 out.old 0 opening out.new result }
{
    let a = put_text(
        out,
        0,
        b"digraph table {\nfontname=monospace;\nlabelloc=t;\nlabeljust=l;\n",
    );
    let b = put_text(out, a, b"node [shape=box fontname=monospace];\n");
    put_text(out, b, b"edge [fontname=monospace];\n")
}

// The graphs of a table, from the buffer's start; bit n of keep's mask p says whether node n of procedure p counts as kept.
pub fn put_graph(out: &mut [u8], t: Table, keep: [u32; 8]) -> usize
    requires { Drawable t }
    ensures { Put 936000 out.old 0 (graph t (mask_kept keep)) out.new result }
{
    let a = put_opening(out);
    let b = put_caption(out, a, t);
    let c = put_rows::<115177, _>(out, b, t.procs as usize, |out, at, i| {
        put_proc(
            out, at, t.closed, t.task, t.tasks, i as u8, keep[i], t.proc[i],
        )
    });
    let d = put_rows::<1728, _>(out, c, t.procs as usize, |out, at, i| {
        put_calls(out, at, i as u8, t.proc[i])
    });
    put_text(out, d, b"}\n")
}

// What the graph program prints for the bytes s, written from the buffer's start as far as it reaches; the answer is its length.
pub fn graph_text(s: &[u8], out: &mut [u8]) -> usize
    ensures len { result ≡ length (graph_printed s.now) }
    ensures most { result ≤ 936000 }
    ensures bytes { out.new ≡ sets out.old 0 (graph_printed s.now) }
{
    let r = reader::read(s);
    let n = r.number;
    if n != 0 {
        return refusals::put_refused(out, n, r.line);
    }
    let t = r.table;
    let keep = keeps::kept(t);
    put_graph(out, t, keep)
}
