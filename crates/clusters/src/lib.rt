// A procedure's control-flow graph in the language DOT, written into a lent buffer. Each function writes at a place, as far as the buffer
// reaches, and gives the place after what it wrote.

#![tactic(auto)]

ghost use Rattle.std.specs.Prelude.{◌≡◌, ◌≤◌, ◌<◌, eqb, get_or};
ghost use Rattle.table.specs.Mask.{members, mask_of};
ghost use Rattle.table.specs.Table.{no_task};
ghost use Rattle.text.specs.Number.{digits};
ghost use Rattle.put.specs.Put.{Put, PutField, FieldAt};
ghost use Rattle.writer.specs.Table.{ProcIn};
ghost use Rattle.labels.specs.Label.{SaysAt};
ghost use Rattle.labels.specs.Graph.{top_text, tops_text, label_key, label_end, sizes_text, cluster_text, calls_text};
ghost use Rattle.arcs.specs.Edges.{ArcAt, NodeAt};
ghost use Rattle.clusters.specs.Clusters.{mask_nodes, mask_proc};

use dot::{put_callee, put_node};
use put::{put_rows, put_text};
use put_fields::{put_count, put_list};
use table::{Proc, Task};

// What stands before task number i from 0, and the task.
fn put_top(out: &mut [u8], at: usize, several: bool, i: u8, k: u8) -> usize
    requires { FieldAt at }
    ensures { Put 18 out.old at (top_text several i k) out.new result }
{
    if i != 0 {
        put_count(out, at, b", ", k)
    } else if several {
        put_count(out, at, b", top of tasks ", k)
    } else {
        put_count(out, at, b", top of task ", k)
    }
}

// The tasks that have procedure p as their top, as a mask.
fn top_tasks(tasks: [Task; 4], n: u8, p: u8) -> u32
    requires { n ≤ 4 }
    ensures { result ≡ mask_of n (λ i. eqb (get_or tasks i no_task).top p) }
{
    let mut m: u32 = 0;
    for i in 0..n as usize {
        m = masks::with(m, i, tasks[i].top == p);
    }
    m
}

// The tasks m.
fn put_tops(out: &mut [u8], at: usize, m: u32) -> usize
    requires { ArcAt at }
    ensures { Put 576 out.old at (tops_text (members m)) out.new result }
{
    let n = arcs::count(m);
    let several = 1 < n;
    let mut a = at;
    let mut i: u8 = 0;
    for k in 0..32 {
        if flow::has(m, k) {
            a = put_top(out, a, several, i, k);
            i += 1;
        }
    }
    a
}

// The start of a procedure's label.
fn put_label(out: &mut [u8], at: usize, closed: bool, p: u8) -> usize
    requires { FieldAt at }
    ensures { PutField 27 out.old at (label_key closed) (digits p) out.new result }
{
    if closed {
        return put_count(out, at, b" {\nlabel=\"closed, proc ", p);
    }
    put_count(out, at, b" {\nlabel=\"open, proc ", p)
}

// The end of a procedure's label: what a closed one drops.
fn put_label_end(out: &mut [u8], at: usize, closed: bool, drop: u8) -> usize
    requires { FieldAt at }
    ensures { Put 98 out.old at (label_end closed drop) out.new result }
{
    if closed {
        let a = put_list(out, at, b", drop ", drop as u32);
        return put_text(out, a, b"\\l\";\n");
    }
    put_text(out, at, b"\\l\";\n")
}

// The second line of a procedure's label.
fn put_sizes(out: &mut [u8], at: usize, closed: bool, params: u8, vars: u8, drop: u8) -> usize
    requires { SaysAt at }
    ensures { Put 120 out.old at (sizes_text closed params vars drop) out.new result }
{
    let a = put_count(out, at, b"\\lparams ", params);
    let b = put_count(out, a, b", vars ", vars);
    put_label_end(out, b, closed, drop)
}

// The start of a procedure's cluster, with the first line of its label.
fn put_cluster(out: &mut [u8], at: usize, closed: bool, tops: u32, p: u8) -> usize
    requires { NodeAt at }
    ensures { Put 623 out.old at (cluster_text closed (members tops) p) out.new result }
{
    let a = put_count(out, at, b"subgraph cluster_", p);
    let b = put_label(out, a, closed, p);
    put_tops(out, b, tops)
}

// Node j of procedure p; bit j of keep says whether it counts as kept, and bit j of seen whether it is reached.
fn put_marked(out: &mut [u8], at: usize, p: u8, keep: u32, seen: u32, q: &Proc, j: u8) -> usize
    requires { (at ≤ 997000000) × (ProcIn q.now) × (j < q.now.nodes) }
    ensures { Put 3576 out.old at (mask_nodes p keep seen q.now.slots j) out.new result }
{
    let kept = flow::has(keep, j);
    let there = flow::has(seen, j);
    put_node(out, at, p, j, kept, there, q.slots[j as usize].node)
}

// Procedure p, with its nodes.
pub fn put_proc(
    out: &mut [u8],
    at: usize,
    closed: bool,
    tasks: [Task; 4],
    count: u8,
    p: u8,
    keep: u32,
    q: Proc,
) -> usize
    requires { (at ≤ 800000000) × (count ≤ 4) × (ProcIn q) }
    ensures { Put 115177 out.old at (mask_proc closed tasks count p keep q) out.new result }
{
    let tops = top_tasks(tasks, count, p);
    let seen = reached::nodes(q);
    let a = put_cluster(out, at, closed, tops, p);
    let b = put_sizes(out, a, closed, q.params, q.vars, q.drop);
    let c = put_rows::<3576, _>(out, b, q.nodes as usize, |out, at, j| {
        put_marked(out, at, p, keep, seen, &q, j as u8)
    });
    put_text(out, c, b"}\n")
}

// The arcs from the calls of procedure p to their callees.
pub fn put_calls(out: &mut [u8], at: usize, p: u8, q: Proc) -> usize
    requires { (at ≤ 800000000) × (ProcIn q) }
    ensures { Put 1728 out.old at (calls_text p q) out.new result }
{
    put_rows::<54, _>(out, at, q.nodes as usize, |out, at, j| {
        put_callee(out, at, p, j as u8, q.slots[j].node)
    })
}
