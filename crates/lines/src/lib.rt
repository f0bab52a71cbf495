// Writing each line of a table's text into a lent buffer at a place, as far as the buffer reaches: on an empty buffer it measures. Each
// function gives the place after what it wrote.

#![tactic(auto)]

ghost use Rattle.std.specs.Prelude.{◌≤◌, length};
ghost use Rattle.put.specs.Put.{Put, FieldAt, LineAt};
ghost use Rattle.lines.specs.Lines.{pair_text, counts_text, head_text, blank_text, queue_text, drop_text, proc_line_text};
ghost use Rattle.node_lines.specs.NodeLines.{node_bytes, FewArgs};

use node_lines::fill_node;
use put::{put_byte, put_filled, put_text};
use put_fields::{put_count, put_last_list};
use table::Node;

pub fn put_pair_line(out: &mut [u8], at: usize, first: &[u8], i: u8, second: &[u8], n: u8) -> usize
    requires { (LineAt at) × (length first.now ≤ 16) × (length second.now ≤ 16) }
    ensures { Put 40 out.old at (pair_text first.now i second.now n) out.new result }
{
    let a = put_count(out, at, first, i);
    let b = put_count(out, a, second, n);
    put_byte(out, b, b'\n')
}

pub fn put_head_line(out: &mut [u8], at: usize, trap: u8, closed: bool) -> usize
    requires { LineAt at }
    ensures { Put 40 out.old at (head_text trap closed) out.new result }
{
    let a = put_count(out, at, b"trap=", trap);
    if closed {
        return put_text(out, a, b" form=closed\n");
    }
    put_text(out, a, b" form=open\n")
}

pub fn put_counts_line(
    out: &mut [u8],
    at: usize,
    tasks: u8,
    procs: u8,
    sems: u8,
    queues: u8,
) -> usize
    requires { LineAt at }
    ensures { Put 40 out.old at (counts_text tasks procs sems queues) out.new result }
{
    let a = put_count(out, at, b"tasks=", tasks);
    let b = put_count(out, a, b" procs=", procs);
    let c = put_count(out, b, b" sems=", sems);
    let d = put_count(out, c, b" queues=", queues);
    put_byte(out, d, b'\n')
}

// A queue line from its blank field on.
fn put_blank(out: &mut [u8], at: usize, closed: bool, blank: bool) -> usize
    requires { FieldAt at }
    ensures { Put 16 out.old at (blank_text closed blank) out.new result }
{
    if !closed {
        put_byte(out, at, b'\n')
    } else if blank {
        put_text(out, at, b" blank=yes\n")
    } else {
        put_text(out, at, b" blank=no\n")
    }
}

pub fn put_queue_line(out: &mut [u8], at: usize, closed: bool, i: u8, n: u8, blank: bool) -> usize
    requires { LineAt at }
    ensures { Put 40 out.old at (queue_text closed i n blank) out.new result }
{
    let a = put_count(out, at, b"queue=", i);
    let b = put_count(out, a, b" cap=", n);
    put_blank(out, b, closed, blank)
}

// A procedure line from its drop field on.
fn put_drop(out: &mut [u8], at: usize, closed: bool, drop: u8) -> usize
    requires { FieldAt at }
    ensures { Put 93 out.old at (drop_text closed drop) out.new result }
{
    if closed {
        return put_last_list(out, at, b" drop=", drop as u32);
    }
    put_byte(out, at, b'\n')
}

pub fn put_proc_line(
    out: &mut [u8],
    at: usize,
    closed: bool,
    i: u8,
    params: u8,
    vars: u8,
    nodes: u8,
    drop: u8,
) -> usize
    requires { LineAt at }
    ensures { Put 140 out.old at (proc_line_text closed i params vars nodes drop) out.new result }
{
    let a = put_count(out, at, b"proc=", i);
    let b = put_count(out, a, b" params=", params);
    let c = put_count(out, b, b" vars=", vars);
    let d = put_count(out, c, b" nodes=", nodes);
    put_drop(out, d, closed, drop)
}

// A node's line; nothing where there is no node.
pub fn put_node(out: &mut [u8], at: usize, j: u8, x: Node) -> usize
    requires { (LineAt at) × (FewArgs x) }
    ensures { Put 240 out.old at (node_bytes j x) out.new result }
{
    if at + 256 <= out.len() {
        return fill_node(out, at, j, x);
    }
    put_filled::<256, _>(out, at, |t| fill_node(t, 0, j, x))
}
