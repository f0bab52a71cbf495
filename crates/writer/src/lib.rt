// Writing a table's text into a lent buffer. Each function writes at a place, as far as the buffer reaches, and gives the place after
// what it wrote: on an empty buffer it measures.

#![tactic(auto)]

ghost use Rattle.std.specs.Prelude.{◌≤◌};
ghost use Rattle.text.specs.Writer.{text};
ghost use Rattle.put.specs.Put.{Put};
ghost use Rattle.writer.specs.Table.{ProcIn, FrontIn, Counts, proc_bytes, front_bytes, WrittenAs};

use lines::{
    put_counts_line, put_head_line, put_node, put_pair_line, put_proc_line, put_queue_line,
};
use put::put_rows;
use table::{Proc, Queue, Sem, Table, Task};
use text::Writing;

// A procedure's line and its node lines.
pub fn put_proc(out: &mut [u8], at: usize, closed: bool, i: u8, q: Proc) -> usize
    requires { (at ≤ 800000000) × (ProcIn q) }
    ensures { Put 7820 out.old at (proc_bytes closed i q) out.new result }
{
    let a = put_proc_line(out, at, closed, i, q.params, q.vars, q.nodes, q.drop);
    put_rows::<240, _>(out, a, q.nodes as usize, |out, at, j| {
        put_node(out, at, j as u8, q.slots[j].node)
    })
}

// What the lines before the procedures say.
#[derive(Clone, Copy)]
pub struct Front {
    pub trap: u8,
    pub closed: bool,
    pub tasks: u8,
    pub procs: u8,
    pub sems: u8,
    pub queues: u8,
    pub task: [Task; 4],
    pub sem: [Sem; 8],
    pub queue: [Queue; 8],
}

// The lines before the procedures.
pub fn put_front(out: &mut [u8], f: Front) -> usize
    requires { FrontIn f }
    ensures { Put 880 out.old 0 (front_bytes f) out.new result }
{
    let a = put_head_line(out, 0, f.trap, f.closed);
    let b = put_counts_line(out, a, f.tasks, f.procs, f.sems, f.queues);
    let c = put_rows::<40, _>(out, b, f.tasks as usize, |out, at, i| {
        put_pair_line(out, at, b"task=", i as u8, b" top=", f.task[i].top)
    });
    let d = put_rows::<40, _>(out, c, f.sems as usize, |out, at, i| {
        put_pair_line(out, at, b"sem=", i as u8, b" count=", f.sem[i].count)
    });
    put_rows::<40, _>(out, d, f.queues as usize, |out, at, i| {
        put_queue_line(out, at, f.closed, i as u8, f.queue[i].cap, f.queue[i].blank)
    })
}

// A table's text, from the buffer's start. Each procedure is handed on by itself, so that one is copied at a time.
pub fn put_table(out: &mut [u8], t: Table) -> usize
    requires { Counts t }
    ensures { Put 65536 out.old 0 (text t) out.new result }
{
    let front = Front {
        trap: t.trap,
        closed: t.closed,
        tasks: t.tasks,
        procs: t.procs,
        sems: t.sems,
        queues: t.queues,
        task: t.task,
        sem: t.sem,
        queue: t.queue,
    };
    let p = put_front(out, front);
    put_rows::<7820, _>(out, p, t.procs as usize, |out, at, i| {
        put_proc(out, at, t.closed, i as u8, t.proc[i])
    })
}

// The text of a table that has no fault, or 8 where the buffer is shorter. No table's text is longer than 65,536 bytes.
pub fn write_ready(t: Table, out: &mut [u8]) -> Writing
    requires { Counts t }
    ensures { WrittenAs (text t) out.old out.new result }
{
    if 65536 <= out.len() {
        let len = put_table(out, t);
        return Writing {
            number: 0,
            line: 0,
            len,
        };
    }
    let need = put_table(&mut out[..0], t);
    if out.len() < need {
        return Writing {
            number: text::SHORT,
            line: 0,
            len: 0,
        };
    }
    let len = put_table(out, t);
    Writing {
        number: 0,
        line: 0,
        len,
    }
}
