// The caption of a table's graphs, written into a lent buffer. Each function writes at a place, as far as the buffer reaches, and gives the
// place after what it wrote.

#![tactic(auto)]

ghost use Rattle.std.specs.Prelude.{◌≤◌};
ghost use Rattle.put.specs.Put.{Put, ByteAt, LineAt};
ghost use Rattle.labels.specs.Graph.{form_text, sem_text, blank_text, queue_text, caption_text};

use put::{put_rows, put_text};
use put_fields::put_count;
use table::{Queue, Sem, Table};

fn put_form(out: &mut [u8], at: usize, closed: bool) -> usize
    requires { ByteAt at }
    ensures { Put 10 out.old at (form_text closed) out.new result }
{
    if closed {
        return put_text(out, at, b", closed\\l");
    }
    put_text(out, at, b", open\\l")
}

fn put_sem(out: &mut [u8], at: usize, i: u8, x: Sem) -> usize
    requires { LineAt at }
    ensures { Put 20 out.old at (sem_text i x) out.new result }
{
    let a = put_count(out, at, b"sem ", i);
    let b = put_count(out, a, b": count ", x.count);
    put_text(out, b, b"\\l")
}

// The end of a queue's line: whether a closed table's queue is blank.
fn put_blank(out: &mut [u8], at: usize, closed: bool, blank: bool) -> usize
    requires { ByteAt at }
    ensures { Put 9 out.old at (blank_text closed blank) out.new result }
{
    if closed && blank {
        return put_text(out, at, b", blank\\l");
    }
    put_text(out, at, b"\\l")
}

fn put_queue(out: &mut [u8], at: usize, closed: bool, i: u8, x: Queue) -> usize
    requires { LineAt at }
    ensures { Put 32 out.old at (queue_text closed i x) out.new result }
{
    let a = put_count(out, at, b"queue ", i);
    let b = put_count(out, a, b": capacity ", x.cap);
    put_blank(out, b, closed, x.blank)
}

// The caption of a table: the trap, its semaphores and its queues.
pub fn put_caption(out: &mut [u8], at: usize, t: Table) -> usize
    requires { (at ≤ 400000000) × (t.sems ≤ 8) × (t.queues ≤ 8) }
    ensures { Put 444 out.old at (caption_text t) out.new result }
{
    let a = put_count(out, at, b"label=\"trap ", t.trap);
    let b = put_form(out, a, t.closed);
    let c = put_rows::<20, _>(out, b, t.sems as usize, |out, at, i| {
        put_sem(out, at, i as u8, t.sem[i])
    });
    let d = put_rows::<32, _>(out, c, t.queues as usize, |out, at, i| {
        put_queue(out, at, t.closed, i as u8, t.queue[i])
    });
    put_text(out, d, b"\";\n")
}
