// Writing the closed table of an open one, and closing from text to text.

#![tactic(auto)]

ghost use Rattle.std.specs.Prelude.{◌≡◌, false};
ghost use Rattle.text.specs.Writer.{text, fault};
ghost use Rattle.closing.specs.Close.{close_table};
ghost use Rattle.closing.specs.Program.{printed};
ghost use Rattle.put.specs.Put.{Put};

use table::Table;
use writer::Front;

// The text of the closed table, from the buffer's start: each procedure is closed and written before the next, so that no closed table is
// stored and copied in between.
pub fn put_closed(out: &mut [u8], t: Table) -> usize
    requires { (fault t ≡ 0) × (t.closed ≡ false) }
    ensures { Put 65536 out.old 0 (text (close_table t)) out.new result }
{
    let cells = analysis::dirty_cells(t);
    let front = Front {
        trap: t.trap,
        closed: true,
        tasks: t.tasks,
        procs: t.procs,
        sems: t.sems,
        queues: t.queues,
        task: t.task,
        sem: t.sem,
        queue: closer::closed_queues(t.queue, cells[264]),
    };
    let mut p = writer::put_front(out, front);
    for i in 0..t.procs {
        let k = i as usize;
        let c = closer::closed_proc(t.proc[k], k, &cells);
        p = writer::put_proc(out, p, true, i, c);
    }
    p
}

// What the closing program prints for a text: its bytes as far as the buffer reaches, and their number, at most 65,536.
pub fn close_text(s: &[u8], out: &mut [u8]) -> usize
    ensures { Put 65536 out.old 0 (printed s.now) out.new result }
{
    let r = reader::read(s);
    if r.number != 0 {
        refusals::put_refused(out, r.number, r.line)
    } else if r.table.closed {
        refusals::put_refused(out, 9, 0)
    } else {
        put_closed(out, r.table)
    }
}
