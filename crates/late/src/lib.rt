// The faults after all lines: an argument count that differs from the callee's, and what only a closed table can have wrong.

#![tactic(auto)]

ghost use Rattle.std.specs.Prelude.{◌≡◌, Result};
ghost use Rattle.text.specs.Reader.{first_late, late as lateList};
ghost use Rattle.late.specs.Late.{Counted, late_in};
ghost use Rattle.late_nodes.specs.Terms.{terms_of};

use late_lines::At;
use late_nodes::{Callee, Terms};
use table::Table;

// What the nodes of a table are judged by.
fn terms_of(t: Table) -> Terms
    ensures { result ≡ terms_of t }
{
    let mut callee = [Callee { params: 0, drop: 0 }; 8];
    for (p, q) in t.proc.iter().enumerate() {
        callee[p] = Callee {
            params: q.params,
            drop: q.drop,
        };
    }
    let queue = t.queue;
    Terms {
        closed: t.closed,
        callee,
        queue,
    }
}

// The first fault 6 or 7 of a table, with its line.
pub fn find(t: Table) -> Result<(), At>
    requires { Counted t }
    ensures { late_in t result ≡ first_late t 1 (lateList t) }
{
    let terms = terms_of(t);
    let behind = late_lines::tasks(t.task, t.tasks, terms)?;
    let mut line = behind + usize::from(t.sems) + usize::from(t.queues);
    for q in &t.proc[..usize::from(t.procs)] {
        line = late_lines::proc_at(*q, terms, line)?;
    }
    Ok(())
}
