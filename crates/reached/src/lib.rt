// The nodes of a procedure that some control path from node 0 reaches.

#![tactic(auto)]

ghost use Rattle.std.specs.Prelude.{◌≡◌, ◌%◌};
ghost use Rattle.std.specs.Int.Count.{count_trailing_zeros};
ghost use Rattle.table.specs.Mask.{mask_of};
ghost use Rattle.table.specs.Table.{parts};
ghost use Rattle.reached.specs.Reached.{is_reached, target_mask, waiting};

use table::{Node, Proc};

// The targets of all arcs of a node.
#[tactic(auto, unfolding(table::specs::Table::parts))]
fn targets(x: Node) -> u32
    ensures { result ≡ target_mask (parts x).exit }
{
    match x {
        Node::Absent | Node::Return => 0,
        Node::Test { yes, no, .. } => yes | no,
        Node::Start { to }
        | Node::Set { to, .. }
        | Node::Read { to, .. }
        | Node::Call { to, .. }
        | Node::Wait { to, .. }
        | Node::Signal { to, .. }
        | Node::Send { to, .. }
        | Node::Recv { to, .. }
        | Node::Assert { to, .. }
        | Node::Out { to, .. } => to,
    }
}

// The first node seen whose arcs have not been followed, if there is one.
fn next(seen: u32, done: u32) -> usize
    ensures { result ≡ count_trailing_zeros 32 (waiting seen done) % 32 }
{
    ((seen ^ (seen & done)).trailing_zeros() % 32) as usize
}

// The nodes that are reached, as a mask. Of the nodes seen so far, those in done have had their arcs followed.
pub fn nodes(q: Proc) -> u32
    ensures { result ≡ mask_of 32 (is_reached q) }
{
    let mut seen: u32 = 1;
    let mut done: u32 = 0;
    while done != seen {
        let n = next(seen, done);
        seen |= targets(q.slots[n].node);
        done = masks::with(done, n, true);
    }
    seen
}
