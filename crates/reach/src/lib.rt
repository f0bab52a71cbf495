// Where the arcs of one procedure lead through the nodes that are not kept.

#![tactic(auto)]

ghost use Rattle.std.specs.Prelude.{◌≡◌, ◌<◌, ◌/◌, ◌%◌, length};
ghost use Rattle.std.specs.Int.Bits.{bit_or};
ghost use Rattle.table.specs.Mask.{pick};
ghost use Rattle.masks.specs.Bits.{without};
ghost use Rattle.masks.specs.Cells.{grown, Flag};
ghost use Rattle.reach.specs.Reach.{joined, noted, Own, Gone, last_of, Reaches};

// The first of the two targets of a node.
fn first(e: u32) -> usize
    ensures { result ≡ e / 32 % 32 }
{
    (e / 32 % 32) as usize
}

// The second.
fn second(e: u32) -> usize
    ensures { result ≡ e % 32 }
{
    (e % 32) as usize
}

// A node that is not kept reaches what its two targets reach.
fn step(ends: &[u32; 32], i: usize, cells: &mut [u32; 32]) -> bool
    requires { i < 32 }
    ensures list { cells.new ≡ joined ends.now cells.old i }
    ensures flag { Flag cells.old cells.new result }
{
    let f = first(ends[i]);
    let s = second(ends[i]);
    let m = cells[f] | cells[s];
    masks::grow(cells, i, m)
}

// Before the first step: a kept node reaches itself.
fn own(kept: u32) -> [u32; 32]
    ensures { Own kept result }
{
    let mut cells = [0u32; 32];
    for (i, cell) in cells.iter_mut().enumerate() {
        *cell = kept & (1 << i);
    }
    cells
}

// Node n is noted at its two targets.
fn note(ends: &[u32; 32], n: usize, from: &mut [u32; 32])
    requires { n < 32 }
    ensures { from.new ≡ noted ends.now from.old n }
{
    masks::grow(from, first(ends[n]), 1 << n);
    masks::grow(from, second(ends[n]), 1 << n);
}

// The last of the nodes m, if it has one.
fn last(m: u32) -> usize
    ensures { result ≡ last_of m }
{
    (31 - m.leading_zeros() % 32) as usize
}

// What is to be seen after node i: those of m, too, if something was new there.
fn next(todo: u32, i: usize, fresh: bool, m: u32) -> u32
    requires { i < 32 }
    ensures { result ≡ pick fresh (bit_or (without todo i) m) (without todo i) }
{
    let rest = masks::minus(todo, i);
    if fresh { rest | m } else { rest }
}

// For each node the kept nodes that it leads to through nodes that are not kept. ends has the two targets of each node,
// 32 times the first plus the second; gone has the nodes that are not kept, but for those that stay where they are. Each node of gone is
// seen once, and again after a target of it has got something new; the last first. from has for each node those seen that have it as a target.
pub fn reach(kept: u32, gone: u32, ends: &[u32; 32]) -> [u32; 32]
    requires { Gone kept gone ends.now }
    ensures { Reaches kept ends.now result }
{
    let mut cells = own(kept);
    let mut from = [0u32; 32];
    let mut todo = gone;
    let mut left = gone;
    while left != 0 {
        let n = last(left);
        let again = step(ends, n, &mut cells);
        todo = next(todo, n, again, from[n]);
        note(ends, n, &mut from);
        left = masks::minus(left, n);
    }
    while todo != 0 {
        let i = last(todo);
        let fresh = step(ends, i, &mut cells);
        todo = next(todo, i, fresh, from[i]);
    }
    cells
}
