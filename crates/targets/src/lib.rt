// The fault of a list that is held as a mask.

#![tactic(auto)]

ghost use Rattle.std.specs.Prelude.{◌≡◌, false, not, ◌||◌, ◌≤◌};
ghost use Rattle.table.specs.Mask.{members};
ghost use Rattle.text.specs.Value.{check, ascending, within, is_one};
ghost use Rattle.targets.specs.Judged.{judged};

use text::Fault;

// In open form a list of targets has one.
fn listed(closed: bool, m: u32) -> bool
    ensures { result ≡ (not (not closed) || is_one (members m)) }
{
    closed || m.count_ones() == 1
}

// The members of m are 1 to n-1.
fn inside(m: u32, n: u8) -> bool
    requires { n ≤ 32 }
    ensures { result ≡ within 1 n (members m) }
{
    m % 2 == 0 && u64::from(m) < 1u64 << n
}

// The targets of an arc, with so many nodes.
pub fn targets(closed: bool, nodes: u8, m: u32) -> Result<(), Fault>
    requires { nodes ≤ 32 }
    ensures { result ≡ judged (check (ascending (not closed) 1 nodes) (members m)) }
{
    if !listed(closed, m) {
        return Err(Fault::Misspelt);
    }
    if !inside(m, nodes) {
        return Err(Fault::Reference);
    }
    Ok(())
}

// The parameters that are dropped, of so many.
pub fn dropped(params: u8, m: u8) -> Result<(), Fault>
    ensures { result ≡ judged (check (ascending false 0 params) (members m)) }
{
    if params < 8 && 1u32 << params <= u32::from(m) {
        return Err(Fault::Reference);
    }
    Ok(())
}
