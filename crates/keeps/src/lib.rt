// The nodes that count as kept: by the closer's analysis in an open table, all in a closed one.

#![tactic(auto)]

ghost use Rattle.std.specs.Prelude.{◌≡◌};
ghost use Rattle.text.specs.Writer.{fault};
ghost use Rattle.keeps.specs.Keeps.{Keeps};

use table::Table;

// Which nodes of a table without a fault count as kept: bit n of mask p for node n of procedure p.
pub fn kept(t: Table) -> [u32; 8]
    requires { fault t ≡ 0 }
    ensures { Keeps t result }
{
    if t.closed {
        [u32::MAX; 8]
    } else {
        analysis::kept_masks(t)
    }
}
