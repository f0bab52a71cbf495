// The fault of a hand-made table.

#![tactic(auto)]

ghost use Rattle.std.specs.Prelude.{◌≡◌};
ghost use Rattle.text.specs.declared.Fault.TheVariants.{Unused};
ghost use Rattle.text.specs.Value.{unless};
ghost use Rattle.text.specs.Writer.{tidy, fault};
ghost use Rattle.text.specs.Structure.{table_fault};
ghost use Rattle.checks.specs.Judging.{judged};
ghost use Rattle.unused.specs.Unused.{Ranged};
ghost use Rattle.faults.specs.Checked.{number_of};

use table::Table;
use text::Fault;

fn unused(t: Table) -> Result<(), Fault>
    requires { Ranged t }
    ensures { result ≡ judged (unless (tidy t) Unused) }
{
    if unused::all_tidy(t) {
        Ok(())
    } else {
        Err(Fault::Unused)
    }
}

// A table's first fault, faulty or not.
pub fn fault(t: Table) -> Result<(), Fault>
    ensures found { result ≡ judged (table_fault t) }
    ensures number { number_of result ≡ fault t }
{
    line_faults::lines(t)?;
    if let Err(late) = late::find(t) {
        return Err(late.fault);
    }
    unused(t)
}
