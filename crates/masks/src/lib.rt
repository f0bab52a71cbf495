// What the loops over masks share.
#![tactic(auto)]

ghost use Rattle.std.specs.Prelude.{◌≡◌, ◌<◌, ◌*◌, ◌^◌};
ghost use Rattle.std.specs.Int.Bits.{bit_or};
ghost use Rattle.table.specs.Mask.{pick};
ghost use Rattle.masks.specs.Bits.{without};
ghost use Rattle.masks.specs.Cells.{grown, is_new};

// m without n.
pub fn minus(m: u32, n: usize) -> u32
    requires { n < 32 }
    ensures { result ≡ without m n }
{
    m & !(1 << n)
}

// m, with n added if yes.
pub fn with(m: u32, n: usize, yes: bool) -> u32
    requires { n < 32 }
    ensures { result ≡ pick yes (bit_or m (1 * 2 ^ n)) m }
{
    if yes { m | 1 << n } else { m }
}

// The mask m is added to the cell a; the answer says whether something was new.
#[tactic(auto, unfolding(crate::specs::Cells::grown))]
pub fn grow<const N: usize>(cells: &mut [u32; N], a: usize, m: u32) -> bool
    requires { a < N }
    ensures list { cells.new ≡ grown cells.old a m }
    ensures new { result ≡ is_new cells.old a m }
{
    let old = cells[a];
    let new = old | m;
    cells[a] = new;
    new != old
}
