// An arc taken, by a toss where it has two or more targets.

#![tactic(auto)]

ghost use Rattle.std.specs.Prelude.{◌≡◌, ◌<◌, ◌≤◌, length, slice_get};
ghost use Rattle.table.specs.Mask.{members};
ghost use Rattle.tosses.specs.Stops.{number_of};
ghost use Rattle.tosses.specs.Tosses.{meeting, tossed, arrived_of, straight_of};

// Why a run stops.
#[derive(Clone, Copy, PartialEq, Eq)]
pub enum Stop {
    NoSuchTask,
    LogFull,
    TaskLost,
    TaskBlocked,
    TooMany,
    ValuesSpent,
    BadToss,
}

// Document 01's number of a stop.
#[tactic(auto, unfolding(machine::specs::Step::stop_number))]
pub fn number(stop: Stop) -> u8
    ensures { result ≡ number_of stop }
{
    match stop {
        Stop::NoSuchTask => machine::NO_SUCH_TASK,
        Stop::LogFull => machine::LOG_FULL,
        Stop::TaskLost => machine::TASK_LOST,
        Stop::TaskBlocked => machine::TASK_BLOCKED,
        Stop::TooMany => machine::TOO_MANY,
        Stop::ValuesSpent => machine::VALUES_SPENT,
        Stop::BadToss => machine::BAD_TOSS,
    }
}

// Where an arc leads: to no node, to a kept one, or to a dropped one.
#[derive(Clone, Copy)]
pub enum Target {
    Nowhere,
    Kept(u8),
    Dropped(u8),
}

// The i-th number in a mask.
fn nth(m: u32, i: u32) -> Option<u8>
    ensures { result ≡ slice_get (members m) i }
{
    let mut rest = m;
    for _k in 0..i {
        if rest == 0 {
            return None;
        }
        rest &= rest - 1;
    }
    if rest == 0 {
        None
    } else {
        Some(rest.trailing_zeros() as u8)
    }
}

// Node j, which is met.
#[tactic(auto, unfolding(table::specs::Mask::bit))]
fn met(j: u8, keep: u32) -> Target
    requires { j < 32 }
    ensures { result ≡ meeting keep j }
{
    if (keep >> j) % 2 == 1 {
        Target::Kept(j)
    } else {
        Target::Dropped(j)
    }
}

// Two or more targets: the next value chooses.
fn toss(arc: u32, keep: u32, values: &[i32], used: usize) -> Result<(Target, usize), Stop>
    requires { used ≤ length values.now }
    ensures { result ≡ tossed (members arc) keep used (slice_get values.now used) }
{
    let Some(x) = values.get(used) else {
        return Err(Stop::ValuesSpent);
    };
    let Some(j) = nth(arc, values::bits_of(*x)) else {
        return Err(Stop::BadToss);
    };
    Ok((met(j, keep), used + 1))
}

// Where an arc leads, and the values then used.
pub fn arrive(arc: u32, keep: u32, values: &[i32], used: usize) -> Result<(Target, usize), Stop>
    requires { used ≤ length values.now }
    ensures { result ≡ arrived_of arc keep values.now used }
{
    if arc == 0 {
        return Ok((Target::Nowhere, used));
    }
    if arc & (arc - 1) == 0 {
        return Ok((met(arc.trailing_zeros() as u8, keep), used));
    }
    toss(arc, keep, values, used)
}

// The kept node that an arc leads straight to: its one target, if that is kept; else 0, which a row of bytes has for none.
pub fn straight(arc: u32, keep: u32) -> u8
    ensures { result ≡ straight_of arc keep }
{
    if arc == 0 || arc & (arc - 1) != 0 {
        return 0;
    }
    let low = arc.trailing_zeros();
    if (keep >> low) % 2 == 1 { low as u8 } else { 0 }
}
