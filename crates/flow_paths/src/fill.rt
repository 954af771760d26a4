//! The fullest cell of loads.

ghost use Rattle.std.specs.Prelude.{◌≡◌, if◌then◌else◌, ◌==◌, length};
ghost use Rattle.flow_paths.specs.Evaluation.{fill, fraction_le};
ghost use Rattle.flow_paths.specs.Fullness.{fullness};

use flow_model::Cell;

/// The capacity and the load of the fullest cell. Without a load there is none, and these are 1 and 0.
#[derive(Clone, Copy, Debug, PartialEq, Eq)]
pub struct Fill {
    /// Its capacity, in units.
    pub cap: u64,
    /// Its load, in units.
    pub load: u64,
}

// The cell, if it has a load and is at least as full as the fullest of those after it; else that one.
#[inline(always)]
fn fuller(cap: u64, load: u64, after: Fill) -> Fill
    ensures { fullness result ≡ (if load == 0 then fullness after
        else (if fraction_le (record { num = cap; den = load }) (fullness after) then record { num = cap; den = load }
        else fullness after)) }
{
    if load != 0
        && u128::from(cap) * u128::from(after.load) <= u128::from(after.cap) * u128::from(load)
    {
        return Fill { cap, load };
    }
    after
}

/// The first cell at which capacity over load is least, of those with a load.
pub fn fullest(cells: &[Cell], loads: &[u64]) -> Fill
    requires { length loads.now ≡ length cells.now }
    ensures { fullness result ≡ fill cells.now loads.now }
{
    let mut fullest = Fill { cap: 1, load: 0 };
    for i in (0..cells.len()).rev() {
        fullest = fuller(cells[i].cap, loads[i], fullest);
    }
    fullest
}
