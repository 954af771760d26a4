//! The capacity over the load of a cell.

ghost use Rattle.std.specs.Prelude.{◌≡◌, ◌≤◌, ◌*◌, ◌↔◌, IsTrue};
ghost use Rattle.whatif.specs.Ratios.{IsRatio, Precedes, ratio_of as ratio_of_cell};
ghost use Rattle.whatif.specs.Tournament.{IsWinner};

use mcf_limits::MAX_UNITS;

/// More than any load of a valid certificate: 2^72.
pub const MAX_LOAD: u128 = 1 << 72;

/// A capacity over a load, and the cell that has them. Without a load it is 1/0.
#[derive(Clone, Copy, Debug, PartialEq, Eq)]
pub struct Ratio {
    /// The capacity, in units.
    pub cap: u64,
    /// The load, in units.
    pub load: u128,
    /// The number of the cell.
    pub cell: u16,
}

/// The ratio of a cell.
pub fn ratio_of(cap: u64, load: u128, cell: u16) -> Ratio
    requires cap { cap ≤ MAX_UNITS }
    requires load { load ≤ MAX_LOAD }
    ensures value { result ≡ ratio_of_cell cap load cell }
    ensures ratio { IsRatio result }
{
    if load == 0 {
        Ratio {
            cap: 1,
            load: 0,
            cell,
        }
    } else {
        Ratio { cap, load, cell }
    }
}

// Whether the first goes before the second.
fn precedes(x: Ratio, y: Ratio) -> bool
    requires x { IsRatio x }
    requires y { IsRatio y }
    ensures yes { IsTrue result → Precedes x y }
    ensures no { ¬ (IsTrue result) → Precedes y x }
{
    let left = x.cap as u128 * y.load;
    let right = y.cap as u128 * x.load;
    left < right || (left == right && x.cell <= y.cell)
}

/// The one of the two that goes before the other: of less value, or, where the values are equal, of the earlier cell.
pub fn winner(x: Ratio, y: Ratio) -> Ratio
    requires x { IsRatio x }
    requires y { IsRatio y }
    ensures winner { IsWinner result x y }
    ensures ratio { IsRatio result }
{
    if precedes(x, y) { x } else { y }
}
