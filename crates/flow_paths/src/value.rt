//! The volume and the weighted distance.

ghost use Rattle.std.specs.Prelude.{◌≡◌, ℕ, ◌-◌, ◌*◌, ◌^◌, ◌<◌, ◌≤◌, ◌==◌, All, Some, length, map, find, slice_index};
ghost use Rattle.std.specs.List.{sum_by};
ghost use Rattle.flow_model.specs.Network.{IsCommodity};
ghost use Rattle.flow_model.specs.Bound.{volume, weighted_distance};
ghost use Rattle.flow_paths.specs.DualRows.{potential_at};
ghost use Rattle.flow_paths.specs.Certificate.{distance_of};

use crate::Dual;
use flow_model::{Cell, Commodity};
use mcf_limits::{MAX_CELLS, MAX_LENGTH, MAX_TOTAL, MAX_UNITS};

/// Capacity times length, over all cells.
pub fn volume(cells: &[Cell], lengths: &[u64]) -> u128
    requires few { length cells.now ≤ MAX_CELLS }
    requires caps { All (λ c. c.cap ≤ MAX_UNITS) cells.now }
    requires sizes { length lengths.now ≡ length cells.now }
    requires size_limit { All (λ n. n ≤ MAX_LENGTH) lengths.now }
    ensures value { result ≡ volume cells.now lengths.now }
    ensures limit { result ≤ 2 ^ 119 }
{
    let mut total = 0u128;
    for (c, cell) in cells.iter().enumerate() {
        total += cell.cap as u128 * lengths[c] as u128;
    }
    total
}

// The difference of a commodity's potentials, or 0 where that is negative.
fn difference(k: Commodity, potential: &[u64]) -> u64
    requires from { k.from < length potential.now }
    requires to { k.to < length potential.now }
    requires limit { All (λ p. p ≤ MAX_LENGTH) potential.now }
    ensures value { result ≡ slice_index potential.now k.to - slice_index potential.now k.from }
    ensures limit { result ≤ MAX_LENGTH }
{
    potential[k.to as usize].saturating_sub(potential[k.from as usize])
}

/// Amount times distance, over all commodities.
pub fn weighted_distance(commodities: &[Commodity], places: &[usize], dual: &Dual) -> u128
    requires ends { All (IsCommodity (length places.now)) commodities.now }
    requires total { sum_by (λ k. k.amount) commodities.now ≤ MAX_TOTAL }
    requires wide { All (λ r. length r.values ≡ length places.now) dual.now.potentials }
    requires rows { All (λ k. (slice_index places.now k.from < length dual.now.potentials)
        × (find (λ r. r.node == k.from) dual.now.potentials
        ≡ Some (potential_at dual.now.potentials (slice_index places.now k.from)))) commodities.now }
    ensures value { result ≡ weighted_distance commodities.now
        (map (distance_of dual.now.potentials) commodities.now) }
    ensures limit { result ≤ 2 ^ 108 }
{
    let mut total = 0u128;
    for k in commodities {
        let potential = dual.row(places[k.from as usize]);
        total += u128::from(k.amount) * u128::from(difference(*k, potential));
    }
    total
}
