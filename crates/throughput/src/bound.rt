//! The bound on the total.

ghost use Rattle.std.specs.Prelude.{◌≡◌, ℕ, ◌-◌, ◌*◌, ◌+◌, ◌^◌, ◌<◌, ◌≤◌, ◌==◌, All, Some, length, map, find, IfOk, slice_index};
ghost use Rattle.std.specs.List.{sum_by};
ghost use Rattle.flow_model.specs.Network.{IsCommodity};
ghost use Rattle.flow_model.specs.Bound.{weighted_distance};
ghost use Rattle.flow_paths.specs.DualRows.{potential_at};
ghost use Rattle.flow_paths.specs.Certificate.{distance_of, distances_in, IsPotentialOf, SourcesHaveRows};
ghost use Rattle.throughput.specs.Partial.{excess, part_volume};

use crate::part_proof::PartDual;
use flow_model::{Commodity, Net};
use flow_paths::{row_places, volume};
use mcf_limits::{MAX_LENGTH, MAX_TOTAL};
use std::alloc::{AllocError, Global};

// What the threshold has above the commodity's distance, or 0 where that is negative.
fn above(k: Commodity, potential: &[u64], threshold: u64) -> u64
    requires from { k.from < length potential.now }
    requires to { k.to < length potential.now }
    ensures value { result ≡ threshold
        - (slice_index potential.now k.to - slice_index potential.now k.from) }
    ensures limit { result ≤ threshold }
{
    let distance = potential[k.to as usize].saturating_sub(potential[k.from as usize]);
    threshold.saturating_sub(distance)
}

// Amount times what the threshold has above the distance, over all commodities.
fn weighted_excess(commodities: &[Commodity], places: &[usize], bound: &PartDual) -> u128
    requires ends { All (IsCommodity (length places.now)) commodities.now }
    requires total { sum_by (λ k. k.amount) commodities.now ≤ MAX_TOTAL }
    requires threshold { bound.now.threshold ≤ MAX_LENGTH }
    requires wide { All (λ r. length r.values ≡ length places.now) bound.now.dual.potentials }
    requires rows { All (λ k. (slice_index places.now k.from < length bound.now.dual.potentials)
        × (find (λ r. r.node == k.from) bound.now.dual.potentials
        ≡ Some (potential_at bound.now.dual.potentials (slice_index places.now k.from)))) commodities.now }
    ensures value { result ≡ weighted_distance commodities.now
        (excess bound.now.threshold (map (distance_of bound.now.dual.potentials) commodities.now)) }
    ensures limit { result ≤ 2 ^ 108 }
{
    let mut total = 0u128;
    for k in commodities {
        let potential = bound.dual.row(places[k.from as usize]);
        total += u128::from(k.amount) * u128::from(above(*k, potential, bound.threshold));
    }
    total
}

/// The numerator of the bound on the total: the volume of the lengths, and amount times what the threshold has above the
/// distance, over all commodities, in units. At most 2^120. Every source has a row of potentials.
pub fn upper_num(
    alloc: Global,
    net: &Net,
    lengths: &[u64],
    bound: &PartDual,
) -> Result<u128, AllocError>
    requires threshold { bound.now.threshold ≤ MAX_LENGTH }
    requires rows { All (IsPotentialOf net.now) bound.now.dual.potentials }
    requires sources { SourcesHaveRows net.now bound.now.dual }
    requires len { length lengths.now ≡ length net.now.cells }
    requires limit { All (λ n. n ≤ MAX_LENGTH) lengths.now }
    ensures value { IfOk result (λ n. n ≡ part_volume net.now bound.now.threshold lengths.now
        (distances_in net.now bound.now.dual)) }
    ensures limit { IfOk result (λ n. n ≤ 2 ^ 120) }
{
    let places = row_places(alloc, net.nodes() as usize, &bound.dual)?;
    let excess = weighted_excess(net.commodities(), &places, bound);
    Ok(volume(net.cells(), lengths) + excess)
}
