//! The weighted distance.

ghost use Rattle.std.specs.Prelude.{◌≡◌, ℕ, ◌-◌, ◌^◌, ◌<◌, ◌≤◌, All, Some, length, slice_get, slice_index};
ghost use Rattle.flow_model.specs.declared.net.Commodity.{Commodity as CommodityIs};
ghost use Rattle.flow_model.specs.Bound.{weighted_distance};
ghost use Rattle.hop_paths.specs.Allowed.{limit_at};
ghost use Rattle.hop_check.specs.Layers.{hop_distance, hop_distances, hop_dual};
ghost use Rattle.hop_check.specs.Tables.{HasPlaces};

use crate::layers::Layers;
use crate::rise::layer;
use flow_model::{Commodity, Net};
use flow_paths::Dual;
use mcf_limits::{MAX_LENGTH, MAX_TOTAL};

// What the commodity's to has above what its from has, or 0 where that is negative.
fn difference(k: Commodity, above: &[u64], below: &[u64]) -> u64
    requires from { k.from < length below.now }
    requires to { k.to < length above.now }
    requires limit { All (λ p. p ≤ MAX_LENGTH) above.now }
    ensures value { result ≡ slice_index above.now k.to - slice_index below.now k.from }
    ensures limit { result ≤ MAX_LENGTH }
{
    above[k.to as usize].saturating_sub(below[k.from as usize])
}

// The commodity's distance.
fn distance(
    net: &Net,
    k: Commodity,
    limit: Option<u8>,
    dual: &Dual,
    layers: &Layers,
    rows: &[usize],
    places: &[usize],
) -> u64
    requires ends { (k.from < net.now.nodes) × (k.to < net.now.nodes) }
    requires placed { HasPlaces net.now.nodes (hop_dual dual.now layers.now) rows.now places.now limit k }
    ensures value { result ≡ hop_distance (hop_dual dual.now layers.now) limit k }
    ensures limit { result ≤ MAX_LENGTH }
{
    match limit {
        Some(most) => {
            let above = layer(net, layers, places, k.from, most);
            difference(k, above, layer(net, layers, places, k.from, 0))
        }
        None => {
            let row = dual.row(rows[k.from as usize]);
            difference(k, row, row)
        }
    }
}

/// Amount times distance, over all commodities, in units: at most 2^108. The tables tell where the rows stand that the
/// distances are taken from, and there are as many limits as commodities.
pub fn weighted(
    net: &Net,
    limits: &[Option<u8>],
    dual: &Dual,
    layers: &Layers,
    rows: &[usize],
    places: &[usize],
) -> u128
    requires count { length limits.now ≡ length net.now.commodities }
    requires placed { (k : ℕ) (commodity : CommodityIs) → slice_get net.now.commodities k ≡ Some commodity
        → HasPlaces net.now.nodes (hop_dual dual.now layers.now) rows.now places.now (limit_at limits.now k) commodity }
    ensures value { result ≡ weighted_distance net.now.commodities
        (hop_distances net.now limits.now (hop_dual dual.now layers.now)) }
    ensures limit { result ≤ 2 ^ 108 }
{
    let mut total = 0u128;
    for (k, commodity) in net.commodities().iter().enumerate() {
        let distance = distance(net, *commodity, limits[k], dual, layers, rows, places);
        total += u128::from(commodity.amount) * u128::from(distance);
    }
    total
}
