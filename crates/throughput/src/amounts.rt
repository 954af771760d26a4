//! What a routing carries: of each commodity, and in all.

ghost use Rattle.std.specs.Prelude.{◌≡◌, ℕ, ◌*◌, ◌^◌, ◌<◌, ◌≤◌, ◌↔◌, length, IsTrue, Some, slice_get, slice_index};
ghost use Rattle.flow_model.specs.declared.net.Commodity.{Commodity as CommodityIs};
ghost use Rattle.throughput.specs.Partial.{total_of};

use cert_check::is_product_within;
use flow_model::Commodity;
use flow_paths::PathStore;

/// Whether each amount carried, times the scale's capacity, is at most the scale's load times the commodity's: all in
/// units, and any numbers. There are as many amounts as commodities.
pub fn are_within(
    commodities: &[Commodity],
    amounts: &[u128],
    scale_cap: u64,
    scale_load: u64,
) -> bool
    requires { length amounts.now ≡ length commodities.now }
    ensures { IsTrue result ↔ ((k : ℕ) (commodity : CommodityIs)
        → slice_get commodities.now k ≡ Some commodity
        → slice_index amounts.now k * scale_cap ≤ scale_load * commodity.amount) }
{
    for (k, commodity) in commodities.iter().enumerate() {
        let most = scale_load as u128 * commodity.amount as u128;
        if !is_product_within(amounts[k], scale_cap, most) {
            return false;
        }
    }
    true
}

/// The sum of all weights, in units: below 2^94, since there are fewer than 2^32 rows.
pub fn total(paths: &PathStore) -> u128
    ensures value { result ≡ total_of paths.now }
    ensures limit { result < 2 ^ 94 }
{
    let mut total = 0u128;
    for row in 0..paths.rows() {
        total += paths.weight(row) as u128;
    }
    total
}
