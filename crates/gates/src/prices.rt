//! What commodities cost.

ghost use Rattle.std.specs.Prelude.{◌≡◌, ℕ, ◌+◌, ◌<◌, ◌≤◌, ◌++◌, All, Some, length, slice_get, slice_index, slice_index_or};
ghost use Rattle.flow_model.specs.declared.net.Commodity.{Commodity as CommodityIs};
ghost use Rattle.flow_paths.specs.DualRows.{potential_at};
ghost use Rattle.flow_paths.specs.Certificate.{IsPotentialOf};
ghost use Rattle.dual_bound.specs.Bounds.{IsBoundOf};
ghost use Rattle.gates.specs.Gates.{AreGates};
ghost use Rattle.gates.specs.Prices.{lesser_of, IsPriceOf, IsLeastIfAny};

use crate::lengths::Gated;
use flow_model::{Cell, Net};
use flow_paths::Dual;
use mcf_limits::MAX_LENGTH;

// The smaller of two prices, if there is one.
fn lesser(a: Option<u64>, b: Option<u64>) -> Option<u64>
    ensures { result ≡ lesser_of a b }
{
    match a {
        None => b,
        Some(x) => match b {
            None => Some(x),
            Some(y) => Some(x.min(y)),
        },
    }
}

// The price of the commodity of that number, where its gate has a capacity: what the row has at the commodity's to, and
// the gate's length.
fn price_of(
    net: &Net,
    gates: &[Cell],
    lengths: &Gated<'_>,
    dual: &Dual,
    k: usize,
    row: usize,
) -> Option<u64>
    requires k { k < length net.now.commodities }
    requires gates { AreGates net.now gates.now }
    requires long { (length lengths.now.cells.now ≡ length net.now.cells)
        × (length lengths.now.gates.now ≡ length gates.now) }
    requires small { All (λ x. x ≤ MAX_LENGTH) lengths.now.gates.now }
    requires bound { IsBoundOf net.now lengths.now.cells.now dual.now }
    requires row { row < length dual.now.potentials }
    requires node { (commodity : CommodityIs) → slice_get net.now.commodities k ≡ Some commodity
        → (potential_at dual.now.potentials row).node ≡ commodity.from }
    ensures { IsPriceOf net.now (lengths.now.cells.now ++ lengths.now.gates.now) k result }
{
    let to = net.commodities()[k].to;
    if gates[k].cap == 0 {
        return None;
    }
    Some(dual.row(row)[to as usize] + lengths.gates[k])
}

/// The least price of a commodity, or `None` where none has a walk. The dual is that of the cells' lengths, and the table
/// tells where the row of each source stands.
pub fn least_price(
    net: &Net,
    gates: &[Cell],
    lengths: &Gated<'_>,
    dual: &Dual,
    places: &[usize],
) -> Option<u64>
    requires gates { AreGates net.now gates.now }
    requires long { (length lengths.now.cells.now ≡ length net.now.cells)
        × (length lengths.now.gates.now ≡ length gates.now) }
    requires small { All (λ x. x ≤ MAX_LENGTH) lengths.now.gates.now }
    requires bound { IsBoundOf net.now lengths.now.cells.now dual.now }
    requires count { length places.now ≡ net.now.nodes }
    requires placed { (k : ℕ) (commodity : CommodityIs) → slice_get net.now.commodities k ≡ Some commodity
        → (slice_index places.now commodity.from < length dual.now.potentials)
        × ((potential_at dual.now.potentials (slice_index places.now commodity.from)).node ≡ commodity.from) }
    ensures { IsLeastIfAny net.now (lengths.now.cells.now ++ lengths.now.gates.now) result }
{
    let mut least = None;
    for (k, commodity) in net.commodities().iter().enumerate() {
        let row = places[commodity.from as usize];
        least = lesser(least, price_of(net, gates, lengths, dual, k, row));
    }
    least
}
