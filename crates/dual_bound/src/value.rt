//! The value of a dual: volume over weighted distance.

ghost use Rattle.std.specs.Prelude.{◌≡◌, ◌≤◌, ◌^◌};
ghost use Rattle.flow_paths.specs.Certificate.{upper_of};
ghost use Rattle.dual_bound.specs.Bounds.{CanDivide};
ghost use Rattle.dual_bound.specs.Rows.{AreWeighted, dual_of, weight_of};

use crate::rows::Row;
use flow_model::Net;
use flow_paths::volume;
use gap_fraction::Frac;

// What the rows are weighted with, added up.
fn weight(rows: &[Row]) -> u128
    requires { weight_of rows.now ≤ 2 ^ 108 }
    ensures { result ≡ weight_of rows.now }
{
    let mut total = 0u128;
    for row in rows {
        total += row.weighted;
    }
    total
}

/// Volume over weighted distance of the dual of these lengths and filled rows, which is not made.
pub fn upper(net: &Net, lengths: &[u64], rows: &[Row]) -> Frac
    requires divides { CanDivide net.now lengths.now (dual_of lengths.now rows.now) }
    requires weighted { AreWeighted net.now rows.now }
    requires limit { weight_of rows.now ≤ 2 ^ 108 }
    ensures { result ≡ upper_of net.now (dual_of lengths.now rows.now) }
{
    Frac::new(volume(net.cells(), lengths), weight(rows))
}
