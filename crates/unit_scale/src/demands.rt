//! The amounts of demands.

ghost use Rattle.std.specs.Prelude.{◌≡◌, true, false, MatchOption};
ghost use Rattle.sndlib_rows.specs.RowViews.{demand_row_view};
ghost use Rattle.unit_scale.specs.Sizes.{is_fine_demand};
ghost use Rattle.unit_scale.specs.Scaling.{first_line};
ghost use Rattle.unit_scale.specs.Stages.{Stage, AreDemandSizes};
ghost use Rattle.sndlib_grammar.specs.declared.refusal.NetKind.TheVariants.{TooFine as TooFineIs};
ghost use Rattle.unit_scale.specs.Seen.{seen_demand, seen_amount};

use crate::refusal::{ScaleEnd, refused};
use crate::short::{MILLIONTHS, MOST};
use crate::sizes::{either, word_size};
use sndlib_rows::{DemandRow, NetKind, RawNet};
use std::alloc::Global;

/// The amount of a demand in millionths: itself where no number is over the limit, and else one of the same last `MAX_DECIMALS` digits.
#[derive(Clone, Copy, Debug)]
pub struct DemandSize {
    /// The amount, in millionths.
    pub millionths: u128,
    /// Whether a number is over the limit.
    pub over: bool,
    /// The demand is left out.
    pub left: bool,
}

/// The amount of a demand, if it and its numbers are whole numbers of millionths.
pub fn demand_size(row: &DemandRow<'_>) -> Option<DemandSize>
    ensures { MatchOption result (is_fine_demand (demand_row_view row.now) ≡ true)
        (λ z. (is_fine_demand (demand_row_view row.now) ≡ false)
        × (seen_amount z ≡ seen_demand (demand_row_view row.now))) }
{
    let unit = match word_size(row.unit) {
        Some(unit) => unit,
        None => return None,
    };
    let value = match word_size(row.value) {
        Some(value) => value,
        None => return None,
    };
    let product = unit as u128 * value as u128;
    if product % MILLIONTHS as u128 != 0 {
        return None;
    }
    let millionths = product / MILLIONTHS as u128;
    Some(DemandSize {
        millionths,
        over: either(unit > MOST, value > MOST),
        left: either(millionths == 0, row.source == row.target),
    })
}

/// The amounts of the demands, if none is too fine.
pub fn demand_sizes(alloc: Global, raw: &RawNet<'_>) -> Result<Vec<DemandSize>, ScaleEnd>
    ensures { Stage TooFineIs (first_line is_fine_demand (λ d. d.line) raw.now.demands)
        (λ v. AreDemandSizes raw.now.demands v.items) result }
{
    let mut sizes = Vec::new(alloc);
    for i in 0..raw.demands() {
        let row = raw.demand(i);
        let size = match demand_size(&row) {
            Some(size) => size,
            None => return Err(refused(NetKind::TooFine, row.line)),
        };
        if sizes.push(size).is_err() {
            return Err(ScaleEnd::Memory);
        }
    }
    Ok(sizes)
}
