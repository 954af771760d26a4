//! The commodities of demands.

ghost use Rattle.std.specs.Prelude.{◌≡◌, ◌+◌, ◌^◌, ◌<◌, ◌≤◌, true, false, length, count_by, MatchOption, OnOk};
ghost use Rattle.sndlib_grammar.specs.declared.refusal.NetKind.TheVariants.{TooLarge as TooLargeIs};
ghost use Rattle.unit_scale.specs.Scaling.{first_large, has_hops};
ghost use Rattle.unit_scale.specs.Seen.{size_units, size_is_large};
ghost use Rattle.unit_scale.specs.Stages.{Stage, AreDemandSizes, IsKept, kept_view, with_demand};

use crate::demands::DemandSize;
use crate::refusal::{ScaleEnd, refused};
use crate::sizes::unit_of;
use flow_model::Commodity;
use mcf_limits::{MAX_DECIMALS, MAX_TOTAL, MAX_UNITS};
use sndlib_grammar::is_number;
use sndlib_rows::{DemandRow, NetKind, RawNet};
use std::alloc::{AllocError, Global};

/// The commodities, the number of the demand of each, and how many demands were left out.
#[derive(Drop)]
pub struct Kept {
    /// The commodities.
    pub commodities: Vec<Commodity>,
    /// The number of the demand of each.
    pub rows: Vec<u32>,
    /// How many demands were left out.
    pub left: u32,
}

// The units of a demand that count, if neither a number nor they nor the total with them is over its limit.
fn counted_units(size: &DemandSize, unit: u128, total: u64) -> Option<u64>
    requires unit { 1 ≤ unit }
    requires total { total ≤ MAX_TOTAL }
    ensures { MatchOption result (size_is_large size.now unit total ≡ true)
        (λ n. (size_is_large size.now unit total ≡ false) × (n ≡ size_units size.now unit)
        × (total + n ≤ MAX_TOTAL)) }
{
    if size.over {
        return None;
    }
    let units = if size.left { 0 } else { size.millionths / unit };
    if units > MAX_UNITS as u128 {
        return None;
    }
    let amount = units as u64;
    if total + amount > MAX_TOTAL {
        return None;
    }
    Some(amount)
}

// Keeps a demand, unless it is left out.
fn add_demand(
    kept: &mut Kept,
    left: bool,
    row: &DemandRow<'_>,
    i: u32,
    amount: u64,
) -> Result<(), AllocError>
    requires { kept.old.left + 1 < 2 ^ 32 }
    ensures { OnOk result (kept_view kept.new ≡ with_demand left
        (record { from = row.now.source; to = row.now.target; amount = amount }) i (kept_view kept.old)) }
{
    if left {
        kept.left += 1;
        return Ok(());
    }
    kept.commodities.push(Commodity {
        from: row.source,
        to: row.target,
        amount,
    })?;
    kept.rows.push(i)?;
    Ok(())
}

/// The demands that are kept, if none is too large.
pub fn kept_demands(
    alloc: Global,
    raw: &RawNet<'_>,
    sizes: &[DemandSize],
    decimals: u8,
) -> Result<Kept, ScaleEnd>
    requires decimals { decimals ≤ MAX_DECIMALS }
    requires sizes { AreDemandSizes raw.now.demands sizes.now }
    ensures { Stage TooLargeIs (first_large decimals 0 raw.now.demands) (IsKept decimals raw.now.demands) result }
{
    let unit = unit_of(decimals);
    let mut total = 0u64;
    let mut kept = Kept {
        commodities: Vec::new(alloc),
        rows: Vec::new(alloc),
        left: 0,
    };
    for i in 0..raw.demands() {
        let size = sizes[i as usize];
        let row = raw.demand(i);
        let amount = match counted_units(&size, unit, total) {
            Some(amount) => amount,
            None => return Err(refused(NetKind::TooLarge, row.line)),
        };
        match add_demand(&mut kept, size.left, &row, i, amount) {
            Ok(()) => {}
            Err(_) => return Err(ScaleEnd::Memory),
        }
        total += amount;
    }
    Ok(kept)
}

/// How many demands have a number as their longest path.
pub fn hop_count(raw: &RawNet<'_>) -> u32
    ensures { result ≡ count_by has_hops raw.now.demands }
{
    let mut hops = 0u32;
    for i in 0..raw.demands() {
        let row = raw.demand(i);
        if is_number(row.longest) {
            hops += 1;
        }
    }
    hops
}
