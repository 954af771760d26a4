//! The limits of a network's commodities.

ghost use Rattle.std.specs.Prelude.{◌≡◌, ◌+◌, ◌<◌, ◌≤◌, nat_lt, if◌then◌else◌, Some, None, Ok, Err, MatchOption, MatchResult};
ghost use Rattle.mcf_limits.specs.declared.TheConstants.{MAX_NODES, MAX_HOPS as MOST};
ghost use Rattle.sndlib_rows.specs.RowViews.{demand_row_view};
ghost use Rattle.unit_scale.specs.Scaling.{kept_from};
ghost use Rattle.hop_check.specs.Limits.{limit_of};
ghost use Rattle.hop_check.specs.Found.{FindsLimits};

use crate::rounded::rounded;
use mcf_limits::MAX_HOPS;
use sndlib_grammar::number_parts;
use sndlib_rows::{DemandRow, NetKind, NetRefusal, RawNet};
use std::alloc::Global;
use unit_scale::{ScaleEnd, Scaled};

// The longest path as a limit, if some walk without repeated nodes is longer.
fn below(most: u32, nodes: u16) -> Option<u32>
    requires { most ≤ 1000 }
    ensures { result ≡ (if nat_lt (most + 1) nodes then Some most else None) }
{
    if most + 1 < nodes as u32 {
        Some(most)
    } else {
        None
    }
}

// The limit of a demand in a network of `nodes` nodes, if it has one.
fn limit(nodes: u16, row: &DemandRow<'_>) -> Option<u32>
    requires { nodes ≤ MAX_NODES }
    ensures { result ≡ limit_of nodes (demand_row_view row.now) }
{
    let number = match number_parts(row.longest) {
        Some(number) => number,
        None => return None,
    };
    below(rounded(&number), nodes)
}

// The limit as a small number, if it is none or not too far.
fn near(limit: Option<u32>) -> Option<Option<u8>>
    ensures { MatchOption result (MatchOption limit ⊥ (λ n. MOST < n))
        (λ l. (l ≡ limit) × MatchOption l (Unit {0}) (λ n. n ≤ MOST)) }
{
    match limit {
        None => Some(None),
        Some(most) => {
            if most <= MAX_HOPS as u32 {
                Some(Some(most as u8))
            } else {
                None
            }
        }
    }
}

/// The limit of each commodity of the network that the rows stand for: its demand's longest path rounded down, and none
/// where this is the number of nodes less one, or more. Refused at the first demand that is kept and has a limit of more
/// than 64 (N11).
pub fn hop_limits(
    alloc: Global,
    raw: &RawNet<'_>,
    scaled: &Scaled,
) -> Result<Vec<Option<u8>>, ScaleEnd>
    requires { scaled.now.kept ≡ kept_from 0 raw.now.demands }
    ensures { MatchResult result (λ v. FindsLimits raw.now scaled.now (Ok v.items))
        (λ e. FindsLimits raw.now scaled.now (Err e)) }
{
    let (_net, nodes) = (scaled.net(), raw.nodes());
    let mut limits = Vec::new(alloc);
    for k in 0..scaled.commodities() {
        let row = raw.demand(scaled.demand_of(k));
        let limit = match near(limit(nodes, &row)) {
            Some(limit) => limit,
            None => {
                return Err(ScaleEnd::Refused(NetRefusal {
                    line: row.line,
                    kind: NetKind::HopTooFar,
                }));
            }
        };
        if limits.push(limit).is_err() {
            return Err(ScaleEnd::Memory);
        }
    }
    Ok(limits)
}
