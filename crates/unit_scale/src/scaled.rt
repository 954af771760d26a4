//! The network of a text, in whole units.

ghost use Rattle.std.specs.Prelude.{◌≡◌};
ghost use Rattle.unit_scale.specs.ScaleEnd.{Scales};
ghost use Rattle.unit_scale.specs.Sorts.{ScalesAt, ScalesByParts};

use crate::NetOptions;
use crate::cells::cells_of;
use crate::commodities::{hop_count, kept_demands};
use crate::demands::demand_sizes;
use crate::links::link_sizes;
use crate::refusal::{RowEnd, RowSort, ScaleEnd, at_row, refused};
use crate::sizes::least_decimals;
use flow_model::Net;
use sndlib_rows::{NetKind, RawNet};
use std::alloc::Global;
use std::marker::Model;

/// A network in units of 10^-decimals, and what was left out of its rows. It is seen as its options, its network, the decimals, the demand of each commodity and two counts.
#[derive(Drop)]
pub struct Scaled {
    options: NetOptions,
    net: Net,
    decimals: u8,
    rows: Vec<u32>,
    left: u32,
    hops: u32,
}

impl Model for Scaled {
    ghost use Rattle.unit_scale.specs.Scaling.{ScaledNet};

    ghost Value = { ScaledNet };

    ghost use Rattle.unit_scale.specs.ScaledFacts.{IsScaledNet};

    ghost view = { λ s. record {
      options = s.options;
      net = s.net;
      decimals = s.decimals;
      kept = s.rows.items;
      left = s.left;
      hops = s.hops;
    } };

    ghost invariant = { λ s. IsScaledNet (record {
      options = s.options;
      net = s.net;
      decimals = s.decimals;
      kept = s.rows.items;
      left = s.left;
      hops = s.hops;
    }) };
}

// The network of the rows, stage by stage.
fn scale_by_parts(alloc: Global, raw: &RawNet<'_>, options: NetOptions) -> Result<Scaled, RowEnd>
    ensures { ScalesByParts raw.now options result }
{
    let links = match link_sizes(alloc, raw, options.modules) {
        Ok(links) => links,
        Err(end) => return Err(at_row(RowSort::Link, end)),
    };
    let demands = match demand_sizes(alloc, raw) {
        Ok(demands) => demands,
        Err(end) => return Err(at_row(RowSort::Demand, end)),
    };
    let decimals = least_decimals(&links, &demands);
    let cells = match cells_of(alloc, raw, options, &links, decimals) {
        Ok(cells) => cells,
        Err(end) => return Err(at_row(RowSort::Link, end)),
    };
    let kept = match kept_demands(alloc, raw, &demands, decimals) {
        Ok(kept) => kept,
        Err(end) => return Err(at_row(RowSort::Demand, end)),
    };
    if kept.commodities.as_slice().is_empty() {
        let end = refused(NetKind::NoDemand, raw.end_line());
        return Err(at_row(RowSort::End, end));
    }
    Ok(Scaled {
        options,
        net: Net::new(raw.nodes(), cells, kept.commodities),
        decimals,
        rows: kept.rows,
        left: kept.left,
        hops: hop_count(raw),
    })
}

/// The network that the rows stand for under the options, as `scale`; or the first refusal, with the sort of row at which it lies: a link or a demand (N8, N9), or the end (N10).
pub fn scale_at(alloc: Global, raw: &RawNet<'_>, options: NetOptions) -> Result<Scaled, RowEnd>
    ensures { ScalesAt raw.now options result }
{
    scale_by_parts(alloc, raw, options)
}

/// The network that the rows stand for under the options, with the least number of decimals; or the first refusal: a number, capacity or amount that is no whole number of millionths (N8), one that is over its limit (N9), no commodity (N10).
pub fn scale(alloc: Global, raw: &RawNet<'_>, options: NetOptions) -> Result<Scaled, ScaleEnd>
    ensures { Scales raw.now options result }
{
    match scale_at(alloc, raw, options) {
        Ok(scaled) => Ok(scaled),
        Err(RowEnd::Refused(row)) => Err(ScaleEnd::Refused(row.refusal)),
        Err(RowEnd::Memory) => Err(ScaleEnd::Memory),
    }
}

impl Scaled {
    ghost use Rattle.std.specs.Prelude.{◌≡◌, ◌<◌, ◌≤◌, ◌==◌, length, position, slice_index};
    ghost use Rattle.unit_scale.specs.ScaledFacts.{IsScaledNet};

    /// How the rows were read.
    pub fn options(&self) -> NetOptions
        ensures { result ≡ self.now.options }
    {
        self.options
    }

    /// The network, in units.
    pub fn net(&self) -> &Net
        ensures value { result.now ≡ self.now.net }
        ensures facts { IsScaledNet self.now }
    {
        &self.net
    }

    /// How many decimals a unit has: it is 10^-decimals.
    pub fn decimals(&self) -> u8
        ensures value { result ≡ self.now.decimals }
        ensures facts { IsScaledNet self.now }
    {
        self.decimals
    }

    /// How many commodities there are.
    pub fn commodities(&self) -> u32
        ensures { result ≡ length self.now.kept }
    {
        self.rows.len() as u32
    }

    /// The demand of the commodity of that number.
    pub fn demand_of(&self, k: u32) -> u32
        requires { k < length self.now.kept }
        ensures value { result ≡ slice_index self.now.kept k }
        ensures facts { IsScaledNet self.now }
    {
        self.rows[k as usize]
    }

    /// The commodity of the demand of that number, and `None` exactly where it was left out.
    pub fn commodity_of(&self, demand: u32) -> Option<u32>
        ensures { result ≡ position (λ row. row == demand) self.now.kept }
    {
        match self.rows.as_slice().binary_search(&demand) {
            Ok(k) => Some(k as u32),
            Err(_) => None,
        }
    }

    /// How many demands were left out: of amount zero, or from a node to itself.
    pub fn left(&self) -> u32
        ensures { result ≡ self.now.left }
    {
        self.left
    }

    /// How many demands have a number as their longest path.
    pub fn hops(&self) -> u32
        ensures { result ≡ self.now.hops }
    {
        self.hops
    }
}
