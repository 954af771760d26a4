//! The bound of loads, with the least price as its threshold.

ghost use Rattle.std.specs.Prelude.{◌≡◌, ◌≤◌, All, IfOk, MatchOption, length};
ghost use Rattle.flow_model.specs.Lengths.{AreLengths, IsSetting};
ghost use Rattle.fixed_exp.specs.Far.{EmptyAreFar};
ghost use Rattle.dual_bound.specs.Bounds.{IsBoundOf, ShowsBound};
ghost use Rattle.flow_paths.specs.Certificate.{lengths_in};
ghost use Rattle.throughput.specs.Partial.{part_upper_of};
ghost use Rattle.throughput.specs.Run.{HasNoWalk, IsPartBoundOf};
ghost use Rattle.throughput.specs.Loaded.{HasLoaded, IsPrepared, lengths_under};

use crate::bound::upper_num;
use crate::loaded::Loaded;
use crate::part_proof::PartDual;
use crate::prepared::Prepared;
use cert_check::lengths;
use dual_bound::{are_filled, assembled, fill_rows, source_rows};
use flow_model::{Net, Setting};
use flow_paths::{Dual, row_places};
use gap_fraction::Frac;
use gates::{Gated, gated_lengths, least_price};
use mcf_limits::MAX_LENGTH;
use std::alloc::{AllocError, Global};

// The dual of these lengths of cells, with the distance of each node from each source.
fn dual_of(alloc: Global, on: &Prepared<'_>, lengths: &[u64]) -> Result<Dual, AllocError>
    requires lengths { AreLengths on.now.net.now.cells lengths.now }
    requires empty { EmptyAreFar on.now.net.now.cells lengths.now }
    ensures dual { IfOk result (IsBoundOf on.now.net.now lengths.now) }
    ensures shows { IfOk result (ShowsBound on.now.net.now lengths.now) }
{
    let _cells = on.net.cells();
    let mut rows = source_rows(alloc, on.net)?;
    fill_rows(alloc, on.graph, lengths, &mut rows);
    if !are_filled(&rows) {
        return Err(AllocError);
    }
    assembled(alloc, lengths, &rows)
}

/// The dual of the lengths under these loads, with the least price as its threshold; `None` where no commodity has a walk.
pub fn measured(
    alloc: Global,
    on: &Prepared<'_>,
    setting: &Setting,
    loaded: &Loaded,
    cells: &mut [u64],
    gates: &mut [u64],
) -> Result<Option<PartDual>, AllocError>
    requires on { IsPrepared on.now.net.now on.now.gates.now on.now.least }
    requires setting { IsSetting setting.now }
    requires loaded { HasLoaded on.now.net.now loaded.now }
    requires small { loaded.now.total ≤ MAX_LENGTH }
    requires cells { length cells.old ≡ length on.now.net.now.cells }
    requires gates { length gates.old ≡ length on.now.net.now.commodities }
    ensures cells { length cells.new ≡ length cells.old }
    ensures gates { length gates.new ≡ length gates.old }
    ensures bound { IfOk result (λ bound. MatchOption bound (HasNoWalk on.now.net.now)
        (IsPartBoundOf on.now.net.now (lengths_under on.now.net.now on.now.gates.now setting.now loaded.now))) }
{
    let now = Gated {
        cells: &loaded.cells,
        gates: &loaded.gates,
    };
    gated_lengths(on.powers, on.net, on.gates, setting, &now, cells, gates);
    let dual = dual_of(alloc, on, cells)?;
    let places = row_places(alloc, on.net.nodes() as usize, &dual)?;
    let long = Gated { cells, gates };
    match least_price(on.net, on.gates, &long, &dual, &places) {
        Some(threshold) => Ok(Some(PartDual { threshold, dual })),
        None => Ok(None),
    }
}

/// What the bound says of the total.
pub fn value_of(alloc: Global, net: &Net, bound: &PartDual) -> Result<Frac, AllocError>
    requires threshold { bound.now.threshold ≤ MAX_LENGTH }
    requires positive { 1 ≤ bound.now.threshold }
    requires shows { ShowsBound net.now (lengths_in net.now bound.now.dual) bound.now.dual }
    ensures { IfOk result (λ f. f ≡ part_upper_of net.now bound.now) }
{
    let table = lengths(alloc, net, &bound.dual)?;
    let num = upper_num(alloc, net, &table, bound)?;
    Ok(Frac::new(num, u128::from(bound.threshold)))
}
