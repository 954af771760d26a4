//! From phase to phase.

ghost use Rattle.std.specs.Prelude.{◌≡◌, ℕ, ◌+◌, ◌*◌, ◌<◌, ◌≤◌, ◌↔◌, ◌++◌, [], if◌then◌else◌, IsTrue, IfOk, length, slice_index};
ghost use Rattle.flow_model.specs.Lengths.{IsSetting};
ghost use Rattle.flow_paths.specs.Evaluation.{fill, fraction_le};
ghost use Rattle.flow_paths.specs.Fullness.{IsFill, fullness};
ghost use Rattle.route_tally.specs.Asked.{AreRunOptions, first_setting};
ghost use Rattle.throughput.specs.Partial.{part_upper_of};
ghost use Rattle.gates.specs.Gates.{IsLeastPrice};
ghost use Rattle.throughput.specs.Run.{HasSomeWalk, IsPartBoundOf};
ghost use Rattle.throughput.specs.Loaded.{HasLoaded, IsLoaded, IsPrepared, lengths_under};
ghost use Rattle.throughput.specs.Reached.{IsMet, IsReached, IsRoom, carried_in};

use crate::fractions::is_within;
use crate::loaded::Loaded;
use crate::measured::{measured, value_of};
use crate::phases::phase;
use crate::prepared::Prepared;
use crate::reached::{Kept, Reached, Room};
use flow_model::{Cell, Net, Setting};
use flow_paths::{Fill, fullest};
use gap_fraction::Frac;
use mcf_limits::{MAX_LENGTH, MAX_PHASES, MAX_TOTAL, MAX_UNITS};
use route_tally::RunOptions;
use solver_run::{setting_after_first, setting_at_first};
use std::alloc::{AllocError, Global};
use std::cmp::Ordering;

// The first of two at which capacity over load is least.
fn fuller(first: Fill, second: Fill) -> Fill
    ensures { result ≡ (if fraction_le (fullness first) (fullness second) then first else second) }
{
    if u128::from(first.cap) * u128::from(second.load)
        <= u128::from(second.cap) * u128::from(first.load)
    {
        return first;
    }
    second
}

// The fullest cell or gate, where some gate has a load: the first, cells before gates.
fn fullest_of(on: &Prepared<'_>, loaded: &Loaded) -> Fill
    requires on { IsPrepared on.now.net.now on.now.gates.now on.now.least }
    requires loaded { HasLoaded on.now.net.now loaded.now }
    requires small { loaded.now.total ≤ MAX_LENGTH }
    requires some { (k : ℕ) × (k < length on.now.net.now.commodities)
        × (1 ≤ slice_index loaded.now.gates.items k) }
    ensures value { fullness result ≡ fill (on.now.net.now.cells ++ on.now.gates.now)
        (loaded.now.cells.items ++ loaded.now.gates.items) }
    ensures fits { IsFill result }
{
    let cells = fullest(on.net.cells(), &loaded.cells);
    fuller(cells, fullest(on.gates, &loaded.gates))
}

// The bound of these loads, and what it says.
fn bounded(
    alloc: Global,
    on: &Prepared<'_>,
    setting: &Setting,
    loaded: &Loaded,
    room: &mut Room,
) -> Result<Kept, AllocError>
    requires on { IsPrepared on.now.net.now on.now.gates.now on.now.least }
    requires setting { IsSetting setting.now }
    requires loaded { HasLoaded on.now.net.now loaded.now }
    requires small { loaded.now.total ≤ MAX_LENGTH }
    requires some { HasSomeWalk on.now.net.now }
    requires room { IsRoom on.now.net.now room.old }
    ensures room { IsRoom on.now.net.now room.new }
    ensures bound { IfOk result (λ k. IsPartBoundOf on.now.net.now
        (lengths_under on.now.net.now on.now.gates.now setting.now loaded.now) k.bound) }
    ensures value { IfOk result (λ k. k.value ≡ part_upper_of on.now.net.now k.bound) }
    ensures threshold { IfOk result (λ k. (1 ≤ k.bound.threshold) × (k.bound.threshold ≤ MAX_LENGTH)) }
{
    match measured(alloc, on, setting, loaded, &mut room.cells, &mut room.gates)? {
        Some(bound) => {
            let value = value_of(alloc, on.net, &bound)?;
            Ok(Kept { bound, value })
        }
        None => unreachable!(),
    }
}

// The smaller of two bounds; the earlier where they are equal.
fn lesser(earlier: Kept, later: Kept) -> Kept
    ensures { result ≡ (if fraction_le earlier.value later.value then earlier else later) }
{
    match earlier.value.cmp(&later.value) {
        Ordering::Greater => later,
        _ => earlier,
    }
}

/// The first phase, and the bound after it; the least price is that under no loads.
pub fn first(
    alloc: Global,
    on: &Prepared<'_>,
    options: &RunOptions,
    least: u64,
    room: Room,
    loaded: Loaded,
) -> Result<Reached, AllocError>
    requires on { IsPrepared on.now.net.now on.now.gates.now on.now.least }
    requires options { AreRunOptions (length on.now.net.now.commodities) options.now }
    requires least { IsLeastPrice on.now.net.now
        (lengths_under on.now.net.now on.now.gates.now (first_setting options.now.step) loaded) least }
    requires low { least ≤ MAX_LENGTH }
    requires room { IsRoom on.now.net.now room }
    requires loaded { IsLoaded on.now.net.now [] loaded }
    requires none { (loaded.total ≡ 0) × (length loaded.tally ≡ 0) }
    ensures reached { IfOk result (λ r. IsReached on.now.net.now on.now.gates.now options.now r) }
    ensures count { IfOk result (λ r. r.phases ≡ 1) }
{
    let mut room = room;
    let mut loaded = loaded;
    let setting = setting_at_first(options.step);
    phase(
        on,
        setting,
        least,
        &mut room.scratch,
        &mut room.cells,
        &mut loaded,
    )?;
    let fill = fullest_of(on, &loaded);
    let later = setting_after_first(fill, options.step);
    let kept = bounded(alloc, on, &later, &loaded, &mut room)?;
    let least = kept.bound.threshold;
    Ok(Reached {
        loaded,
        room,
        phases: 1,
        reference: fill,
        fill,
        kept,
        least,
    })
}

/// Routes one more phase, and keeps the smaller of the least bound and the bound after it.
pub fn next(
    alloc: Global,
    on: &Prepared<'_>,
    options: &RunOptions,
    reached: Reached,
) -> Result<Reached, AllocError>
    requires on { IsPrepared on.now.net.now on.now.gates.now on.now.least }
    requires options { AreRunOptions (length on.now.net.now.commodities) options.now }
    requires reached { IsReached on.now.net.now on.now.gates.now options.now reached }
    requires unmet { ¬ (IsMet on.now.net.now options.now reached) }
    requires budget { reached.phases < options.now.phases }
    ensures reached { IfOk result (λ r. IsReached on.now.net.now on.now.gates.now options.now r) }
    ensures count { IfOk result (λ r. r.phases ≡ reached.phases + 1) }
{
    let Reached {
        loaded,
        room,
        phases,
        reference,
        fill: _,
        kept,
        least,
    } = reached;
    let mut room = room;
    let mut loaded = loaded;
    let setting = setting_after_first(reference, options.step);
    phase(
        on,
        setting,
        least,
        &mut room.scratch,
        &mut room.cells,
        &mut loaded,
    )?;
    let fill = fullest_of(on, &loaded);
    let later = bounded(alloc, on, &setting, &loaded, &mut room)?;
    let least = later.bound.threshold;
    Ok(Reached {
        loaded,
        room,
        phases: phases + 1,
        reference,
        fill,
        kept: lesser(kept, later),
        least,
    })
}

/// The total that is carried, in units.
pub fn carried(reached: &Reached) -> Frac
    requires total { reached.now.loaded.total ≤ MAX_PHASES * MAX_TOTAL }
    requires fill { IsFill reached.now.fill }
    ensures value { result ≡ carried_in reached.now }
    ensures den { result.den ≤ MAX_LENGTH }
{
    Frac::new(
        u128::from(reached.loaded.total) * u128::from(reached.fill.cap),
        u128::from(reached.fill.load),
    )
}

/// Whether the total and the least bound lie within the gap.
pub fn is_met(net: &Net, gates: &[Cell], options: &RunOptions, reached: &Reached) -> bool
    requires options { AreRunOptions (length net.now.commodities) options.now }
    requires reached { IsReached net.now gates.now options.now reached.now }
    requires budget { reached.now.phases ≤ options.now.phases }
    ensures { IsTrue result ↔ IsMet net.now options.now reached.now }
{
    let _cells = net.cells();
    let total = carried(reached);
    is_within(&total, &reached.kept.value, options.gap)
}
