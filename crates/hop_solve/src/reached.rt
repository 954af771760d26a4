//! What a run has reached after some phases.

ghost use Rattle.std.specs.Prelude.{◌≡◌, if◌then◌else◌, ◌+◌, ◌*◌, ◌<◌, ◌≤◌, ◌↔◌, [], IsTrue, IfOk, List, length};
ghost use Rattle.flow_model.specs.Routing.{Row};
ghost use Rattle.flow_paths.specs.Evaluation.{fraction_le};
ghost use Rattle.flow_paths.specs.Fullness.{IsFill};
ghost use Rattle.route_tally.specs.Asked.{AreRunOptions, first_setting};
ghost use Rattle.hop_paths.specs.Allowed.{AreLimits};
ghost use Rattle.hop_solve.specs.Run.{IsHopPhase};
ghost use Rattle.hop_solve.specs.Turns.{IsFinder, IsRouted};
ghost use Rattle.hop_solve.specs.Reached.{IsHopReached, IsHopMet};

use crate::bounds::{HopBound, bound_of};
use crate::finder::Finder;
use crate::given::Given;
use crate::turns::{Routed, phase};
use fixed_exp::LengthTable;
use flow_paths::{Fill, fullest};
use gap_fraction::Frac;
use mcf_limits::{MAX_LENGTH, MAX_PHASES};
use route_tally::RunOptions;
use solver_run::setting_after_first;
use std::alloc::{AllocError, Global};
use std::cmp::Ordering;

/// After one phase or more: what was routed, the number of phases, the fullest cell, and the least bound.
#[derive(Drop)]
pub struct HopReached {
    /// What was routed.
    pub routed: Routed,
    /// Room for searches.
    pub finder: Finder,
    /// How many phases there were.
    pub phases: u32,
    /// The fullest cell.
    pub fill: Fill,
    /// The least bound so far.
    pub kept: HopBound,
}

// The smaller of two bounds; the earlier where they are equal.
fn lesser(earlier: HopBound, later: HopBound) -> HopBound
    ensures { result ≡ (if fraction_le earlier.value later.value then earlier else later) }
{
    match earlier.value.cmp(&later.value) {
        Ordering::Greater => later,
        _ => earlier,
    }
}

/// What is reached with the first phase: its fullest cell is the reference of all lengths from now on, and the bound is
/// that of the loads after it.
pub fn first(
    alloc: Global,
    on: &Given<'_>,
    options: &RunOptions,
    routed: Routed,
    finder: Finder,
) -> Result<HopReached, AllocError>
    requires limits { AreLimits on.now.net.now on.now.limits.now }
    requires options { AreRunOptions (length on.now.net.now.commodities) options.now }
    requires finder { IsFinder on.now.net.now on.now.counts.now finder }
    requires phase { (turns : List Row)
        × IsHopPhase on.now.net.now on.now.limits.now (first_setting options.now.step) [] turns
        × IsRouted on.now.net.now turns routed }
    ensures reached { IfOk result
        (IsHopReached on.now.net.now on.now.limits.now on.now.counts.now options.now) }
    ensures count { IfOk result (λ r. r.phases ≡ 1) }
{
    let mut routed = routed;
    let mut finder = finder;
    let fill = fullest(on.net.cells(), &routed.loads);
    let setting = setting_after_first(fill, options.step);
    routed.table = LengthTable::new(alloc, on.powers, on.net, &setting)?;
    routed.table.update(on.powers, on.net, &routed.loads);
    let kept = bound_of(alloc, on, routed.table.lengths(), &mut finder)?;
    Ok(HopReached {
        routed,
        finder,
        phases: 1,
        fill,
        kept,
    })
}

/// Routes one more phase, and keeps the smaller of the least bound and the bound after it.
pub fn next(
    alloc: Global,
    on: &Given<'_>,
    options: &RunOptions,
    reached: HopReached,
) -> Result<HopReached, AllocError>
    requires limits { AreLimits on.now.net.now on.now.limits.now }
    requires options { AreRunOptions (length on.now.net.now.commodities) options.now }
    requires reached { IsHopReached on.now.net.now on.now.limits.now on.now.counts.now options.now reached }
    requires unmet { ¬ (IsHopMet on.now.net.now on.now.limits.now options.now reached) }
    requires budget { reached.phases < options.now.phases }
    ensures reached { IfOk result
        (IsHopReached on.now.net.now on.now.limits.now on.now.counts.now options.now) }
    ensures count { IfOk result (λ r. r.phases ≡ reached.phases + 1) }
{
    let HopReached {
        routed,
        finder,
        phases,
        fill: _,
        kept,
    } = reached;
    let _nodes = on.net.nodes();
    let mut routed = routed;
    let mut finder = finder;
    let whole = phase(on, &mut routed, &mut finder)?;
    prove!(whole);
    let fill = fullest(on.net.cells(), &routed.loads);
    let later = bound_of(alloc, on, routed.table.lengths(), &mut finder)?;
    Ok(HopReached {
        routed,
        finder,
        phases: phases + 1,
        fill,
        kept: lesser(kept, later),
    })
}

/// The fraction of every amount that is carried after `phases` phases, where the fullest cell has this capacity and load.
pub fn lower(phases: u32, fill: Fill) -> Frac
    requires phases { phases ≤ MAX_PHASES }
    requires fill { IsFill fill }
    ensures value { result ≡ record { num = phases * fill.cap; den = fill.load } }
    ensures num { result.num ≤ MAX_LENGTH }
    ensures den { result.den ≤ MAX_LENGTH }
{
    Frac::new(
        u128::from(phases) * u128::from(fill.cap),
        u128::from(fill.load),
    )
}

/// Whether the carried fraction and the least bound lie within the gap.
pub fn is_met(on: &Given<'_>, options: &RunOptions, reached: &HopReached) -> bool
    requires options { AreRunOptions (length on.now.net.now.commodities) options.now }
    requires reached { IsHopReached on.now.net.now on.now.limits.now on.now.counts.now options.now reached.now }
    requires budget { reached.now.phases ≤ options.now.phases }
    ensures { IsTrue result ↔ IsHopMet on.now.net.now on.now.limits.now options.now reached.now }
{
    let carried = lower(reached.phases, reached.fill);
    Frac::within(&carried, &reached.kept.value, options.gap)
}
