//! What a solve has reached after some phases.

ghost use Rattle.std.specs.Prelude.{◌≡◌, ℕ, ◌+◌, ◌*◌, ◌<◌, ◌≤◌, ◌↔◌, All, IsTrue, IfOk, length, slice_index};
ghost use Rattle.flow_model.specs.Least.{HasNoCut};
ghost use Rattle.flow_paths.specs.Evaluation.{fill};
ghost use Rattle.flow_paths.specs.Fullness.{IsFill, fullness};
ghost use Rattle.solver_run.specs.Options.{AreOptions};
ghost use Rattle.flow_solver.specs.Leading.{CanGoOn};
ghost use Rattle.flow_solver.specs.Reached.{IsMet, IsReached, carried};
ghost use Rattle.flow_solver.specs.Search.{phase_count};

use crate::bounding::{bound_of, one_phase, threads_for};
use crate::prepared::{Run, Task};
use crate::search::{Search, count_phases, new_search, route};
use crate::share::Share;
use claimed_calls::Crew;
use dual_bound::{Bounded, Team};
use flow_model::Net;
use flow_paths::{Fill, fullest};
use gap_fraction::Frac;
use mcf_base::Gate;
use mcf_limits::{MAX_LENGTH, MAX_PHASES};
use solver_run::{SolveOptions, setting_after_first, setting_at_first};
use std::alloc::AllocError;
use std::thread::Threads;

/// After one phase or more: the search, the fullest cell of the first phase and that of all, and the least bound.
#[derive(Drop)]
pub struct Reached {
    /// What the phases have made.
    pub search: Search,
    /// The fullest cell behind the first phase.
    pub reference: Fill,
    /// The fullest cell now.
    pub fill: Fill,
    /// The least bound so far.
    pub kept: Bounded,
}

// The fullest cell, where some cell has a load.
fn measured(net: &Net, loads: &[u64]) -> Fill
    requires count { length loads.now ≡ length net.now.cells }
    requires loaded { (c : ℕ) × (c < length net.now.cells) × (1 ≤ slice_index loads.now c) }
    requires small { All (λ x. x ≤ MAX_LENGTH) loads.now }
    ensures value { fullness result ≡ fill net.now.cells loads.now }
    ensures fits { IsFill result }
{
    fullest(net.cells(), loads)
}

/// The first phase, and the bound after it.
pub(crate) fn first<G: Gate, R: Threads + Sync>(run: &Run<'_, G, R>) -> Result<Reached, AllocError>
    requires no_cut { HasNoCut run.now.on.now.net.now }
    requires options { AreOptions run.now.on.now.net.now run.now.options.now }
    ensures reached { IfOk result (λ r. IsReached run.now.on.now.net.now run.now.options.now r) }
    ensures count { IfOk result (λ r. phase_count r.search ≡ 1) }
{
    let on = run.on;
    let _cells = on.net.cells();
    let mut search = new_search(run.alloc, on.net, run.options.workers)?;
    let setting = setting_at_first(run.options.step);
    let task = Task {
        on,
        alloc: run.alloc,
        setting,
        gate: run.gate,
    };
    route(run.rt, &task, &mut search)?;
    let fill = measured(on.net, &search.loads);
    let later = setting_after_first(fill, run.options.step);
    let team = Team {
        rt: run.rt,
        threads: threads_for(on, search.hands.len(), run.threads),
    };
    let kept = bound_of(
        &team,
        run.alloc,
        on,
        &later,
        &search.loads,
        &mut search.room,
        None,
    )?;
    Ok(Reached {
        search,
        reference: fill,
        fill,
        kept,
    })
}

/// Routes one more phase, by the crew if there is one, and keeps the smaller of the least bound and the bound after it.
pub(crate) fn next<'a, G: Gate, R: Threads + Sync>(
    run: &Run<'a, G, R>,
    crew: Option<&mut Crew<'_, Share<'a, G>>>,
    reached: Reached,
) -> Result<Reached, AllocError>
    requires { CanGoOn run.now.on.now.net.now run.now.options.now reached }
    ensures reached { IfOk result (λ r. IsReached run.now.on.now.net.now run.now.options.now r) }
    ensures count { IfOk result (λ r. phase_count r.search ≡ phase_count reached.search + 1) }
{
    let net = run.on.net;
    let _cells = net.cells();
    let Reached {
        search,
        reference,
        fill: _,
        kept,
    } = reached;
    let mut search = search;
    let setting = setting_after_first(reference, run.options.step);
    let task = Task {
        on: run.on,
        alloc: run.alloc,
        setting,
        gate: run.gate,
    };
    let kept = one_phase(run, &task, crew, &mut search, Some(kept))?;
    let fill = measured(net, &search.loads);
    Ok(Reached {
        search,
        reference,
        fill,
        kept,
    })
}

/// The fraction of every amount that is carried after `phases` phases, where the fullest cell has this capacity and load.
pub fn lower(phases: u32, fill: Fill) -> Frac
    requires phases { phases ≤ MAX_PHASES }
    requires fill { IsFill fill }
    ensures value { result ≡ carried phases fill }
    ensures num { result.num ≤ MAX_LENGTH }
    ensures den { result.den ≤ MAX_LENGTH }
{
    Frac::new(
        u128::from(phases) * u128::from(fill.cap),
        u128::from(fill.load),
    )
}

/// Whether the carried fraction and the least bound lie within the gap.
pub fn is_met(net: &Net, options: &SolveOptions, reached: &Reached) -> bool
    requires options { AreOptions net.now options.now }
    requires reached { IsReached net.now options.now reached.now }
    requires budget { phase_count reached.now.search ≤ options.now.phases }
    ensures { IsTrue result ↔ IsMet net.now options.now reached.now }
{
    let _cells = net.cells();
    let carried = lower(count_phases(&reached.search), reached.fill);
    Frac::within(&carried, &reached.kept.value, options.gap)
}
