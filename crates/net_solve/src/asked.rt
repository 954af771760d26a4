//! What is asked of a solve.

ghost use Rattle.std.specs.Prelude.{◌≡◌, ◌≤◌, ◌*◌, ℕ, length, IfOk, IfErr, IfSome, OnOk};
ghost use Rattle.mcf_limits.specs.declared.TheConstants.{MAX_PHASES, MAX_WORKERS, MAX_WORK as MOST_WORK};
ghost use Rattle.flow_model.specs.Network.{Network};
ghost use Rattle.solver_run.specs.Options.{AreOptions};
ghost use Rattle.route_tally.specs.Asked.{AreRunOptions};
ghost use Rattle.net_solve.specs.Asked.{IsAsked, budget_of, default_budget, options_for, turn_options_for, workers_of, IsTooMuch};

use flow_model::Net;
use mcf_limits::{DEFAULT_PHASES, DEFAULT_WORKERS, FEW_COMMODITIES, MAX_WORK};
use route_tally::RunOptions;
use solver_run::SolveOptions;

/// The gap in millionths, the phase budget if one was given, the number of workers if one was given, and the step of the
/// lengths.
#[derive(Clone, Copy, Debug, PartialEq, Eq)]
pub struct Asked {
    /// The gap, in millionths.
    pub gap: u64,
    /// The phase budget; `None` for as many as the work allows, up to the default.
    pub phases: Option<u32>,
    /// The number of workers; `None` for one or several, by the number of commodities.
    pub workers: Option<u16>,
    /// How sharply lengths rise with loads, from 1 to 2^20.
    pub step: u32,
}

// The phase budget where none was given.
fn default_phases(commodities: u64) -> u32
    requires some { 1 ≤ commodities }
    ensures { result ≡ default_budget commodities }
{
    DEFAULT_PHASES.min(MAX_WORK / commodities) as u32
}

// The number of workers, where none was given: a phase of few commodities takes less time than starting threads.
fn workers_for(commodities: u64, asked: Option<u16>) -> u16
    requires { IfSome asked (λ w. (1 ≤ w) × (w ≤ MAX_WORKERS)) }
    ensures value { (net : Network) → length net.commodities ≡ commodities → result ≡ workers_of net asked }
    ensures some { 1 ≤ result }
    ensures limit { result ≤ MAX_WORKERS }
{
    match asked {
        Some(workers) => workers,
        None if commodities < FEW_COMMODITIES => 1,
        None => DEFAULT_WORKERS,
    }
}

// The phase budget, or how many commodities times phases there would be, where that is too much.
fn budget(net: &Net, asked: &Asked) -> Result<u32, u64>
    requires { IsAsked asked.now }
    ensures value { IfOk result (λ p. p ≡ budget_of net.now asked.now.phases) }
    ensures some { IfOk result (λ p. 1 ≤ p) }
    ensures limit { IfOk result (λ p. p ≤ MAX_PHASES) }
    ensures allowed { IfOk result (λ p. length net.now.commodities * p ≤ MOST_WORK) }
    ensures work { IfErr result (IsTooMuch net.now asked.now) }
    ensures within { OnOk result ((work : ℕ) → ¬ (IsTooMuch net.now asked.now work)) }
{
    let commodities = net.commodities().len() as u64;
    let phases = match asked.phases {
        Some(phases) => phases,
        None => default_phases(commodities),
    };
    let work = commodities * phases as u64;
    if work > MAX_WORK {
        return Err(work);
    }
    Ok(phases)
}

/// The options of a solve, or how many commodities times phases there would be, where that is too much.
pub fn options_of(net: &Net, asked: &Asked) -> Result<SolveOptions, u64>
    requires { IsAsked asked.now }
    ensures options { IfOk result (λ o. (o ≡ options_for net.now asked.now) × AreOptions net.now o) }
    ensures work { IfErr result (IsTooMuch net.now asked.now) }
    ensures within { OnOk result (¬ ((n : ℕ) × IsTooMuch net.now asked.now n)) }
{
    let phases = budget(net, asked)?;
    Ok(SolveOptions {
        gap: asked.gap,
        phases,
        workers: workers_for(net.commodities().len() as u64, asked.workers),
        step: asked.step,
    })
}

/// The options of a run that routes one commodity after the other, or how many commodities times phases there would be, where
/// a budget was given and that is too much. Workers have no bearing on one.
pub fn turn_options(net: &Net, asked: &Asked) -> Result<RunOptions, u64>
    requires { IsAsked asked.now }
    ensures options { IfOk result (λ o. o ≡ turn_options_for net.now asked.now) }
    ensures limits { IfOk result (AreRunOptions (length net.now.commodities)) }
    ensures work { IfErr result (IsTooMuch net.now asked.now) }
    ensures within { OnOk result ((work : ℕ) → ¬ (IsTooMuch net.now asked.now work)) }
{
    let phases = budget(net, asked)?;
    Ok(RunOptions {
        gap: asked.gap,
        phases,
        step: asked.step,
    })
}
