//! What is asked of the solves of a sweep, and how much work they are.

ghost use Rattle.std.specs.Prelude.{◌≡◌, ◌≤◌, ℕ, IfOk, IfErr, OnOk, length};
ghost use Rattle.solver_run.specs.Options.{AreOptions};
ghost use Rattle.sweep_cmd.specs.Asked.{IsSweepAsked, IsSweepTooMuch, alone as alone_lem, sweep_budget, sweep_options};

use flow_model::Net;
use mcf_limits::{DEFAULT_PHASES, MAX_DEMANDS, MAX_LINKS, MAX_WORK};
use solver_run::SolveOptions;

/// The gap in millionths, the phase budget for each link if one was given, and the step of the lengths.
#[derive(Clone, Copy, Debug, PartialEq, Eq)]
pub struct SweepAsked {
    /// The gap, in millionths.
    pub gap: u64,
    /// The phase budget for each link; `None` for as many as the work allows, up to the default.
    pub phases: Option<u32>,
    /// How sharply lengths rise with loads, from 1 to 2^20.
    pub step: u32,
}

/// The gap in millionths, the phase budget for each link, and the step of the lengths.
#[derive(Clone, Copy, Debug, PartialEq, Eq)]
pub struct SweepOptions {
    /// The gap, in millionths.
    pub gap: u64,
    /// How many phases there are at most for each link.
    pub phases: u32,
    /// How sharply lengths rise with loads, from 1 to 2^20.
    pub step: u32,
}

/// The options of a solve with one worker.
pub fn alone(options: &SweepOptions) -> SolveOptions
    ensures { result ≡ alone_lem options.now }
{
    SolveOptions {
        gap: options.gap,
        phases: options.phases,
        workers: 1,
        step: options.step,
    }
}

// The phase budget for each link, where none was given.
fn default_phases(links: u64, commodities: u64) -> u32
    requires links { links ≤ MAX_LINKS }
    requires some { 1 ≤ commodities }
    requires commodities { commodities ≤ MAX_DEMANDS }
    ensures { result ≡ sweep_budget links commodities }
{
    if links == 0 {
        return DEFAULT_PHASES as u32;
    }
    DEFAULT_PHASES.min(MAX_WORK / (links * commodities)).max(1) as u32
}

/// The options of the solves of `links` links of the network, or how many links times commodities times phases there would
/// be, where that is too much, whether phases were asked for or not. Without links there is no solve, and no work.
pub fn options_of(links: u16, net: &Net, asked: &SweepAsked) -> Result<SweepOptions, u64>
    requires few { links ≤ MAX_LINKS }
    requires asked { IsSweepAsked asked.now }
    ensures options { IfOk result (λ o. o ≡ sweep_options links net.now asked.now) }
    ensures solves { IfOk result (λ o. 1 ≤ links → AreOptions net.now (alone_lem o)) }
    ensures work { IfErr result (IsSweepTooMuch links (length net.now.commodities) asked.now.phases) }
    ensures within { OnOk result (¬ ((n : ℕ) × IsSweepTooMuch links (length net.now.commodities) asked.now.phases n)) }
{
    let commodities = net.commodities().len() as u64;
    let phases = match asked.phases {
        Some(phases) => phases,
        None => default_phases(links as u64, commodities),
    };
    let work = links as u64 * commodities * phases as u64;
    if work > MAX_WORK {
        return Err(work);
    }
    Ok(SweepOptions {
        gap: asked.gap,
        phases,
        step: asked.step,
    })
}
