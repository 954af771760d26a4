//! A network from tables, solved, and an entry of its history.

ghost use Rattle.std.specs.Prelude.{◌≡◌, IsTrue, IfOk, IfSome};
ghost use Rattle.solver_run.specs.Options.{AreOptions};
ghost use Rattle.solver_run.specs.Run.{IsSolverRun};

use flow_model::Net;
use flow_solver::{Solved, solve, solve_in};
use mcf_base::Gate;
use mcf_limits::{MAX_GAP, MAX_PHASES, MAX_STEP, MAX_WORK, MAX_WORKERS};
use solver_run::{Entry, SolveOptions};
use std::alloc::{AllocError, Global};
use std::thread::Threads;

fn are_options(net: &Net, options: &SolveOptions) -> bool
    ensures { IsTrue result → AreOptions net.now options.now }
{
    let commodities = net.commodities().len() as u64;
    options.gap <= MAX_GAP
        && options.phases >= 1
        && options.phases <= MAX_PHASES
        && options.workers >= 1
        && options.workers <= MAX_WORKERS
        && options.step >= 1
        && options.step <= MAX_STEP
        && commodities * u64::from(options.phases) <= MAX_WORK
}

/// What is solved of the network, if the options are within the limits.
pub fn solved<G: Gate, R: Threads + Sync>(
    rt: &R,
    alloc: Global,
    net: &Net,
    options: &SolveOptions,
    gate: &G,
) -> Result<Option<Solved>, AllocError>
    ensures { IfOk result (λ solved. IfSome solved (λ s. IsSolverRun net.now options.now s)) }
{
    if !are_options(net, options) {
        return Ok(None);
    }
    let solved = solve(rt, alloc, net, options, gate)?;
    Ok(Some(solved))
}

/// What is solved with bounds in at most `threads` threads.
pub fn solved_in<G: Gate, R: Threads + Sync>(
    rt: &R,
    alloc: Global,
    net: &Net,
    options: &SolveOptions,
    gate: &G,
    threads: u16,
) -> Result<Option<Solved>, AllocError>
    ensures { IfOk result (λ solved. IfSome solved (λ s. IsSolverRun net.now options.now s)) }
{
    if !are_options(net, options) {
        return Ok(None);
    }
    let solved = solve_in(rt, alloc, net, options, gate, threads)?;
    Ok(Some(solved))
}

/// Who routed the commodity in the phase, if there are such.
pub fn entry_of(
    net: &Net,
    options: &SolveOptions,
    solved: &Solved,
    phase: u32,
    k: u32,
) -> Option<Entry>
    requires { IsSolverRun net.now options.now solved.now }
{
    let _options = options;
    let few = net.commodities().len();
    if phase < 1 || phase > solved.phases() || k as usize >= few {
        return None;
    }
    Some(solved.entry(phase, k))
}
