//! From a network to a proof: a cut's, or that of all phases.

ghost use Rattle.std.specs.Prelude.{◌≡◌, ℕ, ◌<◌, ◌≤◌, ◌↔◌, true, false, IsTrue, IfOk, max, min};
ghost use Rattle.flow_model.specs.Least.{HasNoCut};
ghost use Rattle.dijkstra_paths.specs.Reach.{IsFirstCut};
ghost use Rattle.flow_paths.specs.Certificate.{FractionsArePrinted};
ghost use Rattle.solver_run.specs.Headline.{IsSolved};
ghost use Rattle.solver_run.specs.Options.{AreOptions};
ghost use Rattle.solver_run.specs.Run.{IsSolverRun};
ghost use Rattle.flow_solver.specs.Leading.{CanGoOn, GoesOn};
ghost use Rattle.flow_solver.specs.Reached.{IsMet, IsReached};
ghost use Rattle.flow_solver.specs.Search.{phase_count};
ghost use Rattle.flow_solver.specs.Fewer.{IsWithFewer};

use crate::leading::further;
use crate::prepared::{Prepared, Run};
use crate::reached::{Reached, first, is_met, lower, next};
use crate::search::{count_phases, whole_history};
use crate::solved::Solved;
use crate::{Entries, OrderedHistory};
use dijkstra_paths::Graph;
use dual_bound::{Bounded, cut_bound};
use fixed_exp::Powers;
use flow_model::{Groups, Net};
use flow_paths::{PathStore, Proof, Routing, printed_down, printed_up};
use gap_fraction::Frac;
use mcf_base::Gate;
use mcf_limits::MAX_WORKERS;
use solver_run::SolveOptions;
use std::alloc::{AllocError, Global};
use std::thread::Threads;

// The last phase's state, and whether the gap was met.
#[derive(Drop)]
struct Ended {
    reached: Reached,
    closed: bool,
}

// One phase more or, where several workers route, one or several, with threads that stay beside the caller's.
fn go_on<G: Gate, R: Threads + Sync>(
    run: &Run<'_, G, R>,
    reached: Reached,
) -> Result<Reached, AllocError>
    requires { CanGoOn run.now.on.now.net.now run.now.options.now reached }
    ensures { IfOk result (GoesOn run.now.on.now.net.now run.now.options.now reached) }
{
    if run.options.workers > 1 {
        further(run, reached)
    } else {
        next(run, None, reached)
    }
}

// Phase after phase, until the gap is met or the budget is spent.
fn all_phases<G: Gate, R: Threads + Sync>(run: &Run<'_, G, R>) -> Result<Ended, AllocError>
    requires no_cut { HasNoCut run.now.on.now.net.now }
    requires options { AreOptions run.now.on.now.net.now run.now.options.now }
    ensures reached { IfOk result (λ e. IsReached run.now.on.now.net.now run.now.options.now e.reached) }
    ensures budget { IfOk result (λ e. phase_count e.reached.search ≤ run.now.options.now.phases) }
    ensures closed { IfOk result (λ e.
        IsTrue e.closed ↔ IsMet run.now.on.now.net.now run.now.options.now e.reached) }
    ensures spent { IfOk result (λ e.
        e.closed ≡ false → phase_count e.reached.search ≡ run.now.options.now.phases) }
{
    let mut reached = first(run)?;
    'phases: loop {
        if is_met(run.on.net, run.options, &reached) {
            return Ok(Ended {
                reached,
                closed: true,
            });
        }
        if count_phases(&reached.search) >= run.options.phases {
            return Ok(Ended {
                reached,
                closed: false,
            });
        }
        reached = go_on(run, reached)?;
    }
}

// The proof of all phases, with the rows in order.
fn finished(
    alloc: Global,
    net: &Net,
    options: &SolveOptions,
    ended: Ended,
) -> Result<Solved, AllocError>
    requires no_cut { HasNoCut net.now }
    requires options { AreOptions net.now options.now }
    requires reached { IsReached net.now options.now ended.reached }
    requires budget { phase_count ended.reached.search ≤ options.now.phases }
    requires closed { IsTrue ended.closed ↔ IsMet net.now options.now ended.reached }
    requires spent { ended.closed ≡ false → phase_count ended.reached.search ≡ options.now.phases }
    ensures run { IfOk result (λ s. IsSolverRun net.now options.now s) }
    ensures printed { IfOk result (λ s. FractionsArePrinted net.now s.proof) }
    ensures micro { IfOk result (λ s. (s.proof.lower.micro < 1000000) × (s.proof.upper.micro < 1000000)) }
{
    let Ended { reached, closed } = ended;
    let Reached {
        search,
        fill,
        kept,
        ..
    } = reached;
    let history = whole_history(alloc, net, search)?;
    let phases = history.phases();
    let OrderedHistory { paths, entries } = history.ordered(alloc)?;
    let Bounded { dual, value } = kept;
    let proof = Proof {
        closed,
        gap: options.gap,
        routing: Routing {
            phases,
            scale_cap: fill.cap,
            scale_load: fill.load,
            paths,
        },
        lower: printed_down(&lower(phases, fill)),
        upper: printed_up(&value),
        dual,
    };
    Ok(Solved::new(proof, entries))
}

// The proof of a network with a cut.
fn cut_off(
    alloc: Global,
    net: &Net,
    graph: &Graph,
    options: &SolveOptions,
) -> Result<Solved, AllocError>
    requires graph { graph.now ≡ net.now }
    requires cut { (k : ℕ) × IsFirstCut net.now k }
    ensures run { IfOk result (λ s. IsSolverRun net.now options.now s) }
    ensures printed { IfOk result (λ s. FractionsArePrinted net.now s.proof) }
    ensures micro { IfOk result (λ s. (s.proof.lower.micro < 1000000) × (s.proof.upper.micro < 1000000)) }
{
    let Bounded { dual, value } = cut_bound(alloc, net, graph)?;
    let proof = Proof {
        closed: true,
        gap: options.gap,
        routing: Routing {
            phases: 0,
            scale_cap: 0,
            scale_load: 1,
            paths: PathStore::new(alloc),
        },
        lower: printed_down(&Frac::new(0, 1)),
        upper: printed_up(&value),
        dual,
    };
    let entries = Entries::new(alloc, net.commodities().len() as u32);
    Ok(Solved::new(proof, entries))
}

// The options with at most one worker a processor, but with two where several are asked for.
fn with_fewer_workers(options: &SolveOptions, processors: u16) -> SolveOptions
    requires { 1 ≤ options.now.workers }
    ensures fewer { IsWithFewer options.now result }
    ensures workers { result.workers ≡ min options.now.workers (max processors 2) }
{
    SolveOptions {
        gap: options.gap,
        phases: options.phases,
        workers: options.workers.min(processors.max(2)),
        step: options.step,
    }
}

// The proof of a network in which each commodity has a walk over positive cells.
fn uncut<G: Gate, R: Threads + Sync>(
    rt: &R,
    alloc: Global,
    net: &Net,
    graph: &Graph,
    options: &SolveOptions,
    gate: &G,
    threads: u16,
) -> Result<Solved, AllocError>
    requires graph { graph.now ≡ net.now }
    requires no_cut { HasNoCut net.now }
    requires options { AreOptions net.now options.now }
    ensures run { IfOk result (λ s. IsSolverRun net.now options.now s) }
    ensures printed { IfOk result (λ s. FractionsArePrinted net.now s.proof) }
    ensures micro { IfOk result (λ s. (s.proof.lower.micro < 1000000) × (s.proof.upper.micro < 1000000)) }
{
    let groups = Groups::new(alloc, net)?;
    let powers = Powers::new();
    let on = Prepared {
        net,
        groups: &groups,
        graph,
        powers: &powers,
    };
    let processors = mcf_base::thread_count(rt, MAX_WORKERS) as u16;
    let fewer = with_fewer_workers(options, processors);
    let ended = all_phases(&Run {
        rt,
        alloc,
        on: &on,
        options: &fewer,
        gate,
        threads: processors.min(threads).max(1),
    })?;
    let solved = finished(alloc, net, &fewer, ended)?;
    Ok(solved)
}

// A cut's proof, or that of all phases.
fn certified<G: Gate, R: Threads + Sync>(
    rt: &R,
    alloc: Global,
    net: &Net,
    options: &SolveOptions,
    gate: &G,
    threads: u16,
) -> Result<Solved, AllocError>
    requires { AreOptions net.now options.now }
    ensures run { IfOk result (λ s. IsSolverRun net.now options.now s) }
    ensures printed { IfOk result (λ s. FractionsArePrinted net.now s.proof) }
    ensures micro { IfOk result (λ s. (s.proof.lower.micro < 1000000) × (s.proof.upper.micro < 1000000)) }
{
    let graph = Graph::new(alloc, net)?;
    match graph.first_cut(alloc, net)? {
        Some(_) => cut_off(alloc, net, &graph, options),
        None => uncut(rt, alloc, net, &graph, options, gate, threads),
    }
}

/// A certificate of the network, and its history. Paths carry one fraction of every amount within every capacity, and
/// lengths bound the fraction of every feasible routing. It is closed exactly where the two lie within the asked gap,
/// and open only after the whole phase budget. `Err`: out of memory, or, with several workers, where a thread of its own has been at
/// one turn, or at its rows of one bound, while the caller's waited for minutes of the processor. It may wait for its workers.
pub fn solve<G: Gate, R: Threads + Sync>(
    rt: &R,
    alloc: Global,
    net: &Net,
    options: &SolveOptions,
    gate: &G,
) -> Result<Solved, AllocError>
    requires { AreOptions net.now options.now }
    ensures run { IfOk result (λ s. IsSolverRun net.now options.now s) }
    ensures printed { IfOk result (λ s. FractionsArePrinted net.now s.proof) }
    ensures solved { IfOk result (λ s. IsSolved net.now options.now s) }
{
    solve_in(rt, alloc, net, options, gate, MAX_WORKERS)
}

/// As `solve`, with bounds that are made in at most `threads` threads, the caller's among them, one of which may note the rows
/// meanwhile; 0 stands for 1. With 1, and with one worker, a solve starts no thread.
pub fn solve_in<G: Gate, R: Threads + Sync>(
    rt: &R,
    alloc: Global,
    net: &Net,
    options: &SolveOptions,
    gate: &G,
    threads: u16,
) -> Result<Solved, AllocError>
    requires { AreOptions net.now options.now }
    ensures run { IfOk result (λ s. IsSolverRun net.now options.now s) }
    ensures printed { IfOk result (λ s. FractionsArePrinted net.now s.proof) }
    ensures solved { IfOk result (λ s. IsSolved net.now options.now s) }
{
    let _cells = net.cells();
    let solved = certified(rt, alloc, net, options, gate, threads)?;
    Ok(solved)
}
