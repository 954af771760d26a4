//! From a network to a certificate of its greatest total.

ghost use Rattle.std.specs.Prelude.{◌≡◌, ◌<◌, ◌≤◌, ◌↔◌, [], true, false, IsTrue, IfOk, length};
ghost use Rattle.route_tally.specs.Asked.{AreRunOptions, first_setting};
ghost use Rattle.throughput.specs.Conditions.{IsPartCertified, IsPartProofOf, IsValidPart};
ghost use Rattle.gates.specs.Gates.{IsLeastPrice};
ghost use Rattle.throughput.specs.Run.{HasNoWalk, HasSomeWalk, IsThroughputRun};
ghost use Rattle.throughput.specs.Loaded.{IsLoaded, IsPrepared, lengths_under};
ghost use Rattle.throughput.specs.Reached.{IsMet, IsReached, IsRoom};

use crate::loaded::{Loaded, nothing_loaded, zeros};
use crate::measured::{measured, value_of};
use crate::part_proof::{PartDual, PartProof};
use crate::prepared::Prepared;
use crate::reached::{Kept, Reached, Room};
use crate::steps::{carried, first, is_met, next};
use dijkstra_paths::{Graph, Scratch};
use dual_bound::{Bounded, cut_bound};
use fixed_exp::Powers;
use flow_model::Net;
use flow_paths::{PathStore, Routing, printed_down, printed_up};
use gap_fraction::Frac;
use gates::{gates, least_of};
use mcf_limits::MAX_LENGTH;
use route_tally::RunOptions;
use solver_run::setting_at_first;
use std::alloc::{AllocError, Global};

// The last phase's state, and whether the gap was met.
#[derive(Drop)]
struct Ended {
    reached: Reached,
    closed: bool,
}

// Room for the searches and lengths of a run.
fn new_room(alloc: Global, net: &Net) -> Result<Room, AllocError>
    ensures { IfOk result (IsRoom net.now) }
{
    let cells = net.cells().len();
    Ok(Room {
        scratch: Scratch::with_trees(alloc, net.nodes(), cells as u16)?,
        cells: zeros(alloc, cells)?,
        gates: zeros(alloc, net.commodities().len())?,
    })
}

// Phase after phase, until the gap is met or the budget is spent.
fn all_phases(
    alloc: Global,
    on: &Prepared<'_>,
    options: &RunOptions,
    least: u64,
    room: Room,
    loaded: Loaded,
) -> Result<Ended, AllocError>
    requires on { IsPrepared on.now.net.now on.now.gates.now on.now.least }
    requires options { AreRunOptions (length on.now.net.now.commodities) options.now }
    requires least { IsLeastPrice on.now.net.now
        (lengths_under on.now.net.now on.now.gates.now (first_setting options.now.step) loaded) least }
    requires low { least ≤ MAX_LENGTH }
    requires room { IsRoom on.now.net.now room }
    requires loaded { IsLoaded on.now.net.now [] loaded }
    requires none { (loaded.total ≡ 0) × (length loaded.tally ≡ 0) }
    ensures reached { IfOk result (λ e. IsReached on.now.net.now on.now.gates.now options.now e.reached) }
    ensures budget { IfOk result (λ e. e.reached.phases ≤ options.now.phases) }
    ensures closed { IfOk result (λ e. IsTrue e.closed ↔ IsMet on.now.net.now options.now e.reached) }
    ensures spent { IfOk result (λ e. e.closed ≡ false → e.reached.phases ≡ options.now.phases) }
{
    let mut reached = first(alloc, on, options, least, room, loaded)?;
    'phases: loop {
        if is_met(on.net, on.gates, options, &reached) {
            return Ok(Ended {
                reached,
                closed: true,
            });
        }
        if reached.phases >= options.phases {
            return Ok(Ended {
                reached,
                closed: false,
            });
        }
        reached = next(alloc, on, options, reached)?;
    }
}

// The certificate of all phases, with the rows in order.
fn finished(
    alloc: Global,
    on: &Prepared<'_>,
    options: &RunOptions,
    ended: Ended,
) -> Result<PartProof, AllocError>
    requires on { IsPrepared on.now.net.now on.now.gates.now on.now.least }
    requires some { HasSomeWalk on.now.net.now }
    requires options { AreRunOptions (length on.now.net.now.commodities) options.now }
    requires reached { IsReached on.now.net.now on.now.gates.now options.now ended.reached }
    requires budget { ended.reached.phases ≤ options.now.phases }
    requires closed { IsTrue ended.closed ↔ IsMet on.now.net.now options.now ended.reached }
    requires spent { ended.closed ≡ false → ended.reached.phases ≡ options.now.phases }
    ensures run { IfOk result (IsThroughputRun on.now.net.now options.now) }
    ensures micro { IfOk result (λ p. (p.lower.micro < 1000000) × (p.upper.micro < 1000000)) }
    ensures load { IfOk result (λ p. p.routing.scale_load ≤ MAX_LENGTH) }
{
    let Ended { reached, closed } = ended;
    let lower = printed_down(&carried(&reached));
    let Reached {
        loaded,
        phases,
        fill,
        kept,
        ..
    } = reached;
    let Loaded { tally, .. } = loaded;
    let Kept { bound, value } = kept;
    Ok(PartProof {
        closed,
        gap: options.gap,
        routing: Routing {
            phases,
            scale_cap: fill.cap,
            scale_load: fill.load,
            paths: tally.ordered(alloc)?,
        },
        lower,
        upper: printed_up(&value),
        bound,
    })
}

// The certificate of a network in which no commodity has a walk.
fn nothing(
    alloc: Global,
    net: &Net,
    graph: &Graph,
    options: &RunOptions,
) -> Result<PartProof, AllocError>
    requires graph { graph.now ≡ net.now }
    requires none { HasNoWalk net.now }
    ensures run { IfOk result (IsThroughputRun net.now options.now) }
    ensures micro { IfOk result (λ p. (p.lower.micro < 1000000) × (p.upper.micro < 1000000)) }
    ensures load { IfOk result (λ p. p.routing.scale_load ≤ MAX_LENGTH) }
{
    let _commodities = net.commodities();
    let Bounded { dual, .. } = cut_bound(alloc, net, graph)?;
    let bound = PartDual { threshold: 1, dual };
    let value = value_of(alloc, net, &bound)?;
    Ok(PartProof {
        closed: true,
        gap: options.gap,
        routing: Routing {
            phases: 0,
            scale_cap: 0,
            scale_load: 1,
            paths: PathStore::new(alloc),
        },
        lower: printed_down(&Frac::new(0, 1)),
        upper: printed_up(&value),
        bound,
    })
}

// The certificate of a network with its gates: that of nothing, or that of all phases.
fn certified(
    alloc: Global,
    on: &Prepared<'_>,
    options: &RunOptions,
) -> Result<PartProof, AllocError>
    requires on { IsPrepared on.now.net.now on.now.gates.now on.now.least }
    requires options { AreRunOptions (length on.now.net.now.commodities) options.now }
    ensures run { IfOk result (IsThroughputRun on.now.net.now options.now) }
    ensures micro { IfOk result (λ p. (p.lower.micro < 1000000) × (p.upper.micro < 1000000)) }
    ensures load { IfOk result (λ p. p.routing.scale_load ≤ MAX_LENGTH) }
{
    let mut room = new_room(alloc, on.net)?;
    let loaded = nothing_loaded(alloc, on.net)?;
    let setting = setting_at_first(options.step);
    match measured(
        alloc,
        on,
        &setting,
        &loaded,
        &mut room.cells,
        &mut room.gates,
    )? {
        Some(bound) => {
            let ended = all_phases(alloc, on, options, bound.threshold, room, loaded)?;
            finished(alloc, on, options, ended)
        }
        None => nothing(alloc, on.net, on.graph, options),
    }
}

/// A certificate of the greatest total, each demand carried in part: paths carry at most every amount within every capacity,
/// and a threshold bounds the total of every such routing. Amounts are in units, the gap in millionths. It is closed exactly
/// where the two lie within the asked gap, and open only after the whole phase budget. `Err`: out of memory. It starts
/// no thread.
pub fn solve_parts(alloc: Global, net: &Net, options: &RunOptions) -> Result<PartProof, AllocError>
    requires options { AreRunOptions (length net.now.commodities) options.now }
    ensures run { IfOk result (IsThroughputRun net.now options.now) }
    ensures fits { IfOk result (IsPartProofOf net.now) }
    ensures valid { IfOk result (IsValidPart net.now) }
    ensures certified { IfOk result (IsPartCertified net.now) }
{
    let graph = Graph::new(alloc, net)?;
    let powers = Powers::new();
    let gates = gates(alloc, net, &graph)?;
    let on = Prepared {
        net,
        graph: &graph,
        powers: &powers,
        gates: &gates,
        least: least_of(net.cells()).min(least_of(&gates)),
    };
    let proof = certified(alloc, &on, options)?;
    Ok(proof)
}
