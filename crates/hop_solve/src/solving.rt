//! From a network and its limits to a proof: a cut's, or that of all phases.

ghost use Rattle.std.specs.Prelude.{◌≡◌, ◌<◌, ◌≤◌, ◌↔◌, false, IsTrue, IfOk, length};
ghost use Rattle.route_tally.specs.Asked.{AreRunOptions};
ghost use Rattle.hop_paths.specs.Allowed.{AreLimits};
ghost use Rattle.hop_check.specs.Conditions.{IsHopProofOf, IsValidHops, IsHopCertified};
ghost use Rattle.hop_solve.specs.Run.{HasHopCut, IsHopRun};
ghost use Rattle.hop_solve.specs.Turns.{IsFinder};
ghost use Rattle.hop_solve.specs.Reached.{IsHopReached, IsHopMet};

use crate::bounds::{HopBound, cut_bound};
use crate::finder::{Finder, new_finder};
use crate::given::Given;
use crate::reached::{HopReached, first, is_met, lower, next};
use crate::turns::{Routed, new_routed, phase};
use dijkstra_paths::Graph;
use fixed_exp::Powers;
use flow_model::Net;
use flow_paths::{PathStore, Proof, Routing, printed_down, printed_up};
use gap_fraction::Frac;
use hop_check::{HopProof, layer_counts, unlimited_counts};
use route_tally::RunOptions;
use solver_run::setting_at_first;
use std::alloc::{AllocError, Global};

// The last phase's state, and whether the gap was met.
#[derive(Drop)]
struct Ended {
    reached: HopReached,
    closed: bool,
}

// Phase after phase from the first on, until the gap is met or the budget is spent.
fn all_phases(
    alloc: Global,
    on: &Given<'_>,
    options: &RunOptions,
    reached: HopReached,
) -> Result<Ended, AllocError>
    requires limits { AreLimits on.now.net.now on.now.limits.now }
    requires options { AreRunOptions (length on.now.net.now.commodities) options.now }
    requires reached { IsHopReached on.now.net.now on.now.limits.now on.now.counts.now options.now reached }
    requires budget { reached.phases ≤ options.now.phases }
    ensures reached { IfOk result (λ e.
        IsHopReached on.now.net.now on.now.limits.now on.now.counts.now options.now e.reached) }
    ensures budget { IfOk result (λ e. e.reached.phases ≤ options.now.phases) }
    ensures closed { IfOk result (λ e. IsTrue e.closed
        ↔ IsHopMet on.now.net.now on.now.limits.now options.now e.reached) }
    ensures spent { IfOk result (λ e. e.closed ≡ false → e.reached.phases ≡ options.now.phases) }
{
    let mut reached = reached;
    'phases: loop {
        if is_met(on, options, &reached) {
            return Ok(Ended {
                reached,
                closed: true,
            });
        }
        if reached.phases >= options.phases {
            return Ok(Ended {
                reached,
                closed: false,
            });
        }
        reached = next(alloc, on, options, reached)?;
    }
}

// The proof of all phases, with the rows in order.
fn finished(
    alloc: Global,
    on: &Given<'_>,
    options: &RunOptions,
    ended: Ended,
) -> Result<HopProof, AllocError>
    requires limits { AreLimits on.now.net.now on.now.limits.now }
    requires options { AreRunOptions (length on.now.net.now.commodities) options.now }
    requires reached { IsHopReached on.now.net.now on.now.limits.now on.now.counts.now options.now ended.reached }
    requires budget { ended.reached.phases ≤ options.now.phases }
    requires closed { IsTrue ended.closed
        ↔ IsHopMet on.now.net.now on.now.limits.now options.now ended.reached }
    requires spent { ended.closed ≡ false → ended.reached.phases ≡ options.now.phases }
    ensures run { IfOk result (IsHopRun on.now.net.now on.now.limits.now options.now) }
    ensures micro { IfOk result (λ h. (h.proof.lower.micro < 1000000)
        × (h.proof.upper.micro < 1000000)) }
{
    let Ended { reached, closed } = ended;
    let HopReached {
        routed,
        phases,
        fill,
        kept,
        ..
    } = reached;
    let Routed { tally, .. } = routed;
    let HopBound {
        dual,
        layers,
        value,
    } = kept;
    let proof = Proof {
        closed,
        gap: options.gap,
        routing: Routing {
            phases,
            scale_cap: fill.cap,
            scale_load: fill.load,
            paths: tally.ordered(alloc)?,
        },
        lower: printed_down(&lower(phases, fill)),
        upper: printed_up(&value),
        dual,
    };
    Ok(HopProof { proof, layers })
}

// The proof where some commodity has no allowed walk.
fn cut_off(
    alloc: Global,
    on: &Given<'_>,
    options: &RunOptions,
    routed: Routed,
    finder: Finder,
) -> Result<HopProof, AllocError>
    requires limits { AreLimits on.now.net.now on.now.limits.now }
    requires cut { HasHopCut on.now.net.now on.now.limits.now }
    requires net { routed.table.net ≡ on.now.net.now }
    requires finder { IsFinder on.now.net.now on.now.counts.now finder }
    ensures run { IfOk result (IsHopRun on.now.net.now on.now.limits.now options.now) }
    ensures micro { IfOk result (λ h. (h.proof.lower.micro < 1000000)
        × (h.proof.upper.micro < 1000000)) }
{
    let mut finder = finder;
    let HopBound {
        dual,
        layers,
        value,
    } = cut_bound(alloc, on, routed.table.lengths(), &mut finder)?;
    let proof = Proof {
        closed: true,
        gap: options.gap,
        routing: Routing {
            phases: 0,
            scale_cap: 0,
            scale_load: 1,
            paths: PathStore::new(alloc),
        },
        lower: printed_down(&Frac::new(0, 1)),
        upper: printed_up(&value),
        dual,
    };
    Ok(HopProof { proof, layers })
}

// A cut's proof, or that of all phases.
fn run(alloc: Global, on: &Given<'_>, options: &RunOptions) -> Result<HopProof, AllocError>
    requires limits { AreLimits on.now.net.now on.now.limits.now }
    requires options { AreRunOptions (length on.now.net.now.commodities) options.now }
    ensures run { IfOk result (IsHopRun on.now.net.now on.now.limits.now options.now) }
    ensures micro { IfOk result (λ h. (h.proof.lower.micro < 1000000)
        × (h.proof.upper.micro < 1000000)) }
{
    let mut routed = new_routed(alloc, on, &setting_at_first(options.step))?;
    let mut finder = new_finder(alloc, on)?;
    if !phase(on, &mut routed, &mut finder)? {
        return cut_off(alloc, on, options, routed, finder);
    }
    let reached = first(alloc, on, options, routed, finder)?;
    let ended = all_phases(alloc, on, options, reached)?;
    finished(alloc, on, options, ended)
}

/// A certificate of the network within the limits of hops: one of at most 64 cells, or none, for each commodity. Paths carry
/// one fraction of every amount within every capacity, each over at most as many cells as its commodity's limit; lengths,
/// potentials and layers bound the fraction of every such routing. It is closed exactly where the two lie within the asked
/// gap, which is in millionths, and open only after the whole phase budget. Where some commodity has no walk over positive
/// cells within its limit, it is closed without a phase, and the bound is 0. `Err`: out of memory.
pub fn solve_hops(
    alloc: Global,
    net: &Net,
    limits: &[Option<u8>],
    options: &RunOptions,
) -> Result<HopProof, AllocError>
    requires limits { AreLimits net.now limits.now }
    requires options { AreRunOptions (length net.now.commodities) options.now }
    ensures run { IfOk result (IsHopRun net.now limits.now options.now) }
    ensures fits { IfOk result (IsHopProofOf net.now) }
    ensures valid { IfOk result (IsValidHops net.now limits.now) }
    ensures certified { IfOk result (IsHopCertified net.now limits.now) }
{
    let graph = Graph::new(alloc, net)?;
    let powers = Powers::new();
    let counts = layer_counts(alloc, net, limits)?;
    let marks = unlimited_counts(alloc, net, limits)?;
    let on = Given {
        net,
        limits,
        graph: &graph,
        powers: &powers,
        counts: &counts,
        marks: &marks,
    };
    let _nodes = net.nodes();
    let h = run(alloc, &on, options)?;
    Ok(h)
}
