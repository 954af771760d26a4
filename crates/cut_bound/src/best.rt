//! The best bound among the duals of certificates and their cuts.

ghost use Rattle.std.specs.Prelude.{◌≡◌, ℕ, ◌<◌, ◌≤◌, All, IfOk, length};
ghost use Rattle.cut_bound.specs.Candidates.{IsBestDual};
ghost use Rattle.cut_bound.specs.Search.{chosen, marked, seen, side_at, IsChoice, IsDualOf, IsPlace};

use crate::choice::{Choice, Place, consider_all};
use crate::cuts::node_cuts;
use crate::fronts::consider_fronts;
use crate::made::{copied, front_marks, node_marks, side_dual};
use crate::own::{best_own, values_at};
use crate::sums::demand_cells;
use flow_model::Net;
use flow_paths::Dual;
use std::alloc::{AllocError, Global};
use std::thread::Threads;

// Which nodes are on the side at the place.
fn marks_at(alloc: Global, nodes: u16, own: &[&Dual], place: Place) -> Result<Vec<bool>, AllocError>
    requires { IsPlace nodes (seen own.now) place }
    ensures len { IfOk result (λ v. length v.items ≡ nodes) }
    ensures each { IfOk result (λ marks. (v : ℕ) → v < nodes
        → marked marks.items v ≡ side_at (seen own.now) place v) }
{
    match place {
        Place::Node { node, into } => node_marks(alloc, nodes, node, into),
        Place::Front { row, level } => front_marks(alloc, values_at(own, row), level),
    }
}

// The dual that was chosen.
fn chosen_dual(
    alloc: Global,
    net: &Net,
    both: bool,
    own: &[&Dual],
    choice: Choice,
) -> Result<Dual, AllocError>
    requires { IsChoice net.now.nodes (seen own.now) choice }
    ensures { IfOk result (λ dual. dual ≡ chosen net.now both (seen own.now) choice) }
{
    match choice {
        Choice::Own(i) => copied(alloc, own[i]),
        Choice::Cut(place) => {
            let marks = marks_at(alloc, net.nodes(), own, place)?;
            side_dual(alloc, net, both, &marks)
        }
    }
}

/// The first of the least bounds among these duals of certificates, the cuts round each node, and the fronts of each row of
/// potentials. `both` says that each cell goes both ways. Rows are shared out among at most 16 threads, each with the fronts
/// of one row in memory at a time, and it may wait for its own threads. `Err`: out of memory.
pub fn best_dual<R: Threads + Sync>(
    rt: &R,
    alloc: Global,
    net: &Net,
    both: bool,
    own: &[&Dual],
) -> Result<Dual, AllocError>
    requires some { 1 ≤ length own.now }
    requires duals { All (λ d. IsDualOf net.now d.now) own.now }
    ensures { IfOk result (IsBestDual net.now both (seen own.now)) }
{
    let demands = demand_cells(alloc, net.commodities(), both)?;
    let mut best = best_own(alloc, net, own)?;
    let cuts = node_cuts(alloc, net, &demands, both)?;
    consider_all(&mut best, &cuts);
    consider_fronts(rt, alloc, net, &demands, own, &mut best)?;
    chosen_dual(alloc, net, both, own, best.choice)
}
