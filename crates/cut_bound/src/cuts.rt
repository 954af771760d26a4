//! The cuts round nodes and the fronts of a row of potentials, each with its sums.

ghost use Rattle.std.specs.Prelude.{◌≡◌, ℕ, ◌+◌, ◌*◌, ◌^◌, ◌<◌, ◌≤◌, ◌↔◌, All, IfOk, List, length, map, slice_index, slice_index_or};
ghost use Rattle.std.specs.List.{flat_map, range_with_len};
ghost use Rattle.std.specs.List.Sorted.{IsStrictlyIncreasing};
ghost use Rattle.flow_model.specs.Network.{IsCell};
ghost use Rattle.cut_bound.specs.Candidates.{AreLevels};
ghost use Rattle.cut_bound.specs.Search.{front_cut, level_cut, node_cut, node_cuts, woven};
ghost use Rattle.cut_bound.specs.Sums.{total_capacity};
ghost use Rattle.cut_bound.specs.declared.choice.SummedCut.{SummedCut as SummedCutIs};

use crate::choice::{Place, RowPlace, SummedCut};
use crate::sums::{front_sums, node_sums};
use flow_model::{Cell, Net};
use mcf_limits::{MAX_CELLS, MAX_NODES, MAX_UNITS};
use std::alloc::{AllocError, Global};

// The cuts out of each node, or into each.
fn cuts_one_way(
    alloc: Global,
    net: &Net,
    demands: &[Cell],
    into: bool,
) -> Result<Vec<SummedCut>, AllocError>
    requires total { total_capacity demands.now ≤ MAX_CELLS * MAX_UNITS }
    requires demands { All (IsCell net.now.nodes) demands.now }
    ensures { IfOk result (λ v.
        v.items ≡ map (node_cut net.now.cells demands.now into) (range_with_len 0 net.now.nodes)) }
{
    let nodes = net.nodes();
    let leaving = node_sums(alloc, nodes as usize, net.cells(), into)?;
    let crossing = node_sums(alloc, nodes as usize, demands, into)?;
    let mut cuts = Vec::with_capacity(alloc, nodes as usize)?;
    for node in 0..nodes {
        cuts.push(SummedCut {
            place: Place::Node { node, into },
            leaving: leaving[node as usize],
            crossing: crossing[node as usize],
        })?;
    }
    Ok(cuts)
}

// One of the first, one of the second, and so on.
fn woven(
    alloc: Global,
    first: &[SummedCut],
    second: &[SummedCut],
) -> Result<Vec<SummedCut>, AllocError>
    requires { length second.now ≡ length first.now }
    ensures { IfOk result (λ v. v.items ≡ woven first.now second.now) }
{
    let mut cuts = Vec::new(alloc);
    for (i, cut) in first.iter().enumerate() {
        cuts.push(*cut)?;
        cuts.push(second[i])?;
    }
    Ok(cuts)
}

/// The cuts round each node, in order: out of it, and, where cells go one way, into it.
pub fn node_cuts(
    alloc: Global,
    net: &Net,
    demands: &[Cell],
    both: bool,
) -> Result<Vec<SummedCut>, AllocError>
    requires total { total_capacity demands.now ≤ MAX_CELLS * MAX_UNITS }
    requires demands { All (IsCell net.now.nodes) demands.now }
    ensures { IfOk result (λ v.
        v.items ≡ flat_map (node_cuts net.now.cells demands.now both) (range_with_len 0 net.now.nodes)) }
{
    let out = cuts_one_way(alloc, net, demands, false)?;
    if both {
        return Ok(out);
    }
    let into = cuts_one_way(alloc, net, demands, true)?;
    woven(alloc, &out, &into)
}

// The row's numbers above its least, each once, ascending.
fn levels_of(alloc: Global, values: &[u64]) -> Result<Vec<u64>, AllocError>
    ensures levels { IfOk result (λ v. AreLevels values.now v.items) }
    ensures few { IfOk result (λ v. length v.items ≤ length values.now) }
{
    let mut levels = Vec::from_slice(alloc, values)?;
    levels.sort_unstable();
    levels.dedup();
    if levels.is_empty() {
        return Ok(levels);
    }
    levels.remove(0);
    Ok(levels)
}

// How many levels are at most the value.
fn rank_of(levels: &[u64], value: u64) -> u16
    requires few { length levels.now ≤ MAX_NODES }
    requires ascending { IsStrictlyIncreasing levels.now }
    ensures within { result ≤ length levels.now }
    ensures below { (i : ℕ) → i < length levels.now → (result < i + 1) ↔ (value < slice_index levels.now i) }
{
    match levels.binary_search(&value) {
        Ok(i) => i as u16 + 1,
        Err(i) => i as u16,
    }
}

// The rank of each node: how many levels are at most its potential.
fn ranks_of(alloc: Global, levels: &[u64], values: &[u64]) -> Result<Vec<u16>, AllocError>
    requires few { length levels.now ≤ MAX_NODES }
    requires ascending { IsStrictlyIncreasing levels.now }
    ensures len { IfOk result (λ v. length v.items ≡ length values.now) }
    ensures within { IfOk result (λ v. All (λ r. r < length levels.now + 1) v.items) }
    ensures below { IfOk result (λ ranks. (v : ℕ) → v < length values.now → (i : ℕ) → i < length levels.now
        → (slice_index ranks.items v < i + 1) ↔ (slice_index values.now v < slice_index levels.now i)) }
{
    let mut ranks = Vec::with_capacity(alloc, values.len())?;
    for value in values {
        ranks.push(rank_of(levels, *value))?;
    }
    Ok(ranks)
}

// The fronts of the row at these levels, with the sums at one place more each.
fn cuts_at(
    alloc: Global,
    row: RowPlace,
    levels: &[u64],
    leaving: &[u64],
    crossing: &[u64],
) -> Result<Vec<SummedCut>, AllocError>
    requires leaving { length levels.now < length leaving.now }
    requires crossing { length levels.now < length crossing.now }
    ensures len { IfOk result (λ v. length v.items ≡ length levels.now) }
    ensures each { IfOk result (λ v. (i : ℕ) (d : SummedCutIs) → i < length levels.now
        → slice_index_or v.items i d ≡ front_cut row (slice_index levels.now i)
        (slice_index leaving.now (i + 1)) (slice_index crossing.now (i + 1))) }
{
    let mut cuts = Vec::with_capacity(alloc, levels.len())?;
    for (i, level) in levels.iter().enumerate() {
        cuts.push(SummedCut {
            place: Place::Front { row, level: *level },
            leaving: leaving[i + 1],
            crossing: crossing[i + 1],
        })?;
    }
    Ok(cuts)
}

/// The fronts of a row of potentials, from the smallest to the greatest.
pub fn front_cuts(
    alloc: Global,
    net: &Net,
    demands: &[Cell],
    row: RowPlace,
    values: &[u64],
) -> Result<Vec<SummedCut>, AllocError>
    requires total { total_capacity demands.now ≤ MAX_CELLS * MAX_UNITS }
    requires demands { All (IsCell net.now.nodes) demands.now }
    requires values { length values.now ≡ net.now.nodes }
    ensures { IfOk result (λ v. (levels : List ℕ) × AreLevels values.now levels
        × (v.items ≡ map (level_cut net.now.cells demands.now row values.now) levels)) }
{
    let cells = net.cells();
    let levels = levels_of(alloc, values)?;
    let ranks = ranks_of(alloc, &levels, values)?;
    let count = levels.len() + 1;
    let leaving = front_sums(alloc, &ranks, count, cells)?;
    let crossing = front_sums(alloc, &ranks, count, demands)?;
    cuts_at(alloc, row, &levels, &leaving, &crossing)
}
