//! The duals of cuts, and copies of duals.

ghost use Rattle.std.specs.Prelude.{◌≡◌, ◌<◌, ◌≤◌, [], All, IfOk, length, map, nat_lt, if◌then◌else◌};
ghost use Rattle.std.specs.List.{range_with_len};
ghost use Rattle.flow_model.specs.Network.{IsCell};
ghost use Rattle.cut_bound.specs.Cuts.{cut_dual, goes_out, leaves, length_rows, side_lengths, side_potential};
ghost use Rattle.cut_bound.specs.Search.{marked, potential_by};
ghost use Rattle.cut_bound.specs.Sums.{node_side};

use flow_model::{Cell, Groups, Net};
use flow_paths::Dual;
use std::alloc::{AllocError, Global};

// Whether a node is on the side of the cut out of the other, or into it.
fn is_on_side(v: u16, node: u16, into: bool) -> bool
    ensures { result ≡ node_side into node v }
{
    if into { v != node } else { v == node }
}

/// Which nodes are on the side of the cut round a node.
pub fn node_marks(alloc: Global, nodes: u16, node: u16, into: bool) -> Result<Vec<bool>, AllocError>
    ensures { IfOk result (λ v. v.items ≡ map (node_side into node) (range_with_len 0 nodes)) }
{
    let mut marks = Vec::with_capacity(alloc, nodes as usize)?;
    for v in 0..nodes {
        marks.push(is_on_side(v, node, into))?;
    }
    Ok(marks)
}

/// Which nodes have a potential below the level.
pub fn front_marks(alloc: Global, values: &[u64], level: u64) -> Result<Vec<bool>, AllocError>
    ensures { IfOk result (λ v. v.items ≡ map (λ x. nat_lt x level) values.now) }
{
    let mut marks = Vec::with_capacity(alloc, values.len())?;
    for value in values {
        marks.push(*value < level)?;
    }
    Ok(marks)
}

fn goes_out(side: &[bool], from: u16, to: u16) -> bool
    requires from { from < length side.now }
    requires to { to < length side.now }
    ensures { result ≡ goes_out (marked side.now) from to }
{
    side[from as usize] && !side[to as usize]
}

fn does_leave(side: &[bool], cell: &Cell) -> bool
    requires { IsCell (length side.now) cell.now }
    ensures { result ≡ leaves (marked side.now) cell.now }
{
    goes_out(side, cell.tail, cell.head) || (cell.both && goes_out(side, cell.head, cell.tail))
}

fn side_length(side: &[bool], cell: &Cell) -> u64
    requires { IsCell (length side.now) cell.now }
    ensures within { result ≤ 1 }
    ensures value { result ≡ (if leaves (marked side.now) cell.now then 1 else 0) }
{
    u64::from(does_leave(side, cell))
}

// 1 for each cell that leaves the side, 0 for every other.
fn with_side_lengths(alloc: Global, net: &Net, side: &[bool]) -> Result<Dual, AllocError>
    requires { length side.now ≡ net.now.nodes }
    ensures { IfOk result (λ dual. dual ≡ record {
      lengths = length_rows 0 (side_lengths net.now (marked side.now));
      potentials = [];
    }) }
{
    let mut dual = Dual::new(alloc);
    for (c, cell) in net.cells().iter().enumerate() {
        dual.push_length(c as u16, side_length(side, cell))?;
    }
    Ok(dual)
}

fn potential(both: bool, from_side: bool, on_side: bool) -> u64
    ensures within { result ≤ 1 }
    ensures value { result ≡ potential_by both from_side on_side }
{
    if from_side {
        u64::from(!on_side)
    } else {
        u64::from(both && on_side)
    }
}

// The potentials in the row of a source.
fn side_values(
    alloc: Global,
    both: bool,
    side: &[bool],
    source: u16,
) -> Result<Vec<u64>, AllocError>
    requires { source < length side.now }
    ensures small { IfOk result (λ v. All (λ p. p ≤ 1) v.items) }
    ensures value { IfOk result (λ v.
        v.items ≡ map (side_potential both (marked side.now) source) (range_with_len 0 (length side.now))) }
{
    let from_side = side[source as usize];
    let mut values = Vec::with_capacity(alloc, side.len())?;
    for on_side in side {
        values.push(potential(both, from_side, *on_side))?;
    }
    Ok(values)
}

/// The dual of the cut of a side.
pub fn side_dual(alloc: Global, net: &Net, both: bool, side: &[bool]) -> Result<Dual, AllocError>
    requires { length side.now ≡ net.now.nodes }
    ensures { IfOk result (λ dual. dual ≡ cut_dual net.now both (marked side.now)) }
{
    let groups = Groups::new(alloc, net)?;
    let mut dual = with_side_lengths(alloc, net, side)?;
    for g in 0..groups.count() {
        let source = groups.source(g);
        let values = side_values(alloc, both, side, source)?;
        dual.push_row(alloc, source, &values)?;
    }
    Ok(dual)
}

// The length rows of a dual.
fn copied_lengths(alloc: Global, dual: &Dual) -> Result<Dual, AllocError>
    ensures { IfOk result (λ copy. copy ≡ record { lengths = dual.now.lengths; potentials = [] }) }
{
    let mut copy = Dual::new(alloc);
    for i in 0..dual.lengths() {
        let (cell, value) = dual.length(i);
        copy.push_length(cell, value)?;
    }
    Ok(copy)
}

/// A copy of a dual.
pub fn copied(alloc: Global, dual: &Dual) -> Result<Dual, AllocError>
    ensures { IfOk result (λ copy. copy ≡ dual.now) }
{
    let mut copy = copied_lengths(alloc, dual)?;
    for i in 0..dual.rows() {
        copy.push_row(alloc, dual.row_node(i), dual.row(i))?;
    }
    Ok(copy)
}
