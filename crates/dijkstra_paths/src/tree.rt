//! What a search from a source leaves for a later one from the same source.

ghost use Rattle.std.specs.Prelude.{◌<◌, ◌≡◌, ℕ, length, slice_index, IfOk};

use crate::search::{Front, Kept, Step};
use mcf_limits::MAX_LENGTH;
use std::alloc::{AllocError, Global};
use std::marker::Model;

/// The steps by which nodes were reached from a source, mostly nodes before those that were reached from them.
/// It is a hint alone: a search looks at each step before it takes it. So contracts see nothing in it.
#[derive(Drop)]
pub struct Tree {
    source: Option<u16>,
    kept: Vec<Kept>,
}

impl Model for Tree {
    ghost use Rattle.std.specs.Prelude.{⊤};

    ghost Value = { ⊤ };

    ghost view = { λ t. tt };
}

impl Tree {
    /// Room for the tree of one source over `nodes` nodes. It holds none yet.
    pub fn new(alloc: Global, nodes: u16) -> Result<Self, AllocError> {
        Ok(Tree {
            source: None,
            kept: blank_steps(alloc, nodes)?,
        })
    }

    /// What it holds of a search from that node, if it is a tree from there.
    pub fn earlier(&self, source: u16) -> Option<&[Kept]> {
        if self.source != Some(source) {
            return None;
        }
        Some(&self.kept)
    }

    /// Takes over the steps that a search from the same node found along it, in its order, if it is one over as many nodes.
    pub fn renew(&mut self, front: &Front) {
        let steps = front.steps.as_slice();
        if self.kept.len() == steps.len() {
            renew_steps(&mut self.kept, steps);
        }
    }

    /// Takes over what a search from that node found, if it is one over as many nodes.
    pub fn follow(&mut self, source: u16, front: &Front, room: &mut ReorderBuffers) {
        let steps = front.steps.as_slice();
        if self.kept.len() != steps.len() {
            return;
        }
        if self.source != Some(source) {
            self.source = Some(source);
            sort_anew(&mut self.kept, front.dist.as_slice());
        }
        let late = put_placed(&mut self.kept, steps, source, room);
        put_late(&mut self.kept, &room.late, late);
    }
}

// A blank step for each node, in the order of their numbers; a search fills them in.
fn blank_steps(alloc: Global, nodes: u16) -> Result<Vec<Kept>, AllocError> {
    let mut kept = Vec::with_capacity(alloc, nodes as usize)?;
    for node in 0..nodes {
        kept.push(Kept {
            node,
            step: Step { cell: 0, from: 0 },
        })?;
    }
    Ok(kept)
}

/// Scratch space for reordering a tree: a mark for each node that has its place, and the steps to nodes that wait for one.
#[derive(Drop)]
pub struct ReorderBuffers {
    placed: Vec<bool>,
    late: Vec<Kept>,
}

impl ReorderBuffers {
    /// Room for trees over `nodes` nodes.
    pub fn new(alloc: Global, nodes: u16) -> Result<Self, AllocError> {
        Ok(ReorderBuffers {
            placed: vec![in alloc; false; nodes as usize]?,
            late: blank_steps(alloc, nodes)?,
        })
    }
}

// The step to the node, where there is one.
#[inline(always)]
fn step_to(steps: &[Step], node: u16) -> Kept {
    let at = node as usize;
    let step = if at < steps.len() {
        steps[at]
    } else {
        Step { cell: 0, from: 0 }
    };
    Kept { node, step }
}

// Puts the step to each node in the place of its earlier one.
fn renew_steps(kept: &mut [Kept], steps: &[Step]) {
    for one in kept.iter_mut() {
        *one = step_to(steps, one.node);
    }
}

// Whether the node has its place.
#[inline(always)]
fn is_placed(placed: &[bool], node: u16) -> bool {
    let at = node as usize;
    at < placed.len() && placed[at]
}

// Marks the node as one that has its place.
#[inline(always)]
fn mark(placed: &mut [bool], node: u16) {
    let at = node as usize;
    if at < placed.len() {
        placed[at] = true;
    }
}

// Puts the steps of a search to the front, in the tree's order, each whose node before has its place already, and gives
// the number of the others, which wait in the room. It is a function of its own, so that its pointers stay in registers.
#[inline(never)]
fn put_placed(kept: &mut [Kept], steps: &[Step], source: u16, room: &mut ReorderBuffers) -> usize {
    let placed = room.placed.as_mut_slice();
    let late = room.late.as_mut_slice();
    placed.fill(false);
    mark(placed, source);
    let mut end = 0;
    let mut waiting = 0;
    for at in 0..kept.len() {
        let next = step_to(steps, kept[at].node);
        if is_placed(placed, next.step.from) || waiting >= late.len() {
            mark(placed, next.node);
            kept[end] = next;
            end += 1;
        } else {
            late[waiting] = next;
            waiting += 1;
        }
    }
    waiting
}

// Appends the first `count` of the steps that were set aside.
fn put_late(kept: &mut [Kept], late: &[Kept], count: usize) {
    if count > late.len() || count > kept.len() {
        return;
    }
    let start = kept.len() - count;
    kept[start..].copy_from_slice(&late[..count]);
}

/// The numbers below n in order.
pub(crate) fn numbers(alloc: Global, n: u16) -> Result<Vec<u16>, AllocError>
    ensures count { IfOk result (λ v. length v.items ≡ n) }
    ensures each { IfOk result (λ v. (k : ℕ) → k < n → slice_index v.items k ≡ k) }
{
    let mut numbers = Vec::new(alloc);
    for number in 0..n {
        numbers.push(number)?;
    }
    Ok(numbers)
}

// The distance of the node.
#[inline(always)]
fn dist_of(dist: &[u64], node: u16) -> u64 {
    let at = node as usize;
    if at < dist.len() {
        dist[at]
    } else {
        MAX_LENGTH
    }
}

// Moves the node at a place before the nodes with greater distances, among those at places `apart` apart.
fn settle(kept: &mut [Kept], dist: &[u64], place: usize, apart: usize)
    requires apart { 0 < apart }
    requires place { place < length kept.old }
    ensures { length kept.new ≡ length kept.old }
{
    let moved = kept[place];
    let near = dist_of(dist, moved.node);
    let mut at = place;
    while at >= apart && near < dist_of(dist, kept[at - apart].node) {
        kept[at] = kept[at - apart];
        at -= apart;
    }
    kept[at] = moved;
}

// Puts the nodes at places `apart` apart into the order of their distances.
fn sort(kept: &mut [Kept], dist: &[u64], apart: usize)
    requires { 0 < apart }
{
    for place in apart..kept.len() {
        settle(kept, dist, place, apart);
    }
}

// Puts all nodes into the order of their distances.
fn sort_anew(kept: &mut [Kept], dist: &[u64]) {
    for apart in [109, 41, 19, 5, 1] {
        sort(kept, dist, apart);
    }
}
