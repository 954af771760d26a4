//! The search by layers: layer i has the least lengths of walks of at most i cells, and the last step of one that
//! is new in it. The layers stand one after the other in one list, each with a number for each node.

ghost use Rattle.std.specs.Prelude.{◌≡◌, ℕ, ◌+◌, ◌*◌, ◌<◌, ◌≤◌, false, length, slice_index};
ghost use Rattle.flow_model.specs.Lengths.{AreLengths};
ghost use Rattle.flow_model.specs.Walk.{PassesOver};
ghost use Rattle.hop_paths.specs.Searching.{step_at, IsNext, IsSettled, IsGoneOn, IsSameBelow, IsBegun, IsBehind, IsSearched};

use dijkstra_paths::{Arc, Graph};
use mcf_limits::MAX_LENGTH;

/// The last step of a walk: over this cell, from this node.
#[derive(Clone, Copy, Debug, PartialEq, Eq)]
pub struct HopStep {
    /// The number of the cell.
    pub cell: u16,
    /// The node before.
    pub from: u16,
}

// Goes over the arc from the node into the layer behind, where that is shorter.
#[inline(always)]
fn relax(
    graph: &Graph,
    lengths: &[u64],
    dist: &mut [u64],
    steps: &mut [Option<HopStep>],
    base: usize,
    node: u16,
    arc: Arc,
)
    requires lengths { AreLengths graph.now.cells lengths.now }
    requires size { base + 2 * graph.now.nodes ≤ length dist.old }
    requires room { length steps.old ≡ length dist.old }
    requires nodes { (node < graph.now.nodes) × (arc.to < graph.now.nodes) × (arc.cell < length lengths.now) }
    requires passes { PassesOver graph.now.cells arc.cell node arc.to }
    requires near { slice_index dist.old (base + node) < MAX_LENGTH }
    requires state { IsNext graph.now.cells lengths.now graph.now.nodes dist.old steps.old base }
    ensures state { IsNext graph.now.cells lengths.now graph.now.nodes dist.new steps.new base }
    ensures there { slice_index dist.new (base + graph.now.nodes + arc.to)
        ≤ slice_index dist.old (base + node) + slice_index lengths.now arc.cell }
    ensures falls { (k : ℕ) → slice_index dist.new k ≤ slice_index dist.old k }
    ensures front { IsSameBelow (base + graph.now.nodes) dist.old dist.new steps.old steps.new }
{
    let there = dist[base + node as usize] + lengths[arc.cell as usize];
    let at = base + graph.nodes() as usize + arc.to as usize;
    if there >= dist[at] {
        return;
    }
    dist[at] = there;
    steps[at] = Some(HopStep {
        cell: arc.cell,
        from: node,
    });
}

// Goes over all arcs from the node into the layer behind, if the node came nearer in this layer. Where it did not, all
// of them were gone over in the layer before.
#[inline(always)]
fn go_on(
    graph: &Graph,
    lengths: &[u64],
    dist: &mut [u64],
    steps: &mut [Option<HopStep>],
    base: usize,
    node: u16,
)
    requires lengths { AreLengths graph.now.cells lengths.now }
    requires size { base + 2 * graph.now.nodes ≤ length dist.old }
    requires room { length steps.old ≡ length dist.old }
    requires node { node < graph.now.nodes }
    requires settled { IsSettled graph.now.cells lengths.now graph.now.nodes dist.old steps.old base }
    requires state { IsNext graph.now.cells lengths.now graph.now.nodes dist.old steps.old base }
    ensures state { IsNext graph.now.cells lengths.now graph.now.nodes dist.new steps.new base }
    ensures done { slice_index dist.old (base + node) < MAX_LENGTH
        → IsGoneOn graph.now.cells lengths.now graph.now.nodes dist.new base node }
    ensures falls { (k : ℕ) → slice_index dist.new k ≤ slice_index dist.old k }
    ensures front { IsSameBelow (base + graph.now.nodes) dist.old dist.new steps.old steps.new }
{
    let at = base + node as usize;
    if dist[at] >= MAX_LENGTH || steps[at].is_none() {
        return;
    }
    let arcs = graph.out(node);
    for arc in arcs {
        relax(graph, lengths, dist, steps, base, node, *arc);
    }
}

// Whether a node has a step, or one had before.
#[inline(always)]
fn nearer_too(nearer: bool, step: Option<HopStep>) -> bool
    ensures { result ≡ false → (nearer ≡ false) × (step ≡ None) }
{
    nearer | step.is_some()
}

// Begins the layer behind as the layer at that base, and says whether some node came nearer in the layer at that base.
fn begin(dist: &mut [u64], steps: &mut [Option<HopStep>], base: usize, nodes: usize) -> bool
    requires size { base + 2 * nodes ≤ length dist.old }
    requires room { length steps.old ≡ length dist.old }
    ensures begun { IsBegun nodes dist.new steps.new base }
    ensures front { IsSameBelow (base + nodes) dist.old dist.new steps.old steps.new }
    ensures still { result ≡ false → (v : ℕ) → v < nodes → step_at steps.new (base + v) ≡ None }
{
    let mut nearer = false;
    for v in 0..nodes {
        dist[base + nodes + v] = dist[base + v];
        nearer = nearer_too(nearer, steps[base + v]);
        steps[base + nodes + v] = None;
    }
    nearer
}

// Makes the layer behind the one at that base. Where no node came nearer in that one, the two are the same.
fn rise(
    graph: &Graph,
    lengths: &[u64],
    dist: &mut [u64],
    steps: &mut [Option<HopStep>],
    base: usize,
)
    requires lengths { AreLengths graph.now.cells lengths.now }
    requires size { base + 2 * graph.now.nodes ≤ length dist.old }
    requires room { length steps.old ≡ length dist.old }
    requires settled { IsSettled graph.now.cells lengths.now graph.now.nodes dist.old steps.old base }
    ensures behind { IsBehind graph.now.cells lengths.now graph.now.nodes dist.new steps.new base }
    ensures front { IsSameBelow (base + graph.now.nodes) dist.old dist.new steps.old steps.new }
{
    if !begin(dist, steps, base, graph.nodes() as usize) {
        return;
    }
    for node in 0..graph.nodes() {
        go_on(graph, lengths, dist, steps, base, node);
    }
}

// Puts the first `nodes` nodes out of reach.
fn clear(dist: &mut [u64], steps: &mut [Option<HopStep>], nodes: usize)
    requires size { nodes ≤ length dist.old }
    requires room { length steps.old ≡ length dist.old }
    ensures far { (v : ℕ) → v < nodes → slice_index dist.new v ≡ MAX_LENGTH }
{
    for v in 0..nodes {
        dist[v] = MAX_LENGTH;
        steps[v] = None;
    }
}

/// Makes the first layer, of no cells, and `layers` more.
pub fn search(
    graph: &Graph,
    lengths: &[u64],
    dist: &mut [u64],
    steps: &mut [Option<HopStep>],
    from: u16,
    layers: u8,
)
    requires lengths { AreLengths graph.now.cells lengths.now }
    requires size { (layers + 1) * graph.now.nodes ≤ length dist.old }
    requires room { length steps.old ≡ length dist.old }
    requires from { from < graph.now.nodes }
    ensures { IsSearched graph.now.cells lengths.now from graph.now.nodes dist.new steps.new layers }
{
    let nodes = graph.nodes() as usize;
    clear(dist, steps, nodes);
    dist[from as usize] = 0;
    steps[from as usize] = Some(HopStep { cell: 0, from });
    for layer in 0..layers {
        rise(graph, lengths, dist, steps, layer as usize * nodes);
    }
}
