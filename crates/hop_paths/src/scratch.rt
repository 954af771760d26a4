//! The room that searches by layers work in.

ghost use Rattle.std.specs.Prelude.{◌≡◌, ℕ, ◌≤◌, ◌<◌, ◌+◌, ◌*◌, ◌++◌, min, length, drop, slice_index, IfOk};
ghost use Rattle.mcf_limits.specs.declared.TheConstants.{MAX_HOPS};
ghost use Rattle.hop_paths.specs.Searching.{step_at};
ghost use Rattle.hop_paths.specs.Searched.{hop_trail};

use crate::search::{HopStep, search};
use dijkstra_paths::Graph;
use mcf_limits::MAX_LENGTH;
use std::alloc::{AllocError, Global};
use std::marker::Model;

/// Distances from one node over at most i cells, for each i up to a greatest. It is seen as
/// its number of nodes, the number of its greatest layer, how many layers the last search
/// made, and the distance of each node in each layer, if there is one, with the steps that
/// lead there.
#[derive(Drop)]
pub struct HopScratch {
    nodes: u16,
    layers: u8,
    made: u8,
    dist: Vec<u64>,
    steps: Vec<Option<HopStep>>,
    path: Vec<u16>,
}

impl Model for HopScratch {
    ghost use Rattle.std.specs.Prelude.{map};
    ghost use Rattle.dijkstra_paths.specs.Searched.{known};
    ghost use Rattle.hop_paths.specs.Searched.{HopSearched, IsHopReady};

    ghost Value = { HopSearched };

    ghost view = { λ s. record {
      nodes = s.nodes;
      layers = s.layers;
      made = s.made;
      dists = map known s.dist.items;
      steps = s.steps.items;
    } };

    ghost invariant = { λ s. IsHopReady s.nodes s.layers s.made s.dist.items s.steps.items s.path.items };
}

// The step that leads to that place, if there is one.
fn step_to(steps: &[Option<HopStep>], place: usize) -> Option<HopStep>
    ensures { result ≡ step_at steps.now place }
{
    if place < steps.len() {
        steps[place]
    } else {
        None
    }
}

// Puts the cells of the steps to a node in that layer in front of a place of the path, and gives the place where they
// begin.
fn trace(
    steps: &[Option<HopStep>],
    nodes: u16,
    layer: u8,
    to: u16,
    path: &mut [u16],
    end: usize,
) -> usize
    requires room { layer ≤ end }
    requires end { end ≤ length path.old }
    ensures len { length path.new ≡ length path.old }
    ensures within { result ≤ length path.new }
    ensures value { drop result path.new ≡ hop_trail steps.now nodes layer to ++ drop end path.old }
{
    if layer == 0 {
        return end;
    }
    match step_to(steps, layer as usize * nodes as usize + to as usize) {
        Some(step) => {
            path[end - 1] = step.cell;
            trace(steps, nodes, layer - 1, step.from, path, end - 1)
        }
        None => trace(steps, nodes, layer - 1, to, path, end),
    }
}

// What stands from a place on.
fn rest(path: &[u16], start: usize) -> &[u16]
    requires { start ≤ length path.now }
    ensures { result.now ≡ drop start path.now }
{
    &path[start..]
}

// Puts the numbers from a place on into these places, as far as they are at most 2^62.
fn put_from(dist: &[u64], base: usize, into: &mut [u64])
    requires { base + length into.old ≤ length dist.now }
    ensures len { length into.new ≡ length into.old }
    ensures each { (v : ℕ) → v < length into.new → slice_index into.new v
        ≡ min (slice_index dist.now (base + v)) MAX_LENGTH }
{
    for v in 0..into.len() {
        into[v] = dist[base + v].min(MAX_LENGTH);
    }
}

impl HopScratch {
    ghost use Rattle.std.specs.Prelude.{◌≡◌, ℕ, ◌+◌, ◌<◌, ◌≤◌, All, length, slice_index, None, IfOk, IfSome, IsSomeAnd};
    ghost use Rattle.std.specs.Option.{option_map};
    ghost use Rattle.std.specs.Borrow.{sem};
    ghost use Rattle.flow_model.specs.Lengths.{AreLengths};
    ghost use Rattle.flow_model.specs.Least.{far_or};
    ghost use Rattle.hop_paths.specs.Allowed.{IsShortWalk, IsLeastOf};
    ghost use Rattle.hop_paths.specs.Lending.{Keeps};
    ghost use Rattle.hop_paths.specs.Searched.{layer_dist, layer_path, IsShortPath};

    /// Room for searches over `nodes` nodes, for walks of at most `layers` cells. No layer
    /// is made yet.
    pub fn new(alloc: Global, nodes: u16, layers: u8) -> Result<Self, AllocError>
        requires { layers ≤ MAX_HOPS }
        ensures nodes { IfOk result (λ s. s.nodes ≡ nodes) }
        ensures layers { IfOk result (λ s. s.layers ≡ layers) }
        ensures made { IfOk result (λ s. s.made ≡ 0) }
    {
        let many = (layers as usize + 1) * nodes as usize;
        Ok(HopScratch {
            nodes,
            layers,
            made: 0,
            dist: vec![in alloc; MAX_LENGTH; many]?,
            steps: vec![in alloc; None; many]?,
            path: vec![in alloc; 0; layers as usize]?,
        })
    }

    /// Finds the least lengths of walks from a node over positive cells, of at most as many
    /// cells as the layer's number, for each layer up to that one, and a path of each.
    pub fn search(&mut self, graph: &Graph, lengths: &[u64], from: u16, layers: u8)
        requires lengths { AreLengths graph.now.cells lengths.now }
        requires nodes { self.old.nodes ≡ graph.now.nodes }
        requires from { from < self.old.nodes }
        requires layers { layers ≤ self.old.layers }
        ensures nodes { self.new.nodes ≡ self.old.nodes }
        ensures layers { self.new.layers ≡ self.old.layers }
        ensures made { self.new.made ≡ layers + 1 }
        ensures least { (i v : ℕ) → i ≤ layers → v < self.new.nodes
            → IsLeastOf (IsShortWalk graph.now.cells from v i) lengths.now (layer_dist self.new i v) }
        ensures paths { (i v : ℕ) → i ≤ layers → v < self.new.nodes → IfSome (layer_dist self.new i v)
            (λ d. IsSomeAnd (layer_path self.new i v) (IsShortPath graph.now.cells lengths.now from v i d)) }
    {
        let _nodes = graph.nodes();
        search(
            graph,
            lengths,
            &mut self.dist,
            &mut self.steps,
            from,
            layers,
        );
        self.made = layers + 1;
    }

    /// The least length of a walk to the node in that layer, if there is one. The last search
    /// made that layer.
    pub fn dist(&self, layer: u8, node: u16) -> Option<u64>
        requires layer { layer < self.now.made }
        requires node { node < self.now.nodes }
        ensures value { result ≡ layer_dist self.now layer node }
        ensures limit { IfSome result (λ d. d < MAX_LENGTH) }
    {
        let at = layer as usize * self.nodes as usize + node as usize;
        let dist = self.dist.as_slice()[at];
        if dist < MAX_LENGTH { Some(dist) } else { None }
    }

    /// Puts the least length of a walk to each node in that layer in its place: 2^62 where there
    /// is none. The last search made that layer.
    pub fn put_layer(&self, layer: u8, into: &mut [u64])
        requires layer { layer < self.now.made }
        requires nodes { length into.old ≡ self.now.nodes }
        ensures len { length into.new ≡ length into.old }
        ensures each { (v : ℕ) → v < self.now.nodes → slice_index into.new v
            ≡ far_or (layer_dist self.now layer v) }
        ensures limit { All (λ n. n ≤ MAX_LENGTH) into.new }
    {
        let base = layer as usize * self.nodes as usize;
        put_from(self.dist.as_slice(), base, into);
    }

    /// The cells of a least walk to the node in that layer, if there is one. The last search
    /// made that layer.
    pub fn path_to(&mut self, layer: u8, to: u16) -> Option<&[u16]>
        requires layer { layer < self.old.made }
        requires node { to < self.old.nodes }
        ensures* keeps { sem 𝓛 (Keeps self.entry) }
        ensures value { option_map (λ path. path.now) result ≡ layer_path self.old layer to }
    {
        let at = layer as usize * self.nodes as usize + to as usize;
        if self.dist.as_slice()[at] >= MAX_LENGTH {
            return None;
        }
        let end = self.path.len();
        let start = trace(
            self.steps.as_slice(),
            self.nodes,
            layer,
            to,
            &mut self.path,
            end,
        );
        Some(rest(&self.path, start))
    }
}
