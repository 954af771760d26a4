//! The room that searches work in.

ghost use Rattle.std.specs.Prelude.{◌≡◌, ℕ, ◌<◌, ◌≤◌, length, slice_index, IfOk, drop, take};
ghost use Rattle.dijkstra_paths.specs.Searched.{trail, Ends};
ghost use Rattle.dijkstra_paths.specs.Tree.{IsDone, IsFront, IsTree};
ghost use Rattle.flow_model.specs.Lengths.{AreLengths};

use crate::search::{Front, Step, search, search_on};
use crate::tree::{ReorderBuffers, numbers};
use crate::{Graph, Tree};
use mcf_limits::MAX_LENGTH;
use std::alloc::{AllocError, Global};
use std::marker::Model;

/// Distances from one node. It is seen as its numbers of nodes and cells, and the distance
/// of each node and a path to it, if it was reached.
#[derive(Drop)]
pub struct Scratch {
    nodes: u16,
    cells: u16,
    from: u16,
    front: Front,
    path: Vec<u16>,
    trees: Vec<Tree>,
    room: ReorderBuffers,
}

impl Model for Scratch {
    ghost use Rattle.std.specs.Prelude.{map};
    ghost use Rattle.dijkstra_paths.specs.Searched.{Searched, known, paths_from, IsReady};

    ghost Value = { Searched };

    ghost view = { λ s. record {
      nodes = s.nodes;
      cells = s.cells;
      dists = map known s.front.dist.items;
      paths = paths_from s.front.steps.items s.from s.nodes 0 s.front.dist.items;
    } };

    ghost invariant = { λ s. IsReady s.nodes s.from s.front s.path.items };
}

// The distances of `n` nodes that no walk reaches.
fn unreached(alloc: Global, n: usize) -> Result<Vec<u64>, AllocError>
    ensures count { IfOk result (λ v. length v.items ≡ n) }
    ensures each { IfOk result (λ v. (k : ℕ) → k < length v.items → slice_index v.items k ≡ MAX_LENGTH) }
{
    let dist = vec![in alloc; MAX_LENGTH; n]?;
    Ok(dist)
}

// A front for `nodes` nodes, before any search.
fn new_front(alloc: Global, nodes: u16) -> Result<Front, AllocError>
    ensures front { IfOk result (IsFront nodes) }
    ensures blank { IfOk result (λ f. (v : ℕ) → v < length f.dist.items
        → slice_index f.dist.items v ≡ MAX_LENGTH) }
{
    let n = nodes as usize;
    Ok(Front {
        dist: unreached(alloc, n)?,
        steps: vec![in alloc; Step { cell: 0, from: 0 }; n]?,
        order: numbers(alloc, nodes)?,
        place: numbers(alloc, nodes)?,
        keys: vec![in alloc; 0; n]?,
    })
}

// A tree for each node as a source, before any search.
fn blank_trees(alloc: Global, nodes: u16) -> Result<Vec<Tree>, AllocError> {
    let mut trees = Vec::with_capacity(alloc, nodes as usize)?;
    for _ in 0..nodes {
        trees.push(Tree::new(alloc, nodes)?)?;
    }
    Ok(trees)
}

// Finds the least distances from a node, from a tree on where this is one from there. `false` where it began at a tree and opened no
// node: then each node that was reached still stands behind the one that it was reached from, in the tree's order.
fn search_by(
    graph: &Graph,
    lengths: &[u64],
    from: u16,
    tree: Option<&Tree>,
    front: &mut Front,
) -> bool
    requires lengths { AreLengths graph.now.cells lengths.now }
    requires front { IsFront graph.now.nodes front.old }
    requires from { from < graph.now.nodes }
    ensures front { IsFront graph.now.nodes front.new }
    ensures tree { IsTree graph.now.cells lengths.now from front.new.dist.items front.new.steps.items }
    ensures done { (u : ℕ) → u < length front.new.dist.items → slice_index front.new.dist.items u < MAX_LENGTH
        → IsDone graph.now.cells lengths.now front.new.dist.items u }
{
    let earlier = match tree {
        Some(tree) => tree.earlier(from),
        None => None,
    };
    match earlier {
        Some(earlier) => search_on(graph, lengths, from, earlier, front),
        None => {
            search(graph, lengths, from, front);
            true
        }
    }
}

// As `search_by`, then stores the new tree.
fn search_along(
    graph: &Graph,
    lengths: &[u64],
    from: u16,
    tree: &mut Tree,
    room: &mut ReorderBuffers,
    front: &mut Front,
)
    requires lengths { AreLengths graph.now.cells lengths.now }
    requires front { IsFront graph.now.nodes front.old }
    requires from { from < graph.now.nodes }
    ensures front { IsFront graph.now.nodes front.new }
    ensures tree { IsTree graph.now.cells lengths.now from front.new.dist.items front.new.steps.items }
    ensures done { (u : ℕ) → u < length front.new.dist.items → slice_index front.new.dist.items u < MAX_LENGTH
        → IsDone graph.now.cells lengths.now front.new.dist.items u }
{
    let moved = search_by(graph, lengths, from, Some(&*tree), front);
    if moved {
        tree.follow(from, front, room);
    } else {
        tree.renew(front);
    }
}

// A search from the node, which begins at the node's own tree where there is one.
fn search_among(
    graph: &Graph,
    lengths: &[u64],
    from: u16,
    trees: &mut [Tree],
    room: &mut ReorderBuffers,
    front: &mut Front,
)
    requires lengths { AreLengths graph.now.cells lengths.now }
    requires front { IsFront graph.now.nodes front.old }
    requires from { from < graph.now.nodes }
    ensures front { IsFront graph.now.nodes front.new }
    ensures tree { IsTree graph.now.cells lengths.now from front.new.dist.items front.new.steps.items }
    ensures done { (u : ℕ) → u < length front.new.dist.items → slice_index front.new.dist.items u < MAX_LENGTH
        → IsDone graph.now.cells lengths.now front.new.dist.items u }
{
    if (from as usize) < trees.len() {
        search_along(graph, lengths, from, &mut trees[from as usize], room, front);
    } else {
        search(graph, lengths, from, front);
    }
}

impl Scratch {
    ghost use Rattle.std.specs.Prelude.{◌≡◌, ℕ, ◌<◌, ◌≤◌, None, length, IfOk, IfSome, MatchOption};
    ghost use Rattle.std.specs.Option.{option_map};
    ghost use Rattle.std.specs.Borrow.{sem};
    ghost use Rattle.dijkstra_paths.specs.Lending.{Keeps};
    ghost use Rattle.dijkstra_paths.specs.Searched.{dist_at, path_at, IsNear, IsPath};
    ghost use Rattle.flow_model.specs.Least.{IsLeast};
    ghost use Rattle.flow_model.specs.Lengths.{AreLengths};

    /// Room for searches over `nodes` nodes. Before the first search no node has a distance or a path.
    pub fn new(alloc: Global, nodes: u16, cells: u16) -> Result<Self, AllocError>
        ensures nodes { IfOk result (λ s. s.nodes ≡ nodes) }
        ensures cells { IfOk result (λ s. s.cells ≡ cells) }
        ensures blank { IfOk result (λ s. (v : ℕ) → (dist_at s v ≡ None) × (path_at s v ≡ None)) }
    {
        let n = nodes as usize;
        Ok(Scratch {
            nodes,
            cells,
            from: 0,
            front: new_front(alloc, nodes)?,
            path: vec![in alloc; 0; n]?,
            trees: Vec::new(alloc),
            room: ReorderBuffers::new(alloc, nodes)?,
        })
    }

    /// Room for searches that keep a tree for each node as a source, from search to search: nodes times nodes
    /// entries of 6 bytes. Trees change no distance; they make searches quick where few lengths have changed.
    pub fn with_trees(alloc: Global, nodes: u16, cells: u16) -> Result<Self, AllocError>
        ensures nodes { IfOk result (λ s. s.nodes ≡ nodes) }
        ensures cells { IfOk result (λ s. s.cells ≡ cells) }
        ensures blank { IfOk result (λ s. (v : ℕ) → (dist_at s v ≡ None) × (path_at s v ≡ None)) }
    {
        let mut scratch = Scratch::new(alloc, nodes, cells)?;
        scratch.trees = blank_trees(alloc, nodes)?;
        Ok(scratch)
    }

    /// Finds the least distances from a node.
    pub fn search(&mut self, graph: &Graph, lengths: &[u64], from: u16)
        requires lengths { AreLengths graph.now.cells lengths.now }
        requires nodes { self.old.nodes ≡ graph.now.nodes }
        requires from { from < self.old.nodes }
        ensures nodes { self.new.nodes ≡ self.old.nodes }
        ensures cells { self.new.cells ≡ self.old.cells }
        ensures least { (v : ℕ) → v < self.new.nodes
            → IsLeast graph.now.cells lengths.now from v (dist_at self.new v) }
        ensures paths { (v : ℕ) → v < self.new.nodes
            → IsPath graph.now.cells lengths.now self.new.nodes from v (dist_at self.new v) (path_at self.new v) }
        ensures near { IsNear graph.now.cells lengths.now self.new }
    {
        let _nodes = graph.nodes();
        self.from = from;
        search_among(
            graph,
            lengths,
            from,
            &mut self.trees,
            &mut self.room,
            &mut self.front,
        );
    }

    /// A search from the node, which the tree of an earlier search from it makes quick. Any tree will do: one of another node,
    /// another graph or another number of nodes costs time alone. If it has as many nodes, it becomes the tree of this search.
    pub fn search_from(&mut self, graph: &Graph, lengths: &[u64], from: u16, tree: &mut Tree)
        requires lengths { AreLengths graph.now.cells lengths.now }
        requires nodes { self.old.nodes ≡ graph.now.nodes }
        requires from { from < self.old.nodes }
        ensures nodes { self.new.nodes ≡ self.old.nodes }
        ensures cells { self.new.cells ≡ self.old.cells }
        ensures least { (v : ℕ) → v < self.new.nodes
            → IsLeast graph.now.cells lengths.now from v (dist_at self.new v) }
        ensures paths { (v : ℕ) → v < self.new.nodes
            → IsPath graph.now.cells lengths.now self.new.nodes from v (dist_at self.new v) (path_at self.new v) }
        ensures near { IsNear graph.now.cells lengths.now self.new }
    {
        let _nodes = graph.nodes();
        self.from = from;
        search_along(graph, lengths, from, tree, &mut self.room, &mut self.front);
    }

    /// A search from the node, which begins at a tree, if one is given, and leaves the tree as it is. As in `search_from` the tree is a
    /// hint alone.
    pub fn search_near(&mut self, graph: &Graph, lengths: &[u64], from: u16, tree: Option<&Tree>)
        requires lengths { AreLengths graph.now.cells lengths.now }
        requires nodes { self.old.nodes ≡ graph.now.nodes }
        requires from { from < self.old.nodes }
        ensures nodes { self.new.nodes ≡ self.old.nodes }
        ensures cells { self.new.cells ≡ self.old.cells }
        ensures least { (v : ℕ) → v < self.new.nodes
            → IsLeast graph.now.cells lengths.now from v (dist_at self.new v) }
        ensures paths { (v : ℕ) → v < self.new.nodes
            → IsPath graph.now.cells lengths.now self.new.nodes from v (dist_at self.new v) (path_at self.new v) }
        ensures near { IsNear graph.now.cells lengths.now self.new }
    {
        let _nodes = graph.nodes();
        self.from = from;
        search_by(graph, lengths, from, tree, &mut self.front);
    }

    /// The least distance of the node, if it was reached.
    pub fn dist(&self, node: u16) -> Option<u64>
        requires { node < self.now.nodes }
        ensures value { result ≡ dist_at self.now node }
        ensures limit { IfSome result (λ d. d < MAX_LENGTH) }
    {
        let dist = self.front.dist.as_slice()[node as usize];
        if dist < MAX_LENGTH { Some(dist) } else { None }
    }

    /// The cells of a least walk to the node, if it was reached.
    pub fn path_to(&mut self, to: u16) -> Option<&[u16]>
        requires { to < self.old.nodes }
        ensures* keeps { sem 𝓛 (Keeps self.entry) }
        ensures value { option_map (λ path. path.now) result ≡ path_at self.old to }
    {
        if self.front.dist.as_slice()[to as usize] >= MAX_LENGTH {
            return None;
        }
        let start = trace(self.front.steps.as_slice(), self.from, to, &mut self.path);
        Some(rest(&self.path, start))
    }

    /// Writes the cells of a least walk to the node into the last places of the list, which has at least as many places as there are
    /// nodes, and answers where they begin; or `None`, if the node was not reached. What stands before them stays.
    #[inline(always)]
    pub fn put_path(&self, to: u16, list: &mut [u16]) -> Option<usize>
        requires node { to < self.now.nodes }
        requires room { self.now.nodes ≤ length list.old }
        ensures path { option_map (λ start. drop start list.new) result ≡ path_at self.now to }
        ensures within { IfSome result (λ start. start ≤ length list.new) }
        ensures kept { MatchOption result (list.new ≡ list.old)
            (λ start. take start list.new ≡ take start list.old) }
    {
        if self.front.dist.as_slice()[to as usize] >= MAX_LENGTH {
            return None;
        }
        let steps = self.front.steps.as_slice();
        Some(trace(steps, self.from, to, list))
    }
}

// What stands from a place on.
fn rest(path: &[u16], start: usize) -> &[u16]
    requires { start ≤ length path.now }
    ensures { result.now ≡ drop start path.now }
{
    &path[start..]
}

// Writes the cells of the steps to a node into the last places of the list, and answers where they begin.
#[inline(always)]
fn trace(steps: &[Step], from: u16, to: u16, list: &mut [u16]) -> usize
    requires room { length steps.now ≤ length list.old }
    requires to { to < length steps.now }
    requires ends { Ends steps.now (length steps.now) from (length steps.now) to }
    ensures within { result ≤ length list.new }
    ensures value { drop result list.new ≡ trail steps.now from (length steps.now) to }
    ensures kept { take result list.new ≡ take result list.old }
{
    let mut start = list.len();
    let mut at = to;
    while at != from {
        let step = steps[at as usize];
        start -= 1;
        list[start] = step.cell;
        at = step.from;
    }
    start
}
