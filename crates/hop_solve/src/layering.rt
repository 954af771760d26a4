//! The layers that are asked for, by searches.

ghost use Rattle.std.specs.Prelude.{◌≡◌, ℕ, ◌+◌, ◌<◌, ◌≤◌, ◌++◌, [], All, IfOk, OnOk, List, length, map, slice_index};
ghost use Rattle.mcf_limits.specs.declared.TheConstants.{MAX_LENGTH as MOST, MAX_NODES};
ghost use Rattle.flow_model.specs.Lengths.{AreLengths};
ghost use Rattle.hop_paths.specs.Searched.{layer_dist};
ghost use Rattle.hop_paths.specs.Allowed.{IsShortWalk, IsLeastOf};
ghost use Rattle.hop_check.specs.LayerRows.{Layer};
ghost use Rattle.hop_solve.specs.Run.{layers_asked, IsLayerWith};
ghost use Rattle.hop_solve.specs.Turns.{IsFinder};
ghost use Rattle.hop_solve.specs.declared.layering.Numbers.TheVariants.{Marks};
ghost use Rattle.hop_solve.specs.Numbers.{number_of, IsNumber, IsSearchedNumber, AddsLayers, first_layers, asked_of};

use crate::finder::Finder;
use crate::given::Given;
use hop_check::Layers;
use hop_paths::HopScratch;
use std::alloc::{AllocError, Global};

/// What layers have for each node: its distance, or a mark of whether it has one.
#[derive(Clone, Copy, Debug, PartialEq, Eq)]
pub enum Numbers {
    /// The distance in the layer.
    Lengths,
    /// 0 where the node has a distance in the layer, else 1.
    Marks,
}

// Puts a mark for each node in its place: 0 where it has a distance in that layer, else 1.
fn put_marks(layered: &HopScratch, index: u8, values: &mut [u64])
    requires index { index < layered.now.made }
    requires nodes { length values.old ≡ layered.now.nodes }
    requires few { layered.now.nodes ≤ MAX_NODES }
    ensures len { length values.new ≡ length values.old }
    ensures each { (v : ℕ) → v < layered.now.nodes
        → slice_index values.new v ≡ number_of Marks (layer_dist layered.now index v) }
    ensures limit { All (λ n. n ≤ MOST) values.new }
{
    for v in 0..values.len() {
        values[v] = u64::from(layered.dist(index, v as u16).is_none());
    }
}

// Puts each node's number in that layer in its place.
fn put_numbers(layered: &HopScratch, index: u8, kind: Numbers, values: &mut [u64])
    requires index { index < layered.now.made }
    requires nodes { length values.old ≡ layered.now.nodes }
    requires few { layered.now.nodes ≤ MAX_NODES }
    ensures len { length values.new ≡ length values.old }
    ensures each { (v : ℕ) → v < layered.now.nodes
        → slice_index values.new v ≡ number_of kind (layer_dist layered.now index v) }
    ensures limit { All (λ n. n ≤ MOST) values.new }
{
    match kind {
        Numbers::Lengths => layered.put_layer(index, values),
        Numbers::Marks => put_marks(layered, index, values),
    }
}

// Appends the first `count` layers of the node, from layer 0 on, as the search has them.
fn push_layers(
    alloc: Global,
    finder: &mut Finder,
    node: u16,
    count: u8,
    kind: Numbers,
    layers: &mut Layers,
) -> Result<(), AllocError>
    requires nodes { length finder.old.values.items ≡ finder.old.layered.nodes }
    requires few { finder.old.layered.nodes ≤ MAX_NODES }
    requires count { count ≤ finder.old.layered.made }
    ensures values { length finder.new.values.items ≡ length finder.old.values.items }
    ensures plain { finder.new.plain ≡ finder.old.plain }
    ensures layered { finder.new.layered ≡ finder.old.layered }
    ensures layers { OnOk result (AddsLayers finder.old.layered.nodes
        (IsSearchedNumber kind finder.old.layered) (first_layers node count) layers.old layers.new) }
{
    for index in 0..count {
        put_numbers(&finder.layered, index, kind, &mut finder.values);
        layers.push(alloc, node, index, &finder.values)?;
    }
    Ok(())
}

// Appends the layers that the node is asked for.
fn node_layers(
    alloc: Global,
    on: &Given<'_>,
    lengths: &[u64],
    finder: &mut Finder,
    node: u16,
    kind: Numbers,
    layers: &mut Layers,
) -> Result<(), AllocError>
    requires node { node < on.now.net.now.nodes }
    requires lengths { AreLengths on.now.net.now.cells lengths.now }
    requires finder { IsFinder on.now.net.now on.now.counts.now finder.old }
    ensures finder { IsFinder on.now.net.now on.now.counts.now finder.new }
    ensures layers { OnOk result (AddsLayers on.now.net.now.nodes
        (IsNumber kind on.now.net.now.cells lengths.now)
        (asked_of on.now.net.now on.now.limits.now node) layers.old layers.new) }
{
    let _nodes = on.net.nodes();
    let count = on.counts[node as usize];
    if count == 0 {
        return Ok(());
    }
    finder.layered.search(on.graph, lengths, node, count - 1);
    push_layers(alloc, finder, node, count, kind, layers)?;
    Ok(())
}

/// All layers that are asked for, node after node and in order of the index.
pub fn all_layers(
    alloc: Global,
    on: &Given<'_>,
    lengths: &[u64],
    finder: &mut Finder,
    kind: Numbers,
) -> Result<Layers, AllocError>
    requires lengths { AreLengths on.now.net.now.cells lengths.now }
    requires finder { IsFinder on.now.net.now on.now.counts.now finder.old }
    ensures finder { IsFinder on.now.net.now on.now.counts.now finder.new }
    ensures places { IfOk result (λ rows. map (λ (r : Layer). (r.node, r.index)) rows
        ≡ layers_asked on.now.net.now on.now.limits.now) }
    ensures layers { IfOk result (λ rows. All (IsLayerWith on.now.net.now.nodes
        (IsNumber kind on.now.net.now.cells lengths.now)) rows) }
{
    let mut layers = Layers::new(alloc);
    for node in 0..on.net.nodes() {
        node_layers(alloc, on, lengths, finder, node, kind, &mut layers)?;
    }
    Ok(layers)
}
