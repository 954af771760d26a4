//! Whether numbers of nodes are layers.

ghost use Rattle.std.specs.Prelude.{◌≡◌, ℕ, ◌+◌, ◌<◌, ◌≤◌, ◌↔◌, All, Some, length, IsTrue, slice_get, slice_index};
ghost use Rattle.flow_model.specs.declared.net.Cell.{Cell as CellIs};
ghost use Rattle.flow_model.specs.Walk.{Goes};
ghost use Rattle.flow_model.specs.Network.{IsCell};
ghost use Rattle.hop_check.specs.Layers.{layer_in};
ghost use Rattle.hop_check.specs.Tables.{IsPlaced, ArePlaces, IsNextLayer, AreNext};

use crate::layers::Layers;
use crate::places::place;
use flow_model::{Cell, Net};
use mcf_limits::MAX_LENGTH;

// Whether over the cell no number rises from the one layer to the other by more than the length.
fn rises_over(cell: Cell, size: u64, below: &[u64], above: &[u64]) -> bool
    requires tail { cell.tail < length below.now }
    requires head { cell.head < length below.now }
    requires long { length above.now ≡ length below.now }
    requires size { size ≤ MAX_LENGTH }
    requires limit { All (λ p. p ≤ MAX_LENGTH) below.now }
    ensures { IsTrue result ↔ ((u v : ℕ) → Goes cell u v
        → slice_index above.now v ≤ slice_index below.now u + size) }
{
    let (tail, head) = (cell.tail as usize, cell.head as usize);
    above[head] <= below[tail] + size && (!cell.both || above[tail] <= below[head] + size)
}

// Whether over no cell a number rises from the one layer to the other by more than the cell's length.
fn rises(cells: &[Cell], lengths: &[u64], below: &[u64], above: &[u64]) -> bool
    requires ends { All (IsCell (length below.now)) cells.now }
    requires long { length above.now ≡ length below.now }
    requires sizes { length lengths.now ≡ length cells.now }
    requires size_limit { All (λ n. n ≤ MAX_LENGTH) lengths.now }
    requires limit { All (λ p. p ≤ MAX_LENGTH) below.now }
    ensures { IsTrue result ↔ ((c : ℕ) (cell : CellIs) (u v : ℕ) → slice_get cells.now c ≡ Some cell → Goes cell u v
        → slice_index above.now v ≤ slice_index below.now u + slice_index lengths.now c) }
{
    for (c, cell) in cells.iter().enumerate() {
        if !rises_over(*cell, lengths[c], below, above) {
            return false;
        }
    }
    true
}

// Whether at no node the number rises.
fn falls(below: &[u64], above: &[u64]) -> bool
    requires { length above.now ≡ length below.now }
    ensures { IsTrue result ↔ ((v : ℕ) → v < length below.now
        → slice_index above.now v ≤ slice_index below.now v) }
{
    for (v, n) in above.iter().enumerate() {
        if *n > below[v] {
            return false;
        }
    }
    true
}

// Whether the one layer is the next of the other.
fn is_next(net: &Net, lengths: &[u64], below: &[u64], above: &[u64]) -> bool
    requires long_below { length below.now ≡ net.now.nodes }
    requires long_above { length above.now ≡ net.now.nodes }
    requires sizes { length lengths.now ≡ length net.now.cells }
    requires size_limit { All (λ n. n ≤ MAX_LENGTH) lengths.now }
    requires limit { All (λ p. p ≤ MAX_LENGTH) below.now }
    ensures { IsTrue result ↔ IsNextLayer net.now lengths.now below.now above.now }
{
    falls(below, above) && rises(net.cells(), lengths, below, above)
}

/// The numbers of the layer of that source and index, in the order of nodes: at most 2^62 each.
pub fn layer<'a>(net: &Net, layers: &'a Layers, places: &[usize], node: u16, index: u8) -> &'a [u64]
    requires { IsPlaced net.now.nodes layers.now places.now node index }
    ensures value { result.now ≡ layer_in layers.now node index }
    ensures long { length result.now ≡ net.now.nodes }
    ensures limit { All (λ p. p ≤ MAX_LENGTH) result.now }
{
    layers.values(places[place(node, index)])
}

// Whether each of the source's first layers is the next of the one before.
fn node_rises(
    net: &Net,
    lengths: &[u64],
    layers: &Layers,
    places: &[usize],
    node: u16,
    count: u8,
) -> bool
    requires sizes { length lengths.now ≡ length net.now.cells }
    requires size_limit { All (λ n. n ≤ MAX_LENGTH) lengths.now }
    requires placed { (i : ℕ) → i < count → IsPlaced net.now.nodes layers.now places.now node i }
    ensures { IsTrue result ↔ ((i : ℕ) → i + 1 < count → IsNextLayer net.now lengths.now
        (layer_in layers.now node i) (layer_in layers.now node (i + 1))) }
{
    for index in 1..count {
        let below = layer(net, layers, places, node, index - 1);
        if !is_next(net, lengths, below, layer(net, layers, places, node, index)) {
            return false;
        }
    }
    true
}

/// Whether each layer that is asked for is the next of the one before. There are as many counts as nodes.
pub fn are_next(
    net: &Net,
    lengths: &[u64],
    layers: &Layers,
    places: &[usize],
    counts: &[u8],
) -> bool
    requires sizes { length lengths.now ≡ length net.now.cells }
    requires size_limit { All (λ n. n ≤ MAX_LENGTH) lengths.now }
    requires counts { length counts.now ≡ net.now.nodes }
    requires placed { ArePlaces net.now.nodes counts.now layers.now places.now }
    ensures { IsTrue result ↔ AreNext net.now counts.now lengths.now layers.now }
{
    for node in 0..net.nodes() {
        if !node_rises(net, lengths, layers, places, node, counts[node as usize]) {
            return false;
        }
    }
    true
}
