//! Where the layers of a certificate stand.

ghost use Rattle.std.specs.Prelude.{◌≡◌, ℕ, ◌+◌, ◌*◌, ◌<◌, ◌≤◌, ◌↔◌, ◌==◌, ◌&&◌, nat_lt, All, Some, length, find, count_by, IsTrue, IfOk, slice_index, if◌then◌else◌};
ghost use Rattle.mcf_limits.specs.declared.TheConstants.{MAX_HOPS as MOST};
ghost use Rattle.hop_check.specs.LayerRows.{layer_at};
ghost use Rattle.hop_check.specs.Tables.{place_of};

use crate::layers::Layers;
use mcf_limits::MAX_HOPS;
use std::alloc::{AllocError, Global};

// How many layers a node can have.
const INDICES: usize = MAX_HOPS as usize + 1;

/// The place of the layer of that source and index, in a table with 65 places for each node. The index is at most 64.
pub fn place(node: u16, index: u8) -> usize
    ensures { result ≡ place_of node index }
{
    node as usize * INDICES + index as usize
}

/// How many rows the layer of each source and index has. Each row's node is below `nodes`, and its index at most 64.
pub fn layer_rows(alloc: Global, nodes: u16, layers: &Layers) -> Result<Vec<u64>, AllocError>
    requires { All (λ r. (r.node < nodes) × (r.index ≤ MOST)) layers.now }
    ensures len { IfOk result (λ v. length v.items ≡ nodes * (MOST + 1)) }
    ensures value { IfOk result (λ v. (s i : ℕ) → s < nodes → i ≤ MOST
        → slice_index v.items (place_of s i) ≡ count_by (λ r. (r.node == s) && (r.index == i)) layers.now) }
{
    let mut counts = vec![in alloc; 0u64; nodes as usize * INDICES]?;
    for i in 0..layers.rows() {
        counts[place(layers.node(i), layers.index(i))] += 1;
    }
    Ok(counts)
}

// Whether there is one row where the index is below that of the layers asked for, else none.
fn is_asked(count: u64, index: usize, most: u8) -> bool
    ensures { IsTrue result ↔ (count ≡ (if nat_lt index most then 1 else 0)) }
{
    if index < most as usize {
        count == 1
    } else {
        count == 0
    }
}

/// Whether each layer has one row where its index is below the number of layers that its source is asked for, else none.
/// There are 65 counts of rows for each node.
pub fn are_asked(counts: &[u64], asked: &[u8]) -> bool
    requires { length counts.now ≡ length asked.now * (MOST + 1) }
    ensures { IsTrue result ↔ ((s i : ℕ) → s < length asked.now → i ≤ MOST
        → slice_index counts.now (place_of s i) ≡ (if nat_lt i (slice_index asked.now s) then 1 else 0)) }
{
    for (place, count) in counts.iter().enumerate() {
        if !is_asked(*count, place % INDICES, asked[place / INDICES]) {
            return false;
        }
    }
    true
}

/// The number of the row of each layer that has one, where none has two. Each row's node is below `nodes`, and its index
/// at most 64.
pub fn layer_places(alloc: Global, nodes: u16, layers: &Layers) -> Result<Vec<usize>, AllocError>
    requires named { All (λ r. (r.node < nodes) × (r.index ≤ MOST)) layers.now }
    requires once { (s i : ℕ) → s < nodes → i ≤ MOST
        → count_by (λ r. (r.node == s) && (r.index == i)) layers.now ≤ 1 }
    ensures len { IfOk result (λ v. length v.items ≡ nodes * (MOST + 1)) }
    ensures value { IfOk result (λ places. (s i : ℕ) → s < nodes → i ≤ MOST
        → count_by (λ r. (r.node == s) && (r.index == i)) layers.now ≡ 1
        → (slice_index places.items (place_of s i) < length layers.now)
        × (find (λ r. (r.node == s) && (r.index == i)) layers.now
        ≡ Some (layer_at layers.now (slice_index places.items (place_of s i))))) }
{
    let mut places = vec![in alloc; 0usize; nodes as usize * INDICES]?;
    for i in 0..layers.rows() {
        places[place(layers.node(i), layers.index(i))] = i;
    }
    Ok(places)
}
