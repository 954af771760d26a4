//! Room for searches.

ghost use Rattle.std.specs.Prelude.{◌≡◌, ℕ, ◌+◌, ◌<◌, ◌≤◌, All, IfOk, length, slice_index};
ghost use Rattle.mcf_limits.specs.declared.TheConstants.{MAX_HOPS};
ghost use Rattle.hop_solve.specs.Turns.{IsFinder};

use crate::given::Given;
use dijkstra_paths::Scratch;
use hop_paths::HopScratch;
use std::alloc::{AllocError, Global};

/// Room for searches without a limit and for those by layers, and for a number for each node.
#[derive(Drop)]
pub struct Finder {
    /// Room for searches without a limit.
    pub plain: Scratch,
    /// Room for searches by layers.
    pub layered: HopScratch,
    /// A number for each node.
    pub values: Vec<u64>,
}

// The greatest index of a layer that some node is asked for, or 0 where none is.
fn last_layer(counts: &[u8]) -> u8
    requires small { (v : ℕ) → v < length counts.now → slice_index counts.now v ≤ MAX_HOPS + 1 }
    ensures most { (v : ℕ) → v < length counts.now → slice_index counts.now v ≤ result + 1 }
    ensures limit { result ≤ MAX_HOPS }
{
    let mut most = 1u8;
    for count in counts {
        most = most.max(*count);
    }
    most - 1
}

/// Room for searches in this network, which is taken once.
pub fn new_finder(alloc: Global, on: &Given<'_>) -> Result<Finder, AllocError>
    ensures { IfOk result (IsFinder on.now.net.now on.now.counts.now) }
{
    let nodes = on.net.nodes();
    let layers = last_layer(on.counts);
    Ok(Finder {
        plain: Scratch::with_trees(alloc, nodes, on.net.cells().len() as u16)?,
        layered: HopScratch::new(alloc, nodes, layers)?,
        values: vec![in alloc; 0; nodes as usize]?,
    })
}
