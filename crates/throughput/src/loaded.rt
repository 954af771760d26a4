//! What a run has routed so far.

ghost use Rattle.std.specs.Prelude.{◌≡◌, [], IfOk, length, replicate};
ghost use Rattle.throughput.specs.Loaded.{IsLoaded};

use flow_model::Net;
use route_tally::Tally;
use std::alloc::{AllocError, Global};

/// The loads of cells, those of gates, which are what was routed of each commodity, the total, all in units, and the
/// rows.
#[derive(Drop)]
pub struct Loaded {
    /// The load of each cell, in units.
    pub cells: Vec<u64>,
    /// What was routed of each commodity, in units.
    pub gates: Vec<u64>,
    /// What was routed of all, in units.
    pub total: u64,
    /// The rows of paths with their weights.
    pub tally: Tally,
}

/// `count` zeros.
pub fn zeros(alloc: Global, count: usize) -> Result<Vec<u64>, AllocError>
    ensures { IfOk result (λ v. v.items ≡ replicate count 0) }
{
    let zeros = vec![in alloc; 0; count]?;
    Ok(zeros)
}

/// Nothing yet.
pub fn nothing_loaded(alloc: Global, net: &Net) -> Result<Loaded, AllocError>
    ensures loaded { IfOk result (λ s. IsLoaded net.now [] s) }
    ensures total { IfOk result (λ s. s.total ≡ 0) }
    ensures rows { IfOk result (λ s. length s.tally ≡ 0) }
{
    Ok(Loaded {
        cells: zeros(alloc, net.cells().len())?,
        gates: zeros(alloc, net.commodities().len())?,
        total: 0,
        tally: Tally::new(alloc),
    })
}
