//! What a run has reached after some phases.

use crate::loaded::Loaded;
use crate::part_proof::PartDual;
use dijkstra_paths::Scratch;
use flow_paths::Fill;
use gap_fraction::Frac;

/// What searches work in, with room for the length of each cell and of each gate.
#[derive(Drop)]
pub struct Room {
    /// Room for searches.
    pub scratch: Scratch,
    /// The length of each cell.
    pub cells: Vec<u64>,
    /// The length of each gate.
    pub gates: Vec<u64>,
}

/// A bound, and what it says of the total.
#[derive(Drop)]
pub struct Kept {
    /// The threshold, the lengths and the potentials.
    pub bound: PartDual,
    /// The total that no routing exceeds.
    pub value: Frac,
}

/// After one phase or more: what was routed, the fullest cell or gate of the first phase and that of all, the least bound,
/// and the least price under the loads.
#[derive(Drop)]
pub struct Reached {
    /// What was routed.
    pub loaded: Loaded,
    /// Room for lengths.
    pub room: Room,
    /// How many phases there were.
    pub phases: u32,
    /// The fullest cell or gate behind the first phase.
    pub reference: Fill,
    /// The fullest cell or gate now.
    pub fill: Fill,
    /// The least bound so far.
    pub kept: Kept,
    /// The least price under the loads.
    pub least: u64,
}
