//! The place of one worker.

use crate::{Room, Routes, Worked};
use dijkstra_paths::Scratch;

/// What a worker works with, and what it has done. Its pass stands in the turn while a phase lasts. The scratch, the room and the memory
/// of the routes are kept from phase to phase; before the first there is no room.
#[derive(Drop)]
pub struct Hand {
    /// The number of the worker, from 0 on.
    pub worker: u16,
    /// Room for searches.
    pub scratch: Scratch,
    /// The loads that it read last, and the lengths under them.
    pub room: Option<Room>,
    /// The paths that it has routed.
    pub routes: Routes,
    /// While a phase lasts, its pass and whether it ran out of memory; else none.
    pub turn: Option<Worked>,
}
