//! The hands of the workers, from phase to phase.

ghost use Rattle.std.specs.Prelude.{◌≡◌, ℕ, ◌<◌, [], None, IfOk, length, slice_index_or};
ghost use Rattle.phase_engine.specs.Hands.{IsFresh, IsSameWorker};

use dijkstra_paths::Scratch;
use flow_model::Net;
use phase_engine::{Hand, Routes};
use std::alloc::{AllocError, Global};

// The hand of a worker, before any phase.
fn new_hand(alloc: Global, net: &Net, worker: u16) -> Result<Hand, AllocError>
    ensures { IfOk result (λ h. IsFresh net.now worker h) }
{
    let cells = net.cells().len() as u16;
    Ok(Hand {
        worker,
        scratch: Scratch::new(alloc, net.nodes(), cells)?,
        room: None,
        routes: Routes::new(alloc),
        turn: None,
    })
}

/// The hands of `workers` workers.
pub(crate) fn new_hands(alloc: Global, net: &Net, workers: u16) -> Result<Vec<Hand>, AllocError>
    ensures count { IfOk result (λ hands. length hands.items ≡ workers) }
    ensures fresh { IfOk result (λ hands. (k : ℕ) (d : _) → k < workers
        → IsFresh net.now k (slice_index_or hands.items k d)) }
{
    let mut hands = Vec::new(alloc);
    for worker in 0..workers {
        hands.push(new_hand(alloc, net, worker)?)?;
    }
    Ok(hands)
}

/// Forgets the routes of the phase before, and keeps their memory and the rooms.
pub(crate) fn forget_all(hands: &mut [Hand])
    ensures { (k : ℕ) (d : _) → k < length hands.old
        → IsSameWorker (slice_index_or hands.old k d) (slice_index_or hands.new k d)
        × ((slice_index_or hands.new k d).turn ≡ (slice_index_or hands.old k d).turn)
        × ((slice_index_or hands.new k d).routes ≡ [])
        × ((slice_index_or hands.new k d).room ≡ (slice_index_or hands.old k d).room) }
{
    for hand in hands.iter_mut() {
        hand.routes.clear();
    }
}

/// Forgets the turns, and with them the routes.
pub(crate) fn forget_turns(hands: &mut [Hand])
    ensures { (k : ℕ) (d : _) → k < length hands.old
        → IsSameWorker (slice_index_or hands.old k d) (slice_index_or hands.new k d)
        × ((slice_index_or hands.new k d).turn ≡ None)
        × ((slice_index_or hands.new k d).routes ≡ [])
        × ((slice_index_or hands.new k d).room ≡ (slice_index_or hands.old k d).room) }
{
    for hand in hands.iter_mut() {
        hand.turn = None;
        hand.routes.clear();
    }
}
