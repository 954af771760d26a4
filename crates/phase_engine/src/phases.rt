//! One phase: the loads are shared, the hands take their turns, and the loads are read back.

ghost use Rattle.std.specs.Prelude.{◌≡◌, ℕ, ◌<◌, [], All, IfErr, OnOk, OnErr, length, slice_index_or};
ghost use Rattle.flow_model.specs.Least.{HasNoCut};
ghost use Rattle.flow_model.specs.Lengths.{IsSetting};
ghost use Rattle.flow_core.specs.Core.{IsStart};
ghost use Rattle.flow_core.specs.Phase.{terms_of};
ghost use Rattle.load_table.specs.Seen.{IsPassOf};
ghost use Rattle.load_table.specs.Views.{first_view};
ghost use Rattle.phase_engine.specs.Hands.{AreSameWorkers, HasRoomOf, IsDone, IsFresh, IsSameWorker, IsUnfinished};
ghost use Rattle.phase_engine.specs.Routing.{IsRoutedPhase};

use crate::hand::Hand;
use crate::input::{PhaseInput, Shared};
use crate::turns::{gather, hand_out, run_all};
use load_table::{Loads, Pass};
use mcf_base::Gate;
use std::alloc::Global;
use std::thread::Threads;

// Forgets all routes.
fn clear_all(hands: &mut [Hand])
    ensures cleared { All (λ h. h.routes ≡ []) hands.new }
    ensures back { (k : ℕ) (d : _) → k < length hands.old
        → IsSameWorker (slice_index_or hands.old k d) (slice_index_or hands.new k d)
        × ((slice_index_or hands.new k d).turn ≡ (slice_index_or hands.old k d).turn)
        × ((slice_index_or hands.new k d).room ≡ (slice_index_or hands.old k d).room) }
{
    for hand in hands.iter_mut() {
        hand.routes.clear();
    }
}

/// The end of a phase of these words: the passes are taken out of the hands, and the load of each cell is put in its place.
/// Where some worker has stopped the phase is whole, although another was refused room. Else `Err`, since memory ran out,
/// is the pass of all workers, none of which has stopped: the loads are as before, and the routes are cleared.
pub fn finish(table: Loads, loads: &mut [u64], hands: &mut [Hand]) -> Result<(), Pass>
    requires start { IsStart table.terms }
    requires workers { table.terms.workers ≡ length hands.old }
    requires room { length loads.old ≡ length table.terms.net.cells }
    requires done { (k : ℕ) (d : _) → k < length hands.old
        → ((slice_index_or hands.old k d).worker ≡ k) × IsDone table (slice_index_or hands.old k d) }
    ensures ok { OnOk result (IsRoutedPhase table.terms.net table.terms.setting table.terms.base loads.new hands.new) }
    ensures unfinished { IfErr result (λ p. IsUnfinished table p) }
    ensures loads { OnErr result (loads.new ≡ loads.old) }
    ensures routes { OnErr result (All (λ h. h.routes ≡ []) hands.new) }
    ensures back { AreSameWorkers hands.old hands.new }
    ensures turns { (k : ℕ) (d : _) → k < length hands.old → (slice_index_or hands.new k d).turn ≡ None }
    ensures rooms { (k : ℕ) (d : _) → k < length hands.old
        → (slice_index_or hands.new k d).room ≡ (slice_index_or hands.old k d).room }
{
    let (pass, whole) = gather(&table, hands);
    if !whole {
        clear_all(hands);
        return Err(pass);
    }
    table.close(pass, loads);
    Ok(())
}

/// One phase over the loads, which grow by the routes of the hands. The words and the pass are new ones of these loads; a hand's room is
/// of this network, or it has none.
/// Where some worker has stopped the phase is whole, although another was refused room. Else `Err`, since memory ran out,
/// is the pass of all workers, none of which has stopped: the loads are as before, and the routes are cleared.
pub fn phase<G: Gate, R: Threads + Sync>(
    rt: &R,
    alloc: Global,
    input: &PhaseInput<'_>,
    words: (Loads, Pass),
    loads: &mut [u64],
    hands: &mut [Hand],
    gate: &G,
) -> Result<(), Pass>
    requires start { IsStart record {
      net = input.now.net.now;
      setting = input.now.setting;
      base = loads.old;
      workers =
          length hands.old;
    } }
    requires terms { words.0.terms
        ≡ terms_of input.now.net.now input.now.setting loads.old (length hands.old) }
    requires pass { IsPassOf words.0 words.1 × (words.1.view ≡ first_view words.0.terms) }
    requires setting { IsSetting input.now.setting }
    requires no_cut { HasNoCut input.now.net.now }
    requires fresh { (k : ℕ) (d : _) → k < length hands.old
        → IsFresh input.now.net.now k (slice_index_or hands.old k d) }
    ensures ok { OnOk result (IsRoutedPhase input.now.net.now input.now.setting loads.old loads.new hands.new) }
    ensures unfinished { IfErr result (λ p. IsUnfinished words.0 p) }
    ensures loads { OnErr result (loads.new ≡ loads.old) }
    ensures routes { OnErr result (All (λ h. h.routes ≡ []) hands.new) }
    ensures back { (k : ℕ) (d : _) → k < length hands.old
        → IsSameWorker (slice_index_or hands.old k d) (slice_index_or hands.new k d) }
    ensures turns { (k : ℕ) (d : _) → k < length hands.old → (slice_index_or hands.new k d).turn ≡ None }
    ensures rooms { (k : ℕ) (d : _) → k < length hands.old
        → HasRoomOf input.now.net.now (slice_index_or hands.new k d) }
{
    let (table, first) = words;
    hand_out(&table, first, hands);
    let shared = Shared {
        input,
        loads: &table,
        gate,
    };
    run_all(rt, alloc, &shared, hands);
    finish(table, loads, hands)
}
