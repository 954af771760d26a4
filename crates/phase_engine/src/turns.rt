//! The turns of the hands: each gets its pass, works, and hands it back.

ghost use Rattle.std.specs.Prelude.{◌≡◌, ℕ, ◌<◌, IsSome, IsTrue, IsFalse, Some, None, length, slice_index_or};
ghost use Rattle.load_table.specs.Seen.{IsPassOf};
ghost use Rattle.load_table.specs.Views.{first_view};
ghost use Rattle.load_table.specs.Rule.{MayClose};
ghost use Rattle.phase_engine.specs.Hands.{IsFresh, IsReady, IsDone, Runs, IsBack, IsSameWorker, EachWork, SomeStopped, NoneStopped, AreOf};

use crate::hand::Hand;
use crate::input::Shared;
use crate::watch::Watch;
use crate::{Worked, work};
use load_table::{Loads, Pass};
use mcf_base::Gate;
use std::alloc::Global;
use std::thread::Threads;

// Takes what stands in the turn.
fn take(hand: &mut Hand) -> Worked
    requires { IsSome hand.old.turn }
    ensures { (hand.old.turn ≡ Some result) × (hand.new ≡ record hand.old { turn = None }) }
{
    match hand.turn.take() {
        Some(turn) => turn,
        None => unreachable!(),
    }
}

/// Puts a pass into each hand: the first, and one split from it for each other hand.
pub fn hand_out(loads: &Loads, first: Pass, hands: &mut [Hand])
    requires of { IsPassOf loads.now first × (first.view ≡ first_view loads.now.terms) }
    requires some_hand { 0 < length hands.old }
    requires workers { loads.now.terms.workers ≡ length hands.old }
    requires fresh { (k : ℕ) (d : _) → k < length hands.old
        → IsFresh loads.now.terms.net k (slice_index_or hands.old k d) }
    ensures ready { (k : ℕ) (d : _) → k < length hands.old
        → ((slice_index_or hands.new k d).worker ≡ k) × IsReady loads.now (slice_index_or hands.new k d) }
    ensures same { (k : ℕ) (d : _) → k < length hands.old
        → IsSameWorker (slice_index_or hands.old k d) (slice_index_or hands.new k d) }
{
    let mut first = first;
    for i in 1..hands.len() {
        let pass = loads.split(&mut first);
        let hand = &mut hands[i];
        hand.turn = Some(Worked {
            pass,
            memory: false,
        });
    }
    let hand = &mut hands[0];
    hand.turn = Some(Worked {
        pass: first,
        memory: false,
    });
}

/// The work of one hand, in any thread.
pub fn take_turn<G: Watch>(alloc: Global, shared: &Shared<'_, G>, hand: &mut Hand)
    requires of { AreOf shared.now.input.now shared.now.loads.now }
    requires ready { IsReady shared.now.loads.now hand.old }
    ensures { Runs shared.now.loads.now hand.old hand.new }
{
    let Worked { pass, memory: _ } = take(hand);
    let worked = work(
        alloc,
        shared,
        hand.worker,
        pass,
        &mut hand.scratch,
        &mut hand.room,
        &mut hand.routes,
    );
    hand.turn = Some(worked);
}

// The work of some hands, one after the other.
fn take_turns<G: Gate>(alloc: Global, shared: &Shared<'_, G>, part: &mut [Hand])
    requires of { AreOf shared.now.input.now shared.now.loads.now }
    requires ready { (k : ℕ) (d : _) → k < length part.old
        → IsReady shared.now.loads.now (slice_index_or part.old k d) }
    ensures { (k : ℕ) (d : _) → k < length part.old
        → Runs shared.now.loads.now (slice_index_or part.old k d) (slice_index_or part.new k d) }
{
    for hand in part.iter_mut() {
        take_turn(alloc, shared, hand);
    }
}

/// The work of all hands: the last one's in the caller's thread, and each other's in a thread of its own. Where there is
/// one hand, no thread is started.
pub(crate) fn run_all<G: Gate, R: Threads + Sync>(
    rt: &R,
    alloc: Global,
    shared: &Shared<'_, G>,
    hands: &mut [Hand],
)
    requires of { AreOf shared.now.input.now shared.now.loads.now }
    requires ready { (k : ℕ) (d : _) → k < length hands.old
        → IsReady shared.now.loads.now (slice_index_or hands.old k d) }
    ensures { (k : ℕ) (d : _) → k < length hands.old
        → Runs shared.now.loads.now (slice_index_or hands.old k d) (slice_index_or hands.new k d) }
{
    let input = shared.input;
    let loads = shared.loads;
    let gate = shared.gate;
    mcf_base::for_each_chunk_mut(
        rt,
        hands,
        1,
        &|_: usize, part: &mut [Hand]|
            requires of { AreOf input.now loads.now }
            requires ready { (k : ℕ) (d : _) → k < length part.now
                → IsReady loads.now (slice_index_or part.now k d) }
            ensures { (k : ℕ) (d : _) → k < length part.entry.now
                → Runs loads.entry.now (slice_index_or part.entry.now k d)
                (slice_index_or part.exit.now k d) }
        { take_turns(alloc, &Shared { input, loads, gate }, part) },
    );
}

/// Takes the passes out of the hands and joins them, and says whether some worker went on to the end.
pub(crate) fn gather(loads: &Loads, hands: &mut [Hand]) -> (Pass, bool)
    requires some_hand { 0 < length hands.old }
    requires workers { loads.now.terms.workers ≡ length hands.old }
    requires done { (k : ℕ) (d : _) → k < length hands.old
        → ((slice_index_or hands.old k d).worker ≡ k) × IsDone loads.now (slice_index_or hands.old k d) }
    ensures pass { IsPassOf loads.now result.0 × MayClose loads.now.terms result.0.view }
    ensures works { EachWork loads.now.terms hands.new result.0.view.hands }
    ensures stopped { IsTrue result.1 → SomeStopped result.0.view.hands }
    ensures none { IsFalse result.1 → NoneStopped result.0.view.hands }
    ensures back { (k : ℕ) (d : _) → k < length hands.old
        → IsBack (slice_index_or hands.old k d) (slice_index_or hands.new k d) }
{
    let Worked { pass, memory } = take(&mut hands[0]);
    let mut all = pass;
    let mut whole = !memory;
    for i in 1..hands.len() {
        let Worked { pass, memory } = take(&mut hands[i]);
        loads.join(&mut all, pass);
        whole = whole || !memory;
    }
    (all, whole)
}
