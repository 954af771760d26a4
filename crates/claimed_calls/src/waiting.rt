//! How a thread waits for another without a lock.

use std::hint::spin_loop;
use std::thread::yield_now;

// Up to this many polls a thread polls again at once: some ten microseconds. Then it yields in between, since the thread that it waits
// for may need the same processor.
const SPINS: u64 = 200;

/// Polls before an idle thread gives up. On a processor of its own they last some twenty milliseconds.
pub(crate) const SOON: u64 = 40_000;

// Pauses between polls of a thread that has waited for longer: about a millisecond of processor time.
const PAUSES: u32 = 20_000;

/// Lets some time pass before a thread polls again.
pub(crate) fn back_off(looks: u64) {
    if looks < SPINS {
        spin_loop();
        return;
    }
    yield_now();
    if looks >= SOON {
        pause();
    }
}

// Lets about a millisecond pass.
fn pause() {
    for _ in 0..PAUSES {
        spin_loop();
    }
}
