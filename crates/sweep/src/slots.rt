//! A slot for each link, filled by threads.

ghost use Rattle.std.specs.Prelude.{◌≡◌, ℕ, ◌+◌, ◌<◌, ◌≤◌, None, Some, IfOk, length, map, slice_index_or};
ghost use Rattle.unit_scale.specs.Names.{cells_of};
ghost use Rattle.whatif.specs.Planned.{evaluation_of};
ghost use Rattle.sweep.specs.Sweep.{sweep_evaluation};
ghost use Rattle.sweep.specs.Slots.{IsBlank, IsSwept};

use mcf_base::thread_count;
use mcf_limits::{MAX_LINKS, MAX_WORKERS};
use std::alloc::{AllocError, Global};
use std::thread::Threads;
use unit_scale::{LinkMode, cells_of};
use whatif::{Bounds, Plan};

// A thread is started for no fewer links than these: it takes a copy of the plan first, which costs as much as they do.
const LINKS_OF_A_START: usize = 256;

// What is shown with the link closed. The plan is left as it was.
fn shown_without(plan: &mut Plan, mode: LinkMode, link: u16) -> Bounds
    requires link { link < MAX_LINKS }
    requires cells { cells_of mode (link + 1) ≤ length plan.old.caps }
    ensures value { evaluation_of result
        ≡ sweep_evaluation mode plan.old.net plan.old.proof plan.old.caps link }
    ensures same { plan.new ≡ plan.old }
{
    let first = cells_of(mode, link);
    let last = cells_of(mode, link + 1) - 1;
    let first_cap = plan.cap(first);
    let last_cap = plan.cap(last);
    plan.set_link(mode, link, 0);
    let bounds = plan.shown();
    plan.set(first, first_cap);
    plan.set(last, last_cap);
    bounds
}

// Fills the slots of links, of which the first has the number `first`. Without memory for a copy of the plan they stay blank.
fn fill_slots(
    alloc: Global,
    plan: &Plan,
    mode: LinkMode,
    first: usize,
    slots: &mut [Option<Bounds>],
)
    requires { (i : ℕ) → i < length slots.old
        → IsBlank mode plan.now (first + i) (slice_index_or slots.old i None) }
    ensures { (i : ℕ) → i < length slots.old
        → IsSwept mode plan.now (first + i) (slice_index_or slots.new i None) }
{
    let mut own = match plan.copy(alloc) {
        Ok(own) => own,
        Err(_) => return,
    };
    for (i, slot) in slots.iter_mut().enumerate() {
        let link = first + i;
        *slot = Some(shown_without(&mut own, mode, link as u16));
    }
}

/// Fills the slot of each link, in several threads where that pays. Slots for which no memory was left stay blank.
pub fn fill_all<R: Threads + Sync>(
    rt: &R,
    alloc: Global,
    plan: &Plan,
    mode: LinkMode,
    slots: &mut [Option<Bounds>],
)
    requires { (i : ℕ) → i < length slots.old
        → IsBlank mode plan.now i (slice_index_or slots.old i None) }
    ensures { (i : ℕ) → i < length slots.old
        → IsSwept mode plan.now i (slice_index_or slots.new i None) }
{
    let share = slots.len().div_ceil(thread_count(rt, MAX_WORKERS));
    mcf_base::for_each_chunk_mut(
        rt,
        slots,
        share.max(LINKS_OF_A_START),
        &|first: usize, part: &mut [Option<Bounds>]|
            requires { (i : ℕ) → i < length part.now
                → IsBlank mode plan.now (first + i) (slice_index_or part.now i None) }
            ensures { (i : ℕ) → i < length part.entry.now
                → IsSwept mode plan.entry.now (first + i) (slice_index_or part.exit.now i None) }
        { fill_slots(alloc, plan, mode, first, part) },
    );
}

/// What stands in the slots, or `Err` where one is blank or memory is lacking.
pub fn gathered(alloc: Global, slots: &[Option<Bounds>]) -> Result<Vec<Bounds>, AllocError>
    ensures { IfOk result (λ v. map Some v.items ≡ slots.now) }
{
    let mut list = Vec::with_capacity(alloc, slots.len())?;
    for slot in slots {
        match slot {
            Some(bounds) => list.push(*bounds)?,
            None => return Err(AllocError),
        }
    }
    Ok(list)
}
