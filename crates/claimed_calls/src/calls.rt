//! Calls of one function at each number, shared out among threads one call at a time.

ghost use Rattle.std.specs.Prelude.{◌≡◌, ℕ, ◌<◌, IfOk, length, slice_index_or, None};
ghost use Rattle.std.specs.Thread.{IsSync};
ghost use denote.Param.Send.{IsSend};
ghost use Rattle.claimed_calls.specs.Answers.{AreAnswers, AreClaimed, IsSlot};

use crate::claims::{Entry, claim_lists};
use crate::slots::{blank_slots, completed, put};
use mcf_limits::MAX_WORKERS;
use std::alloc::{AllocError, Global};
use std::sync::atomic::AtomicUsize;
use std::thread::Threads;

// `count` empty lists.
fn empty_lists<T: Drop>(alloc: Global, count: usize) -> Result<Vec<Vec<Entry<T>>>, AllocError> {
    let mut lists = Vec::with_capacity(alloc, count)?;
    'lists: for _ in 0..count {
        lists.push(Vec::new(alloc))?;
    }
    Ok(lists)
}

// Fills the lists with numbers below the count and their answers, each list in a thread of its own where one can be made.
fn fill_lists<R: Threads + Sync, T: Send + Drop, F: Fn(usize) -> Result<T, AllocError> + Sync>(
    rt: &R,
    alloc: Global,
    count: usize,
    work: &F,
    lists: &mut [Vec<Entry<T>>],
)
    requires { (i : ℕ) → i < count → F.pre work.now i }
    ensures { (k : ℕ) (d : _) → k < length lists.old
        → AreClaimed F.Fn work.now (slice_index_or lists.new k d).items }
{
    let counter = AtomicUsize::new(0);
    let next = &counter;
    mcf_base::for_each_chunk_mut(
        rt,
        lists,
        1,
        &|_first: usize, part: &mut [Vec<Entry<T>>]|
            requires { IsSync F.row × IsSend T.row × ((i : ℕ) → i < count → F.pre work.now i) }
            ensures { (k : ℕ) (d : _) → k < length part.entry.now
                → AreClaimed F.Fn work.entry.now (slice_index_or part.exit.now k d).items }
        { claim_lists(alloc, next, count, work, part) },
    );
}

// Puts what stands in the lists into the slots.
fn put_all<T: Drop, F: Fn(usize) -> Result<T, AllocError>>(
    _work: &F,
    slots: &mut [Option<T>],
    lists: Vec<Vec<Entry<T>>>,
)
    requires lists { (k : ℕ) (d : _) → k < length lists.items
        → AreClaimed F.Fn _work.now (slice_index_or lists.items k d).items }
    requires slots { (i : ℕ) → i < length slots.old
        → IsSlot F.Fn _work.now i (slice_index_or slots.old i None) }
    ensures { (i : ℕ) → i < length slots.old
        → IsSlot F.Fn _work.now i (slice_index_or slots.new i None) }
{
    for entries in lists {
        put(slots, entries);
    }
}

/// For each number below `count`, in order, what a call of `work` with it answers. As many threads as there are processors, but
/// at least two and at most `MAX_WORKERS`, the caller's among them, each claim the next number and call `work` with it, until
/// all are claimed; at most as many calls as threads are under way at once. It waits for these threads. Where memory ran out in a
/// call or for a list, the caller's thread makes that call once more, after the others. `Err`: memory ran out there too.
pub fn call_each<R: Threads + Sync, T: Send + Drop, F: Fn(usize) -> Result<T, AllocError> + Sync>(
    rt: &R,
    alloc: Global,
    count: usize,
    work: &F,
) -> Result<Vec<T>, AllocError>
    requires { (i : ℕ) → i < count → F.pre work.now i }
    ensures count { IfOk result (λ v. length v.items ≡ count) }
    ensures each { IfOk result (λ v. AreAnswers F.Fn work.now count v.items) }
{
    let threads = mcf_base::thread_count(rt, MAX_WORKERS).max(2);
    let mut lists = empty_lists(alloc, threads.min(count))?;
    fill_lists(rt, alloc, count, work, &mut lists);
    let mut slots = blank_slots(alloc, count)?;
    put_all(work, &mut slots, lists);
    completed(alloc, work, slots)
}
