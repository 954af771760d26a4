//! What one thread claims: one number after the other, until all are claimed.

ghost use Rattle.std.specs.Prelude.{ℕ, ◌<◌, length, slice_index_or};
ghost use Rattle.claimed_calls.specs.Answers.{AreClaimed, IsKept};

use std::alloc::{AllocError, Global};
use std::sync::atomic::{AtomicUsize, Ordering};

/// A number, and what a call with it answered.
pub type Entry<T> = (usize, T);

// Keeps the answer, where there is one, with its number. Without memory for it, it is left out.
fn keep<T: Drop>(entries: &mut Vec<Entry<T>>, number: usize, answer: Result<T, AllocError>)
    ensures { IsKept number answer entries.old.items entries.new.items }
{
    if let Ok(x) = answer {
        let _kept = entries.push((number, x));
    }
}

// Claims the next number and calls `work` with it, until all numbers below the count are claimed: those that got an answer,
// each with its answer. Nothing rests on what the counter gives: a number that it gives twice is called twice.
fn claim<T: Drop, F: Fn(usize) -> Result<T, AllocError>>(
    alloc: Global,
    next: &AtomicUsize,
    count: usize,
    work: &F,
) -> Vec<Entry<T>>
    requires { (i : ℕ) → i < count → F.pre work.now i }
    ensures { AreClaimed F.Fn work.now result.items }
{
    let mut entries = Vec::new(alloc);
    'claims: for _ in 0..count {
        let number = next.fetch_add(1, Ordering::SeqCst);
        if number >= count {
            return entries;
        }
        keep(&mut entries, number, work(number));
    }
    entries
}

/// Claims numbers for each of the lists, one list after the other.
pub fn claim_lists<T: Drop, F: Fn(usize) -> Result<T, AllocError>>(
    alloc: Global,
    next: &AtomicUsize,
    count: usize,
    work: &F,
    lists: &mut [Vec<Entry<T>>],
)
    requires { (i : ℕ) → i < count → F.pre work.now i }
    ensures { (k : ℕ) (d : _) → k < length lists.old
        → AreClaimed F.Fn work.now (slice_index_or lists.new k d).items }
{
    for entries in lists.iter_mut() {
        *entries = claim(alloc, next, count, work);
    }
}
