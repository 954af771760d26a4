//! A slot for each number, for what was claimed.

ghost use Rattle.std.specs.Prelude.{◌≡◌, ℕ, ◌<◌, ◌∷◌, [], None, IfOk, length, slice_index_or};
ghost use Rattle.claimed_calls.specs.Answers.{Answers, AreAnswers, IsPut, IsSlot};

use crate::claims::Entry;
use std::alloc::{AllocError, Global};

/// `count` blank slots.
pub fn blank_slots<T: Drop>(alloc: Global, count: usize) -> Result<Vec<Option<T>>, AllocError>
    ensures { IfOk result (λ v. (length v.items ≡ count)
        × ((i : ℕ) → slice_index_or v.items i None ≡ None)) }
{
    let mut slots = Vec::with_capacity(alloc, count)?;
    'slots: for _ in 0..count {
        slots.push(None)?;
    }
    Ok(slots)
}

// Puts the answer into the slot of its number, if there is one.
fn put_one<T: Drop>(slots: &mut [Option<T>], number: usize, answer: T)
    ensures { (i : ℕ) → i < length slots.old
        → IsPut ((number, answer) ∷ []) i (slice_index_or slots.old i None) (slice_index_or slots.new i None) }
{
    if number >= slots.len() {
        return;
    }
    slots[number] = Some(answer);
}

/// Puts each answer into the slot of its number.
pub fn put<T: Drop>(slots: &mut [Option<T>], entries: Vec<Entry<T>>)
    ensures { (i : ℕ) → i < length slots.old
        → IsPut entries.items i (slice_index_or slots.old i None) (slice_index_or slots.new i None) }
{
    for (number, answer) in entries {
        put_one(slots, number, answer);
    }
}

// What stands in the slot, or what a call with its number answers now.
fn answer_at<T: Drop, F: Fn(usize) -> Result<T, AllocError>>(
    work: &F,
    number: usize,
    slot: Option<T>,
) -> Result<T, AllocError>
    requires accepts { F.pre work.now number }
    requires slot { IsSlot F.Fn work.now number slot }
    ensures { IfOk result (Answers F.Fn work.now number) }
{
    match slot {
        Some(answer) => Ok(answer),
        None => work(number),
    }
}

/// What stands in the slots, in their order. A slot that is still blank is called for now, by this thread.
pub fn completed<T: Drop, F: Fn(usize) -> Result<T, AllocError>>(
    alloc: Global,
    work: &F,
    slots: Vec<Option<T>>,
) -> Result<Vec<T>, AllocError>
    requires accepts { (i : ℕ) → i < length slots.items → F.pre work.now i }
    requires slots { (i : ℕ) → i < length slots.items
        → IsSlot F.Fn work.now i (slice_index_or slots.items i None) }
    ensures count { IfOk result (λ v. length v.items ≡ length slots.items) }
    ensures each { IfOk result (λ v. AreAnswers F.Fn work.now (length slots.items) v.items) }
{
    let mut answers = Vec::with_capacity(alloc, slots.len())?;
    for (number, slot) in slots.into_iter().enumerate() {
        answers.push(answer_at(work, number, slot)?)?;
    }
    Ok(answers)
}
