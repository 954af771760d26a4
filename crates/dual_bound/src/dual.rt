//! The dual that lengths and rows make.

ghost use Rattle.std.specs.Prelude.{◌≡◌, ℕ, ◌<◌, ◌≤◌, ◌↔◌, ◌++◌, ◌∷◌, [], All, IsTrue, IfOk, OnOk, length, slice_index_or};
ghost use Rattle.dual_bound.specs.Rows.{HasGiven, dual_of, potential_of};

use crate::rows::Row;
use flow_paths::Dual;
use mcf_limits::{MAX_CELLS, MAX_LENGTH};
use std::alloc::{AllocError, Global};

// A row for each length, in order of cells, in the memory of an earlier dual.
fn with_lengths(room: Dual, lengths: &[u64]) -> Result<Dual, AllocError>
    requires few { length lengths.now ≤ MAX_CELLS }
    requires small { All (λ n. n ≤ MAX_LENGTH) lengths.now }
    ensures { IfOk result (λ dual. dual ≡ dual_of lengths.now []) }
{
    let mut dual = room;
    dual.clear();
    for (cell, length) in lengths.iter().enumerate() {
        dual.push_length(cell as u16, *length)?;
    }
    Ok(dual)
}

/// The dual of these lengths, each at most 2^62 and in the order of cells, and of these rows, whatever they are filled with.
pub fn assembled(alloc: Global, lengths: &[u64], rows: &[Row]) -> Result<Dual, AllocError>
    requires few { length lengths.now ≤ MAX_CELLS }
    requires small { All (λ n. n ≤ MAX_LENGTH) lengths.now }
    requires rows { All (λ row. All (λ n. n ≤ MAX_LENGTH) row.values.items) rows.now }
    ensures { IfOk result (λ dual. dual ≡ dual_of lengths.now rows.now) }
{
    let mut dual = with_lengths(Dual::new(alloc), lengths)?;
    for row in rows {
        dual.push_row(alloc, row.source, &row.values)?;
    }
    Ok(dual)
}

// Appends the row, which is blank then, with other numbers.
fn give_row(alloc: Global, dual: &mut Dual, row: &mut Row) -> Result<(), AllocError>
    requires { All (λ n. n ≤ MAX_LENGTH) row.old.values.items }
    ensures dual { OnOk result (dual.new ≡ record
        { lengths = dual.old.lengths; potentials = dual.old.potentials ++ potential_of row.old ∷ [] }) }
    ensures row { OnOk result (HasGiven row.old row.new) }
{
    dual.push_taken(alloc, row.source, &mut row.values)?;
    row.is_filled = false;
    Ok(())
}

/// As `assembled`, in the memory of an earlier dual, of which nothing is left. The rows give it their numbers, and are blank then.
pub(crate) fn assembled_from(
    alloc: Global,
    room: Dual,
    lengths: &[u64],
    rows: &mut [Row],
) -> Result<Dual, AllocError>
    requires few { length lengths.now ≤ MAX_CELLS }
    requires small { All (λ n. n ≤ MAX_LENGTH) lengths.now }
    requires rows { All (λ row. All (λ n. n ≤ MAX_LENGTH) row.values.items) rows.old }
    ensures dual { IfOk result (λ dual. dual ≡ dual_of lengths.now rows.old) }
    ensures rows { OnOk result ((k : ℕ) (d : _) → k < length rows.old
        → HasGiven (slice_index_or rows.old k d) (slice_index_or rows.new k d)) }
{
    let mut dual = with_lengths(room, lengths)?;
    for row in rows.iter_mut() {
        give_row(alloc, &mut dual, row)?;
    }
    Ok(dual)
}

/// Whether every row was filled.
pub fn are_filled(rows: &[Row]) -> bool
    ensures { IsTrue result ↔ All (λ row. IsTrue row.is_filled) rows.now }
{
    for row in rows {
        if !row.is_filled {
            return false;
        }
    }
    true
}
