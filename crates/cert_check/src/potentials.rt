//! Whether a row is a potential of lengths.

ghost use Rattle.std.specs.Prelude.{◌≡◌, ℕ, ◌+◌, ◌<◌, ◌≤◌, ◌↔◌, All, length, IsTrue, slice_index};
ghost use Rattle.flow_model.specs.Walk.{Goes};
ghost use Rattle.flow_model.specs.Network.{IsCell};
ghost use Rattle.flow_model.specs.Bound.{IsPotential};

use flow_model::Cell;
use mcf_limits::MAX_LENGTH;

// Whether no traversal of the cell raises the potential by more than the length.
fn holds_over(cell: Cell, size: u64, potential: &[u64]) -> bool
    requires tail { cell.tail < length potential.now }
    requires head { cell.head < length potential.now }
    requires size { size ≤ MAX_LENGTH }
    requires limit { All (λ p. p ≤ MAX_LENGTH) potential.now }
    ensures { IsTrue result ↔ ((u v : ℕ) → Goes cell u v
        → slice_index potential.now v ≤ slice_index potential.now u + size) }
{
    let tail = potential[cell.tail as usize];
    let head = potential[cell.head as usize];
    head <= tail + size && (!cell.both || tail <= head + size)
}

/// Whether no traversal of a cell raises the potential by more than the cell's length.
pub fn is_potential(cells: &[Cell], lengths: &[u64], potential: &[u64]) -> bool
    requires ends { All (IsCell (length potential.now)) cells.now }
    requires sizes { length lengths.now ≡ length cells.now }
    requires size_limit { All (λ n. n ≤ MAX_LENGTH) lengths.now }
    requires limit { All (λ p. p ≤ MAX_LENGTH) potential.now }
    ensures { IsTrue result ↔ IsPotential cells.now lengths.now potential.now }
{
    for (c, cell) in cells.iter().enumerate() {
        if !holds_over(*cell, lengths[c], potential) {
            return false;
        }
    }
    true
}
