//! A slot for each row of potentials, filled by threads with the first of the least of its fronts.

ghost use Rattle.std.specs.Prelude.{◌≡◌, ℕ, ◌+◌, ◌*◌, ◌<◌, ◌≤◌, None, All, IfOk, OnOk, length, slice_index_or};
ghost use Rattle.flow_model.specs.Network.{IsCell};
ghost use Rattle.cut_bound.specs.Search.{row_at, seen, Considers, IsDualOf, IsRowPlace};
ghost use Rattle.cut_bound.specs.Slots.{AreConsidered, IsFilled, IsLeastFront, IsRow};
ghost use Rattle.cut_bound.specs.Sums.{total_capacity};

use crate::choice::{Best, RowPlace, SummedCut, consider_some, least_of};
use crate::cuts::front_cuts;
use crate::own::{rows_of, values_at};
use flow_model::{Cell, Net};
use flow_paths::Dual;
use mcf_base::thread_count;
use mcf_limits::{MAX_CELLS, MAX_UNITS, MAX_WORKERS};
use std::alloc::{AllocError, Global};
use std::thread::Threads;

// A thread is started for no fewer steps than these, one for each cell and each demand of each row: they take some tenths of
// a millisecond, which is more than its start does.
const STEPS_OF_A_START: usize = 65_536;

/// The first of the least fronts of a row, where some commodity crosses one.
#[derive(Clone, Copy)]
pub struct RowLeast {
    /// The front; `None` where no commodity crosses one.
    pub cut: Option<SummedCut>,
}

// What the fronts of the row come to.
fn least_front(
    alloc: Global,
    net: &Net,
    demands: &[Cell],
    own: &[&Dual],
    row: RowPlace,
) -> Result<RowLeast, AllocError>
    requires total { total_capacity demands.now ≤ MAX_CELLS * MAX_UNITS }
    requires demands { All (IsCell net.now.nodes) demands.now }
    requires place { IsRowPlace (seen own.now) row }
    requires values { length (row_at (seen own.now) row).values ≡ net.now.nodes }
    ensures { IfOk result (IsLeastFront net.now.cells demands.now (seen own.now) row) }
{
    let values = values_at(own, row);
    let cuts = front_cuts(alloc, net, demands, row, values)?;
    Ok(RowLeast {
        cut: least_of(&cuts),
    })
}

// That of the row of that number, or nothing where memory is lacking.
fn slot_of(
    alloc: Global,
    net: &Net,
    demands: &[Cell],
    own: &[&Dual],
    rows: &[RowPlace],
    at: usize,
) -> Option<RowLeast>
    requires { IsRow net.now demands.now (seen own.now) rows.now at }
    ensures { IsFilled net.now.cells demands.now (seen own.now) rows.now at result }
{
    match least_front(alloc, net, demands, own, rows[at]) {
        Ok(least) => Some(least),
        Err(_) => None,
    }
}

// Fills the slots of rows, of which the first has the number `first`. Those for which memory is lacking are left blank.
fn fill_slots(
    alloc: Global,
    net: &Net,
    demands: &[Cell],
    own: &[&Dual],
    rows: &[RowPlace],
    first: usize,
    slots: &mut [Option<RowLeast>],
)
    requires { (i : ℕ) → i < length slots.old
        → IsRow net.now demands.now (seen own.now) rows.now (first + i) }
    ensures { (i : ℕ) → i < length slots.old → IsFilled net.now.cells demands.now (seen own.now) rows.now
        (first + i) (slice_index_or slots.new i None) }
{
    for (i, slot) in slots.iter_mut().enumerate() {
        *slot = slot_of(alloc, net, demands, own, rows, first + i);
    }
}

// How many of `rows` rows one thread takes, where a row takes `steps` steps.
fn share_of(rt: &impl Threads, rows: usize, steps: usize) -> usize
    ensures { 1 ≤ result }
{
    let share = rows.div_ceil(thread_count(rt, MAX_WORKERS));
    share.max(STEPS_OF_A_START / steps.max(1)).max(1)
}

// Fills the slot of each row, in several threads where that pays. Those for which memory is lacking are left blank.
fn fill_all<R: Threads + Sync>(
    rt: &R,
    alloc: Global,
    net: &Net,
    demands: &[Cell],
    own: &[&Dual],
    rows: &[RowPlace],
    slots: &mut [Option<RowLeast>],
)
    requires { (i : ℕ) → i < length slots.old → IsRow net.now demands.now (seen own.now) rows.now i }
    ensures { (i : ℕ) → i < length slots.old → IsFilled net.now.cells demands.now (seen own.now) rows.now i
        (slice_index_or slots.new i None) }
{
    let steps = net.cells().len().saturating_add(demands.len());
    mcf_base::for_each_chunk_mut(
        rt,
        slots,
        share_of(rt, slots.len(), steps),
        &|first: usize, part: &mut [Option<RowLeast>]|
            requires { (i : ℕ) → i < length part.now
                → IsRow net.now demands.now (seen own.now) rows.now (first + i) }
            ensures { (i : ℕ) → i < length part.entry.now → IsFilled net.entry.now.cells demands.entry.now
                (seen own.entry.now) rows.entry.now (first + i) (slice_index_or part.exit.now i None) }
        { fill_slots(alloc, net, demands, own, rows, first, part) },
    );
}

// Considers what stands in the slots, one after the other. `Err` is for a blank one.
fn consider_slots(best: &mut Best, slots: &[Option<RowLeast>]) -> Result<(), AllocError>
    ensures { OnOk result (AreConsidered slots.now best.old best.new) }
{
    for slot in slots {
        match slot {
            Some(least) => consider_some(best, least.cut),
            None => return Err(AllocError),
        }
    }
    Ok(())
}

/// Considers the fronts of all rows, row after row: for each the first of the least, which threads look for where that pays.
pub fn consider_fronts<R: Threads + Sync>(
    rt: &R,
    alloc: Global,
    net: &Net,
    demands: &[Cell],
    own: &[&Dual],
    best: &mut Best,
) -> Result<(), AllocError>
    requires total { total_capacity demands.now ≤ MAX_CELLS * MAX_UNITS }
    requires demands { All (IsCell net.now.nodes) demands.now }
    requires duals { All (λ d. IsDualOf net.now d.now) own.now }
    ensures { OnOk result (Considers net.now.cells demands.now (seen own.now) best.old best.new) }
{
    let rows = rows_of(alloc, own)?;
    let mut slots = vec![in alloc; None; rows.len()]?;
    fill_all(rt, alloc, net, demands, own, &rows, &mut slots);
    consider_slots(best, &slots)
}
