//! The ascending order of path rows.

ghost use Rattle.std.specs.Prelude.{◌≡◌, ◌<◌, ◌≤◌, All, IfOk, length, map};
ghost use Rattle.flow_paths.specs.PathRows.{row_at};
ghost use Rattle.flow_paths.specs.Ordering.{IsOfAll, IsOrderOf, AreNumbersOf};
ghost use Rattle.flow_paths.specs.Sorted.{numbers_of};

use crate::PathStore;
use std::alloc::{AllocError, Global};

// A row with what it is ordered by.
#[derive(Clone, Copy, PartialEq, Eq, PartialOrd, Ord)]
struct OrderedRow<'a> {
    commodity: u32,
    path: &'a [u16],
    row: u32,
}

// The rows in ascending order of commodity and then cells.
fn sorted<'a>(alloc: Global, paths: &'a PathStore) -> Result<Vec<OrderedRow<'a>>, AllocError>
    ensures order { IfOk result (λ v. IsOrderOf paths.now (numbers_of v.items)) }
    ensures few { IfOk result (λ v. length v.items ≤ 4294967295) }
{
    let mut rows = Vec::with_capacity(alloc, paths.rows() as usize)?;
    for row in 0..paths.rows() {
        rows.push(OrderedRow {
            commodity: paths.commodity(row),
            path: paths.path(row),
            row,
        })?;
    }
    rows.sort_unstable();
    Ok(rows)
}

/// The numbers of the rows in ascending order of commodity and then cells.
pub fn order_of(alloc: Global, paths: &PathStore) -> Result<Vec<u32>, AllocError>
    ensures order { IfOk result (λ v. IsOrderOf paths.now v.items) }
    ensures few { IfOk result (λ v. length v.items ≤ 4294967295) }
{
    let rows = sorted(alloc, paths)?;
    let mut order = Vec::with_capacity(alloc, rows.len())?;
    for row in &rows {
        order.push(row.row)?;
    }
    Ok(order)
}

/// At each row's number its place in the order.
pub fn new_numbers(alloc: Global, order: &[u32]) -> Result<Vec<u32>, AllocError>
    requires all { IsOfAll order.now }
    requires few { length order.now ≤ 4294967295 }
    ensures { IfOk result (λ v. AreNumbersOf order.now v.items) }
{
    let mut numbers = vec![in alloc; 0u32; order.len()]?;
    for (place, row) in order.iter().enumerate() {
        numbers[*row as usize] = place as u32;
    }
    Ok(numbers)
}

/// The rows in that order.
pub fn stored(alloc: Global, paths: &PathStore, order: &[u32]) -> Result<PathStore, AllocError>
    requires all { All (λ n. n < length paths.now) order.now }
    requires few { length order.now ≤ 4294967295 }
    ensures { IfOk result (λ v. v ≡ map (row_at paths.now) order.now) }
{
    let mut stored = PathStore::new(alloc);
    for row in order {
        stored.push(paths.commodity(*row), paths.path(*row), paths.weight(*row))?;
    }
    Ok(stored)
}
