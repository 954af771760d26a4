//! What a routing carries, and what it loads.

ghost use Rattle.std.specs.Prelude.{◌≡◌, ℕ, ◌+◌, ◌*◌, ◌^◌, ◌<◌, ◌≤◌, ◌↔◌, All, length, IsTrue, IfOk, Some, slice_get, slice_index};
ghost use Rattle.flow_model.specs.Walk.{times};
ghost use Rattle.flow_model.specs.Routing.{carried, load_of};
ghost use Rattle.flow_model.specs.declared.net.Cell.{Cell as CellIs};
ghost use Rattle.flow_model.specs.declared.net.Commodity.{Commodity as CommodityIs};
ghost use Rattle.flow_paths.specs.PathRows.{row_at};

use flow_model::{Cell, Commodity};
use flow_paths::PathStore;
use mcf_limits::MAX_PATH_CELLS;
use std::alloc::{AllocError, Global};

// Adds the weight to each cell of the path, as often as the path has it.
fn add_path(table: &mut [u128], path: &[u16], weight: u64)
    requires cells { All (λ c. c < length table.old) path.now }
    requires room { (c : ℕ) → c < length table.old → slice_index table.old c + weight * length path.now < 2 ^ 128 }
    ensures { (c : ℕ) → c < length table.old → slice_index table.new c
        ≡ slice_index table.old c + weight * times c path.now }
{
    for c in path {
        table[*c as usize] += weight as u128;
    }
}

/// The load of each cell.
pub fn loads(alloc: Global, cells: usize, paths: &PathStore) -> Result<Vec<u128>, AllocError>
    requires cells { All (λ r. All (λ c. c < cells) r.walk) paths.now }
    requires short { All (λ r. length r.walk ≤ MAX_PATH_CELLS) paths.now }
    ensures len { IfOk result (λ v. length v.items ≡ cells) }
    ensures value { IfOk result (λ v. (c : ℕ) → c < cells → slice_index v.items c ≡ load_of paths.now c) }
{
    let mut table = vec![in alloc; 0u128; cells]?;
    for row in 0..paths.rows() {
        add_path(&mut table, paths.path(row), paths.weight(row));
    }
    Ok(table)
}

/// The sum of the weights of each commodity's rows, in the order of commodities and in units: below 2^96, since there are
/// fewer than 2^32 rows. Each row's commodity is below `commodities`.
pub fn carried_amounts(
    alloc: Global,
    commodities: usize,
    paths: &PathStore,
) -> Result<Vec<u128>, AllocError>
    requires { All (λ r. r.commodity < commodities) paths.now }
    ensures len { IfOk result (λ v. length v.items ≡ commodities) }
    ensures value { IfOk result (λ v. (k : ℕ) → k < commodities → slice_index v.items k ≡ carried paths.now k) }
{
    let mut table = vec![in alloc; 0u128; commodities]?;
    for row in 0..paths.rows() {
        table[paths.commodity(row) as usize] += paths.weight(row) as u128;
    }
    Ok(table)
}

/// Whether each amount is the phases times the commodity's.
pub fn are_carried(commodities: &[Commodity], amounts: &[u128], phases: u32) -> bool
    requires { length amounts.now ≡ length commodities.now }
    ensures { IsTrue result ↔ ((k : ℕ) (commodity : CommodityIs)
        → slice_get commodities.now k ≡ Some commodity → slice_index amounts.now k ≡ phases * commodity.amount) }
{
    for (k, commodity) in commodities.iter().enumerate() {
        if amounts[k] != phases as u128 * commodity.amount as u128 {
            return false;
        }
    }
    true
}

/// Whether the load times the factor is at most `most`, all of them any numbers: nothing is multiplied, so nothing wraps.
pub fn is_product_within(load: u128, factor: u64, most: u128) -> bool
    ensures { IsTrue result ↔ (load * factor ≤ most) }
{
    factor == 0 || load <= most / factor as u128
}

/// Whether each load, times the scale's capacity, is at most the scale's load times the cell's capacity: all in units, and
/// any numbers. There are as many loads as cells.
pub fn do_fit(cells: &[Cell], loads: &[u128], scale_cap: u64, scale_load: u64) -> bool
    requires { length loads.now ≡ length cells.now }
    ensures { IsTrue result ↔ ((c : ℕ) (cell : CellIs) → slice_get cells.now c ≡ Some cell
        → slice_index loads.now c * scale_cap ≤ scale_load * cell.cap) }
{
    for (c, cell) in cells.iter().enumerate() {
        if !is_product_within(loads[c], scale_cap, scale_load as u128 * cell.cap as u128) {
            return false;
        }
    }
    true
}
