//! Networks from a table of cells and a table of commodities.

ghost use Rattle.std.specs.Prelude.{◌≡◌, ◌≤◌, All, IsTrue, IfOk, IfSome, length};
ghost use Rattle.std.specs.List.{sum_by};
ghost use Rattle.flow_model.specs.Network.{IsCell, IsCommodity, IsNetwork};

use flow_model::{Cell, Commodity, Net};
use mcf_limits::{MAX_CELLS, MAX_DEMANDS, MAX_NODES, MAX_TOTAL, MAX_UNITS};
use std::alloc::{AllocError, Global};

/// A cell.
pub const fn cell(tail: u16, head: u16, both: bool, cap: u64) -> Cell
    ensures { result ≡ record { tail = tail; head = head; both = both; cap = cap } }
{
    Cell {
        tail,
        head,
        both,
        cap,
    }
}

/// A commodity.
pub const fn demand(from: u16, to: u16, amount: u64) -> Commodity
    ensures { result ≡ record { from = from; to = to; amount = amount } }
{
    Commodity { from, to, amount }
}

fn is_cell(nodes: u16, cell: &Cell) -> bool
    ensures { IsTrue result → IsCell nodes cell.now }
{
    cell.tail < nodes && cell.head < nodes && cell.cap <= MAX_UNITS
}

fn are_cells(nodes: u16, cells: &[Cell]) -> bool
    ensures { IsTrue result → All (IsCell nodes) cells.now }
{
    for cell in cells {
        if !is_cell(nodes, cell) {
            return false;
        }
    }
    true
}

fn is_commodity(nodes: u16, commodity: &Commodity) -> bool
    ensures { IsTrue result → IsCommodity nodes commodity.now }
{
    commodity.from < nodes
        && commodity.to < nodes
        && commodity.from != commodity.to
        && commodity.amount >= 1
        && commodity.amount <= MAX_UNITS
}

fn are_commodities(nodes: u16, commodities: &[Commodity]) -> bool
    ensures { IsTrue result → All (IsCommodity nodes) commodities.now }
{
    for commodity in commodities {
        if !is_commodity(nodes, commodity) {
            return false;
        }
    }
    true
}

fn is_within_total(commodities: &[Commodity]) -> bool
    ensures { IsTrue result → sum_by (λ k. k.amount) commodities.now ≤ MAX_TOTAL }
{
    let mut left = MAX_TOTAL;
    for commodity in commodities {
        if commodity.amount > left {
            return false;
        }
        left -= commodity.amount;
    }
    true
}

/// The network of these tables, if they are one.
pub fn network(
    alloc: Global,
    nodes: u16,
    cells: &[Cell],
    commodities: &[Commodity],
) -> Result<Option<Net>, AllocError>
    ensures { IfOk result (λ net. IfSome net
        (λ net. net ≡ record { nodes = nodes; cells = cells.now; commodities = commodities.now })) }
{
    let is_network = nodes <= MAX_NODES
        && cells.len() <= MAX_CELLS as usize
        && commodities.len() <= MAX_DEMANDS as usize
        && !commodities.is_empty()
        && are_cells(nodes, cells)
        && are_commodities(nodes, commodities)
        && is_within_total(commodities);
    if !is_network {
        return Ok(None);
    }
    let cells = Vec::from_slice(alloc, cells)?;
    let commodities = Vec::from_slice(alloc, commodities)?;
    Ok(Some(Net::new(nodes, cells, commodities)))
}
