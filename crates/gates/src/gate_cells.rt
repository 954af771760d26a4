//! The gates of commodities.

ghost use Rattle.std.specs.Prelude.{◌≡◌, ◌↔◌, ℕ, ◌<◌, ◌≤◌, List, All, length, OnOk, IfOk, IsTrue, []};
ghost use Rattle.flow_model.specs.declared.net.Cell.{Cell as CellIs};
ghost use Rattle.flow_model.specs.Least.{IsJoined};
ghost use Rattle.dijkstra_paths.specs.Reach.{AreRows};
ghost use Rattle.gates.specs.Gates.{AreGates};
ghost use Rattle.gates.specs.Gating.{IsGate};

use dijkstra_paths::Graph;
use flow_model::{Cell, Commodity, Net};
use mcf_limits::MAX_UNITS;
use std::alloc::{AllocError, Global};

// A row for each node, none of them filled.
fn no_rows(alloc: Global, nodes: u16) -> Result<Vec<Vec<bool>>, AllocError>
    ensures count { IfOk result (λ rows. length rows.items ≡ nodes) }
    ensures empty { IfOk result (λ rows. All (λ row. row.items ≡ []) rows.items) }
{
    let mut rows = Vec::with_capacity(alloc, nodes as usize)?;
    for _ in 0..nodes {
        rows.push(Vec::new(alloc))?;
    }
    Ok(rows)
}

// Whether a walk over positive cells leads from one node to another. Each node is searched from at most once: its marks
// are kept in its row.
fn is_joined(
    alloc: Global,
    graph: &Graph,
    rows: &mut [Vec<bool>],
    from: u16,
    to: u16,
) -> Result<bool, AllocError>
    requires rows { AreRows graph.now rows.old }
    requires from { from < graph.now.nodes }
    requires to { to < graph.now.nodes }
    ensures rows { OnOk result (AreRows graph.now rows.new) }
    ensures value { IfOk result (λ joined. IsTrue joined ↔ IsJoined graph.now.cells from to) }
{
    if rows[from as usize].is_empty() {
        rows[from as usize] = graph.reach(alloc, from)?;
    }
    Ok(rows[from as usize][to as usize])
}

// The gate of a commodity: of its amount where it has a walk, else of nothing.
fn gate_of(commodity: Commodity, joined: bool) -> Cell
    ensures value { (cells : List CellIs) → IsTrue joined ↔ IsJoined cells commodity.from commodity.to
        → IsGate cells commodity result }
    ensures limit { result.cap ≤ commodity.amount }
{
    Cell {
        tail: commodity.from,
        head: commodity.to,
        both: false,
        cap: if joined { commodity.amount } else { 0 },
    }
}

/// A gate for each commodity: a cell of its amount where it has a walk over positive cells, else of capacity 0. The network
/// is the one that the graph was made from.
pub fn gates(alloc: Global, net: &Net, graph: &Graph) -> Result<Vec<Cell>, AllocError>
    requires { graph.now ≡ net.now }
    ensures value { IfOk result (λ v. AreGates net.now v.items) }
    ensures caps { IfOk result (λ v. All (λ cell. cell.cap ≤ MAX_UNITS) v.items) }
{
    let mut rows = no_rows(alloc, net.nodes())?;
    let mut gates = Vec::with_capacity(alloc, net.commodities().len())?;
    for commodity in net.commodities() {
        let joined = is_joined(alloc, graph, &mut rows, commodity.from, commodity.to)?;
        gates.push(gate_of(*commodity, joined))?;
    }
    Ok(gates)
}
