//! A row for each source of a commodity without a limit, in the order of nodes.

ghost use Rattle.std.specs.Prelude.{◌≡◌, ℕ, ◌<◌, ◌++◌, ◌∷◌, [], All, IfOk, OnOk, length, if◌then◌else◌, slice_index};
ghost use Rattle.std.specs.List.{filter, range_with_len};
ghost use Rattle.flow_model.specs.Lengths.{AreLengths};
ghost use Rattle.dual_bound.specs.Bounds.{IsCutPotential, IsDistance};
ghost use Rattle.dual_bound.specs.Rows.{IsBlank, IsFilledWith, sources_of};
ghost use Rattle.hop_paths.specs.Allowed.{is_unlimited};

use crate::given::Given;
use dual_bound::{Row, are_filled, blank_row, fill_rows, mark_all};
use std::alloc::{AllocError, Global};

// Appends a blank row, if the node is asked for one.
fn append_row(
    alloc: Global,
    rows: &mut Vec<Row>,
    mark: u64,
    source: u16,
    nodes: u16,
) -> Result<(), AllocError>
    requires { source < nodes }
    ensures sources { (b : _) → mark ≡ (if b then 1 else 0) → OnOk result (sources_of rows.new.items
        ≡ sources_of rows.old.items ++ (if b then source ∷ [] else [])) }
    ensures blank { OnOk result (All (IsBlank nodes) rows.old.items
        → All (IsBlank nodes) rows.new.items) }
{
    if mark == 0 {
        return Ok(());
    }
    rows.push(blank_row(alloc, source, nodes)?)?;
    Ok(())
}

// A blank row for each of these sources.
fn blank_rows(alloc: Global, on: &Given<'_>) -> Result<Vec<Row>, AllocError>
    ensures sources { IfOk result (λ rows. sources_of rows.items
        ≡ filter (is_unlimited on.now.net.now on.now.limits.now)
        (range_with_len 0 on.now.net.now.nodes)) }
    ensures blank { IfOk result (λ rows. All (IsBlank on.now.net.now.nodes) rows.items) }
{
    let nodes = on.net.nodes();
    let mut rows = Vec::new(alloc);
    for v in 0..nodes {
        append_row(alloc, &mut rows, on.marks[v as usize], v, nodes)?;
    }
    Ok(rows)
}

/// A row of distances for each of these sources: 2^62 where there is no walk.
pub fn distance_rows(alloc: Global, on: &Given<'_>, lengths: &[u64]) -> Result<Vec<Row>, AllocError>
    requires lengths { AreLengths on.now.net.now.cells lengths.now }
    ensures sources { IfOk result (λ rows. sources_of rows.items
        ≡ filter (is_unlimited on.now.net.now on.now.limits.now)
        (range_with_len 0 on.now.net.now.nodes)) }
    ensures filled { IfOk result (λ rows. All (IsFilledWith on.now.net.now.nodes
        (IsDistance on.now.net.now.cells lengths.now)) rows.items) }
{
    let mut rows = blank_rows(alloc, on)?;
    fill_rows(alloc, on.graph, lengths, &mut rows);
    if are_filled(&rows) {
        Ok(rows)
    } else {
        Err(AllocError)
    }
}

/// A row of marks for each of these sources: 0 for what it reaches, 1 for what it does not.
pub fn mark_rows(alloc: Global, on: &Given<'_>) -> Result<Vec<Row>, AllocError>
    ensures sources { IfOk result (λ rows. sources_of rows.items
        ≡ filter (is_unlimited on.now.net.now on.now.limits.now)
        (range_with_len 0 on.now.net.now.nodes)) }
    ensures filled { IfOk result (λ rows. All (IsFilledWith on.now.net.now.nodes
        (IsCutPotential on.now.net.now.cells)) rows.items) }
{
    let mut rows = blank_rows(alloc, on)?;
    mark_all(alloc, on.graph, &mut rows)?;
    Ok(rows)
}
