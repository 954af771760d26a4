//! The rows of a bound in parts, which any thread may fill.

ghost use Rattle.std.specs.Prelude.{◌≡◌, ◌-◌, ◌++◌, [], All, IfOk, OnOk, length};
ghost use Rattle.std.specs.Arc.{arc_value};
ghost use Rattle.flow_model.specs.Lengths.{AreLengths};
ghost use Rattle.dual_bound.specs.Rows.{IsRoom};
ghost use Rattle.flow_solver.specs.Parts.{CanBeFilled, IsFilled, IsPartOf};
ghost use Rattle.flow_solver.specs.Shares.{IsShareOf, rows_at, rows_in};

use crate::pace::Split;
use crate::share::Share;
use dijkstra_paths::Graph;
use dual_bound::{Row, refill_rows};
use std::alloc::{AllocError, Global};
use std::sync::Arc;

/// A part of the rows of a bound, which are to be filled anew with distances under these lengths. All parts share the lengths.
#[derive(Drop)]
pub struct Part<'a> {
    /// The graph of the network.
    pub graph: &'a Graph,
    /// Where memory comes from.
    pub alloc: Global,
    /// The length of each cell.
    pub lengths: Arc<Vec<u64>, Global>,
    /// The rows that are filled.
    pub rows: Vec<Row>,
}

/// The part with its rows filled, but for those for which no memory was left.
pub(crate) fn filled<'a>(part: Part<'a>) -> Part<'a>
    requires { CanBeFilled part }
    ensures { IsFilled part.entry result }
{
    let Part {
        graph,
        alloc,
        lengths,
        rows,
    } = part;
    let mut rows = rows;
    refill_rows(alloc, graph, &lengths, &mut rows);
    Part {
        graph,
        alloc,
        lengths,
        rows,
    }
}

// The last `size` rows, or all if there are fewer, as a part. `Err`: out of memory.
fn last_part<'a>(
    alloc: Global,
    graph: &'a Graph,
    lengths: &Arc<Vec<u64>, Global>,
    rows: &mut Vec<Row>,
    size: usize,
) -> Result<Part<'a>, AllocError>
    requires lengths { AreLengths graph.now.cells (arc_value lengths.now).items }
    requires rows { All (IsRoom graph.now.nodes) rows.old.items }
    ensures part { IfOk result (IsPartOf graph.now (arc_value lengths.now).items) }
    ensures rows { IfOk result (λ part. rows.new.items ++ part.rows.items ≡ rows.old.items) }
    ensures left { OnOk result (length rows.new.items ≡ length rows.old.items - size) }
    ensures room { OnOk result (All (IsRoom graph.now.nodes) rows.new.items) }
{
    let at = rows.len().saturating_sub(size);
    Ok(Part {
        graph,
        alloc,
        lengths: Arc::try_clone(lengths)?,
        rows: rows.split_off(at)?,
    })
}

/// All rows in parts: one for each thread, from the last row on, and one of the first rows, which are left. `Err`: out of memory.
pub(crate) fn parts_of<'a, G>(
    alloc: Global,
    graph: &'a Graph,
    lengths: &Arc<Vec<u64>, Global>,
    rows: &mut Vec<Row>,
    split: Split,
) -> Result<Vec<Option<Share<'a, G>>>, AllocError>
    requires lengths { AreLengths graph.now.cells (arc_value lengths.now).items }
    requires rows { All (IsRoom graph.now.nodes) rows.old.items }
    ensures parts { IfOk result (λ parts. All (IsShareOf graph.now (arc_value lengths.now).items) parts.items) }
    ensures rows { IfOk result (λ parts. rows_in parts.items ≡ rows.old.items) }
    ensures none { OnOk result (rows.new.items ≡ []) }
{
    let mut parts = Vec::new(alloc);
    for i in 0..split.threads.saturating_add(split.idle) {
        let part = last_part(alloc, graph, lengths, rows, split.rows_of(i))?;
        parts.push(Some(Share::Part(part)))?;
    }
    let left = rows.len();
    let rest = last_part(alloc, graph, lengths, rows, left)?;
    parts.push(Some(Share::Part(rest)))?;
    Ok(parts)
}

// Appends the rows of a part. `Err`: out of memory.
fn append_part<G>(rows: &mut Vec<Row>, part: Option<Share<'_, G>>) -> Result<(), AllocError>
    ensures { OnOk result (rows.new.items ≡ rows.old.items ++ rows_at part.entry) }
{
    match part {
        Some(Share::Part(part)) => {
            let mut more = part.rows;
            rows.append(&mut more)
        }
        Some(Share::Turn(_)) => Ok(()),
        None => Ok(()),
    }
}

/// Appends the rows of all parts, in the order in which they were. `Err`: out of memory.
pub(crate) fn append_parts<G>(
    rows: &mut Vec<Row>,
    parts: Vec<Option<Share<'_, G>>>,
) -> Result<(), AllocError>
    ensures { OnOk result (rows.new.items ≡ rows.old.items ++ rows_in parts.entry.items) }
{
    let mut parts = parts;
    'parts: while let Some(part) = parts.pop() {
        append_part(rows, part)?;
    }
    Ok(())
}
