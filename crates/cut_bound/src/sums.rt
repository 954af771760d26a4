//! What leaves many sides at once: the cuts round each node, and the fronts of nodes by rank.

ghost use Rattle.std.specs.Prelude.{◌≡◌, ℕ, ◌+◌, ◌*◌, ◌^◌, ◌<◌, ◌≤◌, ◌==◌, All, IfOk, length, map, slice_index, if◌then◌else◌};
ghost use Rattle.std.specs.List.{sum_by};
ghost use Rattle.flow_model.specs.Network.{IsCell, IsCommodity};
ghost use Rattle.cut_bound.specs.Sums.{arc_in, as_cell, ending, leaving, node_part, node_side, rank_front, span_in, starting, total_capacity, AreSteps};

use flow_model::{Cell, Commodity};
use mcf_limits::{MAX_CELLS, MAX_UNITS};
use std::alloc::{AllocError, Global};

/// The ends of a cell, and what it adds to the cut round each of them.
#[derive(Clone, Copy)]
pub struct Arc {
    from: usize,
    to: usize,
    amount: u64,
    back: u64,
}

/// The ranks of a cell's ends, and what it adds to the fronts that have the lower and not the higher.
#[derive(Clone, Copy)]
pub struct Span {
    low: usize,
    high: usize,
    amount: u64,
}

/// Each commodity as a cell from its source to its target, with its amount as capacity.
pub fn demand_cells(
    alloc: Global,
    commodities: &[Commodity],
    both: bool,
) -> Result<Vec<Cell>, AllocError>
    ensures { IfOk result (λ v. v.items ≡ map (as_cell both) commodities.now) }
{
    let mut cells = Vec::with_capacity(alloc, commodities.len())?;
    for k in commodities {
        cells.push(Cell {
            tail: k.from,
            head: k.to,
            both,
            cap: k.amount,
        })?;
    }
    Ok(cells)
}

fn add_to(table: &mut [u64], place: usize, amount: u64)
    requires place { place < length table.old }
    requires room { slice_index table.old place + amount < 2 ^ 64 }
    ensures { (p : ℕ)
        → slice_index table.new p ≡ slice_index table.old p + (if place == p then amount else 0) }
{
    table[place] += amount;
}

fn arc_of(cell: &Cell, into: bool) -> Arc
    ensures { result ≡ arc_in into cell.now }
{
    let amount = if cell.tail == cell.head { 0 } else { cell.cap };
    Arc {
        from: if into { cell.head } else { cell.tail } as usize,
        to: if into { cell.tail } else { cell.head } as usize,
        amount,
        back: if cell.both { amount } else { 0 },
    }
}

// Adds up what each cell adds to the cuts round its ends.
fn add_arcs(cells: &[Cell], into: bool, table: &mut [u64])
    requires total { total_capacity cells.now ≤ MAX_CELLS * MAX_UNITS }
    requires cells { All (IsCell (length table.old)) cells.now }
    requires blank { (p : ℕ) → slice_index table.old p ≡ 0 }
    ensures { (p : ℕ) → slice_index table.new p ≡ sum_by (node_part into p) cells.now }
{
    for cell in cells {
        let arc = arc_of(cell, into);
        add_to(table, arc.from, arc.amount);
        add_to(table, arc.to, arc.back);
    }
}

/// What leaves each node, or, for the cuts into a node, all nodes but it.
pub fn node_sums(
    alloc: Global,
    nodes: usize,
    cells: &[Cell],
    into: bool,
) -> Result<Vec<u64>, AllocError>
    requires total { total_capacity cells.now ≤ MAX_CELLS * MAX_UNITS }
    requires cells { All (IsCell nodes) cells.now }
    ensures len { IfOk result (λ v. length v.items ≡ nodes) }
    ensures each { IfOk result (λ sums. (v : ℕ) → v < nodes
        → slice_index sums.items v ≡ leaving (node_side into v) cells.now) }
{
    let mut sums = vec![in alloc; 0u64; nodes]?;
    add_arcs(cells, into, &mut sums);
    Ok(sums)
}

fn span_of(ranks: &[u16], cell: &Cell) -> Span
    requires tail { cell.now.tail < length ranks.now }
    requires head { cell.now.head < length ranks.now }
    ensures { result ≡ span_in (slice_index ranks.now) cell.now }
{
    let tail = ranks[cell.tail as usize] as usize;
    let head = ranks[cell.head as usize] as usize;
    // no branch on the ranks, which are as good as random
    let goes = cell.both | (tail <= head);
    let amount = if goes { cell.cap } else { 0 };
    Span {
        low: tail.min(head),
        high: tail.max(head),
        amount,
    }
}

// Adds up what begins and what ends at each rank.
fn add_spans(ranks: &[u16], cells: &[Cell], starts: &mut [u64], ends: &mut [u64])
    requires total { total_capacity cells.now ≤ MAX_CELLS * MAX_UNITS }
    requires cells { All (IsCell (length ranks.now)) cells.now }
    requires ranks { All (λ r. r < length starts.old) ranks.now }
    requires same { length ends.old ≡ length starts.old }
    requires no_starts { (p : ℕ) → slice_index starts.old p ≡ 0 }
    requires no_ends { (p : ℕ) → slice_index ends.old p ≡ 0 }
    ensures starts { (p : ℕ) → slice_index starts.new p ≡ starting (slice_index ranks.now) p cells.now }
    ensures ends { (p : ℕ) → slice_index ends.new p ≡ ending (slice_index ranks.now) p cells.now }
{
    for cell in cells {
        let span = span_of(ranks, cell);
        add_to(starts, span.low, span.amount);
        add_to(ends, span.high, span.amount);
    }
}

// The running sums of what begins, less what ends.
fn running_sums(alloc: Global, starts: &[u64], ends: &[u64]) -> Result<Vec<u64>, AllocError>
    requires same { length ends.now ≡ length starts.now }
    requires steps { (level : ℕ → ℕ) × AreSteps level starts.now ends.now }
    ensures len { IfOk result (λ v. length v.items ≡ length starts.now) }
    ensures each { IfOk result (λ v. (level : ℕ → ℕ) → AreSteps level starts.now ends.now
        → (j : ℕ) → j < length starts.now → slice_index v.items j ≡ level j) }
{
    let mut sums = Vec::with_capacity(alloc, starts.len())?;
    let mut total = 0u64;
    for j in 0..starts.len() {
        sums.push(total)?;
        total = total + starts[j] - ends[j];
    }
    Ok(sums)
}

/// What leaves the nodes of a rank below 0, below 1, and so on.
pub fn front_sums(
    alloc: Global,
    ranks: &[u16],
    count: usize,
    cells: &[Cell],
) -> Result<Vec<u64>, AllocError>
    requires total { total_capacity cells.now ≤ MAX_CELLS * MAX_UNITS }
    requires cells { All (IsCell (length ranks.now)) cells.now }
    requires ranks { All (λ r. r < count) ranks.now }
    ensures len { IfOk result (λ v. length v.items ≡ count) }
    ensures each { IfOk result (λ v. (j : ℕ) → j < count
        → slice_index v.items j ≡ leaving (rank_front (slice_index ranks.now) j) cells.now) }
{
    let mut starts = vec![in alloc; 0u64; count]?;
    let mut ends = vec![in alloc; 0u64; count]?;
    add_spans(ranks, cells, &mut starts, &mut ends);
    running_sums(alloc, &starts, &ends)
}
