//! The bound of lengths, and the bound of a cut.

ghost use Rattle.std.specs.Prelude.{◌≡◌, ℕ, ◌^◌, ◌<◌, ◌≤◌, IfOk, OnOk, All, length, slice_index_or};
ghost use Rattle.flow_model.specs.Lengths.{AreLengths};
ghost use Rattle.fixed_exp.specs.Far.{EmptyAreFar};
ghost use Rattle.dijkstra_paths.specs.Reach.{IsFirstCut};
ghost use Rattle.flow_paths.specs.Certificate.{upper_of};
ghost use Rattle.dual_bound.specs.Bounds.{CanDivide, IsBounded, IsCutDual, IsCutPotential, IsLesser, ShowsBound, cut_lengths, lesser};
ghost use Rattle.dual_bound.specs.Rows.{AreRoom, AreWeighted, HasDistances, IsFilledWith, IsRoom, KeepsRoom, bounded_of, demands_in, demands_of, dual_of, weight_of};

use crate::dual::{are_filled, assembled_from};
use crate::rows::{Row, blank_all, fill_all, fill_rows, mark_all, source_rows};
use crate::team::Team;
use crate::value::upper;
use dijkstra_paths::Graph;
use flow_model::{Cell, Net};
use flow_paths::Dual;
use gap_fraction::Frac;
use mcf_limits::{MAX_LENGTH, MAX_WORKERS};
use std::alloc::{AllocError, Global};
use std::cmp::Ordering;
use std::thread::Threads;

/// A dual, and the bound that it gives: volume over weighted distance.
#[derive(Drop)]
pub struct Bounded {
    /// Its lengths and potentials.
    pub dual: Dual,
    /// The bound: no routing carries a greater fraction.
    pub value: Frac,
}

// The smaller of `earlier` and the bound of these lengths and filled rows. Its dual is made only where it is the smaller: it takes the
// numbers of the rows, which get the memory of the earlier dual's rows, or new memory, and are blank then. Its value is volume over
// weighted distance, not reduced.
fn lesser(
    alloc: Global,
    net: &Net,
    lengths: &[u64],
    rows: &mut [Row],
    earlier: Option<Bounded>,
) -> Result<Bounded, AllocError>
    requires rows { All (λ row. All (λ n. n ≤ MAX_LENGTH) row.values.items) rows.old }
    requires divides { CanDivide net.now lengths.now (dual_of lengths.now rows.old) }
    requires weighted { AreWeighted net.now rows.old }
    requires limit { weight_of rows.old ≤ 2 ^ 108 }
    ensures lesser { IfOk result (λ b. b ≡ lesser earlier (bounded_of net.now lengths.now rows.old)) }
    ensures rows { OnOk result ((k : ℕ) (d : _) → k < length rows.old
        → KeepsRoom (slice_index_or rows.old k d) (slice_index_or rows.new k d)) }
{
    let _cells = net.cells();
    let value = upper(net, lengths, rows);
    let room = match earlier {
        Some(earlier) => {
            if earlier.value.cmp(&value) != Ordering::Greater {
                return Ok(earlier);
            }
            earlier.dual
        }
        None => Dual::new(alloc),
    };
    let dual = assembled_from(alloc, room, lengths, rows)?;
    Ok(Bounded { dual, value })
}

// Fills rows anew with distances, each search from the tree of the one before. A row for which no memory was left is not filled.
fn refill<R: Threads + Sync>(
    team: &Team<'_, R>,
    alloc: Global,
    graph: &Graph,
    lengths: &[u64],
    rows: &mut [Row],
)
    requires lengths { AreLengths graph.now.cells lengths.now }
    requires rows { All (IsRoom graph.now.nodes) rows.old }
    ensures demands { demands_of rows.new ≡ demands_of rows.old }
    ensures distances { All (HasDistances graph.now lengths.now) rows.new }
{
    blank_all(rows);
    fill_all(team, alloc, graph, lengths, rows);
}

/// Fills rows anew with distances, in the caller's thread; they may be those of some sources alone. Each search begins at the tree of the
/// one before. A row for which no memory was left is not filled.
pub fn refill_rows(alloc: Global, graph: &Graph, lengths: &[u64], rows: &mut [Row])
    requires lengths { AreLengths graph.now.cells lengths.now }
    requires rows { All (IsRoom graph.now.nodes) rows.old }
    ensures demands { demands_of rows.new ≡ demands_of rows.old }
    ensures distances { All (HasDistances graph.now lengths.now) rows.new }
{
    blank_all(rows);
    fill_rows(alloc, graph, lengths, rows);
}

/// The bound of these lengths, of rows that were filled with distances, or an earlier one that is not greater. After an
/// `Ok` the rows are room for the next bound; what they hold is not said. `Err`: out of memory, which a row that is not filled
/// stands for; then the rows are of no more use, and the earlier bound is gone too.
pub fn lesser_of_rows(
    alloc: Global,
    net: &Net,
    lengths: &[u64],
    rows: &mut [Row],
    earlier: Option<Bounded>,
) -> Result<Bounded, AllocError>
    requires lengths { AreLengths net.now.cells lengths.now }
    requires empty { EmptyAreFar net.now.cells lengths.now }
    requires demands { demands_of rows.old ≡ demands_in net.now }
    requires distances { All (HasDistances net.now lengths.now) rows.old }
    ensures rows { OnOk result (AreRoom net.now rows.new) }
    ensures lesser { IfOk result (IsLesser net.now lengths.now earlier) }
{
    let _cells = net.cells();
    if are_filled(rows) {
        lesser(alloc, net, lengths, rows, earlier)
    } else {
        Err(AllocError)
    }
}

// A row of marks for each source: 0 for what it reaches, 1 for what it does not.
fn cut_rows(alloc: Global, net: &Net, graph: &Graph) -> Result<Vec<Row>, AllocError>
    requires graph { graph.now ≡ net.now }
    ensures demands { IfOk result (λ rows. demands_of rows.items ≡ demands_in net.now) }
    ensures filled { IfOk result (λ rows. All
        (IsFilledWith net.now.nodes (IsCutPotential net.now.cells)) rows.items) }
{
    let mut rows = source_rows(alloc, net)?;
    mark_all(alloc, graph, &mut rows)?;
    Ok(rows)
}

/// The bound of these lengths: the dual has every cell's length in order, and for each source, in order of nodes, the
/// distance of each node or 2^62 where there is none. It may wait for its own threads.
pub fn bound<R: Threads + Sync>(
    rt: &R,
    alloc: Global,
    net: &Net,
    graph: &Graph,
    lengths: &[u64],
) -> Result<Bounded, AllocError>
    requires graph { graph.now ≡ net.now }
    requires lengths { AreLengths net.now.cells lengths.now }
    requires empty { EmptyAreFar net.now.cells lengths.now }
    ensures { IfOk result (IsBounded net.now lengths.now) }
{
    let mut rows = source_rows(alloc, net)?;
    let team = Team {
        rt,
        threads: MAX_WORKERS,
    };
    lesser_in(&team, alloc, net, graph, lengths, &mut rows, None)
}

/// As `bound`, or an earlier bound that is not greater, in rows that are kept from one bound to the next. After an `Err` the rows are
/// of no more use, and the earlier bound is gone too.
pub fn lesser_in<R: Threads + Sync>(
    team: &Team<'_, R>,
    alloc: Global,
    net: &Net,
    graph: &Graph,
    lengths: &[u64],
    rows: &mut [Row],
    earlier: Option<Bounded>,
) -> Result<Bounded, AllocError>
    requires graph { graph.now ≡ net.now }
    requires lengths { AreLengths net.now.cells lengths.now }
    requires empty { EmptyAreFar net.now.cells lengths.now }
    requires rows { AreRoom net.now rows.old }
    ensures rows { OnOk result (AreRoom net.now rows.new) }
    ensures lesser { IfOk result (IsLesser net.now lengths.now earlier) }
{
    refill(team, alloc, graph, lengths, rows);
    lesser_of_rows(alloc, net, lengths, rows, earlier)
}

/// The bound of a network with a first cut, 0: a cell without capacity has length 1 and every other 0; a node that a source
/// reaches over positive cells has potential 0 in the source's row, and every other 1.
pub fn cut_bound(alloc: Global, net: &Net, graph: &Graph) -> Result<Bounded, AllocError>
    requires graph { graph.now ≡ net.now }
    requires cut { (k : ℕ) × IsFirstCut net.now k }
    ensures dual { IfOk result (λ b. IsCutDual net.now b.dual) }
    ensures shows { IfOk result (λ b. ShowsBound net.now (cut_lengths net.now.cells) b.dual) }
    ensures value { IfOk result (λ b. b.value ≡ upper_of net.now b.dual) }
    ensures zero { IfOk result (λ b. b.value.num ≡ 0) }
{
    let lengths = lengths_of_cut(alloc, net.cells())?;
    let mut rows = cut_rows(alloc, net, graph)?;
    lesser(alloc, net, &lengths, &mut rows, None)
}

// 1 for a cell without capacity, 0 for every other.
fn lengths_of_cut(alloc: Global, cells: &[Cell]) -> Result<Vec<u64>, AllocError>
    ensures { IfOk result (λ lengths. lengths.items ≡ cut_lengths cells.now) }
{
    let mut lengths = Vec::with_capacity(alloc, cells.len())?;
    for cell in cells {
        lengths.push(u64::from(cell.cap == 0))?;
    }
    Ok(lengths)
}
