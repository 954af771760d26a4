//! A row for each source of a commodity, in the order of nodes.

ghost use Rattle.std.specs.Prelude.{◌≡◌, ℕ, max, ◌<◌, ◌≤◌, [], All, IfOk, OnOk, length, map, slice_index, slice_index_or, false, if◌then◌else◌};
ghost use Rattle.std.specs.List.{sum_by};
ghost use Rattle.flow_model.specs.Lengths.{AreLengths};
ghost use Rattle.dijkstra_paths.specs.Searched.{dist_at};
ghost use Rattle.flow_model.specs.Least.{far_or};
ghost use Rattle.dual_bound.specs.Rows.{Fills, IsBlank, IsFilledWith, IsMadeBlank, demands_in, demands_of, mark_at, target_at, weighted_from};
ghost use Rattle.dual_bound.specs.Bounds.{IsCutPotential};

use crate::team::Team;
use dijkstra_paths::{Graph, Scratch, Tree};
use flow_model::{Commodity, Groups, Net};
use mcf_limits::{MAX_LENGTH, MAX_NODES, MAX_TOTAL};
use std::alloc::{AllocError, Global};
use std::thread::Threads;

// From this product of rows and cells on the searches take longer than the start of a few threads.
const WORK_OF_A_START: usize = 1 << 15;

/// A node that a commodity goes to, and the commodity's amount.
#[derive(Clone, Copy)]
pub struct Target {
    /// The node.
    pub to: u16,
    /// The amount, in units.
    pub amount: u64,
}

/// A source with a number for each node: a distance or a mark, of at most 2^62. A row that is not filled is blank. It may have targets;
/// `weighted` of a filled row is the sum over them of amount times the target's number less the source's, or 0 where that is negative. The
/// tree is what the last search for distances left, where the next one begins.
#[derive(Drop)]
pub struct Row {
    /// The node of the source.
    pub source: u16,
    /// Where its commodities go to.
    pub targets: Vec<Target>,
    /// Whether the row has its numbers.
    pub is_filled: bool,
    /// The number of each node.
    pub values: Vec<u64>,
    /// The sum over the targets, where the row is filled.
    pub weighted: u128,
    /// What the last search for distances left.
    pub tree: Tree,
}

// A blank row of the source with these targets, over `nodes` nodes.
fn row_with(alloc: Global, source: u16, nodes: u16, targets: Vec<Target>) -> Result<Row, AllocError>
    requires source { source < nodes }
    requires targets { All (λ t. t.to < nodes) targets.items }
    requires total { sum_by (λ t. t.amount) targets.items ≤ MAX_TOTAL }
    ensures source { IfOk result (λ row. row.source ≡ source) }
    ensures targets { IfOk result (λ row. row.targets.items ≡ targets.items) }
    ensures blank { IfOk result (IsBlank nodes) }
{
    Ok(Row {
        source,
        targets,
        is_filled: false,
        values: vec![in alloc; 0; nodes as usize]?,
        weighted: 0,
        tree: Tree::new(alloc, nodes)?,
    })
}

/// A blank row of the source, over `nodes` nodes, without targets.
pub fn blank_row(alloc: Global, source: u16, nodes: u16) -> Result<Row, AllocError>
    requires { source < nodes }
    ensures source { IfOk result (λ row. row.source ≡ source) }
    ensures targets { IfOk result (λ row. row.targets.items ≡ []) }
    ensures blank { IfOk result (IsBlank nodes) }
{
    row_with(alloc, source, nodes, Vec::new(alloc))
}

// Where the commodities of these numbers go to.
fn targets_at(
    alloc: Global,
    commodities: &[Commodity],
    members: &[u32],
) -> Result<Vec<Target>, AllocError>
    requires { All (λ k. k < length commodities.now) members.now }
    ensures { IfOk result (λ targets. targets.items ≡ map (target_at commodities.now) members.now) }
{
    let mut targets = Vec::with_capacity(alloc, members.len())?;
    for k in members {
        let Commodity { to, amount, .. } = commodities[*k as usize];
        targets.push(Target { to, amount })?;
    }
    Ok(targets)
}

/// A blank row for each node that is the source of a commodity, in the order of nodes, with the commodities of the source as targets.
pub fn source_rows(alloc: Global, net: &Net) -> Result<Vec<Row>, AllocError>
    ensures demands { IfOk result (λ rows. demands_of rows.items ≡ demands_in net.now) }
    ensures blank { IfOk result (λ rows. All (IsBlank net.now.nodes) rows.items) }
{
    let groups = Groups::new(alloc, net)?;
    let commodities = net.commodities();
    let mut rows = Vec::with_capacity(alloc, groups.count() as usize)?;
    for g in 0..groups.count() {
        let targets = targets_at(alloc, commodities, groups.members(g))?;
        rows.push(row_with(alloc, groups.source(g), net.nodes(), targets)?)?;
    }
    Ok(rows)
}

fn make_blank(row: &mut Row)
    ensures { IsMadeBlank row.old row.new }
{
    row.is_filled = false;
}

/// Makes the rows blank, and keeps their targets and trees.
pub fn blank_all(rows: &mut [Row])
    ensures { (k : ℕ) (d : _) → k < length rows.old
        → IsMadeBlank (slice_index_or rows.old k d) (slice_index_or rows.new k d) }
{
    for row in rows.iter_mut() {
        make_blank(row);
    }
}

// Puts each node's distance in its place, and 2^62 where there is none.
fn put_distances(scratch: &Scratch, values: &mut [u64])
    requires count { length values.old ≡ scratch.now.nodes }
    requires few { scratch.now.nodes ≤ MAX_NODES }
    ensures each { (v : ℕ) → v < scratch.now.nodes → slice_index values.new v ≡ far_or (dist_at scratch.now v) }
    ensures small { All (λ x. x ≤ MAX_LENGTH) values.new }
{
    for (v, value) in values.iter_mut().enumerate() {
        *value = scratch.dist(v as u16).unwrap_or(MAX_LENGTH);
    }
}

// Amount times the target's number less the source's, or 0 where that is negative, over all targets.
fn weighted_sum(source: u16, targets: &[Target], values: &[u64]) -> u128
    requires source { source < length values.now }
    requires targets { All (λ t. t.to < length values.now) targets.now }
    requires total { sum_by (λ t. t.amount) targets.now ≤ MAX_TOTAL }
    requires small { All (λ n. n ≤ MAX_LENGTH) values.now }
    ensures { result ≡ weighted_from source values.now targets.now }
{
    let from = values[source as usize];
    let mut total = 0u128;
    for target in targets {
        let far = values[target.to as usize].saturating_sub(from);
        total += u128::from(target.amount) * u128::from(far);
    }
    total
}

fn fill_row(scratch: &mut Scratch, graph: &Graph, lengths: &[u64], row: &mut Row)
    requires lengths { AreLengths graph.now.cells lengths.now }
    requires scratch { scratch.old.nodes ≡ graph.now.nodes }
    requires row { IsBlank graph.now.nodes row.old }
    ensures scratch { scratch.new.nodes ≡ scratch.old.nodes }
    ensures row { Fills graph.now lengths.now row.old row.new }
{
    let _nodes = graph.nodes();
    scratch.search_from(graph, lengths, row.source, &mut row.tree);
    put_distances(scratch, &mut row.values);
    row.weighted = weighted_sum(row.source, &row.targets, &row.values);
    row.is_filled = true;
}

/// Fills each blank row with the distances from its source: the length of a least walk over positive cells, or 2^62 where
/// there is none. Without memory for a search all rows stay blank. It starts no thread.
pub fn fill_rows(alloc: Global, graph: &Graph, lengths: &[u64], rows: &mut [Row])
    requires lengths { AreLengths graph.now.cells lengths.now }
    requires rows { (k : ℕ) (d : _) → k < length rows.old → IsBlank graph.now.nodes (slice_index_or rows.old k d) }
    ensures { (k : ℕ) (d : _) → k < length rows.old
        → Fills graph.now lengths.now (slice_index_or rows.old k d) (slice_index_or rows.new k d) }
{
    let nodes = graph.nodes();
    let mut scratch = match Scratch::new(alloc, nodes, lengths.len() as u16) {
        Ok(scratch) => scratch,
        Err(_) => return,
    };
    for row in rows.iter_mut() {
        fill_row(&mut scratch, graph, lengths, row);
    }
}

// The number of threads to fill the rows in, at most `most`: one where starting others would take longer than the
// searches. 0 stands for 1.
fn thread_count(rt: &impl Threads, cells: usize, rows: usize, most: u16) -> usize
    ensures some { 1 ≤ result }
    ensures few { result ≤ max most 1 }
{
    if most <= 1 || rows.saturating_mul(cells) < WORK_OF_A_START {
        return 1;
    }
    mcf_base::thread_count(rt, most)
}

/// Fills each row with the distances from its source, in several threads where that pays. Rows for which no memory was left stay
/// blank.
pub fn fill_all<R: Threads + Sync>(
    team: &Team<'_, R>,
    alloc: Global,
    graph: &Graph,
    lengths: &[u64],
    rows: &mut [Row],
)
    requires lengths { AreLengths graph.now.cells lengths.now }
    requires rows { (k : ℕ) (d : _) → k < length rows.old → IsBlank graph.now.nodes (slice_index_or rows.old k d) }
    ensures { (k : ℕ) (d : _) → k < length rows.old
        → Fills graph.now lengths.now (slice_index_or rows.old k d) (slice_index_or rows.new k d) }
{
    let rt = team.rt;
    let threads = thread_count(rt, lengths.len(), rows.len(), team.threads);
    if threads == 1 || rows.is_empty() {
        fill_rows(alloc, graph, lengths, rows);
        return;
    }
    mcf_base::for_each_chunk_mut(
        rt,
        rows,
        rows.len().div_ceil(threads),
        &|_: usize, part: &mut [Row]|
            requires { AreLengths graph.now.cells lengths.now
                × ((k : ℕ) (d : _) → k < length part.now → IsBlank graph.now.nodes (slice_index_or part.now k d)) }
            ensures { (k : ℕ) (d : _) → k < length part.entry.now
                → Fills graph.entry.now lengths.entry.now (slice_index_or part.entry.now k d)
                (slice_index_or part.exit.now k d) }
        { fill_rows(alloc, graph, lengths, part) },
    );
}

// Puts 0 for a node that was reached, and 1 for every other.
fn put_marks(reached: &[bool], values: &mut [u64])
    requires { length values.old ≡ length reached.now }
    ensures { (v : ℕ) → v < length reached.now
        → slice_index values.new v ≡ (if mark_at reached.now v then 0 else 1) }
{
    for (v, value) in values.iter_mut().enumerate() {
        *value = u64::from(!reached[v]);
    }
}

fn mark_row(alloc: Global, graph: &Graph, row: &mut Row) -> Result<(), AllocError>
    requires { IsBlank graph.now.nodes row.old }
    ensures source { OnOk result (row.new.source ≡ row.old.source) }
    ensures targets { OnOk result (row.new.targets ≡ row.old.targets) }
    ensures marks { OnOk result (IsFilledWith graph.now.nodes (IsCutPotential graph.now.cells) row.new) }
{
    let _nodes = graph.nodes();
    let reached = graph.reach(alloc, row.source)?;
    put_marks(&reached, &mut row.values);
    row.weighted = weighted_sum(row.source, &row.targets, &row.values);
    row.is_filled = true;
    Ok(())
}

/// Fills each blank row with 0 for a node that its source reaches over positive cells, and 1 for every other. `Err`: out
/// of memory.
pub fn mark_all(alloc: Global, graph: &Graph, rows: &mut [Row]) -> Result<(), AllocError>
    requires rows { (k : ℕ) (d : _) → k < length rows.old → IsBlank graph.now.nodes (slice_index_or rows.old k d) }
    ensures sources { OnOk result ((k : ℕ) (d : _) → k < length rows.old
        → (slice_index_or rows.new k d).source ≡ (slice_index_or rows.old k d).source) }
    ensures targets { OnOk result ((k : ℕ) (d : _) → k < length rows.old
        → (slice_index_or rows.new k d).targets ≡ (slice_index_or rows.old k d).targets) }
    ensures marks { OnOk result (All (IsFilledWith graph.now.nodes (IsCutPotential graph.now.cells)) rows.new) }
{
    for row in rows.iter_mut() {
        mark_row(alloc, graph, row)?;
    }
    Ok(())
}
