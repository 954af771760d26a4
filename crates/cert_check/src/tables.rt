//! Length rows and potential rows, looked up by cell and by node.

ghost use Rattle.std.specs.Prelude.{◌≡◌, ℕ, ◌^◌, ◌<◌, ◌≤◌, ◌↔◌, ◌==◌, All, length, map, count_by, IsTrue, IfOk, slice_index, if◌then◌else◌};
ghost use Rattle.std.specs.List.{range_with_len};
ghost use Rattle.flow_paths.specs.Certificate.{length_of};
ghost use Rattle.flow_model.specs.Groups.{is_source};

use flow_model::Commodity;
use flow_paths::Dual;
use mcf_limits::MAX_LENGTH;
use std::alloc::{AllocError, Global};

/// How many length rows each cell has.
pub fn length_counts(alloc: Global, cells: usize, dual: &Dual) -> Result<Vec<u64>, AllocError>
    requires { All (λ r. r.cell < cells) dual.now.lengths }
    ensures len { IfOk result (λ v. length v.items ≡ cells) }
    ensures value { IfOk result (λ v. (c : ℕ) → c < cells
        → slice_index v.items c ≡ count_by (λ r. r.cell == c) dual.now.lengths) }
{
    let mut counts = vec![in alloc; 0u64; cells]?;
    for i in 0..dual.lengths() {
        let (cell, _) = dual.length(i);
        counts[cell as usize] += 1;
    }
    Ok(counts)
}

/// Each cell's length, where each has one row.
pub fn cell_lengths(alloc: Global, cells: usize, dual: &Dual) -> Result<Vec<u64>, AllocError>
    requires named { All (λ r. r.cell < cells) dual.now.lengths }
    requires once { (c : ℕ) → c < cells → count_by (λ r. r.cell == c) dual.now.lengths ≡ 1 }
    ensures len { IfOk result (λ v. length v.items ≡ cells) }
    ensures value { IfOk result (λ v. v.items ≡ map (length_of dual.now.lengths) (range_with_len 0 cells)) }
    ensures limit { IfOk result (λ v. All (λ n. n ≤ MAX_LENGTH) v.items) }
{
    let mut table = vec![in alloc; 0u64; cells]?;
    for i in 0..dual.lengths() {
        let (cell, value) = dual.length(i);
        table[cell as usize] = value;
    }
    Ok(table)
}

/// How many rows of potentials each node has, in the order of nodes. Each row's node is below `nodes`.
pub fn row_counts(alloc: Global, nodes: usize, dual: &Dual) -> Result<Vec<u64>, AllocError>
    requires { All (λ r. r.node < nodes) dual.now.potentials }
    ensures len { IfOk result (λ v. length v.items ≡ nodes) }
    ensures value { IfOk result (λ v. (c : ℕ) → c < nodes
        → slice_index v.items c ≡ count_by (λ r. r.node == c) dual.now.potentials) }
{
    let mut counts = vec![in alloc; 0u64; nodes]?;
    for i in 0..dual.rows() {
        counts[dual.row_node(i) as usize] += 1;
    }
    Ok(counts)
}

/// How many rows of potentials each node is to have, in the order of nodes: one where some commodity starts there, else
/// none. Each commodity starts at a node below `nodes`.
pub fn wanted_counts(
    alloc: Global,
    nodes: usize,
    commodities: &[Commodity],
) -> Result<Vec<u64>, AllocError>
    requires { All (λ k. k.from < nodes) commodities.now }
    ensures len { IfOk result (λ v. length v.items ≡ nodes) }
    ensures value { IfOk result (λ v. (c : ℕ) → c < nodes
        → slice_index v.items c ≡ (if is_source commodities.now c then 1 else 0)) }
{
    let mut wanted = vec![in alloc; 0u64; nodes]?;
    for k in commodities {
        wanted[k.from as usize] = 1;
    }
    Ok(wanted)
}

/// Whether each count is 1.
pub fn are_ones(counts: &[u64]) -> bool
    ensures { IsTrue result ↔ ((c : ℕ) → c < length counts.now → slice_index counts.now c ≡ 1) }
{
    for n in counts {
        if *n != 1 {
            return false;
        }
    }
    true
}

/// Whether each count is the one that is wanted at its place. There are as many of either.
pub fn are_wanted(counts: &[u64], wanted: &[u64]) -> bool
    requires { length counts.now ≡ length wanted.now }
    ensures { IsTrue result ↔ ((c : ℕ) → c < length counts.now
        → slice_index counts.now c ≡ slice_index wanted.now c) }
{
    for (c, n) in counts.iter().enumerate() {
        if *n != wanted[c] {
            return false;
        }
    }
    true
}
