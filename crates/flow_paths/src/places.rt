//! Rows of potentials, looked up by node.

ghost use Rattle.std.specs.Prelude.{◌≡◌, ℕ, ◌<◌, ◌≤◌, ◌==◌, All, Some, length, find, count_by, IfOk, slice_index};
ghost use Rattle.flow_paths.specs.DualRows.{potential_at};

use crate::Dual;
use std::alloc::{AllocError, Global};

/// The number of the row of potentials of each node that has one, where none has two.
pub fn row_places(alloc: Global, nodes: usize, dual: &Dual) -> Result<Vec<usize>, AllocError>
    requires named { All (λ r. r.node < nodes) dual.now.potentials }
    requires once { (v : ℕ) → v < nodes → count_by (λ r. r.node == v) dual.now.potentials ≤ 1 }
    ensures len { IfOk result (λ v. length v.items ≡ nodes) }
    ensures value { IfOk result (λ places. (v : ℕ) → v < nodes
        → count_by (λ r. r.node == v) dual.now.potentials ≡ 1
        → (slice_index places.items v < length dual.now.potentials)
        × (find (λ r. r.node == v) dual.now.potentials
        ≡ Some (potential_at dual.now.potentials (slice_index places.items v)))) }
{
    let mut places = vec![in alloc; 0usize; nodes]?;
    for i in 0..dual.rows() {
        places[dual.row_node(i) as usize] = i;
    }
    Ok(places)
}
