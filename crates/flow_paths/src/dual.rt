//! Lengths of cells, and rows of potentials.

ghost use Rattle.std.specs.Prelude.{◌≡◌, ◌<◌};

use mcf_limits::MAX_LENGTH;
use std::alloc::{AllocError, Global};
use std::marker::Model;
use std::mem;

#[derive(Clone, Copy)]
struct LengthRow {
    cell: u16,
    value: u64,
}

#[derive(Drop)]
struct PotentialRow {
    node: u16,
    values: Vec<u64>,
}

/// Rows of a cell and its length, and rows of a node and one potential per node. The memory of rows that were left out serves rows that
/// come later.
#[derive(Drop)]
pub struct Dual {
    lengths: Vec<LengthRow>,
    potentials: Vec<PotentialRow>,
    spare: Vec<PotentialRow>,
}

impl Model for Dual {
    ghost use Rattle.flow_paths.specs.DualRows.{DualRows};

    ghost Value = { DualRows };

    ghost use Rattle.flow_paths.specs.DualViews.{lengths_of_rows, potentials_of_rows, AreWithinLimits};

    ghost view = { λ d. record {
      lengths = lengths_of_rows d.lengths.items;
      potentials = potentials_of_rows d.potentials.items;
    } };

    ghost invariant = { λ d. AreWithinLimits d.lengths.items d.potentials.items };
}

impl Dual {
    ghost use Rattle.std.specs.Prelude.{◌≡◌, ◌≤◌, ◌<◌, ◌^◌, ◌++◌, ◌∷◌, [], length, All, OnErr, OnOk};
    ghost use Rattle.flow_paths.specs.DualRows.{length_at, potential_at};

    /// No rows.
    pub fn new(alloc: Global) -> Self
        ensures { result ≡ record { lengths = []; potentials = [] } }
    {
        Dual {
            lengths: Vec::new(alloc),
            potentials: Vec::new(alloc),
            spare: Vec::new(alloc),
        }
    }

    /// Leaves out all rows, and keeps their memory.
    pub fn clear(&mut self)
        ensures { self.new ≡ record { lengths = []; potentials = [] } }
    {
        self.lengths.clear();
        mem::swap(&mut self.potentials, &mut self.spare);
        self.potentials.clear();
        // the first row to come takes the memory of the first one
        self.spare.reverse();
    }

    // Memory for a row of potentials, if there is any to spare.
    fn spare_values(&mut self, alloc: Global) -> Vec<u64>
        ensures { self.new ≡ self.old }
    {
        match self.spare.pop() {
            Some(row) => row.values,
            None => Vec::new(alloc),
        }
    }

    /// Appends a length row.
    pub fn push_length(&mut self, cell: u16, value: u64) -> Result<(), AllocError>
        requires { value ≤ MAX_LENGTH }
        ensures ok { OnOk result (self.new ≡ record {
          lengths = self.old.lengths ++ record { cell = cell; value = value } ∷ [];
          potentials =
              self.old.potentials;
        }) }
        ensures err { OnErr result (self.new ≡ self.old) }
    {
        self.lengths.push(LengthRow { cell, value })?;
        Ok(())
    }

    /// Appends a row of potentials.
    pub fn push_row(&mut self, alloc: Global, node: u16, values: &[u64]) -> Result<(), AllocError>
        requires { All (λ p. p ≤ MAX_LENGTH) values.now }
        ensures ok { OnOk result (self.new ≡ record {
          lengths = self.old.lengths;
          potentials = self.old.potentials ++ record
              { node = node; values = values.now } ∷ [];
        }) }
        ensures err { OnErr result (self.new ≡ self.old) }
    {
        let mut room = self.spare_values(alloc);
        room.clear();
        room.extend_from_slice(values)?;
        self.potentials.push(PotentialRow { node, values: room })?;
        Ok(())
    }

    /// Appends `values` as a row without copying; leaves a spare buffer of the same length with unspecified content. `Err`: out of memory.
    pub fn push_taken(
        &mut self,
        alloc: Global,
        node: u16,
        values: &mut Vec<u64>,
    ) -> Result<(), AllocError>
        requires { All (λ p. p ≤ MAX_LENGTH) values.old.items }
        ensures ok { OnOk result (self.new ≡ record {
          lengths = self.old.lengths;
          potentials = self.old.potentials ++ record
              { node = node; values = values.old.items } ∷ [];
        }) }
        ensures left { OnOk result (length values.new.items ≡ length values.old.items) }
        ensures err { OnErr result ((self.new ≡ self.old) × (values.new ≡ values.old)) }
    {
        let mut others = self.spare_values(alloc);
        if others.len() != values.len() {
            others = vec![in alloc; 0; values.len()]?;
        }
        self.potentials.reserve(1)?;
        let taken = mem::replace(values, others);
        self.potentials.push(PotentialRow {
            node,
            values: taken,
        })?;
        Ok(())
    }

    /// The number of length rows.
    pub fn lengths(&self) -> usize
        ensures { result ≡ length self.now.lengths }
    {
        self.lengths.len()
    }

    /// The cell and the length of a row.
    pub fn length(&self, i: usize) -> (u16, u64)
        requires { i < length self.now.lengths }
        ensures cell { result.0 ≡ (length_at self.now.lengths i).cell }
        ensures value { result.1 ≡ (length_at self.now.lengths i).value }
        ensures limit { result.1 ≤ MAX_LENGTH }
    {
        let row = self.lengths[i];
        (row.cell, row.value)
    }

    /// The number of rows of potentials, none of which has a number over the limit.
    pub fn rows(&self) -> usize
        ensures count { result ≡ length self.now.potentials }
        ensures limits { All (λ r. All (λ p. p ≤ MAX_LENGTH) r.values) self.now.potentials }
    {
        self.potentials.len()
    }

    /// The node of a row of potentials.
    pub fn row_node(&self, i: usize) -> u16
        requires { i < length self.now.potentials }
        ensures { result ≡ (potential_at self.now.potentials i).node }
    {
        self.potentials[i].node
    }

    /// The potentials of a row.
    pub fn row(&self, i: usize) -> &[u64]
        requires { i < length self.now.potentials }
        ensures value { result.now ≡ (potential_at self.now.potentials i).values }
        ensures limit { All (λ p. p ≤ MAX_LENGTH) result.now }
    {
        &self.potentials[i].values
    }
}
