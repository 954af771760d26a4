//! Layers of numbers of nodes, in rows.

ghost use Rattle.std.specs.Prelude.{◌≡◌, ◌<◌};

use mcf_limits::MAX_LENGTH;
use std::alloc::{AllocError, Global};
use std::marker::Model;

#[derive(Drop)]
struct LayerRow {
    node: u16,
    index: u8,
    values: Vec<u64>,
}

/// Rows of a source and an index, with one number per node.
#[derive(Drop)]
pub struct Layers {
    rows: Vec<LayerRow>,
}

impl Model for Layers {
    ghost use Rattle.std.specs.Prelude.{List};
    ghost use Rattle.hop_check.specs.LayerRows.{Layer};

    ghost Value = { List Layer };

    ghost use Rattle.hop_check.specs.LayerViews.{layers_of_rows, AreWithinLimits};

    ghost view = { λ l. layers_of_rows l.rows.items };

    ghost invariant = { λ l. AreWithinLimits l.rows.items };
}

impl Layers {
    ghost use Rattle.std.specs.Prelude.{◌≡◌, ◌≤◌, ◌<◌, ◌++◌, ◌∷◌, [], length, All, OnErr, OnOk};
    ghost use Rattle.hop_check.specs.LayerRows.{layer_at};

    /// No rows.
    pub fn new(alloc: Global) -> Self
        ensures { result ≡ [] }
    {
        Layers {
            rows: Vec::new(alloc),
        }
    }

    /// Appends a row: the numbers, of at most 2^62 each, are one per node. `Err`: out of memory, and leaves the
    /// rows as they were.
    pub fn push(
        &mut self,
        alloc: Global,
        node: u16,
        index: u8,
        values: &[u64],
    ) -> Result<(), AllocError>
        requires { All (λ p. p ≤ MAX_LENGTH) values.now }
        ensures ok { OnOk result (self.new ≡ self.old ++ record
            { node = node; index = index; values = values.now } ∷ []) }
        ensures err { OnErr result (self.new ≡ self.old) }
    {
        let row = LayerRow {
            node,
            index,
            values: Vec::from_slice(alloc, values)?,
        };
        self.rows.push(row)?;
        Ok(())
    }

    /// The number of rows.
    pub fn rows(&self) -> usize
        ensures { result ≡ length self.now }
    {
        self.rows.len()
    }

    /// The source of a row.
    pub fn node(&self, i: usize) -> u16
        requires { i < length self.now }
        ensures { result ≡ (layer_at self.now i).node }
    {
        self.rows[i].node
    }

    /// The index of a row.
    pub fn index(&self, i: usize) -> u8
        requires { i < length self.now }
        ensures { result ≡ (layer_at self.now i).index }
    {
        self.rows[i].index
    }

    /// The numbers of a row, in the order of nodes: at most 2^62 each.
    pub fn values(&self, i: usize) -> &[u64]
        requires { i < length self.now }
        ensures value { result.now ≡ (layer_at self.now i).values }
        ensures limit { All (λ p. p ≤ MAX_LENGTH) result.now }
    {
        &self.rows[i].values
    }
}
