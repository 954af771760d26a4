//! Path rows in buffers: the cells of all of them one after the other.

ghost use Rattle.std.specs.Prelude.{◌≡◌, ◌<◌};

use mcf_limits::MAX_LENGTH;
use std::alloc::{AllocError, Global};
use std::marker::Model;

#[derive(Clone, Copy)]
struct PathRow {
    commodity: u32,
    start: usize,
    len: usize,
    weight: u64,
}

#[derive(Drop)]
pub struct RowBuffer {
    cells: Vec<u16>,
    rows: Vec<PathRow>,
}

impl Model for RowBuffer {
    ghost use Rattle.std.specs.Prelude.{List};
    ghost use Rattle.flow_model.specs.Routing.{Row};

    ghost Value = { List Row };

    ghost use Rattle.flow_paths.specs.PathRows.{rows_of, AreRows};

    ghost view = { λ s. rows_of s.cells.items s.rows.items };

    ghost invariant = { λ s. AreRows s.cells.items s.rows.items };
}

impl RowBuffer {
    ghost use Rattle.std.specs.Prelude.{◌≡◌, ◌+◌, ◌≤◌, ◌<◌, ◌++◌, ◌∷◌, [], length, IfOk, OnErr, OnOk};
    ghost use Rattle.flow_paths.specs.PathRows.{row_at, grown};

    pub fn new(alloc: Global) -> Self
        ensures { result ≡ [] }
    {
        RowBuffer {
            cells: Vec::new(alloc),
            rows: Vec::new(alloc),
        }
    }

    pub fn rows(&self) -> u32
        ensures { result ≡ length self.now }
    {
        self.rows.len() as u32
    }

    pub fn commodity(&self, row: u32) -> u32
        requires { row < length self.now }
        ensures { result ≡ (row_at self.now row).commodity }
    {
        self.rows[row as usize].commodity
    }

    pub fn weight(&self, row: u32) -> u64
        requires { row < length self.now }
        ensures value { result ≡ (row_at self.now row).weight }
        ensures limit { result ≤ MAX_LENGTH }
    {
        self.rows[row as usize].weight
    }

    pub fn path(&self, row: u32) -> &[u16]
        requires { row < length self.now }
        ensures { result.now ≡ (row_at self.now row).walk }
    {
        let row = self.rows[row as usize];
        &self.cells[row.start..row.start + row.len]
    }

    pub fn push(&mut self, k: u32, path: &[u16], weight: u64) -> Result<u32, AllocError>
        requires room { length self.old < 4294967295 }
        requires weight { weight ≤ MAX_LENGTH }
        ensures ok { OnOk result (self.new ≡ self.old ++ record
            { commodity = k; walk = path.now; weight = weight } ∷ []) }
        ensures number { IfOk result (λ n. n ≡ length self.old) }
        ensures err { OnErr result (self.new ≡ self.old) }
    {
        let row = PathRow {
            commodity: k,
            start: self.cells.len(),
            len: path.len(),
            weight,
        };
        let number = self.rows.len() as u32;
        self.cells.reserve(path.len())?;
        self.rows.reserve(1)?;
        self.cells.extend_from_slice(path)?;
        self.rows.push(row)?;
        Ok(number)
    }

    /// Makes the row's weight greater.
    pub fn grow(&mut self, row: u32, amount: u64)
        requires row { row < length self.old }
        requires weight { (row_at self.old row).weight + amount ≤ MAX_LENGTH }
        ensures { self.new ≡ grown self.old row amount }
    {
        self.rows[row as usize].weight += amount;
    }
}
