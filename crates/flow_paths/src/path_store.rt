//! Weighted paths, the cells of all of them in one buffer.

ghost use Rattle.std.specs.Prelude.{◌≡◌, ◌<◌, ◌↔◌, IsTrue, MatchOption, OnOk, length, map};
ghost use Rattle.flow_paths.specs.PathKey.{key_of, row_key};
ghost use Rattle.flow_paths.specs.PathRows.{row_at, HasPath, HasNoRowBelow, IsFirstRow};
ghost use Rattle.flow_paths.specs.KeyIndex.{IsIndexOf};

use crate::key_index::KeyIndex;
use crate::row_buffer::RowBuffer;
use mcf_limits::MAX_LENGTH;
use std::alloc::{AllocError, Global};
use std::marker::Model;

/// Rows of a commodity, the cells of a path, and a weight.
#[derive(Drop)]
pub struct PathStore {
    rows: RowBuffer,
    // The keys of the first rows. `add` brings it up to the last row before it looks for one.
    index: KeyIndex,
}

impl Model for PathStore {
    ghost use Rattle.std.specs.Prelude.{List};
    ghost use Rattle.flow_model.specs.Routing.{Row};

    ghost Value = { List Row };

    ghost use Rattle.flow_paths.specs.KeyIndex.{IsIndexOf};

    ghost view = { λ s. s.rows };

    ghost invariant = { λ s. IsIndexOf s.index s.rows };
}

// The key of a commodity and a path.
fn path_key(k: u32, path: &[u16]) -> u64
    ensures { result ≡ key_of k path.now }
{
    let mut key = k as u64;
    for c in path {
        key = key.wrapping_mul(1099511628211).wrapping_add(*c as u64);
    }
    key
}

// Whether the row is of this commodity and path.
fn has_path(rows: &RowBuffer, row: u32, k: u32, path: &[u16]) -> bool
    requires { row < length rows.now }
    ensures { IsTrue result ↔ HasPath k path.now (row_at rows.now row) }
{
    rows.commodity(row) == k && rows.path(row) == path
}

// Appends the keys of the rows that are not in the index yet.
fn catch_up(index: &mut KeyIndex, rows: &RowBuffer) -> Result<(), AllocError>
    requires { IsIndexOf index.old rows.now }
    ensures part { IsIndexOf index.new rows.now }
    ensures whole { OnOk result (index.new ≡ map row_key rows.now) }
{
    for row in index.len()..rows.rows() {
        index.push(path_key(rows.commodity(row), rows.path(row)))?;
    }
    Ok(())
}

// The first row of this commodity and path, where the index has one.
fn first_row(rows: &RowBuffer, index: &KeyIndex, k: u32, path: &[u16]) -> Option<u32>
    requires { IsIndexOf index.now rows.now }
    ensures { MatchOption result (HasNoRowBelow (length index.now) rows.now k path.now)
        (IsFirstRow rows.now k path.now) }
{
    let mut first = None;
    let mut place = index.latest(path_key(k, path));
    while place != 0 {
        let row = place - 1;
        if has_path(rows, row, k, path) {
            first = Some(row);
        }
        place = index.earlier(row);
    }
    first
}

impl PathStore {
    ghost use Rattle.std.specs.Prelude.{◌≡◌, ◌↔◌, ◌+◌, ◌≤◌, ◌<◌, ◌++◌, ◌∷◌, [], ℕ, length, IfOk, IsTrue, OnErr, OnOk};
    ghost use Rattle.flow_model.specs.Routing.{carried};
    ghost use Rattle.flow_paths.specs.PathRows.{row_at, grown, HasPath, IsFirstRow, Adds};

    /// No rows.
    pub fn new(alloc: Global) -> Self
        ensures { result ≡ [] }
    {
        PathStore {
            rows: RowBuffer::new(alloc),
            index: KeyIndex::new(alloc),
        }
    }

    pub fn rows(&self) -> u32
        ensures { result ≡ length self.now }
    {
        self.rows.rows()
    }

    pub fn commodity(&self, row: u32) -> u32
        requires { row < length self.now }
        ensures { result ≡ (row_at self.now row).commodity }
    {
        self.rows.commodity(row)
    }

    pub fn weight(&self, row: u32) -> u64
        requires { row < length self.now }
        ensures value { result ≡ (row_at self.now row).weight }
        ensures limit { result ≤ MAX_LENGTH }
    {
        self.rows.weight(row)
    }

    /// The row's cells, in the store's own buffer.
    pub fn path(&self, row: u32) -> &[u16]
        requires { row < length self.now }
        ensures { result.now ≡ (row_at self.now row).walk }
    {
        self.rows.path(row)
    }

    /// Whether the row is of this commodity and path.
    pub fn has_path(&self, row: u32, k: u32, path: &[u16]) -> bool
        requires { row < length self.now }
        ensures { IsTrue result ↔ HasPath k path.now (row_at self.now row) }
    {
        has_path(&self.rows, row, k, path)
    }

    /// The weights of the commodity's rows, added up.
    pub fn total(&self, k: u32) -> u128
        ensures { result ≡ carried self.now k }
    {
        let mut total = 0u128;
        for row in 0..self.rows() {
            if self.commodity(row) == k {
                total += self.weight(row) as u128;
            }
        }
        total
    }

    /// Makes the row's weight greater.
    pub fn grow(&mut self, row: u32, amount: u64)
        requires row { row < length self.old }
        requires weight { (row_at self.old row).weight + amount ≤ MAX_LENGTH }
        ensures { self.new ≡ grown self.old row amount }
    {
        self.rows.grow(row, amount);
    }

    /// Appends a row, and answers its number.
    pub fn push(&mut self, k: u32, path: &[u16], weight: u64) -> Result<u32, AllocError>
        requires room { length self.old < 4294967295 }
        requires weight { weight ≤ MAX_LENGTH }
        ensures ok { OnOk result (self.new ≡ self.old ++ record
            { commodity = k; walk = path.now; weight = weight } ∷ []) }
        ensures number { IfOk result (λ n. n ≡ length self.old) }
        ensures err { OnErr result (self.new ≡ self.old) }
    {
        self.rows.push(k, path, weight)
    }

    /// The first row of this commodity and path grows by the amount, or, where there is none, a new row is appended; answers its number.
    pub fn add(&mut self, k: u32, path: &[u16], amount: u64) -> Result<u32, AllocError>
        requires room { length self.old < 4294967295 }
        requires amount { amount ≤ MAX_LENGTH }
        requires weight { (n : ℕ) → IsFirstRow self.old k path.now n
            → (row_at self.old n).weight + amount ≤ MAX_LENGTH }
        ensures ok { IfOk result (Adds self.old self.new k path.now amount) }
        ensures err { OnErr result (self.new ≡ self.old) }
    {
        catch_up(&mut self.index, &self.rows)?;
        match first_row(&self.rows, &self.index, k, path) {
            Some(row) => {
                self.grow(row, amount);
                Ok(row)
            }
            None => self.push(k, path, amount),
        }
    }
}
