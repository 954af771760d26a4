//! The lengths of all cells under loads.

ghost use Rattle.std.specs.Prelude.{◌≡◌, ℕ, ◌+◌, ◌-◌, ◌*◌, ◌/◌, ◌^◌, ◌<◌, ◌≤◌, max, min, length, All};
ghost use Rattle.flow_model.specs.Lengths.{AreLengths, IsSetting, exponent, length_at, greatest_exponent, least_capacity, lengths_at, lengths_of};
ghost use Rattle.flow_model.specs.Powers.{weight_of};
ghost use Rattle.fixed_exp.specs.Far.{EmptyAreFar};
ghost use Rattle.fixed_exp.specs.Kept.{KeepsExponent};

use crate::powers::Powers;
use crate::scale::Scale;
use flow_model::{Cell, Net, Setting};
use mcf_limits::{MAX_LENGTH, MAX_UNITS};

/// The least positive capacity, or 2^44 where there is none.
pub fn least_of(cells: &[Cell]) -> u64
    ensures value { result ≡ least_capacity cells.now }
{
    let mut least = MAX_UNITS;
    for cell in cells {
        if cell.cap != 0 {
            least = cell.cap.min(least);
        }
    }
    least
}

/// Puts each cell's exponent in its place, as far as it fits, and gives the greatest.
pub fn exponents_of(scale: &Scale, cells: &[Cell], loads: &[u64], into: &mut [u64]) -> u128
    requires caps { All (λ cell. cell.cap ≤ MAX_UNITS) cells.now }
    requires loads { length loads.now ≡ length cells.now }
    requires small { All (λ x. x ≤ MAX_LENGTH) loads.now }
    requires into { length into.old ≡ length cells.now }
    ensures greatest { result ≡ greatest_exponent scale.now.setting cells.now loads.now }
    ensures kept { (k : ℕ) → k < length cells.now → KeepsExponent scale.now.setting cells.now loads.now into.new k }
{
    let mut top = 0u128;
    for (i, slot) in into.iter_mut().enumerate() {
        let exponent = scale.exponent(&cells[i], loads[i]);
        top = exponent.max(top);
        *slot = exponent.min(u128::from(u64::MAX)) as u64;
    }
    top
}

impl Powers {
    // The length of a positive cell.
    #[inline(always)]
    fn length(&self, drop: u128, least: u64, cap: u64) -> u64
        requires positive { 1 ≤ cap }
        requires least { least ≤ cap }
        requires cap { cap ≤ MAX_UNITS }
        ensures { result ≡ max 1 (weight_of drop * 4096 * least / cap) }
    {
        let above = u128::from(self.weight(drop)) * 4096 * u128::from(least);
        let length = if above <= u128::from(u64::MAX) {
            above as u64 / cap
        } else {
            (above / u128::from(cap)) as u64
        };
        length.max(1)
    }

    /// The exponent of a cell, from what was kept of it.
    #[inline(always)]
    pub fn kept_exponent(scale: &Scale, top: u128, cell: &Cell, load: u64, kept: u64) -> u128
        requires cap { cell.now.cap ≤ MAX_UNITS }
        requires load { load ≤ MAX_LENGTH }
        requires top { exponent scale.now.setting cell.now load ≤ top }
        requires kept { kept ≡ min (exponent scale.now.setting cell.now load) (2 ^ 64 - 1) }
        ensures { result ≡ exponent scale.now.setting cell.now load }
    {
        if top <= u128::from(u64::MAX) {
            u128::from(kept)
        } else {
            scale.exponent(cell, load)
        }
    }

    /// The length of a cell whose exponent was kept as far as it fits.
    #[inline(always)]
    pub fn cell_length(
        &self,
        scale: &Scale,
        top: u128,
        least: u64,
        cell: &Cell,
        load: u64,
        kept: u64,
    ) -> u64
        requires least { 1 ≤ cell.now.cap → least ≤ cell.now.cap }
        requires cap { cell.now.cap ≤ MAX_UNITS }
        requires load { load ≤ MAX_LENGTH }
        requires top { exponent scale.now.setting cell.now load ≤ top }
        requires kept { kept ≡ min (exponent scale.now.setting cell.now load) (2 ^ 64 - 1) }
        ensures { result ≡ length_at scale.now.setting top least cell.now load }
    {
        if cell.cap == 0 {
            return MAX_LENGTH;
        }
        let exponent = Self::kept_exponent(scale, top, cell, load, kept);
        self.length(top - exponent, least, cell.cap)
    }

    // Puts each cell's length in the place of its exponent.
    fn put_lengths(&self, scale: &Scale, top: u128, cells: &[Cell], loads: &[u64], into: &mut [u64])
        requires caps { All (λ cell. cell.cap ≤ MAX_UNITS) cells.now }
        requires loads { length loads.now ≡ length cells.now }
        requires small { All (λ x. x ≤ MAX_LENGTH) loads.now }
        requires into { length into.old ≡ length cells.now }
        requires greatest { top ≡ greatest_exponent scale.now.setting cells.now loads.now }
        requires kept { (k : ℕ) → k < length cells.now
            → KeepsExponent scale.now.setting cells.now loads.now into.old k }
        ensures { into.new ≡ lengths_at scale.now.setting top (least_capacity cells.now) cells.now loads.now }
    {
        let least = least_of(cells);
        for (i, slot) in into.iter_mut().enumerate() {
            *slot = self.cell_length(scale, top, least, &cells[i], loads[i], *slot);
        }
    }

    /// The length of each cell under these loads: at least 1 and at most 2^52, and 2^62 for a cell without capacity.
    pub fn lengths(&self, net: &Net, setting: &Setting, loads: &[u64], into: &mut [u64])
        requires setting { IsSetting setting.now }
        requires loads { length loads.now ≡ length net.now.cells }
        requires small { All (λ x. x ≤ MAX_LENGTH) loads.now }
        requires into { length into.old ≡ length net.now.cells }
        ensures value { into.new ≡ lengths_of net.now setting.now loads.now }
        ensures fits { AreLengths net.now.cells into.new }
        ensures empty { EmptyAreFar net.now.cells into.new }
    {
        let cells = net.cells();
        let scale = Scale::new(setting);
        let top = exponents_of(&scale, cells, loads, into);
        self.put_lengths(&scale, top, cells, loads, into);
    }
}
