//! Divisions by numbers that stay the same, by products.

ghost use Rattle.std.specs.Prelude.{◌≡◌, ◌-◌, ◌*◌, ◌/◌, ◌^◌, ◌<◌, ◌≤◌, max, min, length};
ghost use Rattle.flow_model.specs.Lengths.{exponent, length_at};
ghost use Rattle.flow_model.specs.Powers.{weight_of};
ghost use Rattle.fixed_exp.specs.Kept.{AreRated, cell_at, length_from};

use crate::powers::Powers;
use crate::scale::Scale;
use flow_model::Cell;
use mcf_limits::{MAX_LENGTH, MAX_UNITS};

/// What a load is divided by in a cell's exponent; what a unit of load adds to the exponent, its whole part and its part below 1 with
/// 64 binary places, rounded down; and what a unit of weight adds to the cell's length, with 40 binary places, rounded down. The first
/// three are 0 where the cell has no capacity, and where the divisor is above 2^63 or what loads are multiplied by above 2^64 - 1: in
/// these two cases the exponent takes a division.
#[derive(Clone, Copy)]
pub struct Rate {
    /// What a load is divided by.
    pub below: u64,
    /// What a unit of load adds to the exponent: the whole part.
    pub whole: u64,
    /// The part of that below 1, in parts of 2^64.
    pub part: u64,
    /// What a unit of weight adds to the length, in parts of 2^40.
    pub length: u64,
}

/// Cells with the rates that they have under a scale, and the least positive capacity.
#[derive(Clone, Copy)]
pub struct Rated<'a> {
    /// The scale.
    pub scale: &'a Scale,
    /// The least positive capacity, in units.
    pub least: u64,
    /// The cells.
    pub cells: &'a [Cell],
    /// The rate of each cell.
    pub rates: &'a [Rate],
}

/// The rate of a cell without capacity.
pub const NO_RATE: Rate = Rate {
    below: 0,
    whole: 0,
    part: 0,
    length: 0,
};

impl Powers {
    // The length of a positive cell, without a division: the guess by the rate is the length, or one less.
    #[inline(always)]
    fn length_by_rate(&self, drop: u128, least: u64, cap: u64, rate: u64) -> u64
        requires positive { 1 ≤ cap }
        requires least { least ≤ cap }
        requires cap { cap ≤ MAX_UNITS }
        requires rate { rate ≡ 2 ^ 52 * least / cap }
        ensures { result ≡ max 1 (weight_of drop * 4096 * least / cap) }
    {
        let weight = u128::from(self.weight(drop));
        let guess = ((weight * u128::from(rate)) >> 40) as u64;
        let above = weight * 4096 * u128::from(least);
        let rest = above - u128::from(guess) * u128::from(cap);
        let length = if rest as u64 >= cap { guess + 1 } else { guess };
        length.max(1)
    }

    /// The length of a cell whose exponent is known.
    #[inline(always)]
    pub(crate) fn near_length(
        &self,
        top: u64,
        least: u64,
        cell: &Cell,
        exponent: u64,
        rate: u64,
    ) -> u64
        requires least { 1 ≤ cell.now.cap → least ≤ cell.now.cap }
        requires cap { cell.now.cap ≤ MAX_UNITS }
        requires exponent { exponent ≤ top }
        requires rate { rate ≡ 2 ^ 52 * least / cell.now.cap }
        ensures { result ≡ length_from top least cell.now exponent }
    {
        if cell.cap == 0 {
            return MAX_LENGTH;
        }
        self.length_by_rate(u128::from(top - exponent), least, cell.cap, rate)
    }

    /// The length of the cell at that place, whose exponent was kept as far as it fits.
    #[inline(always)]
    pub fn cell_length_by_rate(
        &self,
        rated: &Rated<'_>,
        top: u128,
        i: usize,
        load: u64,
        kept: u64,
    ) -> u64
        requires rated { AreRated rated.now.scale.now.setting rated.now.cells.now rated.now.least rated.now.rates.now }
        requires inside { i < length rated.now.cells.now }
        requires load { load ≤ MAX_LENGTH }
        requires top { exponent rated.now.scale.now.setting (cell_at rated.now.cells.now i) load ≤ top }
        requires kept { kept
            ≡ min (exponent rated.now.scale.now.setting (cell_at rated.now.cells.now i) load) (2 ^ 64 - 1) }
        ensures { result
            ≡ length_at rated.now.scale.now.setting top rated.now.least (cell_at rated.now.cells.now i) load }
    {
        let cell = &rated.cells[i];
        if cell.cap == 0 {
            return MAX_LENGTH;
        }
        let exponent = Self::kept_exponent(rated.scale, top, cell, load, kept);
        self.length_by_rate(top - exponent, rated.least, cell.cap, rated.rates[i].length)
    }
}
