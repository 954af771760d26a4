//! Lengths of cells and gates together.

ghost use Rattle.std.specs.Prelude.{◌≡◌, ℕ, ◌++◌, ◌+◌, ◌-◌, ◌*◌, ◌/◌, ◌^◌, ◌<◌, ◌≤◌, max, min, length, slice_index, All};
ghost use Rattle.flow_model.specs.Lengths.{AreLengths, IsSetting, exponent, length_at, greatest_exponent, least_capacity, lengths_at, lengths_of};
ghost use Rattle.flow_model.specs.Walk.{times};
ghost use Rattle.fixed_exp.specs.Far.{EmptyAreFar};
ghost use Rattle.fixed_exp.specs.Kept.{cell_at};
ghost use Rattle.gates.specs.Gates.{gated};

use fixed_exp::Powers;
use flow_model::{Cell, Net, Setting};
use mcf_limits::{MAX_LENGTH, MAX_UNITS};

/// A number for each cell, and one for each gate: loads, in units.
#[derive(Clone, Copy)]
pub struct Gated<'a> {
    /// The number of each cell.
    pub cells: &'a [u64],
    /// The number of each gate.
    pub gates: &'a [u64],
}

/// What lengths are taken under: the setting, the greatest exponent and the least capacity, in units.
#[derive(Clone, Copy)]
pub struct Under {
    /// The setting.
    pub setting: Setting,
    /// The greatest exponent.
    pub top: u128,
    /// The least capacity, in units.
    pub least: u64,
}

/// The least positive capacity, in units, or 2^44 where there is none.
pub fn least_of(cells: &[Cell]) -> u64
    ensures value { result ≡ least_capacity cells.now }
{
    let mut least = MAX_UNITS;
    for cell in cells {
        if cell.cap != 0 {
            least = cell.cap.min(least);
        }
    }
    least
}

/// How far a cell's load stands in the exponent: 0 without capacity, and in the first phase.
pub fn exponent(setting: &Setting, cell: &Cell, load: u64) -> u128
    requires setting { IsSetting setting.now }
    requires cap { cell.now.cap ≤ MAX_UNITS }
    requires load { load ≤ MAX_LENGTH }
    ensures { result ≡ exponent setting.now cell.now load }
{
    if cell.cap == 0 || setting.first {
        return 0;
    }
    let above = u128::from(load) * u128::from(setting.ref_cap) * u128::from(setting.step);
    above / (u128::from(cell.cap) * u128::from(setting.ref_load))
}

/// The greatest exponent of these cells, or 0 where there is none.
pub fn greatest_of(setting: &Setting, cells: &[Cell], loads: &[u64]) -> u128
    requires setting { IsSetting setting.now }
    requires caps { All (λ cell. cell.cap ≤ MAX_UNITS) cells.now }
    requires loads { length loads.now ≡ length cells.now }
    requires small { All (λ x. x ≤ MAX_LENGTH) loads.now }
    ensures { result ≡ greatest_exponent setting.now cells.now loads.now }
{
    let mut top = 0u128;
    for (i, cell) in cells.iter().enumerate() {
        top = exponent(setting, cell, loads[i]).max(top);
    }
    top
}

/// The length of a cell: at least 1, and 2^62 without capacity.
pub fn length_of(powers: &Powers, under: &Under, cell: &Cell, load: u64) -> u64
    requires setting { IsSetting under.now.setting }
    requires least { 1 ≤ cell.now.cap → under.now.least ≤ cell.now.cap }
    requires cap { cell.now.cap ≤ MAX_UNITS }
    requires load { load ≤ MAX_LENGTH }
    requires top { exponent under.now.setting cell.now load ≤ under.now.top }
    ensures { result ≡ length_at under.now.setting under.now.top under.now.least cell.now load }
{
    if cell.cap == 0 {
        return MAX_LENGTH;
    }
    let drop = under.top - exponent(&under.setting, cell, load);
    let above = u128::from(powers.weight(drop)) * 4096 * u128::from(under.least);
    ((above / u128::from(cell.cap)) as u64).max(1)
}

/// Puts the length of each of these cells in its place.
pub fn put_lengths(powers: &Powers, under: &Under, cells: &[Cell], loads: &[u64], into: &mut [u64])
    requires setting { IsSetting under.now.setting }
    requires caps { All (λ cell. cell.cap ≤ MAX_UNITS) cells.now }
    requires loads { length loads.now ≡ length cells.now }
    requires small { All (λ x. x ≤ MAX_LENGTH) loads.now }
    requires into { length into.old ≡ length cells.now }
    requires least { under.now.least ≤ least_capacity cells.now }
    requires top { greatest_exponent under.now.setting cells.now loads.now ≤ under.now.top }
    ensures { into.new ≡ lengths_at under.now.setting under.now.top under.now.least cells.now loads.now }
{
    for (i, slot) in into.iter_mut().enumerate() {
        *slot = length_of(powers, under, &cells[i], loads[i]);
    }
}

// Puts the length of each of these cells at the places in its place, where every other length stands there.
fn put_lengths_at(
    powers: &Powers,
    under: &Under,
    cells: &[Cell],
    loads: &[u64],
    places: &[u16],
    into: &mut [u64],
)
    requires setting { IsSetting under.now.setting }
    requires caps { All (λ cell. cell.cap ≤ MAX_UNITS) cells.now }
    requires loads { length loads.now ≡ length cells.now }
    requires small { All (λ x. x ≤ MAX_LENGTH) loads.now }
    requires into { length into.old ≡ length cells.now }
    requires least { under.now.least ≤ least_capacity cells.now }
    requires top { greatest_exponent under.now.setting cells.now loads.now ≤ under.now.top }
    requires within { All (λ c. c < length cells.now) places.now }
    requires stands { (c : ℕ) → c < length cells.now → times c places.now ≡ 0 → slice_index into.old c
        ≡ length_at under.now.setting under.now.top under.now.least (cell_at cells.now c) (slice_index loads.now c) }
    ensures { into.new ≡ lengths_at under.now.setting under.now.top under.now.least cells.now loads.now }
{
    for j in 0..places.len() {
        let i = places[j] as usize;
        into[i] = length_of(powers, under, &cells[i], loads[i]);
    }
}

/// Puts the length of each of these cells in its place, where those of loads stand there that differ at these places
/// alone, under this greatest exponent. Where the greatest is still this one, no other cell is gone over.
pub fn follow_lengths(
    powers: &Powers,
    under: &Under,
    before: u128,
    cells: &[Cell],
    loads: &[u64],
    places: &[u16],
    into: &mut [u64],
)
    requires setting { IsSetting under.now.setting }
    requires caps { All (λ cell. cell.cap ≤ MAX_UNITS) cells.now }
    requires loads { length loads.now ≡ length cells.now }
    requires small { All (λ x. x ≤ MAX_LENGTH) loads.now }
    requires into { length into.old ≡ length cells.now }
    requires least { under.now.least ≤ least_capacity cells.now }
    requires top { greatest_exponent under.now.setting cells.now loads.now ≤ under.now.top }
    requires within { All (λ c. c < length cells.now) places.now }
    requires stands { (c : ℕ) → c < length cells.now → times c places.now ≡ 0 → slice_index into.old c
        ≡ length_at under.now.setting before under.now.least (cell_at cells.now c) (slice_index loads.now c) }
    ensures { into.new ≡ lengths_at under.now.setting under.now.top under.now.least cells.now loads.now }
{
    let stands = under.top == before;
    if stands {
        put_lengths_at(powers, under, cells, loads, places, into);
    } else {
        put_lengths(powers, under, cells, loads, into);
    }
}

/// Puts the length of each cell, and of each gate, under these loads in its place: at least 1 and at most 2^52, and 2^62
/// without capacity. There is a load and a place for each.
pub fn gated_lengths(
    powers: &Powers,
    net: &Net,
    gates: &[Cell],
    setting: &Setting,
    loads: &Gated<'_>,
    cells_into: &mut [u64],
    gates_into: &mut [u64],
)
    requires setting { IsSetting setting.now }
    requires caps { All (λ cell. cell.cap ≤ MAX_UNITS) gates.now }
    requires loads { (length loads.now.cells.now ≡ length net.now.cells)
        × (length loads.now.gates.now ≡ length gates.now) }
    requires small { All (λ x. x ≤ MAX_LENGTH) loads.now.cells.now
        × All (λ x. x ≤ MAX_LENGTH) loads.now.gates.now }
    requires into { (length cells_into.old ≡ length net.now.cells)
        × (length gates_into.old ≡ length gates.now) }
    ensures value { cells_into.new ++ gates_into.new
        ≡ lengths_of (gated net.now gates.now) setting.now (loads.now.cells.now ++ loads.now.gates.now) }
    ensures long { length cells_into.new ≡ length net.now.cells }
    ensures fits { AreLengths net.now.cells cells_into.new }
    ensures empty { EmptyAreFar net.now.cells cells_into.new }
{
    let cells = net.cells();
    let top = greatest_of(setting, cells, loads.cells).max(greatest_of(
        setting,
        gates,
        loads.gates,
    ));
    let under = Under {
        setting: *setting,
        top,
        least: least_of(cells).min(least_of(gates)),
    };
    put_lengths(powers, &under, cells, loads.cells, cells_into);
    put_lengths(powers, &under, gates, loads.gates, gates_into);
}
