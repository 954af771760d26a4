//! Lengths that stand ready, and follow the loads.

ghost use Rattle.std.specs.Prelude.{◌≡◌, ℕ, ◌<◌, ◌≤◌, length, slice_index, All, IfOk};
ghost use Rattle.flow_model.specs.Lengths.{AreLengths, IsSetting, lengths_of};
ghost use Rattle.flow_model.specs.Walk.{times};
ghost use Rattle.fixed_exp.specs.Far.{EmptyAreFar};
ghost use Rattle.fixed_exp.specs.Kept.{AreRates, cell_at};

use crate::changes::{changed_places, copy_at};
use crate::follow::Changed;
use crate::lengths::least_of;
use crate::powers::Powers;
use crate::rates::{NO_RATE, Rate, Rated};
use crate::scale::Scale;
use flow_model::{Cell, Net, Setting};
use mcf_limits::{MAX_LENGTH, MAX_UNITS};
use std::alloc::{AllocError, Global};
use std::marker::Model;
use std::snapshot::Snapshot;

/// The length of each cell of one network, kept from one vector of loads to the next: what did not change is not
/// computed again. It is seen as the network, the setting and the loads.
#[derive(Drop)]
pub struct LengthTable {
    net: Snapshot<Net>,
    scale: Scale,
    least: u64,
    top: u128,
    loads: Vec<u64>,
    exponents: Vec<u64>,
    lengths: Vec<u64>,
    rates: Vec<Rate>,
    // room for the places at which loads change
    places: Vec<u16>,
}

impl Model for LengthTable {
    ghost use Rattle.std.specs.Prelude.{length};
    ghost use Rattle.fixed_exp.specs.LoadedNetwork.{LoadedNetwork, IsLengthTable};

    ghost Value = { LoadedNetwork };

    ghost view = { λ t. record { net = t.net.value; setting = t.scale.setting; loads = t.loads.items } };

    ghost invariant = { λ t. IsLengthTable t.net.value t.scale.setting t.loads.items t.exponents.items
        t.lengths.items t.top t.least t.rates.items (length t.places.items) };
}

// Puts each cell's rate in its place.
fn put_rates(scale: &Scale, cells: &[Cell], least: u64, into: &mut [Rate])
    requires caps { All (λ cell. cell.cap ≤ MAX_UNITS) cells.now }
    requires least { (k : ℕ) → k < length cells.now → 1 ≤ (cell_at cells.now k).cap
        → least ≤ (cell_at cells.now k).cap }
    requires into { length into.old ≡ length cells.now }
    ensures { AreRates scale.now.setting cells.now least into.new }
{
    for (i, slot) in into.iter_mut().enumerate() {
        *slot = scale.rate(&cells[i], least);
    }
}

impl LengthTable {
    ghost use Rattle.std.specs.Prelude.{◌≡◌, IfSome, replicate};

    /// The lengths under loads of 0, at which every exponent is 0.
    pub fn new(
        alloc: Global,
        powers: &Powers,
        net: &Net,
        setting: &Setting,
    ) -> Result<Self, AllocError>
        requires { IsSetting setting.now }
        ensures { IfOk result (λ t. t ≡ record
            { net = net.now; setting = setting.now; loads = replicate (length net.now.cells) 0 }) }
    {
        let cells = net.cells();
        let loads = vec![in alloc; 0; cells.len()]?;
        let exponents = vec![in alloc; 0; cells.len()]?;
        let mut lengths = vec![in alloc; 0; cells.len()]?;
        let places = vec![in alloc; 0u16; cells.len()]?;
        let scale = Scale::new(setting);
        let least = least_of(cells);
        let mut rates = vec![in alloc; NO_RATE; cells.len()]?;
        put_rates(&scale, cells, least, &mut rates);
        let rated = Rated {
            scale: &scale,
            least,
            cells,
            rates: &rates,
        };
        powers.put_all_lengths(&rated, 0, &loads, &exponents, &mut lengths);
        Ok(LengthTable {
            net: Snapshot::of(net),
            scale,
            least,
            top: 0,
            loads,
            exponents,
            lengths,
            rates,
            places,
        })
    }

    /// The lengths of this network under this setting: those that were kept, under the loads that they have, if their setting is the same;
    /// or else new ones, under loads of 0. `Err`: out of memory.
    pub fn under(
        alloc: Global,
        powers: &Powers,
        net: &Net,
        setting: &Setting,
        kept: Option<LengthTable>,
    ) -> Result<Self, AllocError>
        requires setting { IsSetting setting.now }
        requires kept { IfSome kept (λ t. t.net ≡ net.now) }
        ensures net { IfOk result (λ t. t.net ≡ net.now) }
        ensures setting { IfOk result (λ t. t.setting ≡ setting.now) }
    {
        match kept {
            Some(table) if table.scale.setting == *setting => Ok(table),
            _ => LengthTable::new(alloc, powers, net, setting),
        }
    }

    /// Takes other loads, one for each cell. It takes no memory. Every load is compared with the one of before; an
    /// exponent and a length are computed where it changed, and all lengths only where the greatest exponent moved.
    pub fn update(&mut self, powers: &Powers, net: &Net, loads: &[u64])
        requires net { net.now ≡ self.old.net }
        requires loads { length loads.now ≡ length net.now.cells }
        requires small { All (λ x. x ≤ MAX_LENGTH) loads.now }
        ensures net { self.new.net ≡ self.old.net }
        ensures setting { self.new.setting ≡ self.old.setting }
        ensures loads { self.new.loads ≡ loads.now }
    {
        let cells = net.cells();
        let count = changed_places(&self.loads, loads, &mut self.places);
        let rated = Rated {
            scale: &self.scale,
            least: self.least,
            cells,
            rates: &self.rates,
        };
        let changed = Changed {
            places: &self.places,
            count,
        };
        let top = powers.follow(
            &rated,
            self.top,
            loads,
            &changed,
            &mut self.exponents,
            &mut self.lengths,
        );
        self.top = top;
        self.loads.as_mut_slice().copy_from_slice(loads);
    }

    /// Takes other loads, one for each cell, which are as before at every cell that does not stand among these. It takes no
    /// memory, and costs what these cells are, and more only where the greatest exponent moved or one of them fell.
    pub fn update_at(&mut self, powers: &Powers, net: &Net, loads: &[u64], cells: &[u16])
        requires net { net.now ≡ self.old.net }
        requires loads { length loads.now ≡ length net.now.cells }
        requires small { All (λ x. x ≤ MAX_LENGTH) loads.now }
        requires within { All (λ c. c < length net.now.cells) cells.now }
        requires same { (c : ℕ) → c < length net.now.cells → times c cells.now ≡ 0
            → slice_index self.old.loads c ≡ slice_index loads.now c }
        ensures net { self.new.net ≡ self.old.net }
        ensures setting { self.new.setting ≡ self.old.setting }
        ensures loads { self.new.loads ≡ loads.now }
    {
        let rated = Rated {
            scale: &self.scale,
            least: self.least,
            cells: net.cells(),
            rates: &self.rates,
        };
        let changed = Changed {
            places: cells,
            count: cells.len(),
        };
        let top = powers.follow(
            &rated,
            self.top,
            loads,
            &changed,
            &mut self.exponents,
            &mut self.lengths,
        );
        self.top = top;
        copy_at(loads, cells, &mut self.loads);
    }

    /// The length of each cell under the loads: at least 1 and at most 2^52, and 2^62 for a cell without capacity.
    pub fn lengths(&self) -> &[u64]
        ensures value { result.now ≡ lengths_of self.now.net self.now.setting self.now.loads }
        ensures fits { AreLengths self.now.net.cells result.now }
        ensures empty { EmptyAreFar self.now.net.cells result.now }
    {
        &self.lengths
    }
}
