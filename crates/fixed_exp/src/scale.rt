//! Loads of cells in terms of a setting's reference.

ghost use Rattle.std.specs.Prelude.{◌≡◌, ◌*◌, ◌/◌, ◌^◌, ◌<◌, ◌≤◌, if◌then◌else◌};
ghost use Rattle.flow_model.specs.Lengths.{IsSetting, exponent};
ghost use Rattle.fixed_exp.specs.Kept.{HasExponentRate};

use crate::rates::{NO_RATE, Rate};
use flow_model::{Cell, Setting};
use mcf_limits::{MAX_LENGTH, MAX_UNITS};

// The greatest divisor of an exponent at which its rest tells the quotient in 64 bits.
const MOST_BELOW: u128 = 1 << 63;

/// What a load is multiplied by and divided by, with the greatest load and capacity at which both products fit 64 bits.
#[derive(Clone, Copy)]
pub struct Scale {
    pub(crate) setting: Setting,
    over: u128,
    under: u64,
    most_load: u64,
    most_cap: u64,
    ghost over_is: { over ≡ (if setting.first then 0 else setting.ref_cap * setting.step) },
    ghost under_is: { under ≡ setting.ref_load },
    ghost over_fits: { most_load * over < 2 ^ 64 },
    ghost under_fits: { most_cap * under < 2 ^ 64 },
    ghost small: { over ≤ 2 ^ 64 },
    ghost positive: { 1 ≤ under },
}

impl Scale {
    pub fn new(setting: &Setting) -> Self
        requires { IsSetting setting.now }
        ensures { result.setting ≡ setting.now }
    {
        let over = if setting.first {
            0
        } else {
            u128::from(setting.ref_cap) * u128::from(setting.step)
        };
        let most_load = if over == 0 {
            u64::MAX
        } else {
            (u128::from(u64::MAX) / over) as u64
        };
        Scale {
            setting: *setting,
            over,
            under: setting.ref_load,
            most_load,
            most_cap: u64::MAX / setting.ref_load,
        }
    }

    /// A cell's rates, where the least capacity is known.
    pub fn rate(&self, cell: &Cell, least: u64) -> Rate
        requires cap { cell.now.cap ≤ MAX_UNITS }
        requires least { 1 ≤ cell.now.cap → least ≤ cell.now.cap }
        ensures length { result.length ≡ 2 ^ 52 * least / cell.now.cap }
        ensures exponent { HasExponentRate self.now.setting cell.now result }
    {
        if cell.cap == 0 {
            return NO_RATE;
        }
        let length = (u128::from(least) * (1 << 52) / u128::from(cell.cap)) as u64;
        let below = u128::from(cell.cap) * u128::from(self.under);
        if below > MOST_BELOW || self.over > u128::from(u64::MAX) {
            return Rate { length, ..NO_RATE };
        }
        let over = self.over as u64;
        let below = below as u64;
        let whole = over / below;
        let part = (u128::from(over - whole * below) << 64) / u128::from(below);
        Rate {
            below,
            whole,
            part: part as u64,
            length,
        }
    }

    /// How far a cell's load stands in the exponent. Its rate makes it quick, where it has a divisor: then the product is the quotient,
    /// or one less, which the rest tells.
    #[inline(always)]
    pub fn exponent_by_rate(&self, cell: &Cell, load: u64, rate: &Rate) -> u128
        requires cap { cell.now.cap ≤ MAX_UNITS }
        requires load { load ≤ MAX_LENGTH }
        requires rate { HasExponentRate self.now.setting cell.now rate.now }
        ensures { result ≡ exponent self.now.setting cell.now load }
    {
        if rate.below == 0 {
            return self.exponent(cell, load);
        }
        let load = u128::from(load);
        let guess = load * u128::from(rate.whole) + ((load * u128::from(rate.part)) >> 64);
        let rest = load * self.over - guess * u128::from(rate.below);
        guess + u128::from(rest as u64 >= rate.below)
    }

    /// How far a cell's load stands in the exponent.
    #[inline(always)]
    pub fn exponent(&self, cell: &Cell, load: u64) -> u128
        requires cap { cell.now.cap ≤ MAX_UNITS }
        requires load { load ≤ MAX_LENGTH }
        ensures { result ≡ exponent self.now.setting cell.now load }
    {
        if cell.cap == 0 {
            return 0;
        }
        let above = u128::from(load) * self.over;
        let below = u128::from(cell.cap) * u128::from(self.under);
        if load <= self.most_load && cell.cap <= self.most_cap {
            u128::from(above as u64 / below as u64)
        } else {
            above / below
        }
    }
}
