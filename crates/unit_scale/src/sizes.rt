//! The sizes of rows in millionths, in short.

ghost use Rattle.std.specs.Prelude.{◌≡◌, ◌+◌, ◌-◌, ◌^◌, ◌%◌, ◌++◌, ◌≤◌, ◌<◌, length, map, ◌==◌, ◌||◌, ◌/◌, nat_lt, true, false, MatchOption, if◌then◌else◌};
ghost use Rattle.std.specs.Option.{option_map};
ghost use Rattle.std.specs.List.{list_all};
ghost use Rattle.unit_scale.specs.Short.{short};
ghost use Rattle.unit_scale.specs.Sizes.{millionths, AreDecimals};

use crate::demands::DemandSize;
use crate::links::LinkSize;
use crate::number::short_units;
use mcf_limits::{MAX_DECIMALS, MAX_UNITS};
use sndlib_grammar::number_parts;

/// The number that the word is, in millionths, in short, if it is a whole number of them.
pub fn word_size(word: &[u8]) -> Option<u64>
    ensures { result ≡ option_map short (millionths word.now) }
{
    let number = match number_parts(word) {
        Some(number) => number,
        None => return None,
    };
    short_units(&number, MAX_DECIMALS)
}

// Whether each is a multiple of the unit.
fn all_links_divide(sizes: &[LinkSize], unit: u128) -> bool
    requires { 1 ≤ unit }
    ensures { result ≡ list_all (λ z. z.millionths % unit == 0) sizes.now }
{
    sizes.iter().all(|size| size.millionths % unit == 0)
}

fn all_demands_divide(sizes: &[DemandSize], unit: u128) -> bool
    requires { 1 ≤ unit }
    ensures { result ≡ list_all (λ z. z.left || z.millionths % unit == 0) sizes.now }
{
    sizes
        .iter()
        .all(|size| size.left || size.millionths % unit == 0)
}

/// Millionths in a unit of 10^-decimals.
pub fn unit_of(decimals: u8) -> u128
    requires { decimals ≤ MAX_DECIMALS }
    ensures value { result ≡ 10 ^ (MAX_DECIMALS - decimals) }
    ensures some { 1 ≤ result }
{
    10u128.pow((MAX_DECIMALS - decimals) as u32)
}

/// The least number of decimals that serves for all.
pub fn least_decimals(links: &[LinkSize], demands: &[DemandSize]) -> u8
    ensures { AreDecimals (map (λ z. z.millionths) links.now ++ map
        (λ z. if z.left then 0 else z.millionths) demands.now) result }
{
    for decimals in 0..MAX_DECIMALS {
        let unit = unit_of(decimals);
        if all_links_divide(links, unit) && all_demands_divide(demands, unit) {
            return decimals;
        }
    }
    MAX_DECIMALS
}

/// Whether one of them holds.
pub fn either(one: bool, other: bool) -> bool
    ensures { result ≡ (one || other) }
{
    one || other
}

/// The units of a size, if neither its numbers nor they are over the limit.
pub fn units_of_size(over: bool, millionths: u128, unit: u128) -> Option<u64>
    requires { 1 ≤ unit }
    ensures { MatchOption result ((over || nat_lt MAX_UNITS (millionths / unit)) ≡ true)
        (λ n. ((over || nat_lt MAX_UNITS (millionths / unit)) ≡ false) × (n ≡ millionths / unit)) }
{
    if over {
        return None;
    }
    let units = millionths / unit;
    if units > MAX_UNITS as u128 {
        return None;
    }
    Some(units as u64)
}
