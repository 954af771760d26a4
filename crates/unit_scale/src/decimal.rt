//! The numbers of words, read in a fixed unit.

ghost use Rattle.std.specs.Prelude.{◌≡◌, ◌≤◌};
ghost use Rattle.sndlib_grammar.specs.Number.{number_of as number_of_lem};
ghost use Rattle.unit_scale.specs.Units.{decimal_of, decimal_from as decimal_from_lem, units_read, units_from as units_from_lem};

use crate::number::short_units;
use crate::short::MOST;
use mcf_limits::{MAX_DECIMALS, MAX_UNITS};
use sndlib_grammar::number_parts;

/// A number in millionths.
#[derive(Clone, Copy, Debug, PartialEq, Eq)]
pub enum Decimal {
    /// A whole number of millionths, of at most 2^44 units.
    Millionths(u64),
    /// No whole number of millionths.
    Fine,
    /// A whole number of millionths, over 2^44 units.
    Huge,
}

/// Why a word gives no number of units.
#[derive(Clone, Copy, Debug, PartialEq, Eq)]
pub enum UnitFault {
    /// It is no number.
    NotNumber,
    /// It is no whole number of units.
    TooFine,
    /// It is over the limit of units.
    TooLarge,
}

/// The number that the word is, in millionths, and `None` exactly where it is no number. It takes no memory.
pub fn read_decimal(word: &[u8]) -> Option<Decimal>
    ensures { result ≡ decimal_of (number_of_lem word.now) }
{
    let number = match number_parts(word) {
        Some(number) => number,
        None => return None,
    };
    Some(decimal_from(short_units(&number, MAX_DECIMALS)))
}

fn decimal_from(millionths: Option<u64>) -> Decimal
    ensures { result ≡ decimal_from_lem millionths }
{
    match millionths {
        None => Decimal::Fine,
        Some(n) => {
            if n <= MOST {
                Decimal::Millionths(n)
            } else {
                Decimal::Huge
            }
        }
    }
}

/// The number that the word is, in units of 10^-decimals: refused where it is no number, else where it is no whole number of units, else where it is more than 2^44 of them. It takes no memory.
pub fn units(word: &[u8], decimals: u8) -> Result<u64, UnitFault>
    requires { decimals ≤ MAX_DECIMALS }
    ensures { result ≡ units_read decimals (number_of_lem word.now) }
{
    let number = match number_parts(word) {
        Some(number) => number,
        None => return Err(UnitFault::NotNumber),
    };
    units_from(short_units(&number, decimals))
}

fn units_from(count: Option<u64>) -> Result<u64, UnitFault>
    ensures { result ≡ units_from_lem count }
{
    match count {
        None => Err(UnitFault::TooFine),
        Some(n) => {
            if n <= MAX_UNITS {
                Ok(n)
            } else {
                Err(UnitFault::TooLarge)
            }
        }
    }
}
