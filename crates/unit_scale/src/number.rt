//! The values of words that are numbers, in units of a power of ten and in short.

ghost use Rattle.std.specs.Prelude.{◌≡◌, ◌+◌, ◌*◌, ◌^◌, ◌++◌, ◌<◌, ◌≤◌, length};
ghost use Rattle.std.specs.Option.{option_map};
ghost use Rattle.std.specs.Str.Parse.{AllDigits, digits_value};
ghost use Rattle.sndlib_grammar.specs.Number.{AreDigits};
ghost use Rattle.sndlib_grammar.specs.Views.{number_view};
ghost use Rattle.unit_scale.specs.Short.{short};
ghost use Rattle.unit_scale.specs.Units.{quotient, units_of};

use crate::short::{are_zeros, extended, raised, shortened};
use mcf_limits::MAX_DECIMALS;
use sndlib_grammar::NumberParts;

/// The number of the digits with `zeros` zeros behind them, in short.
pub fn raised_digits(whole: &[u8], fraction: &[u8], zeros: usize) -> u64
    requires whole { AllDigits 10 whole.now }
    requires fraction { AllDigits 10 fraction.now }
    ensures { result ≡ short (digits_value 10 (whole.now ++ fraction.now) * 10 ^ zeros) }
{
    let all = extended(extended(0, whole), fraction);
    shortened(raised(all, zeros) as u128)
}

/// The number of the digits without the last `cut`, in short, if these are zeros.
pub fn cut_digits(whole: &[u8], fraction: &[u8], cut: usize) -> Option<u64>
    requires whole { AllDigits 10 whole.now }
    requires fraction { AllDigits 10 fraction.now }
    requires small { length whole.now + length fraction.now < 2 ^ 64 }
    ensures { result ≡ option_map short (quotient (digits_value 10 (whole.now ++ fraction.now)) (10 ^ cut)) }
{
    let kept = (whole.len() + fraction.len()).saturating_sub(cut);
    let before = kept.min(whole.len());
    let behind = kept - before;
    if !are_zeros(&whole[before..]) {
        return None;
    }
    if !are_zeros(&fraction[behind..]) {
        return None;
    }
    let number = extended(extended(0, &whole[..before]), &fraction[..behind]);
    Some(shortened(number as u128))
}

/// The number in units of 10^-decimals, in short, if it is a whole number of them.
pub fn short_units(number: &NumberParts<'_>, decimals: u8) -> Option<u64>
    requires digits { AreDigits (number_view number.now) }
    requires decimals { decimals ≤ MAX_DECIMALS }
    requires small { length number.now.whole.now + length number.now.fraction.now < 2 ^ 63 }
    ensures { result ≡ option_map short (units_of decimals (number_view number.now)) }
{
    let raise = number.up as usize + decimals as usize;
    let places = number.fraction.len() + number.down as usize;
    if places <= raise {
        Some(raised_digits(number.whole, number.fraction, raise - places))
    } else {
        cut_digits(number.whole, number.fraction, places - raise)
    }
}
