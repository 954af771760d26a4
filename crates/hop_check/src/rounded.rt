//! A number of any spelling, rounded down.

ghost use Rattle.std.specs.Prelude.{◌≡◌, ◌+◌, ◌*◌, ◌/◌, ◌^◌, ◌++◌, ◌<◌, ◌≤◌, min, length};
ghost use Rattle.std.specs.Str.Parse.{AllDigits, digits_value, digits_value_after};
ghost use Rattle.sndlib_grammar.specs.Number.{AreDigits};
ghost use Rattle.sndlib_grammar.specs.Views.{number_view};
ghost use Rattle.hop_check.specs.Limits.{whole_of};

use sndlib_grammar::NumberParts;

/// Saturation value, not below any node count.
pub const MANY: u32 = 1000;

// The number, up to `MANY`.
#[inline(always)]
fn capped(n: u32) -> u32
    ensures { result ≡ min n MANY }
{
    if n < MANY { n } else { MANY }
}

// The number of the digits behind those of `start`, up to `MANY`.
fn followed(start: u32, digits: &[u8]) -> u32
    requires digits { AllDigits 10 digits.now }
    requires start { start ≤ MANY }
    ensures { result ≡ min (digits_value_after 10 start digits.now) MANY }
{
    let mut n = start;
    for digit in digits {
        n = capped(n * 10 + (*digit - b'0') as u32);
    }
    n
}

// `start` with `zeros` zeros behind it, or `MANY` if that is less.
fn raised(start: u32, zeros: usize) -> u32
    requires { start ≤ MANY }
    ensures { result ≡ min (start * 10 ^ zeros) MANY }
{
    let mut n = start;
    for _ in 0..zeros {
        n = capped(n * 10);
    }
    n
}

// The number of the digits without the last `cut`, or `MANY` if that is less.
fn cut(whole: &[u8], fraction: &[u8], cut: usize) -> u32
    requires whole { AllDigits 10 whole.now }
    requires fraction { AllDigits 10 fraction.now }
    ensures { result ≡ min (digits_value 10 (whole.now ++ fraction.now) / 10 ^ cut) MANY }
{
    if cut < fraction.len() {
        let kept = fraction.len() - cut;
        return followed(followed(0, whole), &fraction[..kept]);
    }
    let kept = whole.len().saturating_sub(cut - fraction.len());
    followed(0, &whole[..kept])
}

/// The number rounded down, up to `MANY`.
pub fn rounded(number: &NumberParts<'_>) -> u32
    requires digits { AreDigits (number_view number.now) }
    requires small { length number.now.whole.now + length number.now.fraction.now < 2 ^ 63 }
    ensures { result ≡ min (whole_of (number_view number.now)) MANY }
{
    let raise = number.up as usize;
    let places = number.fraction.len() + number.down as usize;
    if places <= raise {
        let all = followed(followed(0, number.whole), number.fraction);
        raised(all, raise - places)
    } else {
        cut(number.whole, number.fraction, places - raise)
    }
}
