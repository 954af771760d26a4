//! Which of two numbers is greater, where they are too long for any type: by their digits, from the left.

ghost use Rattle.std.specs.Prelude.{◌≡◌, ◌+◌, ◌-◌, ◌*◌, ◌/◌, ◌%◌, ◌^◌, ◌++◌, ◌<◌, ◌≤◌, length, nat_lt};
ghost use Rattle.std.specs.Str.Parse.{AllDigits, digits_value};
ghost use Rattle.sndlib_grammar.specs.Views.{number_view};
ghost use Rattle.unit_scale.specs.Largest.{amount_of, IsFit, IsLong, AreLongDigits, long_digit};

use mcf_limits::MAX_DECIMALS;
use sndlib_grammar::NumberParts;

/// A number in millionths: digits with zeros behind them, or without some zeros at their end.
#[derive(Clone, Copy, Debug)]
pub struct LongNumber<'a> {
    /// The digits before the point.
    pub whole: &'a [u8],
    /// The digits behind it.
    pub fraction: &'a [u8],
    /// How many zeros stand behind them.
    pub zeros: usize,
    /// How many zeros are cut off at their end.
    pub cut: usize,
}

// The digit at that place from the right, of two parts that stand one behind the other.
fn digit_from_right(whole: &[u8], fraction: &[u8], place: usize) -> u8
    requires whole { AllDigits 10 whole.now }
    requires fraction { AllDigits 10 fraction.now }
    ensures { result ≡ digits_value 10 (whole.now ++ fraction.now) / 10 ^ place % 10 }
{
    if place < fraction.len() {
        return fraction[fraction.len() - 1 - place] - b'0';
    }
    let left = place - fraction.len();
    if left < whole.len() {
        return whole[whole.len() - 1 - left] - b'0';
    }
    0
}

// How many digits are not cut off.
fn kept_digits(number: &LongNumber<'_>) -> usize
    requires { length number.now.whole.now + length number.now.fraction.now < 2 ^ 63 }
    ensures { result ≡ length number.now.whole.now + length number.now.fraction.now - number.now.cut }
{
    (number.whole.len() + number.fraction.len()).saturating_sub(number.cut)
}

// The digit at that place from the right.
fn digit_at(number: &LongNumber<'_>, place: usize) -> u8
    requires { AreLongDigits number.now }
    ensures { result ≡ long_digit number.now place }
{
    if place < number.zeros {
        return 0;
    }
    let behind = place - number.zeros;
    if behind >= kept_digits(number) {
        return 0;
    }
    digit_from_right(number.whole, number.fraction, behind + number.cut)
}

// The digits of a number in millionths.
fn long_number<'a>(number: &NumberParts<'a>) -> LongNumber<'a>
    requires { IsFit number.now }
    ensures long { IsLong result (amount_of (number_view number.now)) }
    ensures digits { AreLongDigits result }
{
    let raise = number.up as usize + MAX_DECIMALS as usize;
    let places = number.fraction.len() + number.down as usize;
    LongNumber {
        whole: number.whole,
        fraction: number.fraction,
        zeros: raise.saturating_sub(places),
        cut: places.saturating_sub(raise),
    }
}

/// Whether the one number is greater than the other.
pub fn is_greater(one: &NumberParts<'_>, other: &NumberParts<'_>) -> bool
    requires one { IsFit one.now }
    requires other { IsFit other.now }
    ensures { result ≡ nat_lt (amount_of (number_view other.now)) (amount_of (number_view one.now)) }
{
    let a = long_number(one);
    let b = long_number(other);
    let mut place = (kept_digits(&a) + a.zeros).max(kept_digits(&b) + b.zeros);
    'places: while place > 0 {
        place -= 1;
        let x = digit_at(&a, place);
        let y = digit_at(&b, place);
        if x != y {
            return x > y;
        }
    }
    false
}
