//! The values of options and of positional words that are numbers.

ghost use Rattle.std.specs.Prelude.{◌≡◌, ◌<◌, ◌≤◌, ◌^◌, ◌&&◌, ℕ, Some, None, Option, IfSome, if◌then◌else◌, length, nat_le};
ghost use Rattle.std.specs.Char.{digit_value, is_ascii_digit};
ghost use Rattle.std.specs.Str.Parse.{digits_value};
ghost use Rattle.mcf_words.specs.Values.{is_whole, number_in as number_in_lem, gap_of as gap_of_lem};

use mcf_limits::MAX_GAP;
use unit_scale::{Decimal, read_decimal};

// The value of a digit.
fn digit(b: u8) -> Option<u8>
    ensures digits { result ≡ (if is_ascii_digit b then Some (digit_value b) else None) }
    ensures small { IfSome result (λ d. d < 10) }
{
    if b.is_ascii_digit() {
        Some(b - b'0')
    } else {
        None
    }
}

// The whole number that 1 to 20 digits are.
fn whole_number(word: &[u8]) -> Option<u128>
    ensures { result ≡ (if is_whole word.now then Some (digits_value 10 word.now) else None) }
{
    if word.is_empty() || word.len() > 20 {
        return None;
    }
    let mut value = 0u128;
    for b in word {
        match digit(*b) {
            Some(digit) => value = value * 10 + digit as u128,
            None => return None,
        }
    }
    Some(value)
}

/// The whole number that the word is, where it is one of these.
pub fn number_in(least: u64, most: u64, word: &[u8]) -> Option<u64>
    ensures value { result ≡ number_in_lem least most word.now }
    ensures limits { IfSome result (λ n. (least ≤ n) × (n ≤ most)) }
{
    match whole_number(word) {
        Some(value) if value >= least as u128 && value <= most as u128 => Some(value as u64),
        _ => None,
    }
}

/// The gap in millionths, where the word is a whole number of them within the limit.
pub fn gap_of(word: &[u8]) -> Option<u64>
    ensures value { result ≡ gap_of_lem word.now }
    ensures limit { IfSome result (λ n. n ≤ MAX_GAP) }
{
    match read_decimal(word) {
        Some(Decimal::Millionths(gap)) if gap <= MAX_GAP => Some(gap),
        _ => None,
    }
}
