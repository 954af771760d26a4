//! Numbers in words.

ghost use Rattle.std.specs.Prelude.{◌≡◌, ◌<◌, ◌≤◌, IfOk};
ghost use Rattle.std.specs.List.{list_all};
ghost use Rattle.std.specs.Char.{is_ascii_digit};
ghost use Rattle.cert_lines.specs.Numbers.{is_number, number_within, is_micro, decimal_within, micro_value};

use crate::refusal::CertKind;
use gap_fraction::MAX_PART;

/// The most digits of a number.
pub const MAX_DIGITS: usize = 39;

// Whether each byte is a digit.
fn are_digits(word: &[u8]) -> bool
    ensures { result ≡ list_all is_ascii_digit word.now }
{
    word.iter().all(|b| b.is_ascii_digit())
}

// Whether the word is `0` or up to 39 digits without a leading zero.
fn is_number(word: &[u8]) -> bool
    ensures { result ≡ is_number word.now }
{
    !word.is_empty()
        && word.len() <= MAX_DIGITS
        && (word.len() == 1 || word[0] > 48)
        && are_digits(word)
}

/// The number that the word spells, up to that limit.
#[tactic(auto, unfolding(crate::specs::Numbers::number_within))]
pub fn number_within(word: &[u8], most: u128) -> Result<u128, CertKind>
    requires { most ≤ MAX_PART }
    ensures exact { result ≡ number_within most word.now }
    ensures within { IfOk result (λ n. n ≤ most) }
{
    if !is_number(word) {
        return Err(CertKind::BadNumber);
    }
    let mut value = 0u128;
    for b in word {
        value = value * 10 + (*b - 48) as u128;
        if value > most {
            return Err(CertKind::TooLarge);
        }
    }
    Ok(value)
}

// Whether these are a point and six digits.
fn is_micro(part: &[u8]) -> bool
    ensures { result ≡ is_micro part.now }
{
    part.len() == 7 && part[0] == 46 && are_digits(&part[1..])
}

// The digit at that place.
fn digit(part: &[u8], i: usize) -> u32
    requires { i < length part.now }
    ensures value { result ≡ slice_index part.now i - 48 }
    ensures small { result < 256 }
{
    part[i].saturating_sub(48) as u32
}

// The number of a point and six digits.
fn micro(part: &[u8]) -> u32
    requires { length part.now ≡ 7 }
    ensures { result ≡ micro_value part.now }
{
    digit(part, 1) * 100000
        + digit(part, 2) * 10000
        + digit(part, 3) * 1000
        + digit(part, 4) * 100
        + digit(part, 5) * 10
        + digit(part, 6)
}

/// The whole part and the six digits that the word spells, the whole part up to that limit.
#[tactic(auto, unfolding(crate::specs::Numbers::decimal_within))]
pub fn decimal_within(word: &[u8], most: u128) -> Result<(u128, u32), CertKind>
    requires { most ≤ MAX_PART }
    ensures exact { result ≡ decimal_within most word.now }
    ensures within { IfOk result (λ n. n.0 ≤ most) }
    ensures six { IfOk result (λ n. n.1 < 1000000) }
{
    let (whole, part) = word.split_at(word.len().saturating_sub(7));
    if !is_micro(part) {
        return Err(CertKind::BadNumber);
    }
    match number_within(whole, most) {
        Ok(value) => Ok((value, micro(part))),
        Err(kind) => Err(kind),
    }
}

ghost use Rattle.std.specs.Prelude.{◌-◌, length, slice_index};
