//! Arithmetic on numbers that may be greater than any type: what is over the limit keeps its last digits alone, as many as a product of two numbers has decimals.

ghost use Rattle.std.specs.Prelude.{◌≡◌, ◌+◌, ◌*◌, ◌^◌, ◌≤◌, ◌==◌};
ghost use Rattle.std.specs.List.{list_all};
ghost use Rattle.std.specs.Str.Parse.{AllDigits, digits_value_after};
ghost use Rattle.unit_scale.specs.Short.{short};

use mcf_limits::MAX_UNITS;

/// The millionths in one, where a number has `MAX_DECIMALS` decimals.
pub const MILLIONTHS: u64 = 1_000_000;

/// The greatest number that is read, in millionths.
pub const MOST: u64 = MAX_UNITS * MILLIONTHS;

// The last digits stay below it: as many of them as a product of two numbers has decimals.
const LAST: u64 = MILLIONTHS * MILLIONTHS;

const OVER: u64 = (MOST / LAST + 1) * LAST;

/// The number itself up to the limit, and else a number over the limit with the same last digits.
pub fn shortened(n: u128) -> u64
    ensures { result ≡ short n }
{
    if n <= MOST as u128 {
        n as u64
    } else {
        OVER + (n % LAST as u128) as u64
    }
}

/// The number of the digits, where they follow those of `start`.
pub fn extended(start: u64, digits: &[u8]) -> u64
    requires { AllDigits 10 digits.now }
    ensures { short result ≡ short (digits_value_after 10 start digits.now) }
{
    let mut n = start;
    for digit in digits {
        n = shortened(n as u128 * 10 + (*digit - b'0') as u128);
    }
    n
}

/// `start` with `zeros` zeros behind it; where that is over the limit, a number over the limit with its last digits.
pub fn raised(start: u64, zeros: usize) -> u64
    ensures { short result ≡ short (start * 10 ^ zeros) }
{
    let mut n = start;
    for _ in 0..zeros {
        n = shortened(n as u128 * 10);
    }
    n
}

/// Whether each digit is a zero.
pub fn are_zeros(digits: &[u8]) -> bool
    ensures { result ≡ list_all (λ d. d == 48) digits.now }
{
    digits.iter().all(|digit| *digit == b'0')
}
