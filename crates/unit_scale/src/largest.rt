//! The greatest capacity among modules, exactly, also where several are over the limit.

ghost use Rattle.std.specs.Prelude.{◌≡◌, ◌<◌, ◌≤◌, ◌||◌, ◌^◌, true, false, length, map, max, nat_lt, MatchOption};
ghost use Rattle.std.specs.List.{list_any};
ghost use Rattle.sndlib_grammar.specs.Views.{number_view};
ghost use Rattle.unit_scale.specs.Largest.{amount_of, best_amount, IsFit, IsBest};
ghost use Rattle.unit_scale.specs.Short.{short};
ghost use Rattle.unit_scale.specs.Seen.{bytes_of};
ghost use Rattle.unit_scale.specs.Sizes.{is_fine, is_over, value, every_other, greatest};

use crate::compare::is_greater;
use crate::number::short_units;
use crate::short::MOST;
use crate::sizes::either;
use mcf_limits::MAX_DECIMALS;
use sndlib_grammar::{NumberParts, number_parts};

/// The greatest capacity so far in short, its number where there is one, and whether some capacity is over the limit.
#[derive(Clone, Copy, Debug)]
pub struct Greatest<'a> {
    /// The capacity, in short.
    pub size: u64,
    /// Its number; `None` where there was none.
    pub number: Option<NumberParts<'a>>,
    /// Whether some capacity is over the limit.
    pub over: bool,
}

// Whether a number is greater than the greatest so far.
fn exceeds(number: &NumberParts<'_>, size: u64, best: &Greatest<'_>) -> bool
    requires number { IsFit number.now }
    requires size { size ≡ short (amount_of (number_view number.now)) }
    requires best { IsBest best.now.number best.now.size }
    ensures { result ≡ nat_lt (best_amount best.now.number) (amount_of (number_view number.now)) }
{
    if size <= MOST {
        return size > best.size;
    }
    if best.size <= MOST {
        return true;
    }
    match &best.number {
        None => true,
        Some(other) => is_greater(number, other),
    }
}

// The greatest with one capacity more, if that is a whole number of millionths.
fn with_capacity<'a>(best: Greatest<'a>, word: &'a [u8]) -> Option<Greatest<'a>>
    requires { IsBest best.number best.size }
    ensures { MatchOption result (is_fine word.now ≡ true)
        (λ z. (is_fine word.now ≡ false) ×
        (best_amount z.number ≡ max (best_amount best.entry.number) (value word.now))
        × (z.over ≡ (best.entry.over || is_over word.now)) × IsBest z.number z.size) }
{
    let number = match number_parts(word) {
        Some(number) => number,
        None => return None,
    };
    let size = match short_units(&number, MAX_DECIMALS) {
        Some(size) => size,
        None => return None,
    };
    let over = either(best.over, size > MOST);
    if exceeds(&number, size, &best) {
        return Some(Greatest {
            size,
            number: Some(number),
            over,
        });
    }
    Some(Greatest {
        size: best.size,
        number: best.number,
        over,
    })
}

/// The greatest capacity of the modules, if all are whole numbers of millionths.
pub fn largest<'a>(modules: &[&'a [u8]]) -> Option<Greatest<'a>>
    requires { length modules.now < 2 ^ 63 }
    ensures { MatchOption result (list_any is_fine (every_other (bytes_of modules.now)) ≡ true)
        (λ z. (list_any is_fine (every_other (bytes_of modules.now)) ≡ false) ×
        (z.size ≡ short (greatest (map value (every_other (bytes_of modules.now))))) ×
        (z.over ≡ list_any is_over (every_other (bytes_of modules.now)))) }
{
    let mut best = Greatest {
        size: 0,
        number: None,
        over: false,
    };
    let mut at = 0;
    'modules: while at < modules.len() {
        best = match with_capacity(best, modules[at]) {
            Some(best) => best,
            None => return None,
        };
        at += 2;
    }
    Some(best)
}
