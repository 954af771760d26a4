//! What is wrong with matrices that the grammar allows: too many of them, and words that are no
//! numbers.

ghost use Rattle.std.specs.Prelude.{◌≡◌, map};
ghost use Rattle.sndlib_grammar.specs.Faults.{is_bad as is_bad_lem, is_bad_longest as is_bad_longest_lem, first_of, bad_of_demand};
ghost use Rattle.matrix_batch.specs.Faults.{lesser_line, bad_number as bad_number_lem};
ghost use Rattle.matrix_batch.specs.ReadViews.{word_view, demand_view, entry_view};

use crate::kept::{DemandWords, MatrixWords, Word};
use sndlib_grammar::is_number;

const UNLIMITED: &[u8] = b"UNLIMITED";

/// The smaller of two line numbers, where both are there.
pub fn lesser(a: Option<u32>, b: Option<u32>) -> Option<u32>
    ensures { result ≡ lesser_line a b }
{
    match (a, b) {
        (Some(x), Some(y)) => Some(if x <= y { x } else { y }),
        (Some(x), None) => Some(x),
        (None, other) => other,
    }
}

fn is_bad(word: &Word<'_>) -> bool
    ensures { result ≡ is_bad_lem (word_view word.now) }
{
    !is_number(word.text)
}

fn is_bad_longest(word: &Word<'_>) -> bool
    ensures { result ≡ is_bad_longest_lem (word_view word.now) }
{
    !(word.text == UNLIMITED || is_number(word.text))
}

fn bad_in_demand(demand: &DemandWords<'_>) -> Option<u32>
    ensures { result ≡ bad_of_demand (demand_view demand.now) }
{
    if is_bad(&demand.unit) {
        return Some(demand.unit.line);
    }
    if is_bad(&demand.value) {
        return Some(demand.value.line);
    }
    if is_bad_longest(&demand.longest) {
        return Some(demand.longest.line);
    }
    None
}

fn bad_in_demands(demands: &[DemandWords<'_>]) -> Option<u32>
    ensures { result ≡ first_of bad_of_demand (map demand_view demands.now) }
{
    for demand in demands {
        if let Some(line) = bad_in_demand(demand) {
            return Some(line);
        }
    }
    None
}

/// The line of the first word that is no number where one is wanted.
pub fn bad_number(matrices: &[MatrixWords<'_>]) -> Option<u32>
    ensures { result ≡ bad_number_lem (map entry_view matrices.now) }
{
    for matrix in matrices {
        if let Some(line) = bad_in_demands(&matrix.demands) {
            return Some(line);
        }
    }
    None
}
