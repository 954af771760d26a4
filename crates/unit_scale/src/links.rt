//! The capacities of links.

ghost use Rattle.std.specs.Prelude.{◌≡◌, ◌+◌, ◌*◌, ◌^◌, ◌<◌, ◌≤◌, ◌||◌, true, false, length, map, sum, MatchOption, ⊤};
ghost use Rattle.std.specs.List.{list_any};
ghost use Rattle.unit_scale.specs.Sizes.{is_fine, is_over, value, every_other, greatest, is_fine_link};
ghost use Rattle.unit_scale.specs.Seen.{seen, seen_size, seen_link, bytes_of};
ghost use Rattle.unit_scale.specs.Scaling.{first_line};
ghost use Rattle.unit_scale.specs.Stages.{Stage, AreLinkSizes};
ghost use Rattle.sndlib_rows.specs.RowViews.{link_row_view};
ghost use Rattle.sndlib_grammar.specs.declared.refusal.NetKind.TheVariants.{TooFine as TooFineIs};

use crate::ModuleMode;
use crate::largest::largest;
use crate::refusal::{ScaleEnd, refused};
use crate::short::MOST;
use crate::sizes::{either, word_size};
use sndlib_rows::{LinkRow, NetKind, RawNet};
use std::alloc::Global;

/// The capacity of a link in millionths: itself where no number is over the limit, and else one of the same last `MAX_DECIMALS` digits.
#[derive(Clone, Copy, Debug)]
pub struct LinkSize {
    /// The capacity, in millionths.
    pub millionths: u128,
    /// Whether a number is over the limit.
    pub over: bool,
}

// What is added to a size by a word, if that is a whole number of millionths.
fn with_word(size: LinkSize, word: &[u8]) -> Option<LinkSize>
    requires { size.millionths + 2 ^ 64 < 2 ^ 128 }
    ensures value { MatchOption result (is_fine word.now ≡ true)
        (λ z. (is_fine word.now ≡ false) ×
        (seen_size z ≡ seen (size.over || is_over word.now) (size.millionths + value word.now))) }
    ensures bound { MatchOption result (⊤) (λ z. z.millionths < size.millionths + 2 ^ 64) }
{
    let more = match word_size(word) {
        Some(more) => more,
        None => return None,
    };
    Some(LinkSize {
        millionths: size.millionths + more as u128,
        over: either(size.over, more > MOST),
    })
}

// The size with each capacity of the modules.
fn with_all(start: LinkSize, modules: &[&[u8]]) -> Option<LinkSize>
    requires start { start.millionths < 2 ^ 64 }
    requires count { length modules.now < 2 ^ 63 }
    ensures { MatchOption result (list_any is_fine (every_other (bytes_of modules.now)) ≡ true)
        (λ z. (list_any is_fine (every_other (bytes_of modules.now)) ≡ false) ×
        (seen_size z ≡ seen (start.over || list_any is_over (every_other (bytes_of modules.now)))
        (start.millionths + sum (map value (every_other (bytes_of modules.now)))))) }
{
    let mut size = start;
    let mut at = 0;
    'modules: while at < modules.len() {
        size = match with_word(size, modules[at]) {
            Some(size) => size,
            None => return None,
        };
        at += 2;
    }
    Some(size)
}

// The size with the greatest capacity of the modules.
fn with_largest(start: LinkSize, modules: &[&[u8]]) -> Option<LinkSize>
    requires start { start.millionths < 2 ^ 64 }
    requires count { length modules.now < 2 ^ 63 }
    ensures { MatchOption result (list_any is_fine (every_other (bytes_of modules.now)) ≡ true)
        (λ z. (list_any is_fine (every_other (bytes_of modules.now)) ≡ false) ×
        (seen_size z ≡ seen (start.over || list_any is_over (every_other (bytes_of modules.now)))
        (start.millionths + greatest (map value (every_other (bytes_of modules.now)))))) }
{
    let found = match largest(modules) {
        Some(found) => found,
        None => return None,
    };
    Some(LinkSize {
        millionths: start.millionths + found.size as u128,
        over: either(start.over, found.over),
    })
}

// The capacity of a link, if its numbers are whole numbers of millionths.
fn link_size(row: &LinkRow<'_>, modules: &[&[u8]], mode: ModuleMode) -> Option<LinkSize>
    requires { length modules.now < 2 ^ 63 }
    ensures { MatchOption result (is_fine_link mode (link_row_view row.now (bytes_of modules.now)) ≡ true)
        (λ z. (is_fine_link mode (link_row_view row.now (bytes_of modules.now)) ≡ false) ×
        (seen_size z ≡ seen_link mode (link_row_view row.now (bytes_of modules.now)))) }
{
    let none = LinkSize {
        millionths: 0,
        over: false,
    };
    let installed = match with_word(none, row.installed) {
        Some(installed) => installed,
        None => return None,
    };
    match mode {
        ModuleMode::Ignore => Some(installed),
        ModuleMode::Largest => with_largest(installed, modules),
        ModuleMode::Sum => with_all(installed, modules),
    }
}

/// The capacities of the links, if none is too fine.
pub fn link_sizes(
    alloc: Global,
    raw: &RawNet<'_>,
    mode: ModuleMode,
) -> Result<Vec<LinkSize>, ScaleEnd>
    ensures { Stage TooFineIs (first_line (is_fine_link mode) (λ l. l.line) raw.now.links)
        (λ v. AreLinkSizes mode raw.now.links v.items) result }
{
    let mut sizes = Vec::new(alloc);
    for i in 0..raw.links() {
        let row = raw.link(i);
        let size = match link_size(&row, raw.modules(i), mode) {
            Some(size) => size,
            None => return Err(refused(NetKind::TooFine, row.line)),
        };
        if sizes.push(size).is_err() {
            return Err(ScaleEnd::Memory);
        }
    }
    Ok(sizes)
}
