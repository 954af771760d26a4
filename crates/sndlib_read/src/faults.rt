//! What is wrong with rows that the grammar allows: too many of them, and words that are no numbers.

ghost use Rattle.std.specs.Prelude.{◌≡◌, map, slice_get};
ghost use Rattle.sndlib_grammar.specs.Faults.{is_bad as is_bad_lem, is_bad_longest as is_bad_longest_lem, line_of, first_of, bad_of_demand};
ghost use Rattle.sndlib_read.specs.Numbering.{too_many_of, bad_of_stored, bad_of};
ghost use Rattle.sndlib_read.specs.Views.{demand_view, kept_view};
ghost use Rattle.sndlib_rows.specs.Views.{word_view, node_view, link_view};

use crate::kept::{DemandWords, Kept};
use mcf_limits::{MAX_DEMANDS, MAX_LINKS, MAX_NODES};
use sndlib_grammar::is_number;
use sndlib_rows::{LinkWords, NodeWords, Word};

const UNLIMITED: &[u8] = b"UNLIMITED";

// The line of the id at that place.
fn node_line(nodes: &[NodeWords<'_>], at: usize) -> Option<u32>
    ensures { result ≡ line_of (slice_get (map (λ n. n.id) (map node_view nodes.now)) at) }
{
    if at < nodes.len() {
        Some(nodes[at].id.line)
    } else {
        None
    }
}

fn link_line(links: &[LinkWords<'_>], at: usize) -> Option<u32>
    ensures { result ≡ line_of (slice_get (map (λ l. l.id) (map link_view links.now)) at) }
{
    if at < links.len() {
        Some(links[at].id.line)
    } else {
        None
    }
}

fn demand_line(demands: &[DemandWords<'_>], at: usize) -> Option<u32>
    ensures { result ≡ line_of (slice_get (map (λ d. d.id) (map demand_view demands.now)) at) }
{
    if at < demands.len() {
        Some(demands[at].id.line)
    } else {
        None
    }
}

/// The line of the id at which there is one row too many.
pub fn too_many(rows: &Kept<'_>) -> Option<u32>
    ensures { result ≡ too_many_of (kept_view rows.now) }
{
    if let Some(line) = node_line(&rows.nodes, MAX_NODES as usize) {
        return Some(line);
    }
    if let Some(line) = link_line(&rows.links, MAX_LINKS as usize) {
        return Some(line);
    }
    demand_line(&rows.demands, MAX_DEMANDS as usize)
}

fn is_bad(word: &Word<'_>) -> bool
    ensures { result ≡ is_bad_lem (word_view word.now) }
{
    !is_number(word.text)
}

fn is_bad_longest(word: &Word<'_>) -> bool
    ensures { result ≡ is_bad_longest_lem (word_view word.now) }
{
    !(word.text == UNLIMITED || is_number(word.text))
}

fn bad_in_link(link: &LinkWords<'_>) -> Option<u32>
    ensures { result ≡ bad_of_stored (link_view link.now) }
{
    if is_bad(&link.installed) {
        return Some(link.installed.line);
    }
    link.bad
}

fn bad_in_demand(demand: &DemandWords<'_>) -> Option<u32>
    ensures { result ≡ bad_of_demand (demand_view demand.now) }
{
    if is_bad(&demand.unit) {
        return Some(demand.unit.line);
    }
    if is_bad(&demand.value) {
        return Some(demand.value.line);
    }
    if is_bad_longest(&demand.longest) {
        return Some(demand.longest.line);
    }
    None
}

fn bad_in_links(links: &[LinkWords<'_>]) -> Option<u32>
    ensures { result ≡ first_of bad_of_stored (map link_view links.now) }
{
    for link in links {
        if let Some(line) = bad_in_link(link) {
            return Some(line);
        }
    }
    None
}

fn bad_in_demands(demands: &[DemandWords<'_>]) -> Option<u32>
    ensures { result ≡ first_of bad_of_demand (map demand_view demands.now) }
{
    for demand in demands {
        if let Some(line) = bad_in_demand(demand) {
            return Some(line);
        }
    }
    None
}

/// The line of the first word that is no number where one is wanted.
pub fn bad_number(rows: &Kept<'_>) -> Option<u32>
    ensures { result ≡ bad_of (kept_view rows.now) }
{
    if let Some(line) = bad_in_links(&rows.links) {
        return Some(line);
    }
    bad_in_demands(&rows.demands)
}
