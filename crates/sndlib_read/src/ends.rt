//! The ends of links and demands, by the numbers of their nodes.

ghost use Rattle.std.specs.Prelude.{◌≡◌, ◌≤◌, ◌∷◌, [], map, length};
ghost use Rattle.sndlib_grammar.specs.Faults.{first_unknown};
ghost use Rattle.sndlib_grammar.specs.Rows.{node_number};
ghost use Rattle.sndlib_read.specs.Ends.{AreEnds, IsEnds, AreDemandRows};
ghost use Rattle.sndlib_read.specs.Numbering.{unknown_of_stored};
ghost use Rattle.sndlib_rows.specs.Names.{names_of};
ghost use Rattle.sndlib_rows.specs.Numbering.{link_ends_of};
ghost use Rattle.sndlib_rows.specs.Views.{word_view, link_view};

use crate::kept::DemandWords;
use indexmap::IndexSet;
use mcf_limits::MAX_NODES;
use sndlib_rows::{DemandRow, Ends, LinkWords, NetKind, NetRefusal, ReadNetEnd, Word, number_of};
use std::alloc::Global;

fn unknown(line: u32) -> ReadNetEnd
    ensures { result ≡ ReadNetEnd.Refused (record { line = line; kind = NetKind.UnknownNode }) }
{
    ReadNetEnd::Refused(NetRefusal {
        line,
        kind: NetKind::UnknownNode,
    })
}

// The two numbers, or the line of the first end that is no node.
fn ends_of(names: &IndexSet<&[u8]>, source: &Word<'_>, target: &Word<'_>) -> Result<Ends, u32>
    requires { length (names_of names.now) ≤ MAX_NODES }
    ensures { IsEnds (first_unknown (names_of names.now)
        (word_view source.now ∷ word_view target.now ∷ []))
        (record {
          source = node_number (names_of names.now) (word_view source.now);
          target =
              node_number (names_of names.now) (word_view target.now);
        }) result }
{
    let from = match number_of(names, source.text) {
        Some(number) => number,
        None => return Err(source.line),
    };
    match number_of(names, target.text) {
        Some(to) => Ok(Ends {
            source: from as u16,
            target: to as u16,
        }),
        None => Err(target.line),
    }
}

/// The ends of the links, or the line of the first that is no node.
pub fn link_ends(
    alloc: Global,
    names: &IndexSet<&[u8]>,
    links: &[LinkWords<'_>],
) -> Result<Vec<Ends>, ReadNetEnd>
    requires { length (names_of names.now) ≤ MAX_NODES }
    ensures { AreEnds (unknown_of_stored (names_of names.now)) (link_ends_of (names_of names.now))
        (map link_view links.now) result }
{
    let mut ends = Vec::new(alloc);
    for link in links {
        let pair = match ends_of(names, &link.source, &link.target) {
            Ok(pair) => pair,
            Err(line) => return Err(unknown(line)),
        };
        match ends.push(pair) {
            Ok(()) => {}
            Err(_) => return Err(ReadNetEnd::Memory),
        }
    }
    Ok(ends)
}

/// The rows of the demands, or the line of the first end that is no node.
pub fn demand_rows<'a>(
    alloc: Global,
    names: &IndexSet<&[u8]>,
    demands: &[DemandWords<'a>],
) -> Result<Vec<DemandRow<'a>>, ReadNetEnd>
    requires { length (names_of names.now) ≤ MAX_NODES }
    ensures { AreDemandRows (names_of names.now) demands.now result }
{
    let mut rows = Vec::new(alloc);
    for demand in demands {
        let pair = match ends_of(names, &demand.source, &demand.target) {
            Ok(pair) => pair,
            Err(line) => return Err(unknown(line)),
        };
        let row = DemandRow {
            id: demand.id.text,
            source: pair.source,
            target: pair.target,
            unit: demand.unit.text,
            value: demand.value.text,
            longest: demand.longest.text,
            line: demand.id.line,
        };
        match rows.push(row) {
            Ok(()) => {}
            Err(_) => return Err(ReadNetEnd::Memory),
        }
    }
    Ok(rows)
}
