//! Names, numbered in the order of their rows.

ghost use Rattle.std.specs.Prelude.{◌≡◌, map, IfOk, position};
ghost use Rattle.std.specs.Str.{bytes_eq};
ghost use Rattle.sndlib_rows.specs.Names.{AreNamed, names_of as names_of_lem};
ghost use Rattle.sndlib_rows.specs.Parts.{id_of};
ghost use Rattle.sndlib_rows.specs.Views.{word_view};

use crate::kept::Word;
use crate::refusal::ReadNetEnd;
use crate::row::DemandRow;
use indexmap::IndexSet;
use sndlib_grammar::{NetKind, NetRefusal};
use std::alloc::{AllocError, Global};

/// The set of the ids, in order, or the first that an earlier one equals.
pub fn names_of<'a>(alloc: Global, ids: &[Word<'a>]) -> Result<IndexSet<&'a [u8]>, ReadNetEnd>
    ensures { AreNamed (map word_view ids.now) result }
{
    let mut names = IndexSet::new(alloc);
    for id in ids {
        let added = match names.insert(id.text) {
            Ok(added) => added,
            Err(_) => return Err(ReadNetEnd::Memory),
        };
        if !added {
            return Err(ReadNetEnd::Refused(NetRefusal {
                line: id.line,
                kind: NetKind::Duplicate,
            }));
        }
    }
    Ok(names)
}

/// The number of that name.
pub fn number_of(names: &IndexSet<&[u8]>, name: &[u8]) -> Option<usize>
    ensures { result ≡ position (bytes_eq name.now) (names_of_lem names.now) }
{
    names.get_index_of(name)
}

fn row_ids<'a>(alloc: Global, demands: &[DemandRow<'a>]) -> Result<Vec<Word<'a>>, AllocError>
    ensures { IfOk result (λ v. v.items ≡ map (λ d. record { text = d.id; line = d.line }) demands.now) }
{
    demands
        .iter()
        .map(|d| Word {
            text: d.id,
            line: d.line,
        })
        .collect(alloc)
}

/// The names of rows of demands, or the first id that an earlier one equals.
pub fn names_of_demands<'a>(
    alloc: Global,
    demands: &[DemandRow<'a>],
) -> Result<IndexSet<&'a [u8]>, ReadNetEnd>
    ensures { AreNamed (map id_of demands.now) result }
{
    match row_ids(alloc, demands) {
        Ok(ids) => names_of(alloc, &ids),
        Err(_) => Err(ReadNetEnd::Memory),
    }
}
