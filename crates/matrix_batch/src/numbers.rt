//! The ends of demands, by the numbers of the network's nodes.

ghost use Rattle.std.specs.Prelude.{◌≡◌, map};
ghost use Rattle.matrix_batch.specs.Names.{IsRow, AreRows, AreNumbered};
ghost use Rattle.matrix_batch.specs.ReadViews.{demand_view, entry_view};

use crate::kept::{DemandWords, MatrixWords};
use crate::read_end::ReadListEnd;
use crate::row::MatrixRows;
use crate::{ListKind, ListRefusal};
use sndlib_rows::{DemandRow, RawNet};
use std::alloc::Global;

fn unknown(line: u32) -> ReadListEnd
    ensures { result ≡ ReadListEnd.Refused (record { line = line; kind = ListKind.UnknownNode }) }
{
    ReadListEnd::Refused(ListRefusal {
        line,
        kind: ListKind::UnknownNode,
    })
}

// The demand with the numbers of its ends, or the line of the first end that is no node.
fn demand_row<'a>(raw: &RawNet<'_>, words: &DemandWords<'a>) -> Result<DemandRow<'a>, u32>
    ensures { IsRow raw.now (demand_view words.now) result }
{
    let source = match raw.node_named(words.source.text) {
        Some(node) => node,
        None => return Err(words.source.line),
    };
    match raw.node_named(words.target.text) {
        Some(target) => Ok(DemandRow {
            id: words.id.text,
            source,
            target,
            unit: words.unit.text,
            value: words.value.text,
            longest: words.longest.text,
            line: words.id.line,
        }),
        None => Err(words.target.line),
    }
}

// The rows of the demands, or the line of the first end that is no node.
fn demand_rows<'a>(
    alloc: Global,
    raw: &RawNet<'_>,
    demands: &[DemandWords<'a>],
) -> Result<Vec<DemandRow<'a>>, ReadListEnd>
    ensures { AreRows raw.now (map demand_view demands.now) result }
{
    let mut rows = Vec::new(alloc);
    for words in demands {
        let row = match demand_row(raw, words) {
            Ok(row) => row,
            Err(line) => return Err(unknown(line)),
        };
        match rows.push(row) {
            Ok(()) => {}
            Err(_) => return Err(ReadListEnd::Memory),
        }
    }
    Ok(rows)
}

/// The matrices with the rows of their demands, or the line of the first end that is no node.
pub fn matrix_rows<'a>(
    alloc: Global,
    raw: &RawNet<'_>,
    matrices: &[MatrixWords<'a>],
) -> Result<Vec<MatrixRows<'a>>, ReadListEnd>
    ensures { AreNumbered raw.now (map entry_view matrices.now) result }
{
    let mut read = Vec::new(alloc);
    for matrix in matrices {
        let demands = match demand_rows(alloc, raw, &matrix.demands) {
            Ok(rows) => rows,
            Err(e) => return Err(e),
        };
        let rows = MatrixRows {
            name: matrix.name.text,
            line: matrix.name.line,
            demands,
        };
        match read.push(rows) {
            Ok(()) => {}
            Err(_) => return Err(ReadListEnd::Memory),
        }
    }
    Ok(read)
}
