//! Names of matrices and ids of demands that an earlier one has.

ghost use Rattle.std.specs.Prelude.{◌≡◌, [], map};
ghost use Rattle.sndlib_grammar.specs.Faults.{line_of, first_repeated};
ghost use Rattle.matrix_batch.specs.Faults.{repeated};
ghost use Rattle.matrix_batch.specs.Names.{Finds};
ghost use Rattle.matrix_batch.specs.Stored.{demand_ids};
ghost use Rattle.matrix_batch.specs.ReadViews.{demand_view, entry_view};

use crate::kept::{DemandWords, MatrixWords};
use crate::read_end::ReadListEnd;
use crate::{ListKind, ListRefusal};
use indexmap::IndexSet;
use std::alloc::Global;

fn duplicate(line: u32) -> ReadListEnd
    ensures { result ≡ ReadListEnd.Refused (record { line = line; kind = ListKind.Duplicate }) }
{
    ReadListEnd::Refused(ListRefusal {
        line,
        kind: ListKind::Duplicate,
    })
}

// No two of the demands have one id; else the first whose id an earlier one has.
fn check_ids(alloc: Global, demands: &[DemandWords<'_>]) -> Result<(), ReadListEnd>
    ensures { Finds ListKind.Duplicate
        (line_of (first_repeated [] (demand_ids (map demand_view demands.now)))) result }
{
    let mut ids = IndexSet::new(alloc);
    for demand in demands {
        let added = match ids.insert(demand.id.text) {
            Ok(added) => added,
            Err(_) => return Err(ReadListEnd::Memory),
        };
        if !added {
            return Err(duplicate(demand.id.line));
        }
    }
    Ok(())
}

/// No two of the matrices have one name, and no two demands of a matrix one id; else the first that
/// an earlier one has.
pub fn check_names(alloc: Global, matrices: &[MatrixWords<'_>]) -> Result<(), ReadListEnd>
    ensures { Finds ListKind.Duplicate (repeated [] (map entry_view matrices.now)) result }
{
    let mut names = IndexSet::new(alloc);
    for matrix in matrices {
        let added = match names.insert(matrix.name.text) {
            Ok(added) => added,
            Err(_) => return Err(ReadListEnd::Memory),
        };
        if !added {
            return Err(duplicate(matrix.name.line));
        }
        match check_ids(alloc, &matrix.demands) {
            Ok(()) => {}
            Err(e) => return Err(e),
        }
    }
    Ok(())
}
