//! From the text of a list to its batch.

ghost use Rattle.std.specs.Prelude.{◌≡◌, ◌≤◌, IfOk, length};
ghost use Rattle.matrix_batch.specs.Faults.{fine_link as fine_link_lem};
ghost use Rattle.matrix_batch.specs.Answer.{Answers, AreOwn, line_of_fine as line_of_fine_lem};
ghost use Rattle.matrix_batch.specs.Views.{batch_view};

use crate::matrix::Matrix;
use crate::refusal::BatchEnd;
use crate::scaling::scale_all;
use crate::{ReadListEnd, read_list, what_is_read_is_scaled};
use mcf_limits::MAX_LIST_BYTES;
use sndlib_rows::{NetKind, NetRefusal, RawNet};
use std::alloc::{AllocError, Global};
use unit_scale::{NetOptions, RowEnd, RowRefusal, RowSort, scale_at};

// The line of a link that is too fine, where that is what is refused.
fn line_of_fine(row: RowRefusal) -> Option<u32>
    ensures { result ≡ line_of_fine_lem row }
{
    match (row.sort, row.refusal.kind) {
        (RowSort::Link, NetKind::TooFine) => Some(row.refusal.line),
        _ => None,
    }
}

// The line of the first link of the network that is too fine, whatever its own demands are.
fn fine_link(
    alloc: Global,
    raw: &RawNet<'_>,
    options: NetOptions,
) -> Result<Option<u32>, AllocError>
    ensures { IfOk result (λ line. line ≡ fine_link_lem options.modules raw.now) }
{
    match scale_at(alloc, raw, options) {
        Ok(_) => Ok(None),
        Err(RowEnd::Refused(row)) => Ok(line_of_fine(row)),
        Err(RowEnd::Memory) => Err(AllocError),
    }
}

/// The batch of a list's text on the rows of a network: each matrix with its name, the rows of its network and that network in
/// units, with decimals of its own; or the first refusal. Form, numbers of matrices and demands, names, ends and numbers of the
/// list come first (M1 to M5), then a link of the network that is too fine (N8), also where the list has no matrix, then what
/// scaling refuses (M6 to M8), each kind over the whole list before the next. N9 and N10 are not told of the network itself.
/// After `Memory` nothing is known of the text.
pub fn read_batch<'a>(
    alloc: Global,
    raw: &RawNet<'a>,
    options: NetOptions,
    text: &'a [u8],
) -> Result<Vec<Matrix<'a>>, BatchEnd>
    requires { length text.now ≤ MAX_LIST_BYTES }
    ensures answer { Answers raw.now options text.now result }
    ensures own { IfOk result (λ v. AreOwn options (batch_view v.items)) }
{
    what_is_read_is_scaled();
    let _nodes = raw.nodes();
    let lists = match read_list(alloc, raw, text) {
        Ok(lists) => lists,
        Err(ReadListEnd::Refused(refusal)) => return Err(BatchEnd::List(refusal)),
        Err(ReadListEnd::Memory) => return Err(BatchEnd::Memory),
    };
    match fine_link(alloc, raw, options) {
        Ok(None) => scale_all(alloc, raw, options, &lists),
        Ok(Some(line)) => Err(BatchEnd::Net(NetRefusal {
            line,
            kind: NetKind::TooFine,
        })),
        Err(_) => Err(BatchEnd::Memory),
    }
}
