//! From a text to its matrices: the refusals behind those of the grammar, in their order.

ghost use Rattle.std.specs.Prelude.{◌≡◌, ◌≤◌, All, length, IfOk};
ghost use Rattle.matrix_batch.specs.ListAnswer.{Answers, IsMatrixIn, matrices_view};
ghost use Rattle.matrix_batch.specs.Names.{IsJudged};
ghost use Rattle.matrix_batch.specs.Scaled.{AreOwnRows};
ghost use Rattle.matrix_batch.specs.ReadViews.{sofar_view};

use crate::faults::{bad_number, lesser};
use crate::names::check_names;
use crate::numbers::matrix_rows;
use crate::read_end::ReadListEnd;
use crate::row::MatrixRows;
use crate::scan::scan_tokens;
use crate::sofar::Sofar;
use crate::{ListKind, ListRefusal};
use mcf_limits::MAX_LIST_BYTES;
use sndlib_grammar::{Tokens, end_line};
use sndlib_rows::RawNet;
use std::alloc::Global;

fn refusal(kind: ListKind, line: u32) -> ReadListEnd
    ensures { result ≡ ReadListEnd.Refused (record { line = line; kind = kind }) }
{
    ReadListEnd::Refused(ListRefusal { line, kind })
}

// The matrices with the numbers of their ends, or what is wrong with them.
fn judge<'a>(
    alloc: Global,
    raw: &RawNet<'_>,
    kept: Sofar<'a>,
) -> Result<Vec<MatrixRows<'a>>, ReadListEnd>
    ensures { IsJudged raw.now (sofar_view kept.entry) result }
{
    if let Some(line) = lesser(kept.extra_matrix, kept.extra_demand) {
        return Err(refusal(ListKind::TooMany, line));
    }
    match check_names(alloc, &kept.matrices) {
        Ok(()) => {}
        Err(e) => return Err(e),
    }
    let rows = match matrix_rows(alloc, raw, &kept.matrices) {
        Ok(rows) => rows,
        Err(e) => return Err(e),
    };
    match bad_number(&kept.matrices) {
        None => Ok(rows),
        Some(line) => Err(refusal(ListKind::BadNumber, line)),
    }
}

/// The matrices that the text of a list spells, with the numbers of their demands' ends among the
/// nodes of a network; or the text's first refusal: a long word or a token that no list has there,
/// whichever comes first (M1); too many matrices, or demands in all (M2); a name of an earlier matrix,
/// or an id of an earlier demand of the same matrix (M3); an end that is no node (M4); a word that is
/// no number (M5). Each kind is told of the whole list before the next. After `Memory` nothing is
/// known of the text.
pub fn read_list<'a>(
    alloc: Global,
    raw: &RawNet<'_>,
    text: &'a [u8],
) -> Result<Vec<MatrixRows<'a>>, ReadListEnd>
    requires { length text.now ≤ MAX_LIST_BYTES }
    ensures answer { Answers raw.now text.now result }
    ensures rows { IfOk result (λ v. AreOwnRows raw.now (matrices_view v)) }
    ensures slices { IfOk result (λ v. All (IsMatrixIn text.now) (matrices_view v)) }
{
    // The rows of a network that was read are sound: its accessors say so.
    let _nodes = raw.nodes();
    match scan_tokens(alloc, Tokens::new(text, 0, 1), end_line(text)) {
        Ok(kept) => judge(alloc, raw, kept),
        Err(e) => Err(e),
    }
}
