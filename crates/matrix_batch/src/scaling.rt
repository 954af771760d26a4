//! Matrices that are scaled one after the other, each with decimals of its own.

ghost use Rattle.std.specs.Prelude.{◌≡◌, map, IfOk};
ghost use Rattle.sndlib_grammar.specs.Rows.{AreNetRows};
ghost use Rattle.matrix_batch.specs.ListAnswer.{matrix_view as read_view};
ghost use Rattle.matrix_batch.specs.Scaled.{AreOwnRows, own_rows};
ghost use Rattle.matrix_batch.specs.Scaling.{line_of_large as line_of_large_lem};
ghost use Rattle.matrix_batch.specs.Steps.{AfterOne, AreScaled, IsFinished, IsRefusedOne, sofar_view};

use crate::matrix::Matrix;
use crate::refusal::BatchEnd;
use crate::{ListKind, ListRefusal, MatrixRows};
use sndlib_rows::{NetKind, RawNet};
use std::alloc::{AllocError, Global};
use unit_scale::{NetOptions, RowEnd, RowRefusal, RowSort, scale_at};

/// The matrices so far, and the lines of the first that is too large and of the first without a commodity.
#[derive(Drop)]
pub struct Sofar<'a> {
    /// The matrices.
    pub matrices: Vec<Matrix<'a>>,
    /// The line of the first matrix that is too large.
    pub large: Option<u32>,
    /// The line of the first matrix without a commodity.
    pub empty: Option<u32>,
}

// The rows of the matrix's network.
fn rows_of<'a>(
    alloc: Global,
    raw: &RawNet<'a>,
    list: &MatrixRows<'a>,
) -> Result<RawNet<'a>, AllocError>
    requires { AreNetRows (own_rows raw.now (read_view list.now)) }
    ensures { IfOk result (λ rows. rows ≡ own_rows raw.now (read_view list.now)) }
{
    let demands = Vec::from_slice(alloc, &list.demands)?;
    raw.with_demands(alloc, demands)
}

// Keeps that a matrix whose name is in that line is refused; what is too fine is told at once.
fn put_refusal(sofar: &mut Sofar<'_>, name: u32, row: RowRefusal) -> Result<(), ListRefusal>
    ensures { IsRefusedOne name row (sofar_view sofar.old) (sofar_view sofar.new) result }
{
    match row.refusal.kind {
        NetKind::TooFine => Err(ListRefusal {
            line: row.refusal.line,
            kind: ListKind::TooFine,
        }),
        NetKind::TooLarge => {
            sofar.large = sofar.large.or(Some(line_of_large(name, row)));
            Ok(())
        }
        _ => {
            sofar.empty = sofar.empty.or(Some(name));
            Ok(())
        }
    }
}

// Where what is too large is told: a link at the matrix's name, a demand at its id.
fn line_of_large(name: u32, row: RowRefusal) -> u32
    ensures { result ≡ line_of_large_lem name row.sort row.refusal.line }
{
    match row.sort {
        RowSort::Link => name,
        _ => row.refusal.line,
    }
}

// Keeps one matrix more, or that it is refused.
fn put_matrix<'a>(
    alloc: Global,
    raw: &RawNet<'a>,
    options: NetOptions,
    list: &MatrixRows<'a>,
    sofar: &mut Sofar<'a>,
) -> Result<(), BatchEnd>
    requires { AreNetRows (own_rows raw.now (read_view list.now)) }
    ensures { AfterOne raw.now options (read_view list.now) (sofar_view sofar.old) (sofar_view sofar.new) result }
{
    let rows = match rows_of(alloc, raw, list) {
        Ok(rows) => rows,
        Err(_) => return Err(BatchEnd::Memory),
    };
    match scale_at(alloc, &rows, options) {
        Ok(net) => {
            let matrix = Matrix {
                name: list.name,
                rows,
                net,
            };
            match sofar.matrices.push(matrix) {
                Ok(()) => Ok(()),
                Err(_) => Err(BatchEnd::Memory),
            }
        }
        Err(RowEnd::Refused(row)) => match put_refusal(sofar, list.line, row) {
            Ok(()) => Ok(()),
            Err(refusal) => Err(BatchEnd::List(refusal)),
        },
        Err(RowEnd::Memory) => Err(BatchEnd::Memory),
    }
}

// The matrices, or the first refusal behind all of them.
fn finish(sofar: Sofar<'_>) -> Result<Vec<Matrix<'_>>, ListRefusal>
    ensures { IsFinished (sofar_view sofar.entry) result }
{
    if let Some(line) = sofar.large {
        return Err(ListRefusal {
            line,
            kind: ListKind::TooLarge,
        });
    }
    if let Some(line) = sofar.empty {
        return Err(ListRefusal {
            line,
            kind: ListKind::NoDemand,
        });
    }
    Ok(sofar.matrices)
}

/// The network of each matrix, with its own decimals, or the first refusal: what is too fine in any matrix (M6) comes before what is too large in any (M7), and that before a matrix without a commodity (M8).
pub fn scale_all<'a>(
    alloc: Global,
    raw: &RawNet<'a>,
    options: NetOptions,
    lists: &[MatrixRows<'a>],
) -> Result<Vec<Matrix<'a>>, BatchEnd>
    requires { AreOwnRows raw.now (map read_view lists.now) }
    ensures { AreScaled raw.now options (map read_view lists.now) result }
{
    let mut sofar = Sofar {
        matrices: Vec::new(alloc),
        large: None,
        empty: None,
    };
    for list in lists {
        match put_matrix(alloc, raw, options, list, &mut sofar) {
            Ok(()) => {}
            Err(end) => return Err(end),
        }
    }
    match finish(sofar) {
        Ok(matrices) => Ok(matrices),
        Err(refusal) => Err(BatchEnd::List(refusal)),
    }
}
