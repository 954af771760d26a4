//! What is written of a batch, and its status.

ghost use Rattle.std.specs.Prelude.{◌≡◌, ℕ, ◌<◌, IfOk, length, slice_index_or};
ghost use Rattle.std.specs.List.{AllZip, list_all};
ghost use Rattle.mcf_base.specs.Sink.{Wrote};
ghost use Rattle.matrix_batch.specs.Views.{batch_view, matrix_view};
ghost use Rattle.batch_cmd.specs.Solves.{IsSolvedMatrix, joined, matrix_text, solved_status, solved_text};
ghost use Rattle.batch_cmd.specs.Numbered.{IsTextAt};

use crate::page::Page;
use cert_lines::{Form, Names};
use cert_writer::write_cert;
use claimed_calls::call_each;
use flow_solver::Solved;
use matrix_batch::Matrix;
use mcf_base::{Sink, WriteFault, write_all_of};
use net_solve::solved_can_be_written;
use std::alloc::{AllocError, Global};
use std::thread::Threads;
use text_lines::write_line;

// Writes the line with the matrix's name, and its certificate.
fn write_matrix<K: Sink>(
    out: &mut K,
    matrix: &Matrix<'_>,
    solved: &Solved,
) -> Result<(), WriteFault>
    requires { IsSolvedMatrix (matrix_view matrix.now) solved.now }
    ensures { Wrote (K.seen out.old) (K.seen out.new) result
        (matrix_text (matrix_view matrix.now) solved.now) }
{
    solved_can_be_written();
    let _nodes = matrix.net.net().nodes();
    match write_line(out, b"matrix", &[matrix.name]) {
        Ok(()) => {}
        Err(fault) => return Err(fault),
    }
    let names = Names::new(&matrix.rows, &matrix.net, Form::Second);
    write_cert(&names, solved.proof(), out)
}

// The text of one matrix.
fn text_of(alloc: Global, matrix: &Matrix<'_>, solved: &Solved) -> Result<Vec<u8>, AllocError>
    requires { IsSolvedMatrix (matrix_view matrix.now) solved.now }
    ensures { IfOk result (λ text. text.items ≡ matrix_text (matrix_view matrix.now) solved.now) }
{
    let mut page = Page::new(alloc);
    match write_matrix(&mut page, matrix, solved) {
        Ok(()) => Ok(page.into_bytes()),
        Err(_) => Err(AllocError),
    }
}

// The text of the matrix of that number.
fn text_at(
    alloc: Global,
    batch: &[Matrix<'_>],
    many: &[Solved],
    at: usize,
) -> Result<Vec<u8>, AllocError>
    requires at { at < length batch.now }
    requires solved { AllZip IsSolvedMatrix (batch_view batch.now) many.now }
    ensures { IfOk result (λ text. IsTextAt (batch_view batch.now) many.now at text.items) }
{
    let text = text_of(alloc, &batch[at], &many[at])?;
    Ok(text)
}

// For each matrix, in their order, its text.
fn each_text<R: Threads + Sync>(
    rt: &R,
    alloc: Global,
    batch: &[Matrix<'_>],
    many: &[Solved],
) -> Result<Vec<Vec<u8>>, AllocError>
    requires { AllZip IsSolvedMatrix (batch_view batch.now) many.now }
    ensures count { IfOk result (λ texts. length texts.items ≡ length batch.now) }
    ensures each { IfOk result (λ texts. (i : ℕ) (d : _) → i < length batch.now
        → IsTextAt (batch_view batch.now) many.now i (slice_index_or texts.items i d).items) }
{
    call_each(
        rt,
        alloc,
        batch.len(),
        &|at: usize| -> Result<Vec<u8>, AllocError>
            requires { (at < length batch.now) × AllZip IsSolvedMatrix (batch_view batch.now) many.now }
            ensures { IfOk result (λ text. IsTextAt (batch_view batch.entry.now) many.entry.now at text.items) }
        { text_at(alloc, batch, many, at) },
    )
}

/// For each matrix, in the batch's order, the line `matrix` with its name, and the text of its certificate. They are made in
/// several threads, for which the call waits. `Err`: out of memory.
pub fn texts_of<R: Threads + Sync>(
    rt: &R,
    alloc: Global,
    batch: &[Matrix<'_>],
    many: &[Solved],
) -> Result<Vec<Vec<u8>>, AllocError>
    requires { AllZip IsSolvedMatrix (batch_view batch.now) many.now }
    ensures { IfOk result (λ texts. joined texts.items ≡ solved_text (batch_view batch.now) many.now) }
{
    let texts = each_text(rt, alloc, batch, many)?;
    Ok(texts)
}

/// Writes the texts, one behind the other. After a fault a front of them was written.
pub fn write_texts<K: Sink>(out: &mut K, texts: &[Vec<u8>]) -> Result<(), WriteFault>
    ensures { Wrote (K.seen out.old) (K.seen out.new) result (joined texts.now) }
{
    for text in texts {
        match write_all_of(out, text.as_slice()) {
            Ok(()) => {}
            Err(fault) => return Err(fault),
        }
    }
    Ok(())
}

// Whether each solve is closed.
fn are_closed(many: &[Solved]) -> bool
    ensures { result ≡ list_all (λ s. s.proof.closed) many.now }
{
    many.iter().all(|solved| solved.proof().closed)
}

/// The status of the solves: 0 where each is closed, 1 where some is open.
pub fn batch_status(many: &[Solved]) -> u8
    ensures { result ≡ solved_status many.now }
{
    if are_closed(many) { 0 } else { 1 }
}
