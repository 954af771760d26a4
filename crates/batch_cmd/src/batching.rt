//! The command `batch`: a certificate for each demand matrix of a list, on one network.

ghost use Rattle.std.specs.Prelude.{◌≡◌, ◌≤◌, length};
ghost use Rattle.std.specs.List.{AllZip};
ghost use Rattle.sndlib_grammar.specs.Net.{rows_of};
ghost use Rattle.sndlib_grammar.specs.Rows.{AreNetRows};
ghost use Rattle.matrix_batch.specs.Answer.{AreOwn};
ghost use Rattle.matrix_batch.specs.Views.{batch_view};
ghost use Rattle.batch_cmd.specs.Asked.{IsBatchAsked};
ghost use Rattle.batch_cmd.specs.Solves.{IsSolvedMatrix, joined};
ghost use Rattle.base_cmd.specs.Answer.{IsTold, OrWant, Writes};
ghost use Rattle.base_cmd.specs.Found.{nothing};
ghost use Rattle.batch_cmd.specs.Batch.{GivesSolves, OfBatch, OnList, OnTexts, IsBatchAnswer, SolvesBatch, batch_asked_of, outcome_of as outcome_of_lem};

use crate::{BatchAsked, batch_status, options_of, solve_batch, texts_of, write_texts};
use base_cmd::{Ended, FileKind, Found, Outcome, end_of, file_text, net_rows, tell};
use flow_solver::Solved;
use matrix_batch::{BatchEnd, Matrix, read_batch};
use mcf_base::{Gate, Shelf, Sink};
use mcf_limits::{MAX_LIST_BYTES, MAX_NET_BYTES};
use mcf_words::Request;
use sndlib_rows::RawNet;
use std::alloc::Global;
use std::thread::Threads;

/// The names of the network's file and of the list's.
#[derive(Clone, Copy)]
pub struct BatchFiles<'a> {
    /// The name of the network's file.
    pub net: &'a str,
    /// The name of the list's file.
    pub list: &'a str,
}

/// What the words ask of the solves.
pub fn batch_asked_by(request: &Request) -> BatchAsked
    ensures { result ≡ batch_asked_of request.now }
{
    BatchAsked {
        gap: request.gap,
        phases: request.phases,
        step: request.step,
    }
}

// The solves of the matrices, or the outcome that ends the run.
fn solves_of<G: Gate, R: Threads + Sync>(
    rt: &R,
    alloc: Global,
    batch: &[Matrix<'_>],
    request: &Request,
    gate: &G,
) -> Result<Vec<Solved>, Outcome>
    requires own { AreOwn request.now.net (batch_view batch.now) }
    requires asked { IsBatchAsked (batch_asked_of request.now) }
    ensures { GivesSolves request.now.net (batch_asked_of request.now) (batch_view batch.now) result }
{
    let options = match options_of(batch, &batch_asked_by(request)) {
        Ok(options) => options,
        Err(work) => return Err(Outcome::TooMuch(work)),
    };
    match solve_batch(rt, alloc, batch, &options, gate) {
        Ok(many) => Ok(many),
        Err(_) => Err(Outcome::Memory),
    }
}

// Writes the texts, and ends with the status.
fn write_answer<K: Sink>(out: &mut K, status: u8, texts: &[Vec<u8>]) -> Ended
    ensures { Writes (K.seen out.old) (K.seen out.new) result
        (record { status = status; text = joined texts.now; found = nothing }) }
{
    end_of(write_texts(out, texts), status, Found::nothing())
}

// Writes what there is of each matrix, and ends with the status of the solves. All texts are made before the first is written.
fn write_solves<K: Sink, R: Threads + Sync>(
    rt: &R,
    alloc: Global,
    out: &mut K,
    batch: &[Matrix<'_>],
    many: &[Solved],
) -> Ended
    requires { AllZip IsSolvedMatrix (batch_view batch.now) many.now }
    ensures { IsTold (OrWant (IsBatchAnswer (batch_view batch.now) many.now))
        (K.seen out.old) (K.seen out.new) result }
{
    match texts_of(rt, alloc, batch, many) {
        Ok(texts) => write_answer(out, batch_status(many), &texts),
        Err(_) => tell(out, Outcome::Memory),
    }
}

// Solves each matrix, and writes what came of it.
fn tell_batch<K: Sink, G: Gate, R: Threads + Sync>(
    rt: &R,
    alloc: Global,
    batch: &[Matrix<'_>],
    request: &Request,
    out: &mut K,
    gate: &G,
) -> Ended
    requires own { AreOwn request.now.net (batch_view batch.now) }
    requires asked { IsBatchAsked (batch_asked_of request.now) }
    ensures { IsTold (OrWant (SolvesBatch request.now.net (batch_asked_of request.now) (batch_view batch.now)))
        (K.seen out.old) (K.seen out.new) result }
{
    match solves_of(rt, alloc, batch, request, gate) {
        Ok(many) => write_solves(rt, alloc, out, batch, &many),
        Err(outcome) => tell(out, outcome),
    }
}

// What one line tells of a list that gives no batch.
fn outcome_of(end: BatchEnd) -> Outcome
    ensures { result ≡ outcome_of_lem end }
{
    match end {
        BatchEnd::Net(refusal) => Outcome::NetRefused(refusal),
        BatchEnd::List(refusal) => Outcome::ListRefused(refusal),
        BatchEnd::Memory => Outcome::Memory,
    }
}

// Reads the list's text on the rows of the network, and writes what came of it.
fn batch_on<'a, K: Sink, G: Gate, R: Threads + Sync>(
    rt: &R,
    alloc: Global,
    rows: &RawNet<'a>,
    request: &Request,
    text: &'a [u8],
    out: &mut K,
    gate: &G,
) -> Ended
    requires rows { AreNetRows rows.now }
    requires size { length text.now ≤ MAX_LIST_BYTES }
    requires asked { IsBatchAsked (batch_asked_of request.now) }
    ensures { IsTold (OrWant (OnList request.now rows.now text.now)) (K.seen out.old) (K.seen out.new) result }
{
    match read_batch(alloc, rows, request.net, text) {
        Ok(batch) => tell_batch(rt, alloc, &batch, request, out, gate),
        Err(end) => tell(out, outcome_of(end)),
    }
}

// Reads both texts, and writes what came of them. Their rows share one lifetime, so the network is read again here.
fn batch_texts<'a, K: Sink, G: Gate, R: Threads + Sync>(
    rt: &R,
    alloc: Global,
    net: &'a [u8],
    request: &Request,
    list: &'a [u8],
    out: &mut K,
    gate: &G,
) -> Ended
    requires net { length net.now ≤ MAX_NET_BYTES }
    requires list { length list.now ≤ MAX_LIST_BYTES }
    requires asked { IsBatchAsked (batch_asked_of request.now) }
    ensures { IsTold (OrWant (OnTexts request.now (rows_of net.now) list.now))
        (K.seen out.old) (K.seen out.new) result }
{
    match net_rows(alloc, net) {
        Ok(rows) => batch_on(rt, alloc, &rows, request, list, out, gate),
        Err(outcome) => tell(out, outcome),
    }
}

/// Writes for each matrix of the list in the second file, in the list's order, the line `matrix` with its name and the text of
/// the certificate of a solve, with one worker, of the network in the first file with that matrix's demands in place of its
/// own, as the request asks. The status is 0 where each is closed, 1 where some is open. The list is read once the network is
/// accepted. It may wait for its own threads.
pub fn batch<F: Shelf, K: Sink, G: Gate, R: Threads + Sync>(
    rt: &R,
    alloc: Global,
    shelf: &mut F,
    out: &mut K,
    files: BatchFiles<'_>,
    request: &Request,
    gate: &G,
) -> Ended
    requires asked { IsBatchAsked (batch_asked_of request.now) }
    ensures { IsTold (OfBatch files.entry.net.now files.entry.list.now request.now
        (F.seen shelf.old) (F.seen shelf.new))
        (K.seen out.old) (K.seen out.new) result }
{
    let BatchFiles { net, list } = files;
    let text = match file_text(alloc, shelf, net, MAX_NET_BYTES, FileKind::Network) {
        Ok(text) => text,
        Err(outcome) => return tell(out, outcome),
    };
    match net_rows(alloc, &text) {
        Ok(_rows) => {}
        Err(outcome) => return tell(out, outcome),
    }
    match file_text(alloc, shelf, list, MAX_LIST_BYTES, FileKind::List) {
        Ok(list) => batch_texts(rt, alloc, &text, request, &list, out, gate),
        Err(outcome) => tell(out, outcome),
    }
}
