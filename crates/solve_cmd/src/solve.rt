//! The command `solve`: the certificate of a network.

ghost use Rattle.std.specs.Prelude.{◌≡◌};
ghost use Rattle.sndlib_grammar.specs.Rows.{AreNetRows};
ghost use Rattle.cert_lines.specs.Sheet.{IsOf, sheet_of};
ghost use Rattle.cert_writer.specs.Text.{FitsProof};
ghost use Rattle.solver_run.specs.declared.options.SolveOptions.{SolveOptions};
ghost use Rattle.solver_run.specs.Headline.{IsSolved};
ghost use Rattle.net_solve.specs.Asked.{IsAsked};
ghost use Rattle.base_cmd.specs.Answer.{IsTold, OrWant, Writes};
ghost use Rattle.solve_cmd.specs.Solve.{asked_of, solve_answer, SolvesRows, OfSolve};

use base_cmd::{Ended, Found, Outcome, end_of, net_in, tell, verdict_status};
use cert_lines::{Form, Names};
use cert_writer::write_cert;
use flow_solver::Solved;
use mcf_base::{Gate, Shelf, Sink};
use mcf_words::Request;
use net_solve::{Asked, Solving, solve_rows, solved_can_be_written};
use sndlib_rows::RawNet;
use std::alloc::Global;
use std::thread::Threads;
use unit_scale::Scaled;

// Writes the certificate, which fits its text.
fn write_solved<K: Sink>(raw: &RawNet<'_>, net: &Scaled, solved: Solved, out: &mut K) -> Ended
    requires of { IsOf raw.now net.now }
    requires fits { FitsProof (sheet_of raw.now net.now) solved.proof }
    ensures { Writes (K.seen out.old) (K.seen out.new) result (solve_answer raw.now net.now solved) }
{
    let status = verdict_status(solved.proof().closed);
    let written = write_cert(&Names::new(raw, net, Form::Second), solved.proof(), out);
    end_of(written, status, Found::solve(solved))
}

// Writes the certificate of a solve of the rows.
fn tell_solved<K: Sink>(raw: &RawNet<'_>, net: &Scaled, solved: Solved, out: &mut K) -> Ended
    requires of { IsOf raw.now net.now }
    requires solved { (o : SolveOptions) × IsSolved net.now.net o solved }
    ensures { Writes (K.seen out.old) (K.seen out.new) result (solve_answer raw.now net.now solved) }
{
    solved_can_be_written();
    let _nodes = net.net().nodes();
    write_solved(raw, net, solved, out)
}

/// What the words ask of a solve.
pub fn asked_by(request: &Request) -> Asked
    ensures { result ≡ asked_of request.now }
{
    Asked {
        gap: request.gap,
        phases: request.phases,
        workers: request.workers,
        step: request.step,
    }
}

// Solves the network of the rows, and writes what came of it.
fn solve_and_tell<K: Sink, G: Gate, R: Threads + Sync>(
    rt: &R,
    alloc: Global,
    raw: &RawNet<'_>,
    request: &Request,
    out: &mut K,
    gate: &G,
) -> Ended
    requires rows { AreNetRows raw.now }
    requires asked { IsAsked (asked_of request.now) }
    ensures { IsTold (OrWant (SolvesRows request.now raw.now)) (K.seen out.old) (K.seen out.new) result }
{
    match solve_rows(rt, alloc, raw, request.net, &asked_by(request), gate) {
        Ok(Solving::Done(net, solved)) => tell_solved(raw, &net, solved, out),
        Ok(Solving::Refused(refusal)) => tell(out, Outcome::NetRefused(refusal)),
        Ok(Solving::TooMuch(work)) => tell(out, Outcome::TooMuch(work)),
        Err(_) => tell(out, Outcome::Memory),
    }
}

/// Writes the certificate of the network in the file of that name, as the request asks.
pub fn solve_file<F: Shelf, K: Sink, G: Gate, R: Threads + Sync>(
    rt: &R,
    alloc: Global,
    shelf: &mut F,
    out: &mut K,
    name: &str,
    request: &Request,
    gate: &G,
) -> Ended
    requires asked { IsAsked (asked_of request.now) }
    ensures { IsTold (OfSolve name.now request.now (F.seen shelf.old) (F.seen shelf.new))
        (K.seen out.old) (K.seen out.new) result }
{
    let mut text = Vec::new(alloc);
    match net_in(alloc, shelf, name, &mut text) {
        Ok(raw) => solve_and_tell(rt, alloc, &raw, request, out, gate),
        Err(outcome) => tell(out, outcome),
    }
}
