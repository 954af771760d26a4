//! The command `throughput`: a certificate of the greatest total of a network.

ghost use Rattle.sndlib_grammar.specs.Rows.{AreNetRows};
ghost use Rattle.cert_lines.specs.Sheet.{IsOf, sheet_of};
ghost use Rattle.route_tally.specs.declared.options.RunOptions.{RunOptions};
ghost use Rattle.net_solve.specs.Asked.{IsAsked};
ghost use Rattle.kind_texts.specs.PartText.{FitsPart};
ghost use Rattle.base_cmd.specs.Answer.{IsTold, OrWant, Writes};
ghost use Rattle.throughput_cmd.specs.Parts.{IsPartSolved, OfThroughput, SolvesParts, asked_of, part_answer};

use crate::asked::asked_by;
use crate::laws::parts_can_be_written;
use crate::solving::{PartSolving, solve_part_rows};
use base_cmd::{Ended, Found, Outcome, end_of, net_in, tell, verdict_status};
use cert_lines::{Form, Names};
use kind_texts::write_part;
use mcf_base::{Shelf, Sink};
use mcf_words::Request;
use sndlib_rows::RawNet;
use std::alloc::Global;
use throughput::PartProof;
use unit_scale::Scaled;

// Writes the certificate, which fits its text.
fn write_fitting<K: Sink>(rows: &RawNet<'_>, net: &Scaled, p: PartProof, out: &mut K) -> Ended
    requires of { IsOf rows.now net.now }
    requires fits { FitsPart (sheet_of rows.now net.now) p }
    ensures { Writes (K.seen out.old) (K.seen out.new) result (part_answer rows.now net.now p) }
{
    let status = verdict_status(p.closed);
    let written = write_part(&Names::new(rows, net, Form::Second), &p, out);
    end_of(written, status, Found::part_proof(p))
}

// Writes the certificate of a run on the network of the rows.
fn write_solved<K: Sink>(rows: &RawNet<'_>, net: &Scaled, p: PartProof, out: &mut K) -> Ended
    requires of { IsOf rows.now net.now }
    requires solved { (o : RunOptions) × IsPartSolved net.now.net o p }
    ensures { Writes (K.seen out.old) (K.seen out.new) result (part_answer rows.now net.now p) }
{
    parts_can_be_written();
    let _nodes = net.net().nodes();
    write_fitting(rows, net, p, out)
}

// Solves the network of the rows, and writes what came of it.
fn solve_and_tell<K: Sink>(
    alloc: Global,
    rows: &RawNet<'_>,
    request: &Request,
    out: &mut K,
) -> Ended
    requires rows { AreNetRows rows.now }
    requires asked { IsAsked (asked_of request.now) }
    ensures { IsTold (OrWant (SolvesParts request.now rows.now))
        (K.seen out.old) (K.seen out.new) result }
{
    let _skipped = rows.skipped();
    match solve_part_rows(alloc, rows, request.net, &asked_by(request)) {
        Ok(PartSolving::Done(net, p)) => write_solved(rows, &net, p, out),
        Ok(PartSolving::Refused(refusal)) => tell(out, Outcome::NetRefused(refusal)),
        Ok(PartSolving::TooMuch(work)) => tell(out, Outcome::TooMuch(work)),
        Err(_) => tell(out, Outcome::Memory),
    }
}

/// Writes a certificate of the greatest total of the network in the file of that name, as the request
/// asks. The status is 0 where it is closed, else 1.
pub fn throughput_of<F: Shelf, K: Sink>(
    alloc: Global,
    shelf: &mut F,
    out: &mut K,
    net: &str,
    request: &Request,
) -> Ended
    requires { IsAsked (asked_of request.now) }
    ensures { IsTold (OfThroughput net.now request.now (F.seen shelf.old) (F.seen shelf.new))
        (K.seen out.old) (K.seen out.new) result }
{
    let mut text = Vec::new(alloc);
    match net_in(alloc, shelf, net, &mut text) {
        Ok(rows) => solve_and_tell(alloc, &rows, request, out),
        Err(outcome) => tell(out, outcome),
    }
}
