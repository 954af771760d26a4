//! The command `hops`: the certificate of a network within its hop limits.

ghost use Rattle.std.specs.Prelude.{ℕ, List, Option};
ghost use Rattle.sndlib_grammar.specs.Rows.{AreNetRows};
ghost use Rattle.cert_lines.specs.Sheet.{IsOf, sheet_of};
ghost use Rattle.route_tally.specs.declared.options.RunOptions.{RunOptions};
ghost use Rattle.net_solve.specs.Asked.{IsAsked};
ghost use Rattle.kind_texts.specs.HopsText.{FitsHops};
ghost use Rattle.base_cmd.specs.Answer.{IsTold, OrWant, Writes};
ghost use Rattle.hops_cmd.specs.Hops.{IsHopSolved, OfHops, SolvesHops, asked_of, hops_answer};

use crate::asked::asked_by;
use crate::laws::hops_can_be_written;
use crate::solving::{HopSolving, solve_hop_rows};
use base_cmd::{Ended, Found, Outcome, end_of, net_in, tell, verdict_status};
use cert_lines::{Form, Names};
use hop_check::HopProof;
use kind_texts::write_hops;
use mcf_base::{Shelf, Sink};
use mcf_words::Request;
use sndlib_rows::RawNet;
use std::alloc::Global;
use unit_scale::Scaled;

// Writes the certificate, which fits its text.
fn write_fitting<K: Sink>(rows: &RawNet<'_>, net: &Scaled, h: HopProof, out: &mut K) -> Ended
    requires of { IsOf rows.now net.now }
    requires fits { FitsHops (sheet_of rows.now net.now) h }
    ensures { Writes (K.seen out.old) (K.seen out.new) result (hops_answer rows.now net.now h) }
{
    let status = verdict_status(h.proof.closed);
    let written = write_hops(&Names::new(rows, net, Form::Second), &h, out);
    end_of(written, status, Found::hop_proof(h))
}

// Writes the certificate of a run on the network of the rows.
fn write_solved<K: Sink>(rows: &RawNet<'_>, net: &Scaled, h: HopProof, out: &mut K) -> Ended
    requires of { IsOf rows.now net.now }
    requires solved { (limits : List (Option ℕ)) × (o : RunOptions)
        × IsHopSolved net.now.net limits o h }
    ensures { Writes (K.seen out.old) (K.seen out.new) result (hops_answer rows.now net.now h) }
{
    hops_can_be_written();
    let _nodes = net.net().nodes();
    write_fitting(rows, net, h, out)
}

// Solves the network of the rows, and writes what came of it.
fn solve_and_tell<K: Sink>(
    alloc: Global,
    rows: &RawNet<'_>,
    request: &Request,
    out: &mut K,
) -> Ended
    requires rows { AreNetRows rows.now }
    requires asked { IsAsked (asked_of request.now) }
    ensures { IsTold (OrWant (SolvesHops request.now rows.now))
        (K.seen out.old) (K.seen out.new) result }
{
    let _skipped = rows.skipped();
    match solve_hop_rows(alloc, rows, request.net, &asked_by(request)) {
        Ok(HopSolving::Done(net, h)) => write_solved(rows, &net, h, out),
        Ok(HopSolving::Refused(refusal)) => tell(out, Outcome::NetRefused(refusal)),
        Ok(HopSolving::TooMuch(work)) => tell(out, Outcome::TooMuch(work)),
        Err(_) => tell(out, Outcome::Memory),
    }
}

/// Writes the certificate of the network in the file of that name within its hop limits, as the
/// request asks. The status is 0 where it is closed, else 1.
pub fn hops<F: Shelf, K: Sink>(
    alloc: Global,
    shelf: &mut F,
    out: &mut K,
    net: &str,
    request: &Request,
) -> Ended
    requires { IsAsked (asked_of request.now) }
    ensures { IsTold (OfHops net.now request.now (F.seen shelf.old) (F.seen shelf.new))
        (K.seen out.old) (K.seen out.new) result }
{
    let mut text = Vec::new(alloc);
    match net_in(alloc, shelf, net, &mut text) {
        Ok(rows) => solve_and_tell(alloc, &rows, request, out),
        Err(outcome) => tell(out, outcome),
    }
}
