//! The command `sweepsolve`: a solve of the network without each single link.

ghost use Rattle.std.specs.Prelude.{◌≡◌, Ok, length, map};
ghost use Rattle.sndlib_grammar.specs.Rows.{AreNetRows};
ghost use Rattle.unit_scale.specs.Scaling.{scaled_of};
ghost use Rattle.cert_lines.specs.Sheet.{IsOf};
ghost use Rattle.sweep_cmd.specs.Asked.{IsSweepAsked};
ghost use Rattle.sweep_cmd.specs.Lines.{swept_status as swept_status_lem, swept_text};
ghost use Rattle.base_cmd.specs.Found.{nothing};
ghost use Rattle.base_cmd.specs.Answer.{IsTold, OrWant, Writes};
ghost use Rattle.sweep_cmd.specs.SweepSolve.{GivesSolves, OfSweepSolve, OnSweepSolve, SolvesLinks, sweep_asked_of};

use crate::ids::link_ids;
use crate::{SweepAsked, Swept, options_of, sweep_solve, swept_status, write_swept};
use base_cmd::{Ended, Found, Outcome, end_of, net_in, tell};
use mcf_base::{Gate, Shelf, Sink};
use mcf_words::Request;
use sndlib_rows::RawNet;
use std::alloc::Global;
use std::thread::Threads;
use unit_scale::{ScaleEnd, Scaled, scale};

/// What the words ask of the solves.
pub fn sweep_asked_by(request: &Request) -> SweepAsked
    ensures { result ≡ sweep_asked_of request.now }
{
    SweepAsked {
        gap: request.gap,
        phases: request.phases,
        step: request.step,
    }
}

// The solves without each link, or the outcome that ends the run.
fn solves_of<G: Gate, R: Threads + Sync>(
    rt: &R,
    alloc: Global,
    rows: &RawNet<'_>,
    net: &Scaled,
    asked: &SweepAsked,
    gate: &G,
) -> Result<Vec<Swept>, Outcome>
    requires of { IsOf rows.now net.now }
    requires asked { IsSweepAsked asked.now }
    ensures { GivesSolves rows.now asked.now net.now result }
{
    let links = rows.links();
    let network = net.net();
    let _nodes = network.nodes();
    let options = match options_of(links, network, asked) {
        Ok(options) => options,
        Err(work) => return Err(Outcome::TooMuch(work)),
    };
    match sweep_solve(
        rt,
        alloc,
        network,
        net.options().links,
        links,
        &options,
        gate,
    ) {
        Ok(swept) => Ok(swept),
        Err(_) => Err(Outcome::Memory),
    }
}

// Writes the lines of the links of these ids, and ends with the status of the solves.
fn write_solves<K: Sink>(out: &mut K, ids: &[&[u8]], swept: &[Swept]) -> Ended
    requires { length ids.now ≡ length swept.now }
    ensures { Writes (K.seen out.old) (K.seen out.new) result (record {
      status = swept_status_lem swept.now;
      text = swept_text (map (λ id. id.now) ids.now) swept.now;
      found = nothing;
    }) }
{
    let status = swept_status(swept);
    end_of(write_swept(out, ids, swept), status, Found::nothing())
}

// Writes a line for each link, once all that it takes memory for is done.
fn tell_solves<K: Sink, G: Gate, R: Threads + Sync>(
    rt: &R,
    alloc: Global,
    rows: &RawNet<'_>,
    net: &Scaled,
    asked: &SweepAsked,
    out: &mut K,
    gate: &G,
) -> Ended
    requires of { IsOf rows.now net.now }
    requires asked { IsSweepAsked asked.now }
    ensures { IsTold (OrWant (SolvesLinks rows.now asked.now net.now)) (K.seen out.old) (K.seen out.new) result }
{
    let ids = match link_ids(alloc, rows) {
        Ok(ids) => ids,
        Err(_) => return tell(out, Outcome::Memory),
    };
    match solves_of(rt, alloc, rows, net, asked, gate) {
        Ok(swept) => write_solves(out, &ids, &swept),
        Err(outcome) => tell(out, outcome),
    }
}

// Closes each link of the network of the rows, and writes what came of it.
fn sweepsolve_on<K: Sink, G: Gate, R: Threads + Sync>(
    rt: &R,
    alloc: Global,
    rows: &RawNet<'_>,
    request: &Request,
    out: &mut K,
    gate: &G,
) -> Ended
    requires rows { AreNetRows rows.now }
    requires asked { IsSweepAsked (sweep_asked_of request.now) }
    ensures { IsTold (OrWant (OnSweepSolve request.now rows.now)) (K.seen out.old) (K.seen out.new) result }
{
    match scale(alloc, rows, request.net) {
        Ok(net) => tell_solves(rt, alloc, rows, &net, &sweep_asked_by(request), out, gate),
        Err(ScaleEnd::Refused(refusal)) => tell(out, Outcome::NetRefused(refusal)),
        Err(ScaleEnd::Memory) => tell(out, Outcome::Memory),
    }
}

/// Writes a line for each link of the network in the file of that name, in link order, as the request asks: the verdict, the
/// phases and both fractions of a solve, with one worker, of the network with that link's cells at capacity 0. The status is 0
/// where each is closed. Work over its limit is refused, also where no phase budget was asked for. It may wait for its own
/// threads.
pub fn sweepsolve<F: Shelf, K: Sink, G: Gate, R: Threads + Sync>(
    rt: &R,
    alloc: Global,
    shelf: &mut F,
    out: &mut K,
    name: &str,
    request: &Request,
    gate: &G,
) -> Ended
    requires asked { IsSweepAsked (sweep_asked_of request.now) }
    ensures { IsTold (OfSweepSolve name.now request.now (F.seen shelf.old) (F.seen shelf.new))
        (K.seen out.old) (K.seen out.new) result }
{
    let mut text = Vec::new(alloc);
    match net_in(alloc, shelf, name, &mut text) {
        Ok(rows) => sweepsolve_on(rt, alloc, &rows, request, out, gate),
        Err(outcome) => tell(out, outcome),
    }
}
