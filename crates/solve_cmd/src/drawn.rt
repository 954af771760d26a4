//! The commands `gen` and `trial`: networks that are drawn from a seed.

ghost use Rattle.std.specs.Prelude.{◌≡◌, ◌≤◌, Ok, IfOk, length, string_bytes};
ghost use Rattle.mcf_base.specs.Sink.{Wrote};
ghost use Rattle.mcf_limits.specs.declared.TheConstants.{MAX_NET_BYTES};
ghost use Rattle.text_lines.specs.Lines.{spelled};
ghost use Rattle.solver_run.specs.declared.options.SolveOptions.{SolveOptions};
ghost use Rattle.solver_run.specs.Headline.{IsSolved};
ghost use Rattle.sndlib_grammar.specs.Net.{rows_of};
ghost use Rattle.sndlib_grammar.specs.Rows.{AreNetRows};
ghost use Rattle.net_solve.specs.Asked.{IsAsked};
ghost use Rattle.mcf_words.specs.Request.{AreDrawn};
ghost use Rattle.base_cmd.specs.Found.{nothing};
ghost use Rattle.base_cmd.specs.Answer.{IsTold, OrWant, Writes, text_answer};
ghost use Rattle.solve_cmd.specs.Solve.{asked_of};
ghost use Rattle.solve_cmd.specs.Drawn.{text_drawn, gen_answer, trial_words, trial_line, TriesRows, OfTrial};

use crate::solve::asked_by;
use base_cmd::{Ended, Found, Outcome, end_of, net_rows, tell, verdict_status, verdict_word};
use flow_model::Net;
use flow_solver::Solved;
use mcf_base::{Gate, Sink, WriteFault, write_all_of};
use mcf_words::Request;
use net_gen::{drawn_networks_are_scaled, generate};
use net_solve::{Solving, carried_amount, route_count, solve_rows, total_amount};
use sndlib_rows::RawNet;
use std::alloc::{AllocError, Global};
use std::thread::Threads;
use text_lines::{Word, write_line};

// The text that is drawn by these numbers.
fn drawn_text(alloc: Global, numbers: &[u64; 4]) -> Result<String, AllocError>
    requires { AreDrawn numbers.now }
    ensures text { IfOk result (λ text. string_bytes text ≡ text_drawn numbers.now) }
    ensures short { IfOk result (λ text. length (string_bytes text) ≤ MAX_NET_BYTES) }
{
    generate(
        alloc,
        numbers[0],
        numbers[1] as u16,
        numbers[2] as u16,
        numbers[3] as u32,
    )
}

// Writes the text.
fn write_drawn<K: Sink>(text: &str, out: &mut K) -> Ended
    ensures { Writes (K.seen out.old) (K.seen out.new) result (text_answer text.now) }
{
    end_of(write_all_of(out, text.as_bytes()), 0, Found::nothing())
}

/// Writes the network that is drawn by the numbers of the request.
pub fn gen_net<K: Sink>(alloc: Global, out: &mut K, request: &Request) -> Ended
    requires { AreDrawn request.now.numbers }
    ensures { IsTold (OrWant (λ answer. answer ≡ gen_answer request.now.numbers)) (K.seen out.old)
        (K.seen out.new) result }
{
    match drawn_text(alloc, &request.numbers) {
        Ok(text) => write_drawn(text.as_str(), out),
        Err(_) => tell(out, Outcome::Memory),
    }
}

// The words of the line of a solve, behind the first.
fn write_trial<K: Sink>(
    links: u64,
    net: &Net,
    solved: &Solved,
    out: &mut K,
) -> Result<(), WriteFault>
    requires { (o : SolveOptions) × IsSolved net.now o solved.now }
    ensures { Wrote (K.seen out.old) (K.seen out.new) result
        (spelled (trial_words links net.now solved.now)) }
{
    let proof = solved.proof();
    let nodes = Word::number(net.nodes() as u128);
    let links = Word::number(links as u128);
    let commodities = Word::number(net.commodities().len() as u128);
    let total = Word::number(total_amount(net) as u128);
    let phases = Word::number(proof.routing.phases as u128);
    let routes = Word::number(route_count(net, solved) as u128);
    let carried = Word::number(carried_amount(solved));
    let words: [&[u8]; 15] = [
        b"nodes",
        nodes.bytes(),
        b"links",
        links.bytes(),
        b"commodities",
        commodities.bytes(),
        b"total",
        total.bytes(),
        b"phases",
        phases.bytes(),
        b"routes",
        routes.bytes(),
        b"carried",
        carried.bytes(),
        verdict_word(proof.closed),
    ];
    write_line(out, b"trial", &words)
}

// Writes the line of a solve, and ends with its status.
fn tell_trial<K: Sink>(links: u64, net: &Net, solved: Solved, out: &mut K) -> Ended
    requires { (o : SolveOptions) × IsSolved net.now o solved }
    ensures { Writes (K.seen out.old) (K.seen out.new) result (trial_line links net.now solved) }
{
    let status = verdict_status(solved.proof().closed);
    let written = write_trial(links, net, &solved, out);
    end_of(written, status, Found::solve(solved))
}

// Solves the network of the rows, and writes the line of what came of it. They are drawn rows, which are never refused.
fn try_rows<K: Sink, G: Gate, R: Threads + Sync>(
    rt: &R,
    alloc: Global,
    raw: &RawNet<'_>,
    request: &Request,
    out: &mut K,
    gate: &G,
) -> Ended
    requires rows { AreNetRows raw.now }
    requires asked { IsAsked (asked_of request.now) }
    requires drawn { AreDrawn request.now.numbers }
    requires text { rows_of (text_drawn request.now.numbers) ≡ Ok raw.now }
    ensures { IsTold (OrWant (TriesRows request.now raw.now)) (K.seen out.old) (K.seen out.new) result }
{
    drawn_networks_are_scaled();
    match solve_rows(rt, alloc, raw, request.net, &asked_by(request), gate) {
        Ok(Solving::Done(net, solved)) => tell_trial(request.numbers[2], net.net(), solved, out),
        Ok(Solving::Refused(_)) => unreachable!(),
        Ok(Solving::TooMuch(work)) => tell(out, Outcome::TooMuch(work)),
        Err(_) => tell(out, Outcome::Memory),
    }
}

// The same for the network of the text that was drawn. It reads back, so nothing but memory can be wanting.
fn try_text<K: Sink, G: Gate, R: Threads + Sync>(
    rt: &R,
    alloc: Global,
    text: &[u8],
    request: &Request,
    out: &mut K,
    gate: &G,
) -> Ended
    requires asked { IsAsked (asked_of request.now) }
    requires drawn { AreDrawn request.now.numbers }
    requires text { text.now ≡ text_drawn request.now.numbers }
    requires short { length text.now ≤ MAX_NET_BYTES }
    ensures { IsTold (OrWant (OfTrial request.now)) (K.seen out.old) (K.seen out.new) result }
{
    match net_rows(alloc, text) {
        Ok(raw) => try_rows(rt, alloc, &raw, request, out, gate),
        Err(_) => tell(out, Outcome::Memory),
    }
}

/// Draws a network by the numbers of the request, solves it, and writes a line that sums it up.
pub fn trial<K: Sink, G: Gate, R: Threads + Sync>(
    rt: &R,
    alloc: Global,
    out: &mut K,
    request: &Request,
    gate: &G,
) -> Ended
    requires asked { IsAsked (asked_of request.now) }
    requires drawn { AreDrawn request.now.numbers }
    ensures { IsTold (OrWant (OfTrial request.now)) (K.seen out.old) (K.seen out.new) result }
{
    match drawn_text(alloc, &request.numbers) {
        Ok(text) => try_text(rt, alloc, text.as_bytes(), request, out, gate),
        Err(_) => tell(out, Outcome::Memory),
    }
}
