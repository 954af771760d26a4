//! The top call.

ghost use Rattle.std.specs.Prelude.{◌≡◌, length, map, string_bytes};
ghost use Rattle.mcf_words.specs.Request.{IsFileCount, least_files, IsWithinLimits, AreDrawn};
ghost use Rattle.base_cmd.specs.Answer.{IsTold};
ghost use Rattle.mcf_cli.specs.Run.{OfCommand, RunEnds, file_at};

use base_cmd::{Ended, Outcome, tell};
use batch_cmd::{BatchFiles, batch};
use cert_cmd::{check, tighten, upgrade, whatif_files};
use hops_cmd::{checkhops, hops};
use mcf_base::{Gate, Shelf, Sink};
use mcf_words::{Command, Request, WordsEnd, read_words};
use solve_cmd::{gen_net, print, solve_file, trial};
use std::alloc::Global;
use std::thread::Threads;
use sweep_cmd::{sweep, sweepsolve};
use throughput_cmd::{checkthroughput, throughput_of};

// The name of the file of that place among the words, and no byte where they name none.
fn file(request: &Request, place: usize) -> &str
    ensures { result.now ≡ file_at request.now place }
{
    match request.names.get(place) {
        Some(name) => name,
        None => "",
    }
}

// The answer of the command.
fn run_command<F: Shelf, K: Sink, G: Gate, R: Threads + Sync>(
    rt: &R,
    alloc: Global,
    request: &Request,
    shelf: &mut F,
    out: &mut K,
    gate: &G,
) -> Ended
    requires files { IsFileCount request.now.command (length request.now.names) }
    requires limits { IsWithinLimits request.now }
    requires drawn { least_files request.now.command ≡ 0 → AreDrawn request.now.numbers }
    ensures { IsTold (OfCommand request.now.command request.now (F.seen shelf.old)
        (F.seen shelf.new)) (K.seen out.old) (K.seen out.new) result }
{
    let net = file(request, 0);
    let second = file(request, 1);
    match request.command {
        Command::Solve => solve_file(rt, alloc, shelf, out, net, request, gate),
        Command::Check => check(alloc, shelf, out, net, second),
        Command::Upgrade => upgrade(alloc, shelf, out, net, second),
        Command::Tighten => tighten(rt, alloc, shelf, out, net, second, request.names.get(2)),
        Command::Batch => {
            let files = BatchFiles { net, list: second };
            batch(rt, alloc, shelf, out, files, request, gate)
        }
        Command::Sweep => sweep(rt, alloc, shelf, out, net, second),
        Command::SweepSolve => sweepsolve(rt, alloc, shelf, out, net, request, gate),
        Command::Hops => hops(alloc, shelf, out, net, request),
        Command::Throughput => throughput_of(alloc, shelf, out, net, request),
        Command::CheckHops => checkhops(alloc, shelf, out, net, second),
        Command::CheckThroughput => checkthroughput(alloc, shelf, out, net, second),
        Command::Print => print(alloc, shelf, out, net),
        Command::Gen => gen_net(alloc, out, request),
        Command::Trial => trial(rt, alloc, out, request, gate),
        Command::WhatIf => whatif_files(alloc, shelf, out, net, second, file(request, 2)),
    }
}

/// Does what the words ask for. The text goes to `out`: one line where the run is refused or found nothing.
pub fn run<F: Shelf, K: Sink, G: Gate, R: Threads + Sync>(
    rt: &R,
    alloc: Global,
    words: &[String],
    shelf: &mut F,
    out: &mut K,
    gate: &G,
) -> Ended
    ensures { RunEnds (map string_bytes words.now) (F.seen shelf.old) (F.seen shelf.new)
        (K.seen out.old) (K.seen out.new) result }
{
    match read_words(alloc, words) {
        Ok(request) => run_command(rt, alloc, &request, shelf, out, gate),
        Err(WordsEnd::Usage) => tell(out, Outcome::Usage),
        Err(WordsEnd::Memory) => tell(out, Outcome::Memory),
    }
}
