//! The command `whatif`: what a valid certificate is worth under other capacities.

ghost use Rattle.std.specs.Prelude.{IfOk, length};
ghost use Rattle.mcf_limits.specs.declared.TheConstants.{MAX_SCRIPT_BYTES};
ghost use Rattle.script.specs.Steps.{AreStepsOfCells};
ghost use Rattle.whatif.specs.Shown.{shown_text};
ghost use Rattle.cert_judge.specs.Certified.{IsCertificate};
ghost use Rattle.net_whatif.specs.Scripted.{CanRun};
ghost use Rattle.base_cmd.specs.declared.outcome.FileKind.TheVariants as FileKindIs;
ghost use Rattle.base_cmd.specs.Answer.{IsTold, Writes, text_answer};
ghost use Rattle.base_cmd.specs.Files.{Ends, Finds, OfFile};
ghost use Rattle.cert_cmd.specs.WhatIf.{OfWhatIf, OnScript, scripted_answer};

use base_cmd::{Ended, FileKind, Found, Outcome, certificate_in, end_of, file_text, net_in, tell};
use flow_paths::Proof;
use mcf_base::{Shelf, Sink};
use mcf_limits::MAX_SCRIPT_BYTES;
use net_whatif::{Scripted, read_script, write_shown};
use script::Script;
use sndlib_rows::RawNet;
use std::alloc::Global;
use unit_scale::Scaled;
use whatif::Plan;

// The steps of the script in the file of that name, for a valid certificate.
fn scripted_file<F: Shelf>(
    alloc: Global,
    rows: &RawNet<'_>,
    net: &Scaled,
    proof: &Proof,
    shelf: &mut F,
    script: &str,
) -> Result<Scripted, Outcome>
    requires { IsCertificate rows.now net.now proof.now }
    ensures finds { Finds scripted_answer
        (OfFile MAX_SCRIPT_BYTES FileKindIs.Script script.now
        (λ text. Ends (OnScript rows.now net.now proof.now text))) (F.seen shelf.old)
        (F.seen shelf.new) result }
    ensures run { IfOk result CanRun }
{
    let text = file_text(alloc, shelf, script, MAX_SCRIPT_BYTES, FileKind::Script)?;
    match read_script(alloc, rows, net, proof, &text) {
        Ok(scripted) => Ok(scripted),
        Err(_) => Err(Outcome::Memory),
    }
}

// The same for the certificate and the network in the files of these names.
fn scripted_files<F: Shelf>(
    alloc: Global,
    shelf: &mut F,
    net: &str,
    cert: &str,
    script: &str,
) -> Result<Scripted, Outcome>
    ensures finds { Finds scripted_answer (OfWhatIf net.now cert.now script.now) (F.seen shelf.old)
        (F.seen shelf.new) result }
    ensures run { IfOk result CanRun }
{
    let mut text = Vec::new(alloc);
    let rows = match net_in(alloc, shelf, net, &mut text) {
        Ok(rows) => rows,
        Err(outcome) => return Err(outcome),
    };
    match certificate_in(alloc, shelf, &rows, cert) {
        Ok((net, proof)) => scripted_file(alloc, &rows, &net, &proof, shelf, script),
        Err(outcome) => Err(outcome),
    }
}

// Writes what the steps show.
fn write_lines<K: Sink>(plan: Plan, script: &Script, out: &mut K) -> Ended
    requires { AreStepsOfCells script.now.mode (length plan.caps) script.now.steps }
    ensures { Writes (K.seen out.old) (K.seen out.new) result
        (text_answer (shown_text script.now.mode plan script.now.steps)) }
{
    end_of(write_shown(plan, script, out), 0, Found::nothing())
}

/// Writes what the script in the third file shows of the certificate in the second on the network in the first.
pub fn whatif_files<F: Shelf, K: Sink>(
    alloc: Global,
    shelf: &mut F,
    out: &mut K,
    net: &str,
    cert: &str,
    script: &str,
) -> Ended
    ensures { IsTold (OfWhatIf net.now cert.now script.now (F.seen shelf.old) (F.seen shelf.new))
        (K.seen out.old) (K.seen out.new) result }
{
    match scripted_files(alloc, shelf, net, cert, script) {
        Ok(Scripted::Ready(plan, script)) => write_lines(plan, &script, out),
        Ok(Scripted::Refused(refusal)) => tell(out, Outcome::ScriptRefused(refusal)),
        Err(outcome) => tell(out, outcome),
    }
}
