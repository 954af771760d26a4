//! The command `sweep`: what a valid certificate is worth without each single link.

ghost use Rattle.std.specs.Prelude.{◌≡◌, IfOk, length, map};
ghost use Rattle.sndlib_grammar.specs.Rows.{AreNetRows};
ghost use Rattle.whatif.specs.Planned.{evaluation_of};
ghost use Rattle.cert_judge.specs.Certified.{IsCertificate};
ghost use Rattle.sweep.specs.Lines.{sweep_text};
ghost use Rattle.base_cmd.specs.Answer.{IsTold, OrWant, Writes, text_answer};
ghost use Rattle.sweep_cmd.specs.Sweep.{OfSweep, OfSwept, swept, worth_without};

use crate::ids::link_ids;
use base_cmd::{Ended, Found, Outcome, certificate_in, end_of, net_in, tell};
use flow_paths::Proof;
use mcf_base::{Shelf, Sink};
use sndlib_rows::RawNet;
use std::alloc::{AllocError, Global};
use std::thread::Threads;
use sweep::{sweep_plan, write_sweep};
use unit_scale::Scaled;
use whatif::{Bounds, Plan};

// What the certificate is worth without each link, in link order.
fn bounds_without<R: Threads + Sync>(
    rt: &R,
    alloc: Global,
    rows: &RawNet<'_>,
    net: &Scaled,
    proof: &Proof,
) -> Result<Vec<Bounds>, AllocError>
    requires { IsCertificate rows.now net.now proof.now }
    ensures { IfOk result (λ v. map evaluation_of v.items ≡ worth_without rows.now net.now proof.now) }
{
    let plan = Plan::new(alloc, net.net(), proof)?;
    sweep_plan(rt, alloc, &plan, net.options().links, rows.links())
}

// Writes a line for each of the links of these ids, and ends with status 0.
fn write_lines<K: Sink>(out: &mut K, ids: &[&[u8]], bounds: &[Bounds]) -> Ended
    requires { length ids.now ≡ length bounds.now }
    ensures { Writes (K.seen out.old) (K.seen out.new) result
        (text_answer (sweep_text (map (λ id. id.now) ids.now) (map evaluation_of bounds.now))) }
{
    end_of(write_sweep(out, ids, bounds), 0, Found::nothing())
}

// Writes a line for each link, once all that it takes memory for is done.
fn tell_swept<K: Sink, R: Threads + Sync>(
    rt: &R,
    alloc: Global,
    rows: &RawNet<'_>,
    net: &Scaled,
    proof: &Proof,
    out: &mut K,
) -> Ended
    requires { IsCertificate rows.now net.now proof.now }
    ensures { IsTold (OrWant (λ answer. answer ≡ swept rows.now net.now proof.now)) (K.seen out.old)
        (K.seen out.new) result }
{
    let ids = match link_ids(alloc, rows) {
        Ok(ids) => ids,
        Err(_) => return tell(out, Outcome::Memory),
    };
    match bounds_without(rt, alloc, rows, net, proof) {
        Ok(bounds) => write_lines(out, &ids, &bounds),
        Err(_) => tell(out, Outcome::Memory),
    }
}

// Closes each link for the certificate of that name, where it is valid, and writes what else is said of it.
fn sweep_on<F: Shelf, K: Sink, R: Threads + Sync>(
    rt: &R,
    alloc: Global,
    shelf: &mut F,
    out: &mut K,
    rows: &RawNet<'_>,
    cert: &str,
) -> Ended
    requires { AreNetRows rows.now }
    ensures { IsTold (OfSwept rows.now cert.now (F.seen shelf.old) (F.seen shelf.new))
        (K.seen out.old) (K.seen out.new) result }
{
    match certificate_in(alloc, shelf, rows, cert) {
        Ok((net, proof)) => tell_swept(rt, alloc, rows, &net, &proof, out),
        Err(outcome) => tell(out, outcome),
    }
}

/// Writes a line for each link of the network in the first file, in link order: what the certificate in the second, where it
/// is valid, is worth with that link's cells at capacity 0. Else what is said of it. It may wait for its own threads.
pub fn sweep<F: Shelf, K: Sink, R: Threads + Sync>(
    rt: &R,
    alloc: Global,
    shelf: &mut F,
    out: &mut K,
    net: &str,
    cert: &str,
) -> Ended
    ensures { IsTold (OfSweep net.now cert.now (F.seen shelf.old) (F.seen shelf.new))
        (K.seen out.old) (K.seen out.new) result }
{
    let mut text = Vec::new(alloc);
    match net_in(alloc, shelf, net, &mut text) {
        Ok(rows) => sweep_on(rt, alloc, shelf, out, &rows, cert),
        Err(outcome) => tell(out, outcome),
    }
}
