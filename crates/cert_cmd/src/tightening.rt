//! The command `tighten`: the best certificate that one or two certificates of a network give.

ghost use Rattle.std.specs.Prelude.{◌≡◌, ◌∷◌, [], IfSome, option_to_list};
ghost use Rattle.std.specs.Option.{option_map};
ghost use Rattle.mcf_limits.specs.declared.TheConstants.{MAX_CERT_BYTES};
ghost use Rattle.sndlib_grammar.specs.Rows.{AreNetRows};
ghost use Rattle.cert_lines.specs.Sheet.{IsOf, sheet_of};
ghost use Rattle.cert_writer.specs.Text.{FitsProof};
ghost use Rattle.cert_judge.specs.Certified.{IsCertificate};
ghost use Rattle.base_cmd.specs.declared.outcome.FileKind.TheVariants as FileKindIs;
ghost use Rattle.base_cmd.specs.Answer.{IsTold, OrWant, Writes};
ghost use Rattle.base_cmd.specs.Files.{Ends, OfFile};
ghost use Rattle.cert_cmd.specs.Tighten.{OfFirst, OfTighten, OnFirst, OnSecond, WritesBest, best_answer, go_both_ways};

use base_cmd::{
    Ended, FileKind, Found, Outcome, certificate_in, end_of, file_text, net_in, tell,
    verdict_status,
};
use cert_judge::{Second, read_second};
use cert_lines::{Form, Names};
use cert_writer::write_cert;
use cut_bound::tightened;
use flow_paths::Proof;
use mcf_base::{Shelf, Sink};
use mcf_limits::MAX_CERT_BYTES;
use sndlib_rows::RawNet;
use std::alloc::Global;
use std::thread::Threads;
use unit_scale::{LinkMode, Scaled};

// The first certificate, which is valid, and its network in units.
#[derive(Drop)]
struct First {
    net: Scaled,
    proof: Proof,
}

// Each cell goes both ways.
fn go_both_ways(links: LinkMode) -> bool
    ensures { result ≡ go_both_ways links }
{
    match links {
        LinkMode::Undirected => true,
        LinkMode::Directed | LinkMode::Bidirected => false,
    }
}

// Writes the certificate in form 2, which it fits, with the status of its verdict.
fn write_best<K: Sink>(rows: &RawNet<'_>, net: &Scaled, best: &Proof, out: &mut K) -> Ended
    requires of { IsOf rows.now net.now }
    requires fits { FitsProof (sheet_of rows.now net.now) best.now }
    ensures { Writes (K.seen out.old) (K.seen out.new) result (best_answer rows.now net.now best.now) }
{
    let written = write_cert(&Names::new(rows, net, Form::Second), best, out);
    end_of(written, verdict_status(best.closed), Found::nothing())
}

// Writes the best certificate that one or two valid ones give.
fn write_tightened<K: Sink, R: Threads + Sync>(
    rt: &R,
    alloc: Global,
    rows: &RawNet<'_>,
    net: &Scaled,
    first: Proof,
    second: Option<Proof>,
    out: &mut K,
) -> Ended
    requires first { IsCertificate rows.now net.now first }
    requires second { IfSome second (IsCertificate rows.now net.now) }
    ensures { IsTold (OrWant (WritesBest rows.now net.now first (option_to_list second)))
        (K.seen out.old) (K.seen out.new) result }
{
    let both = go_both_ways(net.options().links);
    match tightened(rt, alloc, net.net(), both, first, second) {
        Ok(best) => write_best(rows, net, &best, out),
        Err(_) => tell(out, Outcome::Memory),
    }
}

// Tightens the valid certificate together with that in the file of this name.
fn tighten_both<F: Shelf, K: Sink, R: Threads + Sync>(
    rt: &R,
    alloc: Global,
    shelf: &mut F,
    out: &mut K,
    rows: &RawNet<'_>,
    first: First,
    second: &str,
) -> Ended
    requires { IsCertificate rows.now first.net first.proof }
    ensures { IsTold (OfFile MAX_CERT_BYTES FileKindIs.Second second.now
        (λ text. Ends (OnSecond rows.now first.net first.proof text)) (F.seen shelf.old) (F.seen shelf.new))
        (K.seen out.old) (K.seen out.new) result }
{
    let First { net, proof: first } = first;
    let text = match file_text(alloc, shelf, second, MAX_CERT_BYTES, FileKind::Second) {
        Ok(text) => text,
        Err(outcome) => return tell(out, outcome),
    };
    match read_second(alloc, rows, &net, &text) {
        Ok(Second::Valid(proof)) => {
            write_tightened(rt, alloc, rows, &net, first, Some(proof), out)
        }
        Ok(Second::Refused(refusal)) => tell(out, Outcome::SecondRefused(refusal)),
        Ok(Second::Invalid(fault)) => tell(out, Outcome::SecondInvalid(fault)),
        Err(_) => tell(out, Outcome::Memory),
    }
}

// Tightens the valid certificate, alone or together with a second one.
fn tighten_first<F: Shelf, K: Sink, R: Threads + Sync>(
    rt: &R,
    alloc: Global,
    shelf: &mut F,
    out: &mut K,
    rows: &RawNet<'_>,
    first: First,
    second: Option<&str>,
) -> Ended
    requires { IsCertificate rows.now first.net first.proof }
    ensures { IsTold (OnFirst rows.now (option_map (λ w. w.now) second.entry) first.net first.proof
        (F.seen shelf.old) (F.seen shelf.new)) (K.seen out.old) (K.seen out.new) result }
{
    match second {
        Some(name) => tighten_both(rt, alloc, shelf, out, rows, first, name),
        None => {
            let First { net, proof } = first;
            write_tightened(rt, alloc, rows, &net, proof, None, out)
        }
    }
}

// Tightens the certificate of that name, where it is valid, and tells what else is said of it.
fn tighten_on<F: Shelf, K: Sink, R: Threads + Sync>(
    rt: &R,
    alloc: Global,
    shelf: &mut F,
    out: &mut K,
    rows: &RawNet<'_>,
    cert: &str,
    second: Option<&str>,
) -> Ended
    requires { AreNetRows rows.now }
    ensures { IsTold (OfFirst rows.now cert.now (option_map (λ w. w.now) second.entry)
        (F.seen shelf.old) (F.seen shelf.new)) (K.seen out.old) (K.seen out.new) result }
{
    match certificate_in(alloc, shelf, rows, cert) {
        Ok((net, proof)) => {
            tighten_first(rt, alloc, shelf, out, rows, First { net, proof }, second)
        }
        Err(outcome) => tell(out, outcome),
    }
}

/// Writes the best certificate that those in the second and, where there is one, the third file give, where they are
/// valid on the network in the first; else what is said of the first of them that is not. It may wait for its own threads.
pub fn tighten<F: Shelf, K: Sink, R: Threads + Sync>(
    rt: &R,
    alloc: Global,
    shelf: &mut F,
    out: &mut K,
    net: &str,
    cert: &str,
    second: Option<&str>,
) -> Ended
    ensures { IsTold (OfTighten net.now cert.now (option_map (λ w. w.now) second.entry)
        (F.seen shelf.old) (F.seen shelf.new)) (K.seen out.old) (K.seen out.new) result }
{
    let mut text = Vec::new(alloc);
    match net_in(alloc, shelf, net, &mut text) {
        Ok(rows) => tighten_on(rt, alloc, shelf, out, &rows, cert, second),
        Err(outcome) => tell(out, outcome),
    }
}
