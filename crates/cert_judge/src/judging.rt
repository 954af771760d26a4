//! From two texts to a judgement.

ghost use Rattle.std.specs.Prelude.{◌≡◌, ◌≤◌, IfOk, length};
ghost use Rattle.mcf_limits.specs.declared.TheConstants.{MAX_CERT_BYTES};
ghost use Rattle.flow_paths.specs.Certificate.{IsProofOf, IsRoutingOf};
ghost use Rattle.sndlib_grammar.specs.Rows.{AreNetRows};
ghost use Rattle.cert_text.specs.declared.papers.Paper.TheVariants as PaperIs;
ghost use Rattle.cert_judge.specs.Papers.{IsOfNet};
ghost use Rattle.cert_judge.specs.Judgement.{IsJudgement, IsSaidOf, OnPaper, refused};

use crate::judged::Judged;
use crate::reading::read_paper;
use crate::refusal::{ReadEnd, Refusal};
use cert_check::{RouteEnd, Verdict, check, check_routing};
use cert_text::{Known, Paper};
use flow_model::Net;
use flow_paths::{Proof, Routing};
use sndlib_rows::RawNet;
use std::alloc::{AllocError, Global};
use unit_scale::{NetOptions, Scaled};

fn on_routing(
    alloc: Global,
    net: &Net,
    routing: &Routing,
    options: NetOptions,
) -> Result<Judged, AllocError>
    requires { IsRoutingOf net.now routing.now }
    ensures { IfOk result (IsSaidOf options net.now (PaperIs.Routing routing.now)) }
{
    match check_routing(alloc, net, routing) {
        Ok(value) => Ok(Judged::Feasible { options, value }),
        Err(RouteEnd::Invalid(fault)) => Ok(Judged::Invalid(fault)),
        Err(RouteEnd::Memory) => Err(AllocError),
    }
}

fn on_proof(
    alloc: Global,
    net: &Net,
    proof: &Proof,
    options: NetOptions,
) -> Result<Judged, AllocError>
    requires { IsProofOf net.now proof.now }
    ensures { IfOk result (IsSaidOf options net.now (PaperIs.Full proof.now)) }
{
    match check(alloc, net, proof)? {
        Verdict::Valid {
            lower,
            upper,
            closed,
        } => Ok(Judged::Valid {
            options,
            closed,
            lower,
            upper,
        }),
        Verdict::Invalid(fault) => Ok(Judged::Invalid(fault)),
    }
}

/// What is said of a certificate or a routing on its network: the first condition that fails, or that it
/// stands.
pub fn judge_paper(alloc: Global, net: &Scaled, paper: &Paper) -> Result<Judged, AllocError>
    requires { IsOfNet net.now.net paper.now }
    ensures { IfOk result (OnPaper net.now paper.now) }
{
    match paper {
        Paper::Routing(routing) => on_routing(alloc, net.net(), routing, net.options()),
        Paper::Full(proof) => on_proof(alloc, net.net(), proof, net.options()),
    }
}

/// A refusal, as it is said.
pub fn refused(refusal: Refusal) -> Judged
    ensures { result ≡ refused refusal }
{
    match refusal {
        Refusal::Net(refusal) => Judged::NetRefused(refusal),
        Refusal::Cert(refusal) => Judged::CertRefused(refusal),
    }
}

/// What is said of a certificate's or a routing's text on the rows of a network: the first refusal,
/// the first condition that fails, or that it stands.
pub fn judge(alloc: Global, rows: &RawNet<'_>, text: &[u8]) -> Result<Judged, AllocError>
    requires rows { AreNetRows rows.now }
    requires text { length text.now ≤ MAX_CERT_BYTES }
    ensures { IfOk result (IsJudgement rows.now text.now) }
{
    match read_paper(alloc, rows, Known::Both, text) {
        Ok((net, paper)) => judge_paper(alloc, &net, &paper),
        Err(ReadEnd::Refused(refusal)) => Ok(refused(refusal)),
        Err(ReadEnd::Memory) => Err(AllocError),
    }
}
