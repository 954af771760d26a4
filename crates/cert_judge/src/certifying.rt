//! From the rows of a network and a text to a valid certificate.

ghost use Rattle.std.specs.Prelude.{◌≡◌, ◌≤◌, IfOk, length};
ghost use Rattle.mcf_limits.specs.declared.TheConstants.{MAX_CERT_BYTES};
ghost use Rattle.sndlib_grammar.specs.Rows.{AreNetRows};
ghost use Rattle.cert_text.specs.declared.papers.Paper.TheVariants as PaperIs;
ghost use Rattle.cert_judge.specs.Papers.{IsOfNet, IsPaperOf};
ghost use Rattle.cert_judge.specs.Certified.{IsCertifiedText, IsSound, OnCertificate, OnRead};

use crate::judged::Judged;
use crate::judging::refused;
use crate::reading::read_paper;
use crate::refusal::ReadEnd;
use cert_check::{Verdict, check};
use cert_text::{Known, Paper};
use flow_paths::Proof;
use sndlib_rows::RawNet;
use std::alloc::{AllocError, Global};
use unit_scale::Scaled;

/// What comes of a certificate's text.
#[derive(Drop)]
pub enum Certified {
    /// The network in units, and a valid certificate of it.
    Valid(Scaled, Proof),
    /// The first refusal, of the text or of the network under its options, or the first condition that fails.
    Said(Judged),
}

// The certificate, where it is valid, or the first condition that fails.
fn on_proof(alloc: Global, net: Scaled, proof: Proof) -> Result<Certified, AllocError>
    requires { IsOfNet net.net (PaperIs.Full proof) }
    ensures certificate { IfOk result (λ c. (rows : _) → IsPaperOf rows net (PaperIs.Full proof)
        → OnCertificate rows net proof c) }
    ensures sound { IfOk result (λ c. (rows : _) → IsPaperOf rows net (PaperIs.Full proof) → IsSound rows c) }
{
    match check(alloc, net.net(), &proof)? {
        Verdict::Valid { .. } => Ok(Certified::Valid(net, proof)),
        Verdict::Invalid(fault) => Ok(Certified::Said(Judged::Invalid(fault))),
    }
}

// The same of what was read, which is no routing.
fn on_paper(alloc: Global, net: Scaled, paper: Paper) -> Result<Certified, AllocError>
    requires of { IsOfNet net.net paper }
    requires full { (routing : _) → ¬ (paper ≡ PaperIs.Routing routing) }
    ensures certificate { IfOk result (λ c. (rows : _) → IsPaperOf rows net paper
        → OnRead rows net paper c) }
    ensures sound { IfOk result (λ c. (rows : _) → IsPaperOf rows net paper → IsSound rows c) }
{
    match paper {
        Paper::Full(proof) => on_proof(alloc, net, proof),
        Paper::Routing(_) => unreachable!(),
    }
}

/// The valid certificate of the text, with the network in units that the rows stand for under its options;
/// or what else is said of it: the first refusal, or the first condition that fails. A routing is no
/// certificate: where line 1 is the header of one, in either form, that line is refused, whatever the later
/// lines are.
pub fn read_certificate(
    alloc: Global,
    rows: &RawNet<'_>,
    text: &[u8],
) -> Result<Certified, AllocError>
    requires rows { AreNetRows rows.now }
    requires text { length text.now ≤ MAX_CERT_BYTES }
    ensures value { IfOk result (IsCertifiedText rows.now text.now) }
    ensures sound { IfOk result (IsSound rows.now) }
{
    match read_paper(alloc, rows, Known::Certificates, text) {
        Ok((net, paper)) => on_paper(alloc, net, paper),
        Err(ReadEnd::Refused(refusal)) => Ok(Certified::Said(refused(refusal))),
        Err(ReadEnd::Memory) => Err(AllocError),
    }
}
