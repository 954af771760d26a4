//! A second certificate of the network of a first one.

ghost use Rattle.std.specs.Prelude.{◌≡◌, ◌≤◌, IfOk, length};
ghost use Rattle.mcf_limits.specs.declared.TheConstants.{MAX_CERT_BYTES};
ghost use Rattle.text_lines.specs.Lines.{lines_of};
ghost use Rattle.sndlib_grammar.specs.Rows.{AreNetRows};
ghost use Rattle.cert_lines.specs.Forms.{seen};
ghost use Rattle.cert_lines.specs.Sheet.{IsOf};
ghost use Rattle.cert_text.specs.declared.opening.Known.TheVariants as KnownIs;
ghost use Rattle.cert_text.specs.declared.papers.Paper.TheVariants as PaperIs;
ghost use Rattle.cert_text.specs.Views.{HasRoom, opened_view};
ghost use Rattle.cert_judge.specs.Papers.{IsOfNet, IsPaperOf};
ghost use Rattle.cert_judge.specs.Certified.{IsSound, OnCertificate, OnRead};
ghost use Rattle.cert_judge.specs.Second.{IsSecondText, ReadsOn, same_links, same_modules, second_on, under, with_net};

use crate::papers_fit;
use cert_check::{Fault, Verdict, check};
use cert_text::{CertEnd, CertHead, CertKind, CertRefusal, Known, Opened, Paper, open, read_rest};
use flow_paths::Proof;
use sndlib_rows::RawNet;
use std::alloc::{AllocError, Global};
use unit_scale::{LinkMode, ModuleMode, NetOptions, Scaled};

/// What comes of the text of a second certificate.
#[derive(Drop)]
pub enum Second {
    /// A valid certificate of the network of the first.
    Valid(Proof),
    /// The first refusal of the text.
    Refused(CertRefusal),
    /// The first condition that fails.
    Invalid(Fault),
}

// Links are read alike.
fn same_links(a: LinkMode, b: LinkMode) -> bool
    ensures { result ≡ same_links a b }
{
    a == b
}

// Modules are read alike.
fn same_modules(a: ModuleMode, b: ModuleMode) -> bool
    ensures { result ≡ same_modules a b }
{
    a == b
}

// The head, where it says these options; else the line that says another mode is refused.
fn under(options: NetOptions, head: CertHead) -> Result<CertHead, CertRefusal>
    ensures { result ≡ under options head }
{
    if !same_links(head.links, options.links) {
        return Err(CertRefusal {
            line: 3,
            kind: CertKind::OtherNet,
        });
    }
    if !same_modules(head.modules, options.modules) {
        return Err(CertRefusal {
            line: 4,
            kind: CertKind::OtherNet,
        });
    }
    Ok(head)
}

// Opens the text of a certificate under these options.
#[tactic(auto, unfolding(crate::specs::Second::opened_under))]
fn opened_under(options: NetOptions, text: &[u8]) -> Result<Opened<'_>, CertRefusal>
    requires { length text.now ≤ MAX_CERT_BYTES }
    ensures exact { seen opened_view result ≡ opened_under options (lines_of text.now) }
    ensures room { IfOk result (λ o. HasRoom o.rest) }
{
    let opened = match open(Known::Certificates, text) {
        Ok(opened) => opened,
        Err(refusal) => return Err(refusal),
    };
    match under(options, opened.head) {
        Ok(_) => Ok(opened),
        Err(refusal) => Err(refusal),
    }
}

ghost use Rattle.cert_judge.specs.Second.{opened_under};

// The certificate that the text spells, where it is one of this network of the rows under its options, or the first refusal.
fn read_second_paper(
    alloc: Global,
    rows: &RawNet<'_>,
    net: &Scaled,
    text: &[u8],
) -> Result<Paper, CertEnd>
    requires of { IsOf rows.now net.now }
    requires text { length text.now ≤ MAX_CERT_BYTES }
    ensures value { ReadsOn net.now result (second_on rows.now net.now.options text.now) }
    ensures own { IfOk result (IsPaperOf rows.now net.now) }
{
    papers_fit();
    let opened = match opened_under(net.options(), text) {
        Ok(opened) => opened,
        Err(refusal) => return Err(CertEnd::Refused(refusal)),
    };
    let _skipped = rows.skipped();
    let _cells = net.net().cells();
    read_rest(alloc, rows, net, opened)
}

// The certificate, where it is valid, or the first condition that fails.
fn on_proof(alloc: Global, net: &Scaled, proof: Proof) -> Result<Second, AllocError>
    requires { IsOfNet net.now.net (PaperIs.Full proof) }
    ensures certificate { IfOk result (λ s. (rows : _) → IsPaperOf rows net.now (PaperIs.Full proof)
        → OnCertificate rows net.now proof (with_net net.now s)) }
    ensures sound { IfOk result (λ s. (rows : _) → IsPaperOf rows net.now (PaperIs.Full proof)
        → IsSound rows (with_net net.now s)) }
{
    match check(alloc, net.net(), &proof)? {
        Verdict::Valid { .. } => Ok(Second::Valid(proof)),
        Verdict::Invalid(fault) => Ok(Second::Invalid(fault)),
    }
}

// The same of what was read, which is no routing.
fn on_paper(alloc: Global, net: &Scaled, paper: Paper) -> Result<Second, AllocError>
    requires of { IsOfNet net.now.net paper }
    requires full { (routing : _) → ¬ (paper ≡ PaperIs.Routing routing) }
    ensures certificate { IfOk result (λ s. (rows : _) → IsPaperOf rows net.now paper
        → OnRead rows net.now paper (with_net net.now s)) }
    ensures sound { IfOk result (λ s. (rows : _) → IsPaperOf rows net.now paper
        → IsSound rows (with_net net.now s)) }
{
    match paper {
        Paper::Full(proof) => on_proof(alloc, net, proof),
        Paper::Routing(_) => unreachable!(),
    }
}

/// The valid certificate that the text is of, on the network of a first one, or what else is said of it: the first
/// refusal, or the first condition that fails. It is judged as the first one was, but that behind its first four
/// lines it is refused where it reads links otherwise than the first one, at line 3, or modules, at line 4.
pub fn read_second(
    alloc: Global,
    rows: &RawNet<'_>,
    net: &Scaled,
    text: &[u8],
) -> Result<Second, AllocError>
    requires of { IsOf rows.now net.now }
    requires text { length text.now ≤ MAX_CERT_BYTES }
    ensures value { IfOk result (λ s. IsSecondText rows.now net.now.options text.now (with_net net.now s)) }
    ensures sound { IfOk result (λ s. IsSound rows.now (with_net net.now s)) }
{
    match read_second_paper(alloc, rows, net, text) {
        Ok(paper) => on_paper(alloc, net, paper),
        Err(CertEnd::Refused(refusal)) => Ok(Second::Refused(refusal)),
        Err(CertEnd::Memory) => Err(AllocError),
    }
}
