//! From two texts to what is said of a certificate with hop limits.

ghost use Rattle.std.specs.Prelude.{◌≤◌, IfOk, length};
ghost use Rattle.mcf_limits.specs.declared.TheConstants.{MAX_CERT_BYTES};
ghost use Rattle.text_lines.specs.Lines.{lines_of};
ghost use Rattle.sndlib_grammar.specs.Rows.{AreNetRows};
ghost use Rattle.cert_lines.specs.Sheet.{IsOf, sheet_of};
ghost use Rattle.hop_paths.specs.Allowed.{AreLimits};
ghost use Rattle.hop_check.specs.Conditions.{IsHopProofOf};
ghost use Rattle.kind_texts.specs.HopsRead.{hops_in};
ghost use Rattle.hops_cmd.specs.Check.{IsHopsJudgement, SaysRest, SaysWithin};

use cert_check::Verdict;
use cert_judge::Judged;
use cert_lines::{CertEnd, Form, Names};
use hop_check::{HopProof, check_hops, hop_limits};
use kind_inverse::hops_are_of_the_network;
use kind_texts::{hops_head, read_hops_text};
use sndlib_rows::RawNet;
use std::alloc::{AllocError, Global};
use unit_scale::{ScaleEnd, Scaled, scale};

// What is said of a certificate within these limits.
fn say_hops(
    alloc: Global,
    net: &Scaled,
    limits: &[Option<u8>],
    h: &HopProof,
) -> Result<Judged, AllocError>
    requires limits { AreLimits net.now.net limits.now }
    requires proof { IsHopProofOf net.now.net h.now }
    ensures { IfOk result (SaysWithin net.now limits.now h.now) }
{
    match check_hops(alloc, net.net(), limits, h)? {
        Verdict::Valid {
            lower,
            upper,
            closed,
        } => Ok(Judged::Valid {
            options: net.options(),
            closed,
            lower,
            upper,
        }),
        Verdict::Invalid(fault) => Ok(Judged::Invalid(fault)),
    }
}

// What is said of a text whose first lines, network and limits are no ground to refuse it.
fn judge_rest(
    alloc: Global,
    rows: &RawNet<'_>,
    net: &Scaled,
    limits: &[Option<u8>],
    text: &[u8],
) -> Result<Judged, AllocError>
    requires of { IsOf rows.now net.now }
    requires limits { AreLimits net.now.net limits.now }
    requires text { length text.now ≤ MAX_CERT_BYTES }
    ensures { IfOk result (SaysRest net.now limits.now
        (hops_in (sheet_of rows.now net.now) (lines_of text.now))) }
{
    hops_are_of_the_network();
    match read_hops_text(alloc, &Names::new(rows, net, Form::Second), text) {
        Ok(h) => say_hops(alloc, net, limits, &h),
        Err(CertEnd::Refused(refusal)) => Ok(Judged::CertRefused(refusal)),
        Err(CertEnd::Memory) => Err(AllocError),
    }
}

/// What is said of the text of a certificate with hop limits on the rows of a network: the first
/// refusal, the first condition that fails, or that it is valid. A limit that is too far is refused
/// behind the network's other refusals and before those of line 5 and what follows it.
pub fn judge_hops(alloc: Global, rows: &RawNet<'_>, text: &[u8]) -> Result<Judged, AllocError>
    requires rows { AreNetRows rows.now }
    requires text { length text.now ≤ MAX_CERT_BYTES }
    ensures { IfOk result (IsHopsJudgement rows.now text.now) }
{
    let options = match hops_head(text) {
        Ok(options) => options,
        Err(refusal) => return Ok(Judged::CertRefused(refusal)),
    };
    let net = match scale(alloc, rows, options) {
        Ok(net) => net,
        Err(ScaleEnd::Refused(refusal)) => return Ok(Judged::NetRefused(refusal)),
        Err(ScaleEnd::Memory) => return Err(AllocError),
    };
    match hop_limits(alloc, rows, &net) {
        Ok(limits) => judge_rest(alloc, rows, &net, &limits, text),
        Err(ScaleEnd::Refused(refusal)) => Ok(Judged::NetRefused(refusal)),
        Err(ScaleEnd::Memory) => Err(AllocError),
    }
}
