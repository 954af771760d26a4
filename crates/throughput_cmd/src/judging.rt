//! From two texts to what is said of a certificate of a total.

ghost use Rattle.std.specs.Prelude.{◌≤◌, IfOk, length};
ghost use Rattle.mcf_limits.specs.declared.TheConstants.{MAX_CERT_BYTES};
ghost use Rattle.text_lines.specs.Lines.{lines_of};
ghost use Rattle.sndlib_grammar.specs.Rows.{AreNetRows};
ghost use Rattle.cert_lines.specs.Sheet.{IsOf, sheet_of};
ghost use Rattle.throughput.specs.Conditions.{IsPartProofOf};
ghost use Rattle.kind_texts.specs.PartRead.{part_in};
ghost use Rattle.throughput_cmd.specs.Check.{IsPartJudgement, SaysPart, SaysRest};

use cert_check::Verdict;
use cert_judge::Judged;
use cert_lines::{CertEnd, Form, Names};
use kind_inverse::parts_are_of_the_network;
use kind_texts::{part_head, read_part_text};
use sndlib_rows::RawNet;
use std::alloc::{AllocError, Global};
use throughput::{PartProof, check_part};
use unit_scale::{ScaleEnd, Scaled, scale};

// What is said of a certificate.
fn say_part(alloc: Global, net: &Scaled, p: &PartProof) -> Result<Judged, AllocError>
    requires { IsPartProofOf net.now.net p.now }
    ensures { IfOk result (SaysPart net.now p.now) }
{
    match check_part(alloc, net.net(), p)? {
        Verdict::Valid {
            lower,
            upper,
            closed,
        } => Ok(Judged::Valid {
            options: net.options(),
            closed,
            lower,
            upper,
        }),
        Verdict::Invalid(fault) => Ok(Judged::Invalid(fault)),
    }
}

// What is said of a text whose first lines and network are no ground to refuse it.
fn judge_rest(
    alloc: Global,
    rows: &RawNet<'_>,
    net: &Scaled,
    text: &[u8],
) -> Result<Judged, AllocError>
    requires of { IsOf rows.now net.now }
    requires text { length text.now ≤ MAX_CERT_BYTES }
    ensures { IfOk result (SaysRest net.now
        (part_in (sheet_of rows.now net.now) (lines_of text.now))) }
{
    parts_are_of_the_network();
    match read_part_text(alloc, &Names::new(rows, net, Form::Second), text) {
        Ok(p) => say_part(alloc, net, &p),
        Err(CertEnd::Refused(refusal)) => Ok(Judged::CertRefused(refusal)),
        Err(CertEnd::Memory) => Err(AllocError),
    }
}

/// What is said of the text of a certificate of a total on the rows of a network: the first refusal,
/// the first condition that fails, or that it is valid.
pub fn judge_part(alloc: Global, rows: &RawNet<'_>, text: &[u8]) -> Result<Judged, AllocError>
    requires rows { AreNetRows rows.now }
    requires text { length text.now ≤ MAX_CERT_BYTES }
    ensures { IfOk result (IsPartJudgement rows.now text.now) }
{
    let options = match part_head(text) {
        Ok(options) => options,
        Err(refusal) => return Ok(Judged::CertRefused(refusal)),
    };
    match scale(alloc, rows, options) {
        Ok(net) => judge_rest(alloc, rows, &net, text),
        Err(ScaleEnd::Refused(refusal)) => Ok(Judged::NetRefused(refusal)),
        Err(ScaleEnd::Memory) => Err(AllocError),
    }
}
