//! From the rows of a network and a text to what the text stands for.

ghost use Rattle.std.specs.Prelude.{◌≤◌, IfOk, length};
ghost use Rattle.mcf_limits.specs.declared.TheConstants.{MAX_CERT_BYTES};
ghost use Rattle.sndlib_grammar.specs.Rows.{AreNetRows};
ghost use Rattle.cert_judge.specs.Chain.{Reads};
ghost use Rattle.cert_judge.specs.Papers.{IsPaperOf, paper_on};

use crate::papers_fit;
use crate::refusal::{ReadEnd, Refusal};
use cert_text::{CertEnd, Known, Paper, open, read_rest};
use sndlib_rows::RawNet;
use std::alloc::Global;
use unit_scale::{NetOptions, ScaleEnd, Scaled, scale};

/// The network in units that the rows stand for under the options of the text, and the certificate or the
/// routing that the text spells with its names, in either form; or the first refusal: of the text's first
/// lines, where a header that is not among the known ones is none, of the network under these options, of
/// the text's other lines.
pub fn read_paper(
    alloc: Global,
    rows: &RawNet<'_>,
    known: Known,
    text: &[u8],
) -> Result<(Scaled, Paper), ReadEnd>
    requires rows { AreNetRows rows.now }
    requires text { length text.now ≤ MAX_CERT_BYTES }
    ensures value { Reads result (paper_on known rows.now text.now) }
    ensures own { IfOk result (λ x. IsPaperOf rows.now x.0 x.1) }
{
    papers_fit();
    let opened = match open(known, text) {
        Ok(opened) => opened,
        Err(refusal) => return Err(ReadEnd::Refused(Refusal::Cert(refusal))),
    };
    let options = NetOptions {
        links: opened.head.links,
        modules: opened.head.modules,
    };
    let net = match scale(alloc, rows, options) {
        Ok(net) => net,
        Err(ScaleEnd::Refused(refusal)) => {
            return Err(ReadEnd::Refused(Refusal::Net(refusal)));
        }
        Err(ScaleEnd::Memory) => return Err(ReadEnd::Memory),
    };
    let _skipped = rows.skipped();
    let _cells = net.net().cells();
    match read_rest(alloc, rows, &net, opened) {
        Ok(paper) => Ok((net, paper)),
        Err(CertEnd::Refused(refusal)) => Err(ReadEnd::Refused(Refusal::Cert(refusal))),
        Err(CertEnd::Memory) => Err(ReadEnd::Memory),
    }
}
