//! The text of a certificate with hop limits, read.

ghost use Rattle.std.specs.Prelude.{◌≡◌, ◌≤◌, IfOk, length};
ghost use Rattle.text_lines.specs.Lines.{lines_of};
ghost use Rattle.cert_text.specs.Views.{place_view, HasRoom};
ghost use Rattle.cert_text.specs.Reading.{Gives};
ghost use Rattle.kind_texts.specs.HopsRead.{hops_from, hops_in};
ghost use Rattle.kind_texts.specs.HopsText.{FitsHops};

use crate::heads::{HOPS, header_at};
use crate::layer_rows::layers_of;
use crate::rows::flows_of;
use cert_lines::{CertEnd, Names};
use cert_text::{Place, closing, next_figures, next_opening, next_values};
use flow_paths::{Proof, Routing};
use hop_check::HopProof;
use mcf_limits::MAX_CERT_BYTES;
use std::alloc::Global;

// What follows the gap of a certificate of that verdict and that gap.
#[tactic(auto, unfolding(crate::specs::HopsRead::hops_from))]
fn hops_from(
    alloc: Global,
    names: &Names<'_, '_>,
    opening: (bool, u64),
    place: Place<'_>,
) -> Result<HopProof, CertEnd>
    requires { HasRoom place }
    ensures { Gives (λ x. x) result (hops_from names.now (opening, place_view place.entry)) }
{
    let (closed, gap) = opening;
    let ((phases, scale), place) = match next_figures(place) {
        Ok(read) => read,
        Err(end) => return Err(end),
    };
    let ((lower, upper), place) = match next_values(place) {
        Ok(read) => read,
        Err(end) => return Err(end),
    };
    let ((paths, dual), place) = match flows_of(alloc, names, place) {
        Ok(read) => read,
        Err(end) => return Err(end),
    };
    let (layers, place) = match layers_of(alloc, names, place) {
        Ok(read) => read,
        Err(end) => return Err(end),
    };
    match closing(place) {
        Ok(()) => {}
        Err(end) => return Err(end),
    }
    let routing = Routing {
        phases,
        scale_cap: scale.0,
        scale_load: scale.1,
        paths,
    };
    let proof = Proof {
        closed,
        gap,
        routing,
        lower,
        upper,
        dual,
    };
    Ok(HopProof { proof, layers })
}

// What the text spells, or the first line with a fault.
#[tactic(auto, unfolding(crate::specs::HopsRead::hops_in))]
fn read_hops(alloc: Global, names: &Names<'_, '_>, text: &[u8]) -> Result<HopProof, CertEnd>
    requires { length text.now ≤ MAX_CERT_BYTES }
    ensures { Gives (λ x. x) result (hops_in names.now (lines_of text.now)) }
{
    let place = match header_at(HOPS, text) {
        Ok(place) => place,
        Err(refusal) => return Err(CertEnd::Refused(refusal)),
    };
    let (opening, place) = match next_opening(names, place) {
        Ok(read) => read,
        Err(end) => return Err(end),
    };
    hops_from(alloc, names, opening, place)
}

/// The certificate with hop limits that the text spells in the words of the names, or the first line with a fault.
/// It keeps the limits of a text.
pub fn read_hops_text(
    alloc: Global,
    names: &Names<'_, '_>,
    text: &[u8],
) -> Result<HopProof, CertEnd>
    requires { length text.now ≤ MAX_CERT_BYTES }
    ensures exact { Gives (λ x. x) result (hops_in names.now (lines_of text.now)) }
    ensures fits { IfOk result (λ p. FitsHops names.now p) }
{
    read_hops(alloc, names, text)
}
