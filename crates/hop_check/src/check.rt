//! The verdict on a certificate with hop limits.

ghost use Rattle.std.specs.Prelude.{◌≡◌, ℕ, ◌^◌, ◌<◌, ◌≤◌, ◌↔◌, List, Option, All, IsTrue, IfOk, length};
ghost use Rattle.std.specs.List.{AllByRecursion};
ghost use Rattle.gap_fraction.specs.Decimals.{millionths_down, millionths_up};
ghost use Rattle.mcf_limits.specs.declared.TheConstants.{MAX_GAP};
ghost use Rattle.flow_model.specs.Network.{Network};
ghost use Rattle.flow_paths.specs.Certificate.{IsPrinted, lengths_in, lower_of};
ghost use Rattle.cert_check.specs.declared.verdict.Fault.TheVariants.{C6 as AllToC5, C8 as AllToC7};
ghost use Rattle.route_tally.specs.Conditions.{earlier, IsVerdictBy};
ghost use Rattle.hop_paths.specs.Allowed.{AreLimits};
ghost use Rattle.hop_check.specs.Layers.{dual_of, hop_upper_of};
ghost use Rattle.hop_check.specs.Conditions.{HopHolds, IsHopProofOf};
ghost use Rattle.hop_check.specs.Verdicts.{CertifiesHopsIfValid};

use crate::asked::layer_counts;
use crate::hop_proof::HopProof;
use crate::places::layer_places;
use crate::rows::{bottom, rows_are_asked, rows_bound};
use crate::within::are_within;
use cert_check::{
    Fault, RouteEnd, Verdict, cells_have_lengths, check_routing, is_printed, lengths,
};
use flow_model::Net;
use flow_paths::{Proof, volume};
use gap_fraction::Frac;
use mcf_limits::MAX_LENGTH;
use std::alloc::{AllocError, Global};

// Whether both fractions are printed as they are.
fn are_printed(proof: &Proof, lower: &Frac, upper: &Frac) -> bool
    requires lower_micro { proof.now.lower.micro < 1000000 }
    requires upper_micro { proof.now.upper.micro < 1000000 }
    ensures { IsTrue result ↔ (IsPrinted proof.now.lower lower.now (millionths_down lower.now)
        × IsPrinted proof.now.upper upper.now (millionths_up upper.now)) }
{
    is_printed(proof.lower, lower, lower.digits_down())
        && is_printed(proof.upper, upper, upper.digits_up())
}

// The verdict where the first seven conditions hold, of the lower fraction and both parts of the upper one.
fn figures(h: &HopProof, lower: Frac, num: u128, den: u128) -> Verdict
    requires lower { (lower.num ≤ MAX_LENGTH) × (lower.den ≤ MAX_LENGTH) }
    requires micros { (h.now.proof.lower.micro < 1000000) × (h.now.proof.upper.micro < 1000000) }
    requires gap { h.now.proof.gap ≤ MAX_GAP }
    requires parts { (num ≤ 2 ^ 119) × (den ≤ 2 ^ 108) }
    ensures { (net : Network) (limits : List (Option ℕ)) → lower ≡ lower_of h.now.proof.routing
        → record { num = num; den = den } ≡ hop_upper_of net limits (dual_of h.now)
        → AllByRecursion (HopHolds net limits h.now) (earlier AllToC7)
        → IsVerdictBy (HopHolds net limits h.now) lower (record { num = num; den = den })
        h.now.proof.closed result }
{
    if den == 0 {
        return Verdict::Invalid(Fault::C8);
    }
    let upper = Frac::new(num, den);
    if !are_printed(&h.proof, &lower, &upper) {
        return Verdict::Invalid(Fault::C9);
    }
    if h.proof.closed != Frac::within(&lower, &upper, h.proof.gap) {
        return Verdict::Invalid(Fault::C10);
    }
    Verdict::Valid {
        lower,
        upper,
        closed: h.proof.closed,
    }
}

// The verdict where the first five conditions hold, of the lower fraction and the length of every cell.
fn check_rows(
    alloc: Global,
    net: &Net,
    limits: &[Option<u8>],
    h: &HopProof,
    lower: Frac,
    lengths: &[u64],
) -> Result<Verdict, AllocError>
    requires limits { AreLimits net.now limits.now }
    requires proof { IsHopProofOf net.now h.now }
    requires lower { (lower ≡ lower_of h.now.proof.routing) × (lower.num ≤ MAX_LENGTH) × (lower.den ≤ MAX_LENGTH) }
    requires lengths { lengths.now ≡ lengths_in net.now h.now.proof.dual }
    requires len { length lengths.now ≡ length net.now.cells }
    requires limit { All (λ n. n ≤ MAX_LENGTH) lengths.now }
    requires holds { AllByRecursion (HopHolds net.now limits.now h.now) (earlier AllToC5) }
    ensures verdict { IfOk result (IsVerdictBy (HopHolds net.now limits.now h.now) (lower_of h.now.proof.routing)
        (hop_upper_of net.now limits.now (dual_of h.now)) h.now.proof.closed) }
    ensures certifies { IfOk result (CertifiesHopsIfValid net.now limits.now h.now) }
{
    let counts = layer_counts(alloc, net, limits)?;
    if !rows_are_asked(alloc, net, limits, h, &counts)? {
        return Ok(Verdict::Invalid(Fault::C6));
    }
    let places = layer_places(alloc, net.nodes(), &h.layers)?;
    if !rows_bound(net, h, lengths, &places, &counts) {
        return Ok(Verdict::Invalid(Fault::C7));
    }
    let den = bottom(alloc, net, limits, &h.proof.dual, &h.layers, &places)?;
    Ok(figures(h, lower, volume(net.cells(), lengths), den))
}

/// The verdict on a certificate with hop limits: valid with its fractions, or the first of the ten conditions that fails.
/// There is one limit, or none, for each commodity, of at most 64 cells. `Err` means out of memory alone.
pub fn check_hops(
    alloc: Global,
    net: &Net,
    limits: &[Option<u8>],
    h: &HopProof,
) -> Result<Verdict, AllocError>
    requires limits { AreLimits net.now limits.now }
    requires proof { IsHopProofOf net.now h.now }
    ensures verdict { IfOk result (IsVerdictBy (HopHolds net.now limits.now h.now) (lower_of h.now.proof.routing)
        (hop_upper_of net.now limits.now (dual_of h.now)) h.now.proof.closed) }
    ensures certifies { IfOk result (CertifiesHopsIfValid net.now limits.now h.now) }
{
    let routing = &h.proof.routing;
    if !are_within(limits, &routing.paths) {
        return Ok(Verdict::Invalid(Fault::C1));
    }
    let lower = match check_routing(alloc, net, routing) {
        Ok(lower) => lower,
        Err(RouteEnd::Invalid(fault)) => return Ok(Verdict::Invalid(fault)),
        Err(RouteEnd::Memory) => return Err(AllocError),
    };
    if !cells_have_lengths(alloc, net, &h.proof.dual)? {
        return Ok(Verdict::Invalid(Fault::C5));
    }
    let lengths = lengths(alloc, net, &h.proof.dual)?;
    check_rows(alloc, net, limits, h, lower, &lengths)
}
