//! The conditions on a certificate's fractions.

ghost use Rattle.std.specs.Prelude.{◌≡◌, ℕ, ◌^◌, ◌<◌, ◌≤◌, ◌↔◌, IsTrue};
ghost use Rattle.std.specs.List.{AllByRecursion};
ghost use Rattle.gap_fraction.specs.Fraction.{IsWithinGap};
ghost use Rattle.gap_fraction.specs.Decimals.{millionths_down, millionths_up};
ghost use Rattle.flow_model.specs.Network.{Network};
ghost use Rattle.flow_paths.specs.Certificate.{IsPrinted};
ghost use Rattle.cert_check.specs.declared.verdict.Fault.TheVariants.{C8 as AllToC7};
ghost use Rattle.route_tally.specs.Conditions.{earlier, IsVerdictBy};
ghost use Rattle.throughput.specs.Partial.{part_lower_of, part_upper_of};
ghost use Rattle.throughput.specs.Conditions.{PartHolds};

use crate::part_proof::PartProof;
use cert_check::{Fault, Verdict, is_printed};
use gap_fraction::Frac;
use mcf_limits::{MAX_GAP, MAX_LENGTH};
use std::cmp::Ordering;

/// Whether the upper fraction is at most the lower times one and the gap, which is in millionths.
pub fn is_within(lower: &Frac, upper: &Frac, gap: u64) -> bool
    requires lower { lower.now.den ≤ MAX_LENGTH }
    requires upper { upper.now.den ≤ MAX_LENGTH }
    requires gap { gap ≤ MAX_GAP }
    ensures { IsTrue result ↔ IsWithinGap lower.now upper.now gap }
{
    let above = Frac::new(upper.num(), upper.den() * (1000000 + gap as u128));
    let below = Frac::new(lower.num(), lower.den() * 1000000);
    match above.cmp(&below) {
        Ordering::Greater => false,
        _ => true,
    }
}

// Whether both fractions are printed as they are.
fn are_printed(p: &PartProof, lower: &Frac, upper: &Frac) -> bool
    requires lower_micro { p.now.lower.micro < 1000000 }
    requires upper_micro { p.now.upper.micro < 1000000 }
    ensures { IsTrue result ↔ (IsPrinted p.now.lower lower.now (millionths_down lower.now)
        × IsPrinted p.now.upper upper.now (millionths_up upper.now)) }
{
    is_printed(p.lower, lower, lower.digits_down()) && is_printed(p.upper, upper, upper.digits_up())
}

/// The verdict where the first seven conditions hold, of the lower fraction and the numerator of the upper one.
pub fn figures(p: &PartProof, lower: Frac, num: u128) -> Verdict
    requires lower { lower.den ≤ MAX_LENGTH }
    requires micros { (p.now.lower.micro < 1000000) × (p.now.upper.micro < 1000000) }
    requires gap { p.now.gap ≤ MAX_GAP }
    requires threshold { p.now.bound.threshold ≤ MAX_LENGTH }
    requires num { num ≤ 2 ^ 120 }
    ensures { (net : Network) → lower ≡ part_lower_of p.now.routing
        → record { num = num; den = p.now.bound.threshold } ≡ part_upper_of net p.now.bound
        → AllByRecursion (PartHolds net p.now) (earlier AllToC7)
        → IsVerdictBy (PartHolds net p.now) lower (record { num = num; den = p.now.bound.threshold })
        p.now.closed result }
{
    if p.bound.threshold == 0 {
        return Verdict::Invalid(Fault::C8);
    }
    let upper = Frac::new(num, p.bound.threshold as u128);
    if !are_printed(p, &lower, &upper) {
        return Verdict::Invalid(Fault::C9);
    }
    if p.closed != is_within(&lower, &upper, p.gap) {
        return Verdict::Invalid(Fault::C10);
    }
    Verdict::Valid {
        lower,
        upper,
        closed: p.closed,
    }
}
