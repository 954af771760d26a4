//! The verdict on a certificate of a total.

ghost use Rattle.std.specs.Prelude.{◌≡◌, ◌≤◌, ◌↔◌, All, IsTrue, IfOk, length};
ghost use Rattle.std.specs.List.{AllByRecursion};
ghost use Rattle.flow_paths.specs.Certificate.{IsPotentialOf, SourcesHaveRows, lengths_in};
ghost use Rattle.cert_check.specs.declared.verdict.Fault.TheVariants.{C6 as AllToC5};
ghost use Rattle.route_tally.specs.Conditions.{earlier, IsVerdictBy};
ghost use Rattle.throughput.specs.Partial.{part_lower_of, part_upper_of};
ghost use Rattle.throughput.specs.Conditions.{PartHolds, IsPartProofOf};
ghost use Rattle.throughput.specs.Verdicts.{CertifiesPartIfValid};

use crate::bound::upper_num;
use crate::fractions::figures;
use crate::part_proof::PartProof;
use crate::routing::{lower, route_fault};
use cert_check::{
    Fault, Verdict, are_wanted, cells_have_lengths, lengths, row_counts, rows_are_potentials,
    wanted_counts,
};
use flow_model::Net;
use flow_paths::Dual;
use mcf_limits::MAX_LENGTH;
use std::alloc::{AllocError, Global};

// Whether the rows of potentials are of the commodities' sources, each once.
fn sources_have_rows(alloc: Global, net: &Net, dual: &Dual) -> Result<bool, AllocError>
    requires { All (IsPotentialOf net.now) dual.now.potentials }
    ensures { IfOk result (λ yes. IsTrue yes ↔ SourcesHaveRows net.now dual.now) }
{
    let nodes = net.nodes() as usize;
    let counts = row_counts(alloc, nodes, dual)?;
    let wanted = wanted_counts(alloc, nodes, net.commodities())?;
    Ok(are_wanted(&counts, &wanted))
}

// The verdict where the first five conditions hold, of the length of every cell.
fn check_rows(
    alloc: Global,
    net: &Net,
    p: &PartProof,
    lengths: &[u64],
) -> Result<Verdict, AllocError>
    requires proof { IsPartProofOf net.now p.now }
    requires lengths { lengths.now ≡ lengths_in net.now p.now.bound.dual }
    requires len { length lengths.now ≡ length net.now.cells }
    requires limit { All (λ n. n ≤ MAX_LENGTH) lengths.now }
    requires holds { AllByRecursion (PartHolds net.now p.now) (earlier AllToC5) }
    ensures verdict { IfOk result (IsVerdictBy (PartHolds net.now p.now) (part_lower_of p.now.routing)
        (part_upper_of net.now p.now.bound) p.now.closed) }
    ensures certifies { IfOk result (CertifiesPartIfValid net.now p.now) }
{
    let dual = &p.bound.dual;
    if !sources_have_rows(alloc, net, dual)? {
        return Ok(Verdict::Invalid(Fault::C6));
    }
    if !rows_are_potentials(net, lengths, dual) {
        return Ok(Verdict::Invalid(Fault::C7));
    }
    let num = upper_num(alloc, net, lengths, &p.bound)?;
    Ok(figures(p, lower(net, &p.routing), num))
}

/// The verdict on a certificate of a total: valid with its fractions, or the first of the ten conditions that fails. `Err`
/// means out of memory alone.
pub fn check_part(alloc: Global, net: &Net, p: &PartProof) -> Result<Verdict, AllocError>
    requires { IsPartProofOf net.now p.now }
    ensures verdict { IfOk result (IsVerdictBy (PartHolds net.now p.now) (part_lower_of p.now.routing)
        (part_upper_of net.now p.now.bound) p.now.closed) }
    ensures certifies { IfOk result (CertifiesPartIfValid net.now p.now) }
{
    if let Some(fault) = route_fault(alloc, net, p)? {
        return Ok(Verdict::Invalid(fault));
    }
    if !cells_have_lengths(alloc, net, &p.bound.dual)? {
        return Ok(Verdict::Invalid(Fault::C5));
    }
    let lengths = lengths(alloc, net, &p.bound.dual)?;
    check_rows(alloc, net, p, &lengths)
}
