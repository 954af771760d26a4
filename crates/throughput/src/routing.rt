//! The four conditions of a certificate's routing.

ghost use Rattle.std.specs.Prelude.{◌≡◌, ◌≢◌, ◌≤◌, ◌*◌, ◌^◌, ◌↔◌, IsTrue, IfOk, MatchOption};
ghost use Rattle.std.specs.List.{AllByRecursion};
ghost use Rattle.flow_paths.specs.Certificate.{IsRoutingOf, LoadsFit};
ghost use Rattle.cert_check.specs.declared.verdict.Fault.TheVariants.{C5 as AllToC4};
ghost use Rattle.route_tally.specs.Conditions.{earlier, IsFirstFailing};
ghost use Rattle.throughput.specs.Partial.{part_lower_of};
ghost use Rattle.throughput.specs.Conditions.{AmountsFit, IsPartProofOf, PartHolds};

use crate::amounts::{are_within, total};
use crate::part_proof::PartProof;
use cert_check::{Fault, are_walks, carried_amounts, do_fit, path_loads};
use flow_model::Net;
use flow_paths::Routing;
use gap_fraction::Frac;
use mcf_limits::MAX_LENGTH;
use std::alloc::{AllocError, Global};

// Whether every commodity's weights, scaled, are within its amount.
fn amounts_fit(alloc: Global, net: &Net, routing: &Routing) -> Result<bool, AllocError>
    requires { IsRoutingOf net.now routing.now }
    ensures { IfOk result (λ yes. IsTrue yes ↔ AmountsFit net.now routing.now) }
{
    let commodities = net.commodities();
    let amounts = carried_amounts(alloc, commodities.len(), &routing.paths)?;
    Ok(are_within(commodities, &amounts, routing.scale_cap, routing.scale_load))
}

// Whether every cell's load, scaled, is within its capacity.
fn loads_fit(alloc: Global, net: &Net, routing: &Routing) -> Result<bool, AllocError>
    requires { IsRoutingOf net.now routing.now }
    ensures { IfOk result (λ yes. IsTrue yes ↔ LoadsFit net.now routing.now) }
{
    let cells = net.cells();
    let loads = path_loads(alloc, cells.len(), &routing.paths)?;
    Ok(do_fit(cells, &loads, routing.scale_cap, routing.scale_load))
}

/// The first of the routing's four conditions that fails, or `None`.
pub fn route_fault(alloc: Global, net: &Net, p: &PartProof) -> Result<Option<Fault>, AllocError>
    requires { IsPartProofOf net.now p.now }
    ensures { IfOk result (λ fault. MatchOption fault
        (AllByRecursion (PartHolds net.now p.now) (earlier AllToC4))
        (IsFirstFailing (PartHolds net.now p.now))) }
{
    if !are_walks(net, &p.routing.paths) {
        return Ok(Some(Fault::C1));
    }
    if !amounts_fit(alloc, net, &p.routing)? {
        return Ok(Some(Fault::C2));
    }
    if !loads_fit(alloc, net, &p.routing)? {
        return Ok(Some(Fault::C3));
    }
    if p.routing.scale_load == 0 {
        return Ok(Some(Fault::C4));
    }
    Ok(None)
}

/// The total that the routing carries, in units: its parts are at most 2^108 and 2^62.
pub fn lower(net: &Net, routing: &Routing) -> Frac
    requires routing { IsRoutingOf net.now routing.now }
    requires amounts { AmountsFit net.now routing.now }
    requires scale { routing.now.scale_load ≢ 0 }
    ensures value { result ≡ part_lower_of routing.now }
    ensures num { result.num ≤ 2 ^ 108 }
    ensures den { result.den ≤ MAX_LENGTH }
{
    let _nodes = net.nodes();
    Frac::new(
        total(&routing.paths) * routing.scale_cap as u128,
        routing.scale_load as u128,
    )
}
