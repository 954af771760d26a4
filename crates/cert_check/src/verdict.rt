//! The verdict on a routing, and on a whole certificate.

ghost use Rattle.std.specs.Prelude.{◌≡◌, ◌*◌, ◌↔◌, IsTrue, IfOk, IfErr, OnOk, MatchOption};
ghost use Rattle.flow_model.specs.Routing.{IsFeasible};
ghost use Rattle.flow_paths.specs.Certificate.{IsRoutingOf, IsValidRouting, PhasesAreCarried, LoadsFit, routing_of, lower_of};
ghost use Rattle.cert_check.specs.Verdict.{IsFirstRouteFault, OnInvalid};

use crate::loads::{are_carried, carried_amounts, do_fit, loads};
use crate::walks::are_walks;
use flow_model::Net;
use flow_paths::Routing;
use gap_fraction::Frac;
use mcf_limits::{MAX_LENGTH, MAX_PHASES, MAX_UNITS};
use std::alloc::{AllocError, Global};

/// The condition that fails.
#[derive(Clone, Copy, Debug, PartialEq, Eq)]
pub enum Fault {
    /// A path is no walk from its commodity's from to its to.
    C1,
    /// A commodity's weights don't sum to phases times its amount.
    C2,
    /// A cell's load is above its capacity.
    C3,
    /// The scale divides by nothing.
    C4,
    /// A cell has not exactly one length row.
    C5,
    /// The potential rows are not of the commodities' sources, each once.
    C6,
    /// A traversal raises a potential by more than its cell's length.
    C7,
    /// The weighted distance is 0.
    C8,
    /// A fraction is not the one that is printed.
    C9,
    /// The verdict says closed or open wrongly.
    C10,
}

/// The verdict on a certificate, with its fractions.
#[derive(Clone, Copy)]
pub enum Verdict {
    /// All conditions hold: the fractions of its routing and of its bound, and whether they lie within the gap.
    Valid {
        lower: Frac,
        upper: Frac,
        closed: bool,
    },
    /// The first condition that fails.
    Invalid(Fault),
}

/// Why a routing has no fraction.
#[derive(Clone, Copy, Debug, PartialEq, Eq)]
pub enum RouteEnd {
    /// The first condition that fails.
    Invalid(Fault),
    /// Memory ran out.
    Memory,
}

impl From<AllocError> for RouteEnd {
    ghost use Rattle.std.specs.Prelude.{◌≡◌};
    ghost use Rattle.cert_check.specs.declared.verdict.RouteEnd.TheVariants.{Memory};

    ghost from_gives = { λ _ e. e ≡ Memory };

    fn from(_: AllocError) -> Self {
        RouteEnd::Memory
    }
}

// Whether every commodity's weights sum to phases times its amount.
fn phases_are_carried(alloc: Global, net: &Net, routing: &Routing) -> Result<bool, AllocError>
    requires { IsRoutingOf net.now routing.now }
    ensures { IfOk result (λ yes. IsTrue yes ↔ PhasesAreCarried net.now routing.now) }
{
    let commodities = net.commodities();
    let amounts = carried_amounts(alloc, commodities.len(), &routing.paths)?;
    Ok(are_carried(commodities, &amounts, routing.phases))
}

// Whether every cell's load, scaled, is within its capacity.
fn loads_fit(alloc: Global, net: &Net, routing: &Routing) -> Result<bool, AllocError>
    requires { IsRoutingOf net.now routing.now }
    ensures { IfOk result (λ yes. IsTrue yes ↔ LoadsFit net.now routing.now) }
{
    let cells = net.cells();
    let table = loads(alloc, cells.len(), &routing.paths)?;
    Ok(do_fit(cells, &table, routing.scale_cap, routing.scale_load))
}

// The first of a routing's four conditions that fails.
pub fn route_fault(alloc: Global, net: &Net, routing: &Routing) -> Result<Option<Fault>, AllocError>
    requires { IsRoutingOf net.now routing.now }
    ensures { IfOk result (λ fault. MatchOption fault (IsValidRouting net.now routing.now)
        (IsFirstRouteFault net.now routing.now)) }
{
    if !are_walks(net, &routing.paths) {
        return Ok(Some(Fault::C1));
    }
    if !phases_are_carried(alloc, net, routing)? {
        return Ok(Some(Fault::C2));
    }
    if !loads_fit(alloc, net, routing)? {
        return Ok(Some(Fault::C3));
    }
    if routing.scale_load == 0 {
        return Ok(Some(Fault::C4));
    }
    Ok(None)
}

/// The fraction of every amount that a routing carries.
pub fn lower(routing: &Routing) -> Frac
    requires phases { routing.now.phases ≤ MAX_PHASES }
    requires scale_cap { routing.now.scale_cap ≤ MAX_UNITS }
    requires scale_load { routing.now.scale_load ≤ MAX_LENGTH }
    requires divides { routing.now.scale_load ≢ 0 }
    ensures { result ≡ lower_of routing.now }
{
    Frac::new(
        routing.phases as u128 * routing.scale_cap as u128,
        routing.scale_load as u128,
    )
}

ghost use Rattle.std.specs.Prelude.{◌≤◌, ◌≢◌, ◌^◌};

/// The fraction of every amount that the routing carries, or the first condition that fails.
pub fn check_routing(alloc: Global, net: &Net, routing: &Routing) -> Result<Frac, RouteEnd>
    requires { IsRoutingOf net.now routing.now }
    ensures fraction { IfOk result (λ f. f ≡ lower_of routing.now) }
    ensures valid { OnOk result (IsValidRouting net.now routing.now) }
    ensures feasible { OnOk result (IsFeasible net.now (routing_of routing.now)
        (lower_of routing.now).num (lower_of routing.now).den) }
    ensures invalid { IfErr result (OnInvalid net.now routing.now) }
{
    match route_fault(alloc, net, routing)? {
        Some(fault) => Err(RouteEnd::Invalid(fault)),
        None => Ok(lower(routing)),
    }
}
