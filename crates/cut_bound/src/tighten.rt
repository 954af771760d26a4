//! The best certificate that certificates of a network give.

ghost use Rattle.std.specs.Prelude.{◌≡◌, ◌≢◌, ◌≤◌, ◌∷◌, All, IfOk, IfSome, option_to_list, if◌then◌else◌};
ghost use Rattle.std.specs.Option.{option_map};
ghost use Rattle.flow_paths.specs.Certificate.{lower_of, IsRoutingOf};
ghost use Rattle.flow_paths.specs.Evaluation.{fraction_le};
ghost use Rattle.cut_bound.specs.Laws.{GoBothWays};
ghost use Rattle.cut_bound.specs.Candidates.{IsBestDual};
ghost use Rattle.cut_bound.specs.Search.{IsDualOf};
ghost use Rattle.cut_bound.specs.Tightened.{duals, greatest_routing, HasFraction, IsCertificateOf, IsMadeOf, IsTightened};

use crate::best::best_dual;
use crate::own::own_value;
use flow_model::Net;
use flow_paths::{Dual, Proof, Routing, printed_down, printed_up};
use gap_fraction::Frac;
use mcf_limits::MAX_GAP;
use std::alloc::{AllocError, Global};
use std::cmp::Ordering;
use std::thread::Threads;

// The fraction of every amount that a routing carries.
fn carried_fraction(routing: &Routing) -> Frac
    requires { HasFraction routing.now }
    ensures { result ≡ lower_of routing.now }
{
    let num = u128::from(routing.phases) * u128::from(routing.scale_cap);
    Frac::new(num, u128::from(routing.scale_load))
}

// The one that carries more, the first of equals.
fn greater(first: Routing, second: Routing) -> Routing
    requires first { HasFraction first }
    requires second { HasFraction second }
    ensures { result ≡ (if fraction_le (lower_of second) (lower_of first) then first else second) }
{
    let other = carried_fraction(&second);
    if let Ordering::Greater = other.cmp(&carried_fraction(&first)) {
        return second;
    }
    first
}

// Of one or two the one that carries most, the first of equals.
fn greatest(first: Routing, second: Option<Routing>) -> Routing
    requires first { HasFraction first }
    requires second { IfSome second HasFraction }
    ensures { result ≡ greatest_routing first (option_to_list second) }
{
    match second {
        Some(second) => greater(first, second),
        None => first,
    }
}

// The routing of a certificate.
fn routing_of(proof: Option<Proof>) -> Option<Routing>
    ensures { result ≡ option_map (λ p. p.routing) proof }
{
    match proof {
        Some(proof) => Some(proof.routing),
        None => None,
    }
}

// The best dual of one or two certificates and of their cuts.
fn least_dual<R: Threads + Sync>(
    rt: &R,
    alloc: Global,
    net: &Net,
    both: bool,
    first: &Proof,
    second: &Option<Proof>,
) -> Result<Dual, AllocError>
    requires first { IsDualOf net.now first.now.dual }
    requires second { IfSome second.now (λ p. IsDualOf net.now p.dual) }
    ensures { IfOk result (IsBestDual net.now both (duals (first.now ∷ option_to_list second.now))) }
{
    match second {
        Some(second) => best_dual(rt, alloc, net, both, &[&first.dual, &second.dual]),
        None => best_dual(rt, alloc, net, both, &[&first.dual]),
    }
}

// The certificate of this routing and this dual.
fn made_of(
    alloc: Global,
    net: &Net,
    gap: u64,
    routing: Routing,
    dual: Dual,
) -> Result<Proof, AllocError>
    requires gap { gap ≤ MAX_GAP }
    requires routing { IsRoutingOf net.now routing }
    requires fraction { HasFraction routing }
    requires dual { IsDualOf net.now dual }
    ensures { IfOk result (IsMadeOf net.now gap routing dual) }
{
    let lower = carried_fraction(&routing);
    let upper = own_value(alloc, net, &dual)?;
    Ok(Proof {
        closed: Frac::within(&lower, &upper, gap),
        gap,
        routing,
        lower: printed_down(&lower),
        upper: printed_up(&upper),
        dual,
    })
}

/// The best certificate that one or two valid certificates of a network give: the routing of the greater fraction, the first of
/// equals; as lengths and potentials the first of the least bounds among their own, the cuts round each node, and the fronts of
/// each row of potentials; the gap of the first, and what follows of them. `both` says that each cell goes both ways. Rows of
/// potentials are shared out among threads, for which it may wait. `Err`: out of memory.
pub fn tightened<R: Threads + Sync>(
    rt: &R,
    alloc: Global,
    net: &Net,
    both: bool,
    first: Proof,
    second: Option<Proof>,
) -> Result<Proof, AllocError>
    requires ways { GoBothWays net.now both }
    requires first { IsCertificateOf net.now first }
    requires second { IfSome second (IsCertificateOf net.now) }
    ensures { IfOk result (IsTightened net.now both first (option_to_list second)) }
{
    let _cells = net.cells();
    let dual = least_dual(rt, alloc, net, both, &first, &second)?;
    let gap = first.gap;
    let routing = greatest(first.routing, routing_of(second));
    made_of(alloc, net, gap, routing, dual)
}
