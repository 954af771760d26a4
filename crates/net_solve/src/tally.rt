//! What a solve has carried in all, added up.

ghost use Rattle.std.specs.Prelude.{◌≡◌, ◌≤◌};
ghost use Rattle.solver_run.specs.declared.options.SolveOptions.{SolveOptions};
ghost use Rattle.solver_run.specs.Headline.{IsSolved};
ghost use Rattle.net_solve.specs.Tally.{total_of, routes_of, carried_of};

use flow_model::Net;
use flow_paths::PathStore;
use flow_solver::Solved;

/// The amounts of all commodities, in units.
pub fn total_amount(net: &Net) -> u64
    ensures { result ≡ total_of net.now }
{
    let mut total = 0u64;
    for k in net.commodities() {
        total += k.amount;
    }
    total
}

// The weights of all path rows, in units.
fn weight_of(paths: &PathStore) -> u128
    ensures { result ≡ carried_of paths.now }
{
    let mut total = 0u128;
    for row in 0..paths.rows() {
        total += paths.weight(row) as u128;
    }
    total
}

/// What the phases of a solve carry in all, in units.
pub fn carried_amount(solved: &Solved) -> u128
    ensures { result ≡ carried_of solved.now.proof.routing.paths }
{
    weight_of(&solved.proof().routing.paths)
}

/// How often a commodity was routed, in all phases.
pub fn route_count(net: &Net, solved: &Solved) -> u64
    requires { (o : SolveOptions) × IsSolved net.now o solved.now }
    ensures { result ≡ routes_of solved.now }
{
    net.commodities().len() as u64 * solved.phases() as u64
}
