//! The steps of a worker for the members of one claimed group.

ghost use Rattle.std.specs.Prelude.{◌≡◌, ◌-◌, ◌*◌, ◌<◌, ◌≤◌, ◌++◌, [], ◌∷◌, All, length};
ghost use Rattle.std.specs.List.Sorted.{IsStrictlyIncreasing};
ghost use Rattle.load_table.specs.Seen.{IsPassOf};
ghost use Rattle.load_table.specs.Reading.{OneWhere};
ghost use Rattle.load_table.specs.Adding.{IsReadyFor, HasAddedAll, adds_along};
ghost use Rattle.phase_engine.specs.Steps.{IsReadyForAll, adds_of};
ghost use Rattle.phase_engine.specs.Found.{HasPath, known_path, routes_to, to_at};

use crate::route_buffer::RouteBuffer;
use dijkstra_paths::Scratch;
use flow_model::{Commodity, Net};
use load_table::{Loads, Pass};

/// Routes one commodity along the path that the search found.
pub(crate) fn route_member(
    net: &Net,
    loads: &Loads,
    pass: &mut Pass,
    k: u32,
    scratch: &Scratch,
    buffer: &mut RouteBuffer,
)
    requires of { IsPassOf loads.now pass.old }
    requires net { loads.now.terms.net ≡ net.now }
    requires nodes { scratch.now.nodes ≡ net.now.nodes }
    requires ready { OneWhere (IsReadyFor loads.now.terms k) pass.old.view.hands }
    requires k { k < length net.now.commodities }
    requires path { HasPath net.now.cells scratch.now (to_at net.now k) }
    requires paths { 0 < buffer.old.paths }
    requires cells { net.now.nodes ≤ buffer.old.cells }
    ensures of { IsPassOf loads.now pass.new }
    ensures view { HasAddedAll (adds_along k (known_path scratch.now (to_at net.now k)))
        pass.old.view pass.new.view }
    ensures routes { buffer.new.routes ≡ buffer.old.routes ++ record
        { commodity = k; path = known_path scratch.now (to_at net.now k) } ∷ [] }
    ensures paths { buffer.new.paths ≡ buffer.old.paths - 1 }
    ensures cells { buffer.old.cells - net.now.nodes ≤ buffer.new.cells }
{
    let commodities = net.commodities();
    let Commodity { to, amount, .. } = commodities[k as usize];
    buffer.make_ready(net.nodes() as usize);
    buffer.add_route(loads, pass, k, amount, scratch, to);
}

/// Routes the members of the claimed group, one after the other. It is a function of its own, so that what its loop needs stays in
/// registers.
#[inline(never)]
pub(crate) fn route_group(
    net: &Net,
    loads: &Loads,
    pass: &mut Pass,
    members: &[u32],
    scratch: &Scratch,
    buffer: &mut RouteBuffer,
)
    requires of { IsPassOf loads.now pass.old }
    requires net { loads.now.terms.net ≡ net.now }
    requires nodes { scratch.now.nodes ≡ net.now.nodes }
    requires ready { OneWhere (IsReadyForAll loads.now.terms members.now) pass.old.view.hands }
    requires ascending { IsStrictlyIncreasing members.now }
    requires members { All (λ k. k < length net.now.commodities) members.now }
    requires found { All (λ k. HasPath net.now.cells scratch.now (to_at net.now k)) members.now }
    requires paths { length members.now ≤ buffer.old.paths }
    requires cells { length members.now * net.now.nodes ≤ buffer.old.cells }
    ensures of { IsPassOf loads.now pass.new }
    ensures view { HasAddedAll (adds_of (routes_to net.now scratch.now members.now)) pass.old.view pass.new.view }
    ensures routes { buffer.new.routes ≡ buffer.old.routes ++ routes_to net.now scratch.now members.now }
{
    for k in members {
        route_member(net, loads, pass, *k, scratch, buffer);
    }
}
