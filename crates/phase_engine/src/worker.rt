//! A worker's whole work: it claims groups until all are claimed, or room is refused.

ghost use Rattle.std.specs.Prelude.{◌≡◌, ℕ, ◌+◌, ◌*◌, ◌<◌, ◌≤◌, ◌++◌, [], ◌∷◌, length, IfSome, IsFalse, IsSome};
ghost use Rattle.flow_model.specs.Groups.{group_count, members_of};
ghost use Rattle.flow_model.specs.Network.{IsNetwork};
ghost use Rattle.flow_model.specs.Least.{HasNoCut};
ghost use Rattle.flow_core.specs.Core.{IsComplete, entry, idle};
ghost use Rattle.load_table.specs.Seen.{IsPassOf};
ghost use Rattle.load_table.specs.Views.{hand};
ghost use Rattle.load_table.specs.Reading.{OneWhere};
ghost use Rattle.phase_engine.specs.Steps.{IsClaimed, HasFinished, adds_of};
ghost use Rattle.phase_engine.specs.Found.{routes_to, group_routes};
ghost use Rattle.phase_engine.specs.Work.{HasWorked, routes_in};
ghost use Rattle.phase_engine.specs.Hands.{AreOf};
ghost use Rattle.phase_engine.specs.Rooms.{IsRoomOf};

use crate::input::{PhaseInput, Shared};
use crate::room::Room;
use crate::route_buffer::RouteBuffer;
use crate::routes::Routes;
use crate::steps::route_group;
use crate::watch::Watch;
use dijkstra_paths::Scratch;
use flow_model::{Groups, Net};
use load_table::{Loads, Pass};
use mcf_limits::MAX_DEMANDS;
use std::alloc::Global;

/// What a worker hands back: its pass, and whether room was refused.
#[derive(Drop)]
pub struct Worked {
    /// Its pass.
    pub pass: Pass,
    /// Whether room was refused, so that it stopped.
    pub memory: bool,
}

// How many members the greatest group has.
fn greatest_group(net: &Net, groups: &Groups) -> usize
    requires { groups.now ≡ net.now }
    ensures greatest { (g : ℕ) → g < group_count net.now → length (members_of net.now g) ≤ result }
    ensures few { result ≤ MAX_DEMANDS }
{
    let demands = net.commodities().len();
    let mut most = 0;
    for g in 0..groups.count() {
        let count = groups.members(g).len();
        if most < count {
            most = count;
        }
    }
    most.min(demands)
}

// Routes the claimed group: reads all cells, searches, and adds for each member.
fn route_ticket(
    input: &PhaseInput<'_>,
    loads: &Loads,
    pass: &mut Pass,
    g: u16,
    room: &mut Room,
    scratch: &mut Scratch,
    buffer: &mut RouteBuffer,
)
    requires of { IsPassOf loads.now pass.old }
    requires claimed { OneWhere (IsClaimed g) pass.old.view.hands }
    requires group { g < group_count input.now.net.now }
    requires network { IsNetwork input.now.net.now }
    requires loads { loads.now.terms.net ≡ input.now.net.now }
    requires room { IsRoomOf input.now.net.now room.old × (room.old.lengths.setting ≡ loads.now.terms.setting) }
    requires nodes { scratch.old.nodes ≡ input.now.net.now.nodes }
    requires no_cut { HasNoCut input.now.net.now }
    requires paths { length (members_of input.now.net.now g) ≤ buffer.old.paths }
    requires cells { length (members_of input.now.net.now g) * input.now.net.now.nodes ≤ buffer.old.cells }
    ensures of { IsPassOf loads.now pass.new }
    ensures view { HasFinished room.new.loads.items (adds_of (group_routes input.now.net.now scratch.new g))
        pass.old.view pass.new.view }
    ensures complete { let routes = routes_to input.now.net.now scratch.new (members_of input.now.net.now g) in
        IsComplete loads.now.terms (entry g room.new.loads.items (adds_of routes)) }
    ensures routes { let routes = routes_to input.now.net.now scratch.new (members_of input.now.net.now g) in
        (buffer.new.routes ≡ buffer.old.routes ++ routes)
        × (routes ≡ routes_in input.now.net.now (entry g room.new.loads.items (adds_of routes))) }
    ensures room { IsRoomOf input.now.net.now room.new × (room.new.lengths.setting ≡ room.old.lengths.setting) }
    ensures scratch { (scratch.new.nodes ≡ scratch.old.nodes) × (scratch.new.cells ≡ scratch.old.cells) }
{
    loads.read_all(pass, &mut room.loads);
    room.lengths
        .update(input.powers, input.net, room.loads.as_slice());
    let source = input.groups.source(g);
    scratch.search_near(
        input.graph,
        room.lengths.lengths(),
        source,
        input.trees.get(g as usize).copied(),
    );
    route_group(
        input.net,
        loads,
        pass,
        input.groups.members(g),
        scratch,
        buffer,
    );
}

// Claims and routes until a ticket is past the end, or room is refused, which it answers.
fn claim_all<G: Watch>(
    shared: &Shared<'_, G>,
    worker: u16,
    pass: &mut Pass,
    room: &mut Room,
    scratch: &mut Scratch,
    buffer: &mut RouteBuffer,
) -> bool
    requires of { IsPassOf shared.now.loads.now pass.old }
    requires alone { pass.old.view.hands ≡ hand worker idle ∷ [] }
    requires routes { buffer.old.routes ≡ [] }
    requires loads { shared.now.loads.now.terms.net ≡ shared.now.input.now.net.now }
    requires room { IsRoomOf shared.now.input.now.net.now room.old
        × (room.old.lengths.setting ≡ shared.now.loads.now.terms.setting) }
    requires nodes { scratch.old.nodes ≡ shared.now.input.now.net.now.nodes }
    requires no_cut { HasNoCut shared.now.input.now.net.now }
    ensures of { IsPassOf shared.now.loads.now pass.new }
    ensures worked { HasWorked shared.now.loads.now.terms worker pass.old.view pass.new.view
        result buffer.new.routes }
    ensures room { IsRoomOf shared.now.input.now.net.now room.new }
    ensures scratch { (scratch.new.nodes ≡ scratch.old.nodes) × (scratch.new.cells ≡ scratch.old.cells) }
{
    let input = shared.input;
    let loads = shared.loads;
    let most = greatest_group(input.net, input.groups);
    let cells = most * input.net.nodes() as usize;
    'claims: loop {
        if buffer.reserve(most, cells).is_err() {
            return true;
        }
        let ticket = loads.claim(pass);
        shared.gate.drawn(worker, ticket);
        if ticket >= loads.group_count() as u64 {
            return false;
        }
        route_ticket(input, loads, pass, ticket as u16, room, scratch, buffer);
    }
}

/// The work of one worker of a phase. It takes its room, or makes it, and then makes room for the paths of one more group
/// before each claim. `memory` says that memory ran out; then no claimed group is left half routed.
pub fn work<G: Watch>(
    alloc: Global,
    shared: &Shared<'_, G>,
    worker: u16,
    pass: Pass,
    scratch: &mut Scratch,
    room: &mut Option<Room>,
    routes: &mut Routes,
) -> Worked
    requires of { IsPassOf shared.now.loads.now pass }
    requires alone { pass.view.hands ≡ hand worker idle ∷ [] }
    requires routes { routes.old ≡ [] }
    requires loads { AreOf shared.now.input.now shared.now.loads.now }
    requires nodes { scratch.old.nodes ≡ shared.now.input.now.net.now.nodes }
    requires room { IfSome room.old (IsRoomOf shared.now.input.now.net.now) }
    ensures of { IsPassOf shared.now.loads.now result.pass }
    ensures worked { HasWorked shared.now.loads.now.terms worker pass.view result.pass.view
        result.memory routes.new }
    ensures room { IfSome room.new (IsRoomOf shared.now.input.now.net.now) }
    ensures kept { IsFalse result.memory → IsSome room.new }
    ensures scratch { (scratch.new.nodes ≡ scratch.old.nodes) × (scratch.new.cells ≡ scratch.old.cells) }
{
    let mut pass = pass;
    let mut own = match Room::for_phase(alloc, shared.input, room.take()) {
        Ok(own) => own,
        Err(_) => return Worked { pass, memory: true },
    };
    let memory = claim_all(
        shared,
        worker,
        &mut pass,
        &mut own,
        scratch,
        &mut routes.buffer,
    );
    *room = Some(own);
    Worked { pass, memory }
}
