//! Turns: each commodity in its turn goes along a least of its allowed walks, whole.

ghost use Rattle.std.specs.Prelude.{◌≡◌, ℕ, ◌+◌, ◌*◌, ◌<◌, ◌≤◌, ◌++◌, [], ◌∷◌, true, false, IsTrue, IfOk, OnOk, All, List, Option, MatchOption, length, map, slice_get, slice_index, Some};
ghost use Rattle.std.specs.Option.{option_map};
ghost use Rattle.mcf_limits.specs.declared.TheConstants.{MAX_LENGTH as MOST};
ghost use Rattle.flow_model.specs.Walk.{times};
ghost use Rattle.flow_model.specs.Routing.{Row};
ghost use Rattle.flow_model.specs.Lengths.{IsSetting};
ghost use Rattle.hop_paths.specs.Allowed.{IsAllowed, limit_at};
ghost use Rattle.hop_solve.specs.Run.{HasHopCut};
ghost use Rattle.hop_solve.specs.Turns.{amount_at, amount_of, IsOnce, IsRouted, lengths_then, HasRoom, IsFound, Finds, HasTurned, HasPhase, IsFinder};

use crate::finder::Finder;
use crate::given::Given;
use dijkstra_paths::Scratch;
use fixed_exp::LengthTable;
use flow_model::{Net, Setting};
use hop_paths::HopScratch;
use route_tally::Tally;
use std::alloc::{AllocError, Global};

/// What the turns so far have made: the load of each cell in units, the lengths under them, and the rows of paths.
#[derive(Drop)]
pub struct Routed {
    /// The load of each cell, in units.
    pub loads: Vec<u64>,
    /// The length of each cell.
    pub table: LengthTable,
    /// The rows of paths with their weights.
    pub tally: Tally,
}

/// Before any turn, with lengths under this setting.
pub fn new_routed(alloc: Global, on: &Given<'_>, setting: &Setting) -> Result<Routed, AllocError>
    requires { IsSetting setting.now }
    ensures nothing { IfOk result (IsRouted on.now.net.now []) }
    ensures setting { IfOk result (λ r. r.table.setting ≡ setting.now) }
{
    Ok(Routed {
        loads: vec![in alloc; 0; on.net.cells().len()]?,
        table: LengthTable::new(alloc, on.powers, on.net, setting)?,
        tally: Tally::new(alloc),
    })
}

// Adds the amount to the load of each cell of the path.
fn add_along(loads: &mut [u64], path: &[u16], amount: u64)
    requires cells { All (λ c. c < length loads.old) path.now }
    requires room { (c : ℕ) → c < length loads.old
        → slice_index loads.old c + amount * times c path.now ≤ MOST }
    ensures len { length loads.new ≡ length loads.old }
    ensures value { (c : ℕ) → c < length loads.old
        → slice_index loads.new c ≡ slice_index loads.old c + amount * times c path.now }
{
    for cell in path {
        loads[*cell as usize] += amount;
    }
}

// The amount goes for the commodity along the path, and the lengths follow. `Err`: out of memory.
fn route(
    on: &Given<'_>,
    routed: &mut Routed,
    k: u32,
    path: &[u16],
    amount: u64,
) -> Result<(), AllocError>
    requires cells { All (λ c. c < length on.now.net.now.cells) path.now }
    requires once { IsOnce path.now }
    requires room { HasRoom on.now.net.now 1 amount routed.old }
    ensures routed { OnOk result ((before : List Row) → IsRouted on.now.net.now before routed.old
        → IsRouted on.now.net.now
        (before ++ record { commodity = k; walk = path.now; weight = amount } ∷ []) routed.new) }
    ensures net { routed.new.table.net ≡ routed.old.table.net }
    ensures setting { routed.new.table.setting ≡ routed.old.table.setting }
{
    routed.tally.add(k, path, amount)?;
    add_along(&mut routed.loads, path, amount);
    routed
        .table
        .update_at(on.powers, on.net, &routed.loads, path);
    Ok(())
}

// The turn of a commodity, of which a path was found, or none: whether there is one.
fn turn_along(
    on: &Given<'_>,
    routed: &mut Routed,
    k: u32,
    found: Option<&[u16]>,
    amount: u64,
) -> Result<bool, AllocError>
    requires found { Finds on.now.net.now on.now.limits.now (lengths_then routed.old) k
        (option_map (λ path. path.now) found) }
    requires amount { amount ≡ amount_at on.now.net.now.commodities k }
    requires room { HasRoom on.now.net.now 1 amount routed.old }
    ensures turned { IfOk result (λ yes. IsTrue yes → (before : List Row)
        → IsRouted on.now.net.now before routed.old
        → HasTurned on.now.net.now on.now.limits.now before k routed.old routed.new) }
    ensures net { routed.new.table.net ≡ routed.old.table.net }
    ensures setting { routed.new.table.setting ≡ routed.old.table.setting }
    ensures cut { IfOk result (λ yes. yes ≡ false → (walk : List ℕ)
        → IsAllowed on.now.net.now on.now.limits.now k walk → ⊥) }
{
    let path = match found {
        Some(path) => path,
        None => return Ok(false),
    };
    route(on, routed, k, path, amount)?;
    Ok(true)
}

// The turn of a commodity without a limit: whether it has an allowed walk.
fn free_turn(
    on: &Given<'_>,
    routed: &mut Routed,
    plain: &mut Scratch,
    k: u32,
) -> Result<bool, AllocError>
    requires k { k < length on.now.net.now.commodities }
    requires free { limit_at on.now.limits.now k ≡ None }
    requires plain { plain.old.nodes ≡ on.now.net.now.nodes }
    requires room { HasRoom on.now.net.now 1 (amount_at on.now.net.now.commodities k) routed.old }
    ensures plain { plain.new.nodes ≡ plain.old.nodes }
    ensures turned { IfOk result (λ yes. IsTrue yes → (before : List Row)
        → IsRouted on.now.net.now before routed.old
        → HasTurned on.now.net.now on.now.limits.now before k routed.old routed.new) }
    ensures net { routed.new.table.net ≡ routed.old.table.net }
    ensures setting { routed.new.table.setting ≡ routed.old.table.setting }
    ensures cut { IfOk result (λ yes. yes ≡ false → (walk : List ℕ)
        → IsAllowed on.now.net.now on.now.limits.now k walk → ⊥) }
{
    let commodity = on.net.commodities()[k as usize];
    plain.search(on.graph, routed.table.lengths(), commodity.from);
    let found = plain.path_to(commodity.to);
    turn_along(on, routed, k, found, commodity.amount)
}

// Whether the path has at most `limit` cells, where there is one.
fn is_short(found: Option<&[u16]>, limit: u8) -> bool
    ensures { IsTrue result → MatchOption (option_map (λ path. path.now) found.entry) (Unit {0})
        (λ walk. length walk ≤ limit) }
{
    match found {
        Some(path) => path.len() <= usize::from(limit),
        None => true,
    }
}

// The turn of a commodity of this limit, by layers: whether it has an allowed walk.
fn layered_turn(
    on: &Given<'_>,
    routed: &mut Routed,
    layered: &mut HopScratch,
    k: u32,
    limit: u8,
) -> Result<bool, AllocError>
    requires k { k < length on.now.net.now.commodities }
    requires limited { limit_at on.now.limits.now k ≡ Some limit }
    requires nodes { layered.old.nodes ≡ on.now.net.now.nodes }
    requires layers { limit ≤ layered.old.layers }
    requires room { HasRoom on.now.net.now 1 (amount_at on.now.net.now.commodities k) routed.old }
    ensures nodes { layered.new.nodes ≡ layered.old.nodes }
    ensures layers { layered.new.layers ≡ layered.old.layers }
    ensures turned { IfOk result (λ yes. IsTrue yes → (before : List Row)
        → IsRouted on.now.net.now before routed.old
        → HasTurned on.now.net.now on.now.limits.now before k routed.old routed.new) }
    ensures net { routed.new.table.net ≡ routed.old.table.net }
    ensures setting { routed.new.table.setting ≡ routed.old.table.setting }
    ensures cut { IfOk result (λ yes. yes ≡ false → (walk : List ℕ)
        → IsAllowed on.now.net.now on.now.limits.now k walk → ⊥) }
{
    let commodity = on.net.commodities()[k as usize];
    layered.search(on.graph, routed.table.lengths(), commodity.from, limit);
    let found = layered.path_to(limit, commodity.to);
    turn_along(on, routed, k, found, commodity.amount)
}

// The turn of a commodity of this limit: whether it has an allowed walk. A least of all walks that has no more cells than
// the limit is a least of those within it, so layers are searched only where the limit binds.
fn limited_turn(
    on: &Given<'_>,
    routed: &mut Routed,
    plain: &mut Scratch,
    layered: &mut HopScratch,
    k: u32,
    limit: u8,
) -> Result<bool, AllocError>
    requires k { k < length on.now.net.now.commodities }
    requires limited { limit_at on.now.limits.now k ≡ Some limit }
    requires plain { plain.old.nodes ≡ on.now.net.now.nodes }
    requires nodes { layered.old.nodes ≡ on.now.net.now.nodes }
    requires layers { limit ≤ layered.old.layers }
    requires room { HasRoom on.now.net.now 1 (amount_at on.now.net.now.commodities k) routed.old }
    ensures plain { plain.new.nodes ≡ plain.old.nodes }
    ensures nodes { layered.new.nodes ≡ layered.old.nodes }
    ensures layers { layered.new.layers ≡ layered.old.layers }
    ensures turned { IfOk result (λ yes. IsTrue yes → (before : List Row)
        → IsRouted on.now.net.now before routed.old
        → HasTurned on.now.net.now on.now.limits.now before k routed.old routed.new) }
    ensures net { routed.new.table.net ≡ routed.old.table.net }
    ensures setting { routed.new.table.setting ≡ routed.old.table.setting }
    ensures cut { IfOk result (λ yes. yes ≡ false → (walk : List ℕ)
        → IsAllowed on.now.net.now on.now.limits.now k walk → ⊥) }
{
    let commodity = on.net.commodities()[k as usize];
    plain.search(on.graph, routed.table.lengths(), commodity.from);
    let found = plain.path_to(commodity.to);
    if is_short(found, limit) {
        return turn_along(on, routed, k, found, commodity.amount);
    }
    layered_turn(on, routed, layered, k, limit)
}

// The turn of a commodity: whether it has an allowed walk.
fn turn(
    on: &Given<'_>,
    routed: &mut Routed,
    finder: &mut Finder,
    k: u32,
) -> Result<bool, AllocError>
    requires k { k < length on.now.net.now.commodities }
    requires finder { IsFinder on.now.net.now on.now.counts.now finder.old }
    requires room { HasRoom on.now.net.now 1 (amount_at on.now.net.now.commodities k) routed.old }
    ensures finder { IsFinder on.now.net.now on.now.counts.now finder.new }
    ensures turned { IfOk result (λ yes. IsTrue yes → (before : List Row)
        → IsRouted on.now.net.now before routed.old
        → HasTurned on.now.net.now on.now.limits.now before k routed.old routed.new) }
    ensures net { routed.new.table.net ≡ routed.old.table.net }
    ensures setting { routed.new.table.setting ≡ routed.old.table.setting }
    ensures cut { IfOk result (λ yes. yes ≡ false → (walk : List ℕ)
        → IsAllowed on.now.net.now on.now.limits.now k walk → ⊥) }
{
    let _nodes = on.net.nodes();
    match on.limits[k as usize] {
        Some(limit) => limited_turn(on, routed, &mut finder.plain, &mut finder.layered, k, limit),
        None => free_turn(on, routed, &mut finder.plain, k),
    }
}

/// A turn for each commodity, in their order: whether each has an allowed walk. It ends at the first that has none.
pub fn phase(on: &Given<'_>, routed: &mut Routed, finder: &mut Finder) -> Result<bool, AllocError>
    requires finder { IsFinder on.now.net.now on.now.counts.now finder.old }
    requires room { HasRoom on.now.net.now (length on.now.net.now.commodities)
        (amount_of on.now.net.now.commodities) routed.old }
    ensures finder { IsFinder on.now.net.now on.now.counts.now finder.new }
    ensures phase { IfOk result (λ yes. IsTrue yes → (before : List Row)
        → IsRouted on.now.net.now before routed.old
        → HasPhase on.now.net.now on.now.limits.now before routed.old routed.new) }
    ensures net { routed.new.table.net ≡ routed.old.table.net }
    ensures setting { routed.new.table.setting ≡ routed.old.table.setting }
    ensures cut { IfOk result (λ yes. yes ≡ false → HasHopCut on.now.net.now on.now.limits.now) }
{
    for k in 0..on.net.commodities().len() as u32 {
        if !turn(on, routed, finder, k)? {
            return Ok(false);
        }
    }
    Ok(true)
}
