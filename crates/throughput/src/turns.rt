//! The turn of one commodity.

ghost use Rattle.std.specs.Prelude.{◌≡◌, ◌+◌, ◌<◌, ◌≤◌, ◌++◌, ◌∷◌, [], max, All, List, OnOk, length, slice_index, slice_set};
ghost use Rattle.flow_model.specs.Routing.{Row};
ghost use Rattle.flow_model.specs.Lengths.{IsSetting, greatest_exponent};
ghost use Rattle.flow_model.specs.Least.{AreDifferent};
ghost use Rattle.throughput.specs.Loaded.{Follow, HasLoaded, HasTurned, IsLoaded, IsPrepared, amount_of};

use crate::adding::add_along;
use crate::loaded::Loaded;
use crate::prepared::Prepared;
use dijkstra_paths::Scratch;
use flow_model::{Cell, Setting};
use gates::{Under, exponent, follow_lengths, length_of};
use mcf_limits::{MAX_LENGTH, MAX_UNITS};
use std::alloc::AllocError;

/// The setting of a phase, and the greatest exponents of cells and of gates under the loads.
#[derive(Clone, Copy)]
pub struct Tops {
    /// The setting of the phase.
    pub setting: Setting,
    /// The greatest exponent of a cell.
    pub cells: u128,
    /// The greatest exponent of a gate.
    pub gates: u128,
}

/// What lengths are taken under.
pub(crate) fn under(on: &Prepared<'_>, tops: &Tops) -> Under
    ensures { result ≡ record {
      setting = tops.now.setting;
      top = max tops.now.cells tops.now.gates;
      least = on.now.least;
    } }
{
    Under {
        setting: tops.setting,
        top: tops.cells.max(tops.gates),
        least: on.least,
    }
}

// Routes the amount of commodity k along the path: loads, rows and lengths follow. `Err`: out of memory.
fn route(
    on: &Prepared<'_>,
    k: u32,
    amount: u64,
    path: &[u16],
    tops: &mut Tops,
    lengths: &mut [u64],
    loaded: &mut Loaded,
) -> Result<(), AllocError>
    requires on { IsPrepared on.now.net.now on.now.gates.now on.now.least }
    requires setting { IsSetting tops.old.setting }
    requires k { k < length on.now.net.now.commodities }
    requires inside { All (λ c. c < length on.now.net.now.cells) path.now }
    requires different { AreDifferent path.now }
    requires loaded { HasLoaded on.now.net.now loaded.old }
    requires room { loaded.old.total + amount ≤ MAX_LENGTH }
    requires few { length loaded.old.tally < 4294967295 }
    requires follow { Follow on.now.net.now on.now.gates.now on.now.least loaded.old tops.old lengths.old }
    ensures setting { tops.new.setting ≡ tops.old.setting }
    ensures rows { OnOk result ((rows : List Row) → IsLoaded on.now.net.now rows loaded.old
        → IsLoaded on.now.net.now (rows ++ record { commodity = k; walk = path.now; weight = amount } ∷ [])
        loaded.new) }
    ensures follow { OnOk result (Follow on.now.net.now on.now.gates.now on.now.least
        loaded.new tops.new lengths.new) }
    ensures total { OnOk result (loaded.new.total ≡ loaded.old.total + amount) }
    ensures few { length loaded.new.tally ≤ length loaded.old.tally + 1 }
{
    let cells = on.net.cells();
    let before = tops.cells.max(tops.gates);
    loaded.tally.add(k, path, amount)?;
    loaded.total += amount;
    tops.cells = add_along(
        &tops.setting,
        cells,
        path,
        amount,
        &mut loaded.cells,
        tops.cells,
    );
    tops.gates = add_at(tops, on.gates, k as usize, amount, &mut loaded.gates);
    let under = under(on, tops);
    follow_lengths(
        on.powers,
        &under,
        before,
        cells,
        &loaded.cells,
        path,
        lengths,
    );
    Ok(())
}

// Adds the amount to the load of gate k, and gives the greatest exponent of a gate then.
fn add_at(tops: &Tops, gates: &[Cell], k: usize, amount: u64, loads: &mut [u64]) -> u128
    requires setting { IsSetting tops.now.setting }
    requires k { k < length gates.now }
    requires caps { All (λ cell. cell.cap ≤ MAX_UNITS) gates.now }
    requires loads { length loads.old ≡ length gates.now }
    requires room { slice_index loads.old k + amount ≤ MAX_LENGTH }
    requires top { tops.now.gates ≡ greatest_exponent tops.now.setting gates.now loads.old }
    ensures loads { loads.new ≡ slice_set loads.old k (slice_index loads.old k + amount) }
    ensures top { result ≡ greatest_exponent tops.now.setting gates.now loads.new }
{
    let load = loads[k] + amount;
    loads[k] = load;
    exponent(&tops.setting, &gates[k], load).max(tops.gates)
}

/// The turn of commodity k: where its price is at most this one, its amount is routed along a least walk. `Err`: out
/// of memory.
pub fn turn(
    on: &Prepared<'_>,
    most: u64,
    k: u32,
    tops: &mut Tops,
    scratch: &mut Scratch,
    lengths: &mut [u64],
    loaded: &mut Loaded,
) -> Result<(), AllocError>
    requires on { IsPrepared on.now.net.now on.now.gates.now on.now.least }
    requires setting { IsSetting tops.old.setting }
    requires k { k < length on.now.net.now.commodities }
    requires nodes { scratch.old.nodes ≡ on.now.net.now.nodes }
    requires loaded { HasLoaded on.now.net.now loaded.old }
    requires room { loaded.old.total + amount_of on.now.net.now k ≤ MAX_LENGTH }
    requires few { length loaded.old.tally < 4294967295 }
    requires follow { Follow on.now.net.now on.now.gates.now on.now.least loaded.old tops.old lengths.old }
    ensures setting { tops.new.setting ≡ tops.old.setting }
    ensures nodes { scratch.new.nodes ≡ scratch.old.nodes }
    ensures turned { OnOk result (HasTurned on.now.net.now on.now.gates.now tops.old.setting most k
        loaded.old loaded.new) }
    ensures follow { OnOk result (Follow on.now.net.now on.now.gates.now on.now.least
        loaded.new tops.new lengths.new) }
    ensures total { OnOk result (loaded.new.total ≤ loaded.old.total + amount_of on.now.net.now k) }
    ensures few { length loaded.new.tally ≤ length loaded.old.tally + 1 }
{
    let commodities = on.net.commodities();
    let commodity = commodities[k as usize];
    scratch.search(on.graph, lengths, commodity.from);
    let distance = match scratch.dist(commodity.to) {
        Some(distance) => distance,
        None => return Ok(()),
    };
    let load = loaded.gates.as_slice()[k as usize];
    let gate = length_of(on.powers, &under(on, tops), &on.gates[k as usize], load);
    if distance + gate > most {
        return Ok(());
    }
    match scratch.path_to(commodity.to) {
        Some(path) => route(on, k, commodity.amount, path, tops, lengths, loaded),
        None => unreachable!(),
    }
}
