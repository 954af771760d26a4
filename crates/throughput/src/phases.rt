//! A phase: each commodity has its turn.

ghost use Rattle.std.specs.Prelude.{◌≡◌, ◌+◌, ◌*◌, ◌<◌, ◌≤◌, OnOk, length};
ghost use Rattle.std.specs.List.{sum_by};
ghost use Rattle.flow_model.specs.Lengths.{IsSetting};
ghost use Rattle.gates.specs.Gates.{IsLeastPrice};
ghost use Rattle.throughput.specs.Loaded.{Follow, HasLoaded, IsPrepared, lengths_under};
ghost use Rattle.throughput.specs.Reached.{HasPhase};

use crate::loaded::Loaded;
use crate::prepared::Prepared;
use crate::turns::{Tops, turn, under};
use dijkstra_paths::Scratch;
use flow_model::Setting;
use gates::{greatest_of, put_lengths};
use mcf_limits::MAX_LENGTH;
use std::alloc::AllocError;

// The greatest exponents under the loads, with the length of each cell in its place.
fn begun(on: &Prepared<'_>, setting: Setting, lengths: &mut [u64], loaded: &Loaded) -> Tops
    requires on { IsPrepared on.now.net.now on.now.gates.now on.now.least }
    requires setting { IsSetting setting }
    requires loaded { HasLoaded on.now.net.now loaded.now }
    requires small { loaded.now.total ≤ MAX_LENGTH }
    requires lengths { length lengths.old ≡ length on.now.net.now.cells }
    ensures setting { result.setting ≡ setting }
    ensures follow { Follow on.now.net.now on.now.gates.now on.now.least loaded.now result lengths.new }
{
    let cells = on.net.cells();
    let tops = Tops {
        setting,
        cells: greatest_of(&setting, cells, &loaded.cells),
        gates: greatest_of(&setting, on.gates, &loaded.gates),
    };
    put_lengths(on.powers, &under(on, &tops), cells, &loaded.cells, lengths);
    tops
}

/// One phase under the setting: each commodity has its turn, where the least price is this one at the start. `Err`: out
/// of memory, and then the run can't go on.
pub fn phase(
    on: &Prepared<'_>,
    setting: Setting,
    least: u64,
    scratch: &mut Scratch,
    lengths: &mut [u64],
    loaded: &mut Loaded,
) -> Result<(), AllocError>
    requires on { IsPrepared on.now.net.now on.now.gates.now on.now.least }
    requires setting { IsSetting setting }
    requires least { IsLeastPrice on.now.net.now
        (lengths_under on.now.net.now on.now.gates.now setting loaded.old) least }
    requires low { least ≤ MAX_LENGTH }
    requires nodes { scratch.old.nodes ≡ on.now.net.now.nodes }
    requires lengths { length lengths.old ≡ length on.now.net.now.cells }
    requires loaded { HasLoaded on.now.net.now loaded.old }
    requires room { loaded.old.total + sum_by (λ k. k.amount) on.now.net.now.commodities ≤ MAX_LENGTH }
    requires few { length loaded.old.tally + length on.now.net.now.commodities < 4294967296 }
    ensures nodes { scratch.new.nodes ≡ scratch.old.nodes }
    ensures lengths { length lengths.new ≡ length lengths.old }
    ensures phase { OnOk result (HasPhase on.now.net.now on.now.gates.now setting loaded.old loaded.new) }
    ensures total { OnOk result (loaded.new.total
        ≤ loaded.old.total + sum_by (λ k. k.amount) on.now.net.now.commodities) }
    ensures few { OnOk result (length loaded.new.tally
        ≤ length loaded.old.tally + length on.now.net.now.commodities) }
{
    let most = 2 * least;
    let count = on.net.commodities().len() as u32;
    let mut tops = begun(on, setting, lengths, loaded);
    for k in 0..count {
        turn(on, most, k, &mut tops, scratch, lengths, loaded)?;
    }
    Ok(())
}
