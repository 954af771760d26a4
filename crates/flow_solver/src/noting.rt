//! The rows of a phase that hands have routed are noted.

ghost use Rattle.std.specs.Prelude.{◌≡◌, ◌≤◌, OnOk, length};
ghost use Rattle.flow_solver.specs.Adding.{CanNote, HasBegun, HasNoted};

use crate::PathHistory;
use crate::noted::Sought;
use crate::places::places_of;
use flow_model::Net;
use phase_engine::Hand;
use solver_run::Entry;
use std::alloc::{AllocError, Global};

/// Adds the paths of the next commodities of the phase that these hands have routed to the rows, and their entries behind those of the
/// first ones, until there are `until` entries. `Err`: out of memory, and nothing more can be noted.
pub(crate) fn name_routes_of(
    alloc: Global,
    net: &Net,
    hands: &[Hand],
    history: &mut PathHistory,
    sought: &mut Sought,
    entries: &mut Vec<Entry>,
    until: usize,
) -> Result<(), AllocError>
    requires can { CanNote net.now hands.now history.old entries.old.items }
    requires until { until ≤ length net.now.commodities }
    requires more { length entries.old.items ≤ until }
    ensures begun { OnOk result (HasBegun net.now hands.now history.old history.new entries.new.items) }
    ensures count { OnOk result (length entries.new.items ≡ until) }
{
    if entries.len() == until {
        return Ok(());
    }
    let places = places_of(alloc, net, hands)?;
    sought.make_room(alloc, places.len())?;
    let Sought { last, noted } = sought;
    history.name_rows(net, &places, last, noted, entries, until)?;
    Ok(())
}

/// Notes the rows of the phase that these hands have routed, of which the first commodities have these entries: it is appended to the
/// history. `Err`: out of memory, and then nothing more can be noted.
pub(crate) fn note_routes_of(
    alloc: Global,
    net: &Net,
    hands: &[Hand],
    history: &mut PathHistory,
    sought: &mut Sought,
    entries: &mut Vec<Entry>,
) -> Result<(), AllocError>
    requires { CanNote net.now hands.now history.old entries.old.items }
    ensures { OnOk result (HasNoted net.now hands.now history.old history.new) }
{
    let count = net.commodities().len();
    name_routes_of(alloc, net, hands, history, sought, entries, count)?;
    history.append_phase(net, entries)
}
