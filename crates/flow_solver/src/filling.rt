//! The rows of a bound are filled by a crew, beside the caller's thread.

ghost use Rattle.std.specs.Prelude.{◌≡◌, All, IfOk, IfSome, OnOk};
ghost use Rattle.std.specs.Arc.{arc_value};
ghost use Rattle.flow_model.specs.Lengths.{AreLengths};
ghost use Rattle.fixed_exp.specs.Far.{EmptyAreFar};
ghost use Rattle.dual_bound.specs.Bounds.{IsLesser};
ghost use Rattle.dual_bound.specs.Rows.{HasDistances, IsRoom, demands_in, demands_of};
ghost use Rattle.flow_solver.specs.Search.{CanBeBounded, IsBoundRoom, IsLengthTableOf, IsLesserUnder};

use crate::following::put_lengths;
use crate::pace::Split;
use crate::parts::{append_parts, parts_of};
use crate::prepared::Task;
use crate::search::BoundRoom;
use crate::share::Share;
use claimed_calls::Crew;
use dual_bound::{Bounded, Row, lesser_of_rows};
use flow_model::Net;
use mcf_base::Gate;
use std::alloc::{AllocError, Global};
use std::mem;
use std::sync::Arc;

// What `lead` answers, which the caller's thread calls before it fills its own rows, and whether all rows were filled anew with
// distances, each search from the tree of the one before: parts of them in threads of the crew, and the others here. `Err`: out of
// memory, or the crew gave up, and rows are lost.
fn fill_with<'a, G: Gate, T, F: FnMut() -> T>(
    task: &Task<'a, G>,
    lengths: &Arc<Vec<u64>, Global>,
    rows: &mut Vec<Row>,
    crew: &mut Crew<'_, Share<'a, G>>,
    split: Split,
    lead: &mut F,
) -> (T, Result<(), AllocError>)
    requires lengths { AreLengths task.now.on.now.graph.now.cells (arc_value lengths.now).items }
    requires rows { All (IsRoom task.now.on.now.graph.now.nodes) rows.old.items }
    requires lead { F.pre lead.old }
    ensures lead { F.step lead.old result.0 lead.new }
    ensures demands { OnOk result.1 (demands_of rows.new.items ≡ demands_of rows.old.items) }
    ensures distances { OnOk result.1
        (All (HasDistances task.now.on.now.graph.now (arc_value lengths.now).items) rows.new.items) }
{
    let cut = parts_of(task.alloc, task.on.graph, lengths, rows, split);
    let mut parts = match cut {
        Ok(parts) => parts,
        Err(error) => return (lead(), Err(error)),
    };
    let (whole, made) = crew.work_beside(&mut parts, lead);
    if !whole {
        return (made, Err(AllocError));
    }
    (made, append_parts(rows, parts))
}

// The smaller of `earlier` and the bound of rows that were filled under these lengths, whose memory goes back to the room. `Err`: out
// of memory, or a part still shares the lengths, which happens in no run.
fn bound_after(
    alloc: Global,
    net: &Net,
    lengths: Arc<Vec<u64>, Global>,
    room: &mut BoundRoom,
    earlier: Option<Bounded>,
) -> Result<Bounded, AllocError>
    requires lengths { AreLengths net.now.cells (arc_value lengths).items }
    requires empty { EmptyAreFar net.now.cells (arc_value lengths).items }
    requires kept { IfSome room.old.kept (IsLengthTableOf net.now) }
    requires demands { demands_of room.old.rows.items ≡ demands_in net.now }
    requires distances { All (HasDistances net.now (arc_value lengths).items) room.old.rows.items }
    ensures room { OnOk result (IsBoundRoom net.now room.new) }
    ensures lesser { IfOk result (IsLesser net.now (arc_value lengths).items earlier) }
{
    let bounded = lesser_of_rows(alloc, net, &lengths, &mut room.rows, earlier)?;
    match Arc::try_unwrap(lengths) {
        Ok(lengths) => room.lengths = lengths,
        Err(_) => return Err(AllocError),
    }
    Ok(bounded)
}

/// What `lead` answers, and the bound as of `bound_of`, with the rows shared out among the crew and the caller's thread, which calls
/// `lead` before it fills its own. `Err`: out of memory, or the crew gave up, or a part still shares the lengths, which happens in no
/// run.
pub(crate) fn bound_with<'a, G: Gate, T, F: FnMut() -> T>(
    task: &Task<'a, G>,
    loads: &[u64],
    room: &mut BoundRoom,
    crew: &mut Crew<'_, Share<'a, G>>,
    split: Split,
    earlier: Option<Bounded>,
    lead: &mut F,
) -> (T, Result<Bounded, AllocError>)
    requires can { CanBeBounded task.now.on.now.net.now task.now.setting loads.now room.old }
    requires lead { F.pre lead.old }
    ensures lead { F.step lead.old result.0 lead.new }
    ensures room { OnOk result.1 (IsBoundRoom task.now.on.now.net.now room.new) }
    ensures bound { IfOk result.1 (IsLesserUnder task.now.on.now.net.now task.now.setting loads.now earlier) }
{
    let alloc = task.alloc;
    let on = task.on;
    let put = put_lengths(
        alloc,
        on,
        &task.setting,
        loads,
        &mut room.kept,
        &mut room.lengths,
    );
    if let Err(error) = put {
        return (lead(), Err(error));
    }
    let lengths = mem::replace(&mut room.lengths, Vec::new(alloc));
    let lengths = match Arc::new(alloc, lengths) {
        Ok(lengths) => lengths,
        Err(error) => return (lead(), Err(error.into())),
    };
    let (made, filled) = fill_with(task, &lengths, &mut room.rows, crew, split, lead);
    match filled {
        Ok(()) => (made, bound_after(alloc, on.net, lengths, room, earlier)),
        Err(error) => (made, Err(error)),
    }
}
