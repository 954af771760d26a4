//! What a worker makes lengths in, from phase to phase.

ghost use Rattle.std.specs.Prelude.{◌≡◌, IfOk, IfSome};
ghost use Rattle.flow_model.specs.Lengths.{IsSetting};
ghost use Rattle.phase_engine.specs.Rooms.{IsRoomOf};

use crate::input::PhaseInput;
use fixed_exp::LengthTable;
use std::alloc::{AllocError, Global};

/// The load of each cell as it was read last, and the lengths that follow such loads under one setting.
#[derive(Drop)]
pub struct Room {
    /// The load of each cell, in units.
    pub loads: Vec<u64>,
    /// The length of each cell.
    pub lengths: LengthTable,
}

impl Room {
    /// Room for a phase: that of an earlier one, with new lengths where its own are under another setting, or else new room. `Err`: out
    /// of memory.
    pub(crate) fn for_phase(
        alloc: Global,
        input: &PhaseInput<'_>,
        kept: Option<Room>,
    ) -> Result<Self, AllocError>
        requires setting { IsSetting input.now.setting }
        requires kept { IfSome kept (IsRoomOf input.now.net.now) }
        ensures of { IfOk result (IsRoomOf input.now.net.now) }
        ensures setting { IfOk result (λ room. room.lengths.setting ≡ input.now.setting) }
    {
        let (loads, lengths) = match kept {
            Some(Room { loads, lengths }) => (loads, Some(lengths)),
            None => (vec![in alloc; 0; input.net.cells().len()]?, None),
        };
        Ok(Room {
            loads,
            lengths: LengthTable::under(alloc, input.powers, input.net, &input.setting, lengths)?,
        })
    }
}
