//! The lengths that bounds are made of, which follow the loads from one bound to the next.

ghost use Rattle.std.specs.Prelude.{◌≡◌, ◌≤◌, All, IfSome, OnOk, length};
ghost use Rattle.flow_model.specs.Lengths.{AreLengths, IsSetting, lengths_of};
ghost use Rattle.fixed_exp.specs.Far.{EmptyAreFar};
ghost use Rattle.flow_solver.specs.Search.{IsLengthTableOf};

use crate::prepared::Prepared;
use fixed_exp::LengthTable;
use flow_model::Setting;
use mcf_limits::MAX_LENGTH;
use std::alloc::{AllocError, Global};

/// Puts the length of each cell under these loads in its place. Under the setting of an earlier bound they follow its lengths, which is
/// quicker than to make all of them anew: that takes two divisions for each cell. `Err`: out of memory.
pub(crate) fn put_lengths(
    alloc: Global,
    on: &Prepared<'_>,
    setting: &Setting,
    loads: &[u64],
    kept: &mut Option<LengthTable>,
    into: &mut [u64],
) -> Result<(), AllocError>
    requires setting { IsSetting setting.now }
    requires loads { length loads.now ≡ length on.now.net.now.cells }
    requires small { All (λ x. x ≤ MAX_LENGTH) loads.now }
    requires kept { IfSome kept.old (IsLengthTableOf on.now.net.now) }
    requires into { length into.old ≡ length on.now.net.now.cells }
    ensures kept { IfSome kept.new (IsLengthTableOf on.now.net.now) }
    ensures value { OnOk result (into.new ≡ lengths_of on.now.net.now setting.now loads.now) }
    ensures fits { OnOk result (AreLengths on.now.net.now.cells into.new) }
    ensures empty { OnOk result (EmptyAreFar on.now.net.now.cells into.new) }
{
    let _cells = on.net.cells();
    let mut table = LengthTable::under(alloc, on.powers, on.net, setting, kept.take())?;
    table.update(on.powers, on.net, loads);
    into.copy_from_slice(table.lengths());
    *kept = Some(table);
    Ok(())
}
