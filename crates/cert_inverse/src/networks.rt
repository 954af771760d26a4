//! What holds of the names of every network.

ghost use Rattle.std.specs.Prelude.{◌≤◌, ◌≢◌};
ghost use Rattle.unit_scale.specs.declared.modes.LinkMode.TheVariants.{Bidirected};
ghost use Rattle.sndlib_grammar.specs.Rows.{NetRows};
ghost use Rattle.unit_scale.specs.Scaling.{ScaledNet};
ghost use Rattle.cert_lines.specs.Sheet.{IsOf, old_sheet_of, sheet_of, sheets_of};
ghost use Rattle.cert_lines.specs.declared.net_line.TheConstants.{MAX_COUNT};
ghost use Rattle.cert_inverse.specs.Inverse.{AreCitable, IsCitable};

use sndlib_rows::RawNet;
use unit_scale::Scaled;

/// What texts cite of a network that is scaled can be told apart in them, where the skipped
/// sections can be counted: in form 2 always, and in form 1 where links are not bidirected.
pub fn networks_are_citable()
    ensures new { (rows : NetRows) (net : ScaledNet) → IsOf rows net → rows.skipped ≤ MAX_COUNT
        → IsCitable (sheet_of rows net) }
    ensures old { (rows : NetRows) (net : ScaledNet) → IsOf rows net → rows.skipped ≤ MAX_COUNT
        → net.options.links ≢ Bidirected → IsCitable (old_sheet_of rows net) }
    ensures both { (rows : NetRows) (net : ScaledNet) → IsOf rows net → rows.skipped ≤ MAX_COUNT
        → AreCitable (sheets_of rows net) }
{}

/// The same of a network text that was read, of which the skipped sections are counted.
pub fn read_network_is_citable(rows: &RawNet<'_>, net: &Scaled)
    requires { IsOf rows.now net.now }
    ensures { AreCitable (sheets_of rows.now net.now) }
{
    networks_are_citable();
    let _skipped = rows.skipped();
}
