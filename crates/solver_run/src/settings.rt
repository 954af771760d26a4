//! The setting of each phase of a run.

ghost use Rattle.std.specs.Prelude.{◌≡◌, true, false};

use flow_model::Setting;
use flow_paths::Fill;

/// The setting of the first phase, in which loads have no effect.
pub fn setting_at_first(step: u32) -> Setting
    ensures { result ≡ record { first = true; ref_cap = 0; ref_load = 1; step = step } }
{
    Setting {
        first: true,
        ref_cap: 0,
        ref_load: 1,
        step,
    }
}

/// The setting of every other phase, with what is fullest after the first as the reference.
pub fn setting_after_first(reference: Fill, step: u32) -> Setting
    ensures { result ≡ record { first = false; ref_cap = reference.cap; ref_load = reference.load; step = step } }
{
    Setting {
        first: false,
        ref_cap: reference.cap,
        ref_load: reference.load,
        step,
    }
}
