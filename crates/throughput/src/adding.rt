//! An amount along a path.

ghost use Rattle.std.specs.Prelude.{◌≡◌, ℕ, ◌+◌, ◌*◌, ◌<◌, ◌≤◌, All, length, slice_index};
ghost use Rattle.flow_model.specs.Walk.{times};
ghost use Rattle.flow_model.specs.Lengths.{IsSetting, greatest_exponent};

use flow_model::{Cell, Setting};
use gates::exponent;
use mcf_limits::{MAX_LENGTH, MAX_UNITS};

/// Adds the amount to the load of each cell of the path, and gives the greatest exponent under the loads then, where
/// `top` is that under the loads before.
pub fn add_along(
    setting: &Setting,
    cells: &[Cell],
    path: &[u16],
    amount: u64,
    loads: &mut [u64],
    top: u128,
) -> u128
    requires setting { IsSetting setting.now }
    requires caps { All (λ cell. cell.cap ≤ MAX_UNITS) cells.now }
    requires loads { length loads.old ≡ length cells.now }
    requires inside { All (λ c. c < length cells.now) path.now }
    requires room { (c : ℕ) → slice_index loads.old c + amount * times c path.now ≤ MAX_LENGTH }
    requires top { top ≡ greatest_exponent setting.now cells.now loads.old }
    ensures loads { (c : ℕ) → slice_index loads.new c ≡ slice_index loads.old c + amount * times c path.now }
    ensures long { length loads.new ≡ length loads.old }
    ensures top { result ≡ greatest_exponent setting.now cells.now loads.new }
{
    let mut top = top;
    for cell in path {
        let c = *cell as usize;
        let load = loads[c] + amount;
        loads[c] = load;
        top = exponent(setting, &cells[c], load).max(top);
    }
    top
}
