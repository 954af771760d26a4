//! The places at which loads differ from those of before, looked for or given.

ghost use Rattle.std.specs.Prelude.{◌≡◌, ℕ, ◌<◌, ◌≤◌, length, slice_index};
ghost use Rattle.fixed_exp.specs.Changes.{AreBelow, AreSameBut};

use mcf_limits::MAX_CELLS;

/// Puts the places at which the loads are others than before to the front of `places`, and says how many they are. There
/// is no branch in the loop: which loads changed follows no pattern that a processor could learn.
pub fn changed_places(old: &[u64], loads: &[u64], places: &mut [u16]) -> usize
    requires old { length old.now ≡ length loads.now }
    requires room { length places.old ≡ length loads.now }
    requires few { length loads.now ≤ MAX_CELLS }
    ensures within { result ≤ length loads.now }
    ensures below { AreBelow (length loads.now) result places.new }
    ensures same { AreSameBut result places.new (length loads.now) old.now loads.now }
{
    let mut count = 0;
    for i in 0..loads.len() {
        places[count] = i as u16;
        count += usize::from(loads[i] != old[i]);
    }
    count
}

/// Takes the loads at these places, where all others are as they were.
pub fn copy_at(loads: &[u64], places: &[u16], into: &mut [u64])
    requires into { length into.old ≡ length loads.now }
    requires below { AreBelow (length loads.now) (length places.now) places.now }
    requires same { AreSameBut (length places.now) places.now (length loads.now) into.old loads.now }
    ensures { into.new ≡ loads.now }
{
    for j in 0..places.len() {
        let i = places[j] as usize;
        into[i] = loads[i];
    }
}
