//! Exponents and lengths that follow the loads: what did not change is not computed again.

ghost use Rattle.std.specs.Prelude.{◌≡◌, ℕ, ◌-◌, ◌^◌, ◌<◌, ◌≤◌, false, min, length, slice_index, All, IfSome};
ghost use Rattle.flow_model.specs.Lengths.{exponent, length_at, greatest_exponent, lengths_at};
ghost use Rattle.fixed_exp.specs.Changes.{AreBelow, IsNotIn};
ghost use Rattle.fixed_exp.specs.Kept.{AreRated, KeepsExponent, cell_at, greatest, length_from};

use crate::lengths::exponents_of;
use crate::powers::Powers;
use crate::rates::Rated;
use mcf_limits::MAX_LENGTH;

/// The places at which loads changed: those at the front of a buffer.
#[derive(Clone, Copy)]
pub struct Changed<'a> {
    /// The buffer.
    pub places: &'a [u16],
    /// How many of its places count, from the front.
    pub count: usize,
}

// Whether a number fell, or one did before.
#[inline(always)]
fn falls_too(falls: bool, old: u64, new: u64) -> bool
    ensures { result ≡ false → (falls ≡ false) × (old ≤ new) }
{
    falls | (new < old)
}

// Puts the exponent of each cell whose load changed into `kept`, at most `u64::MAX`, and gives the greatest of
// all, if that was `before` and no exponent fell. It is a function of its own, so that the variables of its loop stay in registers.
#[inline(never)]
fn put_exponents(
    rated: &Rated<'_>,
    loads: &[u64],
    changed: &Changed<'_>,
    kept: &mut [u64],
    before: u64,
) -> Option<u64>
    requires rated { AreRated rated.now.scale.now.setting rated.now.cells.now rated.now.least rated.now.rates.now }
    requires loads { length loads.now ≡ length rated.now.cells.now }
    requires small { All (λ x. x ≤ MAX_LENGTH) loads.now }
    requires exponents { length kept.old ≡ length rated.now.cells.now }
    requires within { changed.now.count ≤ length changed.now.places.now }
    requires places { AreBelow (length rated.now.cells.now) changed.now.count changed.now.places.now }
    requires kept { (k : ℕ) → k < length rated.now.cells.now
        → IsNotIn changed.now.count changed.now.places.now 0 k
        → KeepsExponent rated.now.scale.now.setting rated.now.cells.now loads.now kept.old k }
    requires before { greatest kept.old ≡ before }
    ensures kept { (k : ℕ) → k < length rated.now.cells.now
        → KeepsExponent rated.now.scale.now.setting rated.now.cells.now loads.now kept.new k }
    ensures greatest { IfSome result (λ top. greatest kept.new ≡ top) }
{
    let mut top = before;
    let mut falls = false;
    for j in 0..changed.count {
        let i = changed.places[j] as usize;
        let exponent = rated
            .scale
            .exponent_by_rate(&rated.cells[i], loads[i], &rated.rates[i])
            .min(u128::from(u64::MAX)) as u64;
        falls = falls_too(falls, kept[i], exponent);
        top = exponent.max(top);
        kept[i] = exponent;
    }
    if falls { None } else { Some(top) }
}

// The greatest number, or 0 where there is none.
fn greatest_of(numbers: &[u64]) -> u64
    ensures { result ≡ greatest numbers.now }
{
    let mut top = 0;
    for i in 0..numbers.len() {
        top = numbers[i].max(top);
    }
    top
}

// The greatest of the numbers, looked for only where it is not known.
fn top_of(numbers: &[u64], known: Option<u64>) -> u64
    requires { IfSome known (λ top. greatest numbers.now ≡ top) }
    ensures { result ≡ greatest numbers.now }
{
    match known {
        Some(top) => top,
        None => greatest_of(numbers),
    }
}

// Puts the exponent of each cell whose load changed into `kept`, at most `u64::MAX`, and gives the greatest exponent of all cells, which
// was `before`. The other cells are read only where an exponent fell.
fn follow_exponents(
    rated: &Rated<'_>,
    before: u128,
    loads: &[u64],
    changed: &Changed<'_>,
    kept: &mut [u64],
) -> u128
    requires rated { AreRated rated.now.scale.now.setting rated.now.cells.now rated.now.least rated.now.rates.now }
    requires loads { length loads.now ≡ length rated.now.cells.now }
    requires small { All (λ x. x ≤ MAX_LENGTH) loads.now }
    requires exponents { length kept.old ≡ length rated.now.cells.now }
    requires within { changed.now.count ≤ length changed.now.places.now }
    requires places { AreBelow (length rated.now.cells.now) changed.now.count changed.now.places.now }
    requires kept { (k : ℕ) → k < length rated.now.cells.now
        → IsNotIn changed.now.count changed.now.places.now 0 k
        → KeepsExponent rated.now.scale.now.setting rated.now.cells.now loads.now kept.old k }
    requires before { greatest kept.old ≡ min before (2 ^ 64 - 1) }
    ensures greatest { result
        ≡ greatest_exponent rated.now.scale.now.setting rated.now.cells.now loads.now }
    ensures kept { (k : ℕ) → k < length rated.now.cells.now
        → KeepsExponent rated.now.scale.now.setting rated.now.cells.now loads.now kept.new k }
{
    let most = before.min(u128::from(u64::MAX)) as u64;
    let known = put_exponents(rated, loads, changed, kept, most);
    let top = top_of(kept, known);
    if top < u64::MAX {
        return u128::from(top);
    }
    exponents_of(rated.scale, rated.cells, loads, kept)
}

impl Powers {
    // Puts the lengths of the cells at the changed places in their place.
    fn put_changed_lengths(
        &self,
        rated: &Rated<'_>,
        top: u128,
        loads: &[u64],
        changed: &Changed<'_>,
        kept: &[u64],
        into: &mut [u64],
    )
        requires rated { AreRated rated.now.scale.now.setting rated.now.cells.now rated.now.least rated.now.rates.now }
        requires loads { length loads.now ≡ length rated.now.cells.now }
        requires small { All (λ x. x ≤ MAX_LENGTH) loads.now }
        requires exponents { length kept.now ≡ length rated.now.cells.now }
        requires into { length into.old ≡ length rated.now.cells.now }
        requires within { changed.now.count ≤ length changed.now.places.now }
        requires places { AreBelow (length rated.now.cells.now) changed.now.count changed.now.places.now }
        requires greatest { (k : ℕ) → k < length rated.now.cells.now → exponent rated.now.scale.now.setting
            (cell_at rated.now.cells.now k) (slice_index loads.now k) ≤ top }
        requires kept { (k : ℕ) → k < length rated.now.cells.now
            → KeepsExponent rated.now.scale.now.setting rated.now.cells.now loads.now kept.now k }
        requires before { (k : ℕ) → k < length rated.now.cells.now
            → IsNotIn changed.now.count changed.now.places.now 0 k
            → slice_index into.old k ≡ length_at rated.now.scale.now.setting top rated.now.least
            (cell_at rated.now.cells.now k) (slice_index loads.now k) }
        ensures { into.new
            ≡ lengths_at rated.now.scale.now.setting top rated.now.least rated.now.cells.now loads.now }
    {
        for j in 0..changed.count {
            let i = changed.places[j] as usize;
            into[i] = self.cell_length_by_rate(rated, top, i, loads[i], kept[i]);
        }
    }

    // Puts the length of each cell in its place, where every exponent was kept whole. It is a function of its own too.
    #[inline(never)]
    fn put_near_lengths(&self, rated: &Rated<'_>, top: u64, kept: &[u64], into: &mut [u64])
        requires rated { AreRated rated.now.scale.now.setting rated.now.cells.now rated.now.least rated.now.rates.now }
        requires exponents { length kept.now ≡ length rated.now.cells.now }
        requires into { length into.old ≡ length rated.now.cells.now }
        requires top { (k : ℕ) → k < length rated.now.cells.now → slice_index kept.now k ≤ top }
        ensures { (k : ℕ) → k < length rated.now.cells.now → slice_index into.new k
            ≡ length_from top rated.now.least (cell_at rated.now.cells.now k) (slice_index kept.now k) }
    {
        for i in 0..into.len() {
            into[i] = self.near_length(
                top,
                rated.least,
                &rated.cells[i],
                kept[i],
                rated.rates[i].length,
            );
        }
    }

    // The same where an exponent may have been too great to be kept.
    fn put_far_lengths(
        &self,
        rated: &Rated<'_>,
        top: u128,
        loads: &[u64],
        kept: &[u64],
        into: &mut [u64],
    )
        requires rated { AreRated rated.now.scale.now.setting rated.now.cells.now rated.now.least rated.now.rates.now }
        requires loads { length loads.now ≡ length rated.now.cells.now }
        requires small { All (λ x. x ≤ MAX_LENGTH) loads.now }
        requires exponents { length kept.now ≡ length rated.now.cells.now }
        requires into { length into.old ≡ length rated.now.cells.now }
        requires greatest { (k : ℕ) → k < length rated.now.cells.now → exponent rated.now.scale.now.setting
            (cell_at rated.now.cells.now k) (slice_index loads.now k) ≤ top }
        requires kept { (k : ℕ) → k < length rated.now.cells.now
            → KeepsExponent rated.now.scale.now.setting rated.now.cells.now loads.now kept.now k }
        ensures { into.new
            ≡ lengths_at rated.now.scale.now.setting top rated.now.least rated.now.cells.now loads.now }
    {
        for i in 0..into.len() {
            into[i] = self.cell_length_by_rate(rated, top, i, loads[i], kept[i]);
        }
    }

    /// Puts the length of each cell in its place.
    pub(crate) fn put_all_lengths(
        &self,
        rated: &Rated<'_>,
        top: u128,
        loads: &[u64],
        kept: &[u64],
        into: &mut [u64],
    )
        requires rated { AreRated rated.now.scale.now.setting rated.now.cells.now rated.now.least rated.now.rates.now }
        requires loads { length loads.now ≡ length rated.now.cells.now }
        requires small { All (λ x. x ≤ MAX_LENGTH) loads.now }
        requires exponents { length kept.now ≡ length rated.now.cells.now }
        requires into { length into.old ≡ length rated.now.cells.now }
        requires greatest { (k : ℕ) → k < length rated.now.cells.now → exponent rated.now.scale.now.setting
            (cell_at rated.now.cells.now k) (slice_index loads.now k) ≤ top }
        requires kept { (k : ℕ) → k < length rated.now.cells.now
            → KeepsExponent rated.now.scale.now.setting rated.now.cells.now loads.now kept.now k }
        ensures { into.new
            ≡ lengths_at rated.now.scale.now.setting top rated.now.least rated.now.cells.now loads.now }
    {
        if top <= u128::from(u64::MAX) {
            self.put_near_lengths(rated, top as u64, kept, into);
        } else {
            self.put_far_lengths(rated, top, loads, kept, into);
        }
    }

    /// Puts the exponents and the lengths under these loads in the place of those under loads that differ at the changed
    /// places alone and had this greatest exponent, and gives the greatest. Where the greatest stands, the lengths of
    /// cells at no changed place stand too.
    pub fn follow(
        &self,
        rated: &Rated<'_>,
        before: u128,
        loads: &[u64],
        changed: &Changed<'_>,
        kept: &mut [u64],
        into: &mut [u64],
    ) -> u128
        requires rated { AreRated rated.now.scale.now.setting rated.now.cells.now rated.now.least rated.now.rates.now }
        requires loads { length loads.now ≡ length rated.now.cells.now }
        requires small { All (λ x. x ≤ MAX_LENGTH) loads.now }
        requires exponents { length kept.old ≡ length rated.now.cells.now }
        requires into { length into.old ≡ length rated.now.cells.now }
        requires within { changed.now.count ≤ length changed.now.places.now }
        requires places { AreBelow (length rated.now.cells.now) changed.now.count changed.now.places.now }
        requires kept { (k : ℕ) → k < length rated.now.cells.now
            → IsNotIn changed.now.count changed.now.places.now 0 k
            → KeepsExponent rated.now.scale.now.setting rated.now.cells.now loads.now kept.old k }
        requires lengths { (k : ℕ) → k < length rated.now.cells.now
            → IsNotIn changed.now.count changed.now.places.now 0 k
            → slice_index into.old k ≡ length_at rated.now.scale.now.setting before rated.now.least
            (cell_at rated.now.cells.now k) (slice_index loads.now k) }
        requires before { greatest kept.old ≡ min before (2 ^ 64 - 1) }
        ensures greatest { result
            ≡ greatest_exponent rated.now.scale.now.setting rated.now.cells.now loads.now }
        ensures kept { (k : ℕ) → k < length rated.now.cells.now
            → KeepsExponent rated.now.scale.now.setting rated.now.cells.now loads.now kept.new k }
        ensures lengths { into.new
            ≡ lengths_at rated.now.scale.now.setting result rated.now.least rated.now.cells.now loads.now }
    {
        let top = follow_exponents(rated, before, loads, changed, kept);
        let stands = top == before;
        if stands {
            self.put_changed_lengths(rated, top, loads, changed, kept, into);
        } else {
            self.put_all_lengths(rated, top, loads, kept, into);
        }
        top
    }
}
