//! Cuts with their sums, and the best so far.

ghost use Rattle.std.specs.Prelude.{◌≡◌, ◌<◌, IfSome, if◌then◌else◌};
ghost use Rattle.std.specs.List.{fold};
ghost use Rattle.cut_bound.specs.Search.{kept, value_of};
ghost use Rattle.cut_bound.specs.Slots.{kept_some, least_of, least_with, lesser, IsCrossed};

use gap_fraction::Frac;
use std::cmp::Ordering;

/// A row of potentials: that of a dual, both by number.
#[derive(Clone, Copy)]
pub struct RowPlace {
    /// The number of the dual, from 0 on.
    pub dual: usize,
    /// The number of the row among its potentials, from 0 on.
    pub row: usize,
}

/// Where a cut is.
#[derive(Clone, Copy)]
pub enum Place {
    /// Round a node: the cut out of it, or into it, out of all others.
    Node { node: u16, into: bool },
    /// The front of the nodes whose potential is below the level.
    Front { row: RowPlace, level: u64 },
}

/// A cut with the capacity of what leaves it and the amount of who crosses.
#[derive(Clone, Copy)]
pub struct SummedCut {
    /// Where it is.
    pub place: Place,
    /// The capacity of all cells that leave it, in units.
    pub leaving: u64,
    /// The amount of all commodities that have to leave it, in units.
    pub crossing: u64,
}

/// Which bound is the best so far: the own one of a dual, by number, or that of a cut.
#[derive(Clone, Copy)]
pub enum Choice {
    /// That of the dual of this number.
    Own(usize),
    /// That of a cut.
    Cut(Place),
}

/// The best so far, with its value.
#[derive(Drop)]
pub struct Best {
    /// The bound: no routing carries a greater fraction.
    pub value: Frac,
    /// Where it comes from.
    pub choice: Choice,
}

// What leaves over who crosses.
fn value_of(cut: &SummedCut) -> Frac
    requires { IsCrossed cut.now }
    ensures { result ≡ value_of cut.now }
{
    Frac::new(u128::from(cut.leaving), u128::from(cut.crossing))
}

// Takes the cut where some commodity crosses and its value is below the best so far.
fn consider(best: &mut Best, cut: &SummedCut)
    ensures { best.new ≡ kept best.old cut.now }
{
    if cut.crossing == 0 {
        return;
    }
    let value = value_of(cut);
    if let Ordering::Greater = best.value.cmp(&value) {
        *best = Best {
            value,
            choice: Choice::Cut(cut.place),
        };
    }
}

/// Considers the cut, where there is one.
pub fn consider_some(best: &mut Best, cut: Option<SummedCut>)
    ensures { best.new ≡ kept_some best.old cut }
{
    if let Some(cut) = cut {
        consider(best, &cut);
    }
}

/// Considers the cuts, one after the other.
pub fn consider_all(best: &mut Best, cuts: &[SummedCut])
    ensures { best.new ≡ fold kept best.old cuts.now }
{
    for cut in cuts {
        consider(best, cut);
    }
}

// The smaller of two cuts; the first where they are equal.
fn lesser(first: SummedCut, second: SummedCut) -> SummedCut
    requires first { IsCrossed first }
    requires second { IsCrossed second }
    ensures { result ≡ lesser first second }
{
    let value = value_of(&second);
    if let Ordering::Greater = value_of(&first).cmp(&value) {
        return second;
    }
    first
}

// The first of the least so far, with one cut more.
fn least_with(least: Option<SummedCut>, cut: SummedCut) -> Option<SummedCut>
    requires { IfSome least IsCrossed }
    ensures value { result ≡ least_with least cut }
    ensures crossed { IfSome result IsCrossed }
{
    if cut.crossing == 0 {
        return least;
    }
    match least {
        Some(first) => Some(lesser(first, cut)),
        None => Some(cut),
    }
}

/// Of the cuts that some commodity crosses the first of the least.
pub fn least_of(cuts: &[SummedCut]) -> Option<SummedCut>
    ensures { result ≡ least_of cuts.now }
{
    let mut least = None;
    for cut in cuts {
        least = least_with(least, *cut);
    }
    least
}
