//! The duals of certificates, and the first of the least of them.

ghost use Rattle.std.specs.Prelude.{◌≡◌, ◌^◌, ◌<◌, ◌≤◌, ◌++◌, All, IfOk, OnOk, length, map, if◌then◌else◌};
ghost use Rattle.flow_model.specs.Bound.{weighted_distance};
ghost use Rattle.flow_paths.specs.Certificate.{distances_in, upper_of};
ghost use Rattle.flow_paths.specs.Evaluation.{fraction_le};
ghost use Rattle.cut_bound.specs.Candidates.{rows_in};
ghost use Rattle.cut_bound.specs.Search.{own_at, row_at, seen, IsBestOwn, IsDualOf, IsRowPlace};
ghost use Rattle.cut_bound.specs.declared.choice.Choice.TheVariants.{Own};

use crate::choice::{Best, Choice, RowPlace};
use cert_check::lengths;
use flow_model::Net;
use flow_paths::{Dual, row_places, volume, weighted_distance};
use gap_fraction::Frac;
use std::alloc::{AllocError, Global};
use std::cmp::Ordering;

// The sum of amount times distance.
fn distance(alloc: Global, net: &Net, dual: &Dual) -> Result<u128, AllocError>
    requires { IsDualOf net.now dual.now }
    ensures value { IfOk result (λ n.
        n ≡ weighted_distance net.now.commodities (distances_in net.now dual.now)) }
    ensures limit { IfOk result (λ n. n ≤ 2 ^ 108) }
{
    let places = row_places(alloc, net.nodes() as usize, dual)?;
    Ok(weighted_distance(net.commodities(), &places, dual))
}

/// The bound of a dual: volume over weighted distance.
pub fn own_value(alloc: Global, net: &Net, dual: &Dual) -> Result<Frac, AllocError>
    requires { IsDualOf net.now dual.now }
    ensures { IfOk result (λ f. f ≡ upper_of net.now dual.now) }
{
    let lengths = lengths(alloc, net, dual)?;
    let den = distance(alloc, net, dual)?;
    let num = volume(net.cells(), &lengths);
    Ok(Frac::new(num, den))
}

// Takes the dual of that number where its value is below the best so far.
fn consider_own(best: &mut Best, value: Frac, i: usize)
    ensures { best.new
        ≡ (if fraction_le best.old.value value then best.old else record { value = value; choice = Own i }) }
{
    if let Ordering::Greater = best.value.cmp(&value) {
        *best = Best {
            value,
            choice: Choice::Own(i),
        };
    }
}

/// The first of the least of the duals.
pub fn best_own(alloc: Global, net: &Net, own: &[&Dual]) -> Result<Best, AllocError>
    requires some { 1 ≤ length own.now }
    requires duals { All (λ d. IsDualOf net.now d.now) own.now }
    ensures { IfOk result (IsBestOwn net.now (seen own.now) (length own.now)) }
{
    let mut best = Best {
        value: own_value(alloc, net, own[0])?,
        choice: Choice::Own(0),
    };
    for i in 1..own.len() {
        let value = own_value(alloc, net, own[i])?;
        consider_own(&mut best, value, i);
    }
    Ok(best)
}

// Appends the places of a dual's rows.
fn push_rows(rows: &mut Vec<RowPlace>, own: &[&Dual], dual: usize) -> Result<(), AllocError>
    requires { dual < length own.now }
    ensures rows { OnOk result (map (row_at (seen own.now)) rows.new.items
        ≡ map (row_at (seen own.now)) rows.old.items ++ (own_at (seen own.now) dual).potentials) }
    ensures places { OnOk result
        (All (IsRowPlace (seen own.now)) rows.old.items → All (IsRowPlace (seen own.now)) rows.new.items) }
{
    let count = own[dual].rows();
    for row in 0..count {
        rows.push(RowPlace { dual, row })?;
    }
    Ok(())
}

/// The places of all rows of potentials, the first dual's before the second's.
pub fn rows_of(alloc: Global, own: &[&Dual]) -> Result<Vec<RowPlace>, AllocError>
    ensures rows { IfOk result (λ v. map (row_at (seen own.now)) v.items ≡ rows_in (seen own.now)) }
    ensures places { IfOk result (λ v. All (IsRowPlace (seen own.now)) v.items) }
{
    let mut rows = Vec::new(alloc);
    for dual in 0..own.len() {
        push_rows(&mut rows, own, dual)?;
    }
    Ok(rows)
}

/// The potentials of the row at the place.
pub fn values_at<'a>(own: &[&'a Dual], place: RowPlace) -> &'a [u64]
    requires { IsRowPlace (seen own.now) place }
    ensures { result.now ≡ (row_at (seen own.now) place).values }
{
    own[place.dual].row(place.row)
}
