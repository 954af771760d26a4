//! The rule of the shared words, and what each step tells the pass that takes it.

ghost use Rattle.std.specs.Prelude.{ℕ, List, []};
ghost use Rattle.load_table.specs.Views.{first_known, keeps_known, cuts_known, joins_known, spent_known};
ghost use Rattle.load_table.specs.Rule.{Holds, HasClaimed, HasRead, HasAdded, HasClaimedAlone, HasReadAlone, HasAddedAlone, HasReadAll, HasAddedAlong};

use crate::view::{Known, Origin};
use atomic_table::{Join, Play, Split, TableRule};
use std::marker::{Brand, PhantomData};

/// Some schedule of the core leads to the words and to what the passes know. The words are those that the table has in their places,
/// or, where there is one worker, its pass's own.
pub(crate) struct LoadRule;

impl TableRule<(), Known, Origin> for LoadRule {
    ghost holds = { Holds };

    ghost first = { first_known };
}

pub(crate) struct Claims;

impl Play<(), Known> for Claims {
    ghost then = { λ _. HasClaimed };
}

/// Which commodity an add is for.
pub trait OfCommodity {
    ghost commodity: { ℕ };
}

impl OfCommodity for Brand {
    ghost commodity = { 0 };
}

/// Which cell a step is at.
pub trait OfCell {
    ghost cell: { ℕ };
}

impl OfCell for Brand {
    ghost cell = { 0 };
}

/// Along which path a worker alone adds.
pub trait OfPath {
    ghost path: { List ℕ };
}

impl OfPath for Brand {
    ghost path = { [] };
}

pub(crate) struct Reads<L> {
    placed: PhantomData<L>,
}

impl<L: OfCell> Play<(), Known> for Reads<L> {
    ghost then = { λ _. HasRead L.cell };
}

pub(crate) struct Adds<J, L> {
    named: PhantomData<J>,
    placed: PhantomData<L>,
}

impl<J: OfCommodity, L: OfCell> Play<(), Known> for Adds<J, L> {
    ghost then = { λ _. HasAdded J.commodity L.cell };
}

/// A claim on a pass's own words: the step on the table is a load, for the proof alone. So are those of the other four.
pub(crate) struct ClaimsAlone;

impl Play<(), Known> for ClaimsAlone {
    ghost then = { λ _ v _ w. HasClaimedAlone v w };
}

pub(crate) struct ReadsAlone<L> {
    placed: PhantomData<L>,
}

impl<L: OfCell> Play<(), Known> for ReadsAlone<L> {
    ghost then = { λ _ v _ w. HasReadAlone L.cell v w };
}

pub(crate) struct AddsAlone<J, L> {
    named: PhantomData<J>,
    placed: PhantomData<L>,
}

impl<J: OfCommodity, L: OfCell> Play<(), Known> for AddsAlone<J, L> {
    ghost then = { λ _ v _ w. HasAddedAlone J.commodity L.cell v w };
}

pub(crate) struct ReadsAll;

impl Play<(), Known> for ReadsAll {
    ghost then = { λ _ v _ w. HasReadAll v w };
}

pub(crate) struct AddsAlong<J, L> {
    named: PhantomData<J>,
    placed: PhantomData<L>,
}

impl<J: OfCommodity, L: OfPath> Play<(), Known> for AddsAlong<J, L> {
    ghost then = { λ _ v _ w. HasAddedAlong J.commodity L.path v w };
}

pub(crate) struct Cuts;

impl Split<Known> for Cuts {
    ghost left = { keeps_known };

    ghost right = { cuts_known };
}

impl Join<Known> for Cuts {
    ghost both = { joins_known };

    ghost spent = { spent_known };
}
