//! Tests alone: certificates with hop limits, their walks and their limits, beside a listing of all walks; small certificates of totals,
//! and small runs of both kinds; texts of both, each read and written again, and each with something wrong.
#![tactic(auto)]

mod triangle;

pub use triangle::{Case, Walk, net_of, proof_of};

#[cfg(test)]
mod certificates;
#[cfg(test)]
mod judgements;
#[cfg(test)]
mod limited_runs;
#[cfg(test)]
mod limits;
#[cfg(test)]
mod listing;
#[cfg(test)]
mod texts;
#[cfg(test)]
mod totals;
#[cfg(test)]
mod walks;
