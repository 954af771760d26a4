//! Certificates of a small network, each with something wrong, as values and as texts; worked cases of fractions, of the store
//! and of lines that are written.
#![tactic(auto)]

#[cfg(test)]
mod certificates;
#[cfg(test)]
mod fractions;
#[cfg(test)]
mod lines;
mod one_link;
mod small;
#[cfg(test)]
mod stores;
#[cfg(test)]
mod texts;

pub use one_link::{
    CERTIFICATE, ONE_LINK, ROUTING, SIGNED, SIGNED_ROUTING, VALID, edited, repeated,
};
pub use small::{Case, Paths, Rows, is_case, net_of, proof_of};
