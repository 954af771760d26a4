//! A matrix of a batch.

use sndlib_rows::RawNet;
use unit_scale::Scaled;

/// A matrix of a batch: its name, which is a slice of the list's text, the rows of its network, and that network in units. The rows of nodes and links are shared among all matrices.
#[derive(Drop)]
pub struct Matrix<'a> {
    /// Its name.
    pub name: &'a [u8],
    /// The rows of its network.
    pub rows: RawNet<'a>,
    /// The network in units.
    pub net: Scaled,
}
