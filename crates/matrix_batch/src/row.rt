//! Matrices as they are handed out: words are slices of the list's text, nodes are numbers of the
//! network.

use sndlib_rows::DemandRow;

/// A matrix: its name, the line of its name, and its demands.
#[derive(Debug, Drop)]
pub struct MatrixRows<'a> {
    /// Its name.
    pub name: &'a [u8],
    /// The number of the line of its name, from 1 on.
    pub line: u32,
    /// Its demands, in their order.
    pub demands: Vec<DemandRow<'a>>,
}
