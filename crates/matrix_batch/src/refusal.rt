//! Why a list gives no batch.

use crate::ListRefusal;
use sndlib_rows::NetRefusal;

/// Why a list gives no batch: a link of the network is too fine, the list is refused, or memory ran out.
#[derive(Clone, Copy, Debug)]
pub enum BatchEnd {
    /// A link of the network is finer than a millionth.
    Net(NetRefusal),
    /// The list is refused.
    List(ListRefusal),
    /// Memory ran out.
    Memory,
}
