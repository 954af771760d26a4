//! Why no matrices are answered.

use crate::ListRefusal;

/// Why a text gives no matrices: it is refused, or memory ran out.
#[derive(Clone, Copy, Debug, PartialEq, Eq)]
pub enum ReadListEnd {
    /// The text is refused.
    Refused(ListRefusal),
    /// Memory ran out.
    Memory,
}
