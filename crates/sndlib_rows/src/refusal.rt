//! Why no rows are answered.

use sndlib_grammar::NetRefusal;

/// Why a text gives no rows: it is refused, or memory ran out.
#[derive(Clone, Copy, Debug, PartialEq, Eq)]
pub enum ReadNetEnd {
    /// The text is refused.
    Refused(NetRefusal),
    /// Memory ran out.
    Memory,
}
