//! What a text or its network is refused for.

use cert_text::CertRefusal;
use sndlib_rows::NetRefusal;

/// The first refusal on the way to what a text stands for.
#[derive(Clone, Copy)]
pub enum Refusal {
    /// The rows are no network under the options of the text.
    Net(NetRefusal),
    /// The text has a fault.
    Cert(CertRefusal),
}

/// Why a text was not read to its end.
#[derive(Clone, Copy)]
pub enum ReadEnd {
    /// The network or the text is refused.
    Refused(Refusal),
    /// Memory ran out.
    Memory,
}
