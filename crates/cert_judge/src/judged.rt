//! What is said of a certificate's text.

use cert_check::Fault;
use cert_text::CertRefusal;
use gap_fraction::Frac;
use sndlib_rows::NetRefusal;
use unit_scale::NetOptions;

/// What is said of a certificate's text on the rows of a network.
#[derive(Clone, Copy)]
pub enum Judged {
    /// The rows are no network under the options of the text.
    NetRefused(NetRefusal),
    /// The text has a fault.
    CertRefused(CertRefusal),
    /// The first condition that fails.
    Invalid(Fault),
    /// A routing that carries this fraction of every demand.
    Feasible {
        options: NetOptions,
        value: Frac,
    },
    /// A certificate that stands, with its verdict and its fractions.
    Valid {
        options: NetOptions,
        closed: bool,
        lower: Frac,
        upper: Frac,
    },
}
