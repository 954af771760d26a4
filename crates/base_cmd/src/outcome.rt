//! What a run found, where one line tells it.

use cert_judge::{CertRefusal, Fault, Judged};
use matrix_batch::ListRefusal;
use script::ScriptRefusal;
use sndlib_rows::NetRefusal;
use std::alloc::AllocError;

/// A kind of file: a network, a certificate or a routing, a second certificate, a script, a list of demand matrices.
#[derive(Clone, Copy, Debug, PartialEq, Eq)]
pub enum FileKind {
    /// A network.
    Network,
    /// A certificate or a routing.
    Certificate,
    /// The second certificate of `tighten`.
    Second,
    /// A script of edits.
    Script,
    /// A list of demand matrices.
    List,
}

/// What one line tells.
#[derive(Clone, Copy)]
pub enum Outcome {
    /// The words are not in the grammar.
    Usage,
    /// A file could not be read to its end.
    ReadFault,
    /// Memory ran out.
    Memory,
    /// The file is over its limit.
    TooLong(FileKind),
    /// The network's text is refused, or its rows are no network in units.
    NetRefused(NetRefusal),
    /// Commodities times phases would be this number.
    TooMuch(u64),
    /// The script is refused.
    ScriptRefused(ScriptRefusal),
    /// The list is refused.
    ListRefused(ListRefusal),
    /// What is said of a certificate.
    Judged(Judged),
    /// The text of a second certificate has a fault.
    SecondRefused(CertRefusal),
    /// The first condition that a second certificate fails.
    SecondInvalid(Fault),
}

impl From<AllocError> for Outcome {
    ghost use Rattle.std.specs.Prelude.{◌≡◌};
    ghost use Rattle.base_cmd.specs.declared.outcome.Outcome.TheVariants.{Memory};

    ghost from_gives = { λ _ e. e ≡ Memory };

    fn from(_: AllocError) -> Self {
        Outcome::Memory
    }
}
