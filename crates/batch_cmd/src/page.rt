//! Text in memory.

ghost use Rattle.std.specs.Prelude.{◌≡◌, ◌<◌, ◌≤◌, false, [], Some, length, IfOk, OnErr, OnOk};
ghost use Rattle.std.specs.Io.KnownBytes.{WriteAppends};
ghost use Rattle.mcf_base.specs.Faults.{HasCause};

use mcf_base::{Failed, Sink};
use std::alloc::Global;

/// An output that keeps what it was given, and fails only where memory is lacking.
#[derive(Drop)]
pub struct Page {
    bytes: Vec<u8>,
    faults: u64,
    cut: bool,
}

impl Page {
    /// Nothing.
    pub fn new(alloc: Global) -> Self
        ensures bytes { result.bytes.items ≡ [] }
    {
        Page {
            bytes: Vec::new(alloc),
            faults: 0,
            cut: false,
        }
    }

    /// What was written.
    pub fn into_bytes(self) -> Vec<u8>
        ensures { result.items ≡ self.bytes.items }
    {
        self.bytes
    }
}

impl Sink for Page {
    ghost seen = { λ s. record { written = Some s.bytes.items; faults = record { count = s.faults; cut = s.cut } } };

    fn write(&mut self, piece: &[u8]) -> Result<usize, Failed>
        requires { 0 < length piece.now }
        ensures some { IfOk result (λ n. 0 < n) }
        ensures count { IfOk result (λ n. n ≤ length piece.now) }
        ensures bytes { WriteAppends (Some self.old.bytes.items) (Some self.new.bytes.items) result piece.now }
        ensures cause { HasCause (record { count = self.old.faults; cut = self.old.cut })
            (record { count = self.new.faults; cut = self.new.cut }) result }
        ensures clear { OnOk result (self.new.cut ≡ false) }
    {
        match self.bytes.extend_from_slice(piece) {
            Ok(()) => {
                self.cut = false;
                Ok(piece.len())
            }
            Err(_) => {
                self.faults = self.faults.saturating_add(1);
                self.cut = true;
                Err(Failed)
            }
        }
    }
}
