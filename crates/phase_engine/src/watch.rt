//! Who is told of the tickets.

use mcf_base::Gate;

/// Observes claimed tickets. Every `Gate` implements it, but implementors need not be `Sync`.
pub trait Watch {
    fn drawn(&self, worker: u16, ticket: u64);
}

impl<G: Gate> Watch for G {
    fn drawn(&self, worker: u16, ticket: u64) {
        self.claimed(worker, ticket);
    }
}
