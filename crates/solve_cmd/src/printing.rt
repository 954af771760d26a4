//! The command `print`: the canonical text of a network.

ghost use Rattle.base_cmd.specs.Answer.{IsTold};
ghost use Rattle.solve_cmd.specs.Print.{OfPrint};

use crate::canonical::print_net;
use base_cmd::{Ended, Found, end_of, net_in, tell};
use mcf_base::{Shelf, Sink};
use std::alloc::Global;

/// Writes the canonical text of the network in the file of that name.
pub fn print<F: Shelf, K: Sink>(alloc: Global, shelf: &mut F, out: &mut K, name: &str) -> Ended
    ensures { IsTold (OfPrint name.now (F.seen shelf.old) (F.seen shelf.new)) (K.seen out.old)
        (K.seen out.new) result }
{
    let mut text = Vec::new(alloc);
    match net_in(alloc, shelf, name, &mut text) {
        Ok(raw) => end_of(print_net(&raw, out), 0, Found::nothing()),
        Err(outcome) => tell(out, outcome),
    }
}
