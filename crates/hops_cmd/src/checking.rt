//! The command `checkhops`: what is said of a certificate with hop limits on a network.

ghost use Rattle.base_cmd.specs.Answer.{IsTold, judged_answer};
ghost use Rattle.base_cmd.specs.Files.{Finds};
ghost use Rattle.hops_cmd.specs.Check.{OfCheckHops};

use crate::judging::judge_hops;
use base_cmd::{Ended, FileKind, Outcome, file_text, net_in, tell};
use cert_judge::Judged;
use mcf_base::{Shelf, Sink};
use mcf_limits::MAX_CERT_BYTES;
use std::alloc::Global;

// What is said of the second file on the network in the first.
fn judged_files<F: Shelf>(
    alloc: Global,
    shelf: &mut F,
    net: &str,
    cert: &str,
) -> Result<Judged, Outcome>
    ensures { Finds judged_answer (OfCheckHops net.now cert.now)
        (F.seen shelf.old) (F.seen shelf.new) result }
{
    let mut net_text = Vec::new(alloc);
    let rows = match net_in(alloc, shelf, net, &mut net_text) {
        Ok(rows) => rows,
        Err(outcome) => return Err(outcome),
    };
    let text = match file_text(alloc, shelf, cert, MAX_CERT_BYTES, FileKind::Certificate) {
        Ok(text) => text,
        Err(outcome) => return Err(outcome),
    };
    match judge_hops(alloc, &rows, &text) {
        Ok(judged) => Ok(judged),
        Err(_) => Err(Outcome::Memory),
    }
}

/// Writes what is said of the certificate with hop limits in the second file on the network in the
/// first.
pub fn checkhops<F: Shelf, K: Sink>(
    alloc: Global,
    shelf: &mut F,
    out: &mut K,
    net: &str,
    cert: &str,
) -> Ended
    ensures { IsTold (OfCheckHops net.now cert.now (F.seen shelf.old) (F.seen shelf.new))
        (K.seen out.old) (K.seen out.new) result }
{
    match judged_files(alloc, shelf, net, cert) {
        Ok(judged) => tell(out, Outcome::Judged(judged)),
        Err(outcome) => tell(out, outcome),
    }
}
