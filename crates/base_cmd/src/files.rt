//! The files of a command, each read whole before it is judged.

ghost use Rattle.std.specs.Prelude.{◌≤◌, IfOk, length};
ghost use Rattle.mcf_limits.specs.declared.TheConstants.{MAX_NET_BYTES};
ghost use Rattle.sndlib_grammar.specs.Rows.{AreNetRows};
ghost use Rattle.cert_judge.specs.Certified.{IsCertificate};
ghost use Rattle.base_cmd.specs.Files.{GivesCertificate, GivesNet, GivesRows, GivesText};

use crate::outcome::{FileKind, Outcome};
use cert_judge::{Certified, read_certificate};
use flow_paths::Proof;
use mcf_base::{ReadEnd, Shelf, read_all};
use mcf_limits::{MAX_CERT_BYTES, MAX_NET_BYTES};
use sndlib_grammar::rows_are_sound;
use sndlib_read::{RawNet, ReadNetEnd, read_net};
use std::alloc::Global;
use unit_scale::Scaled;

/// The bytes of the file of that name and kind, of which there are at most `limit`.
pub fn file_text<F: Shelf>(
    alloc: Global,
    shelf: &mut F,
    name: &str,
    limit: usize,
    kind: FileKind,
) -> Result<Vec<u8>, Outcome>
    ensures { GivesText limit kind name.now (F.seen shelf.old) (F.seen shelf.new) result }
{
    match read_all(alloc, shelf, name, limit) {
        Ok(text) => Ok(text),
        Err(ReadEnd::Fault) => Err(Outcome::ReadFault),
        Err(ReadEnd::TooLong) => Err(Outcome::TooLong(kind)),
        Err(ReadEnd::Memory) => Err(Outcome::Memory),
    }
}

/// The rows of a network's text.
pub fn net_rows(alloc: Global, text: &[u8]) -> Result<RawNet<'_>, Outcome>
    requires { length text.now ≤ MAX_NET_BYTES }
    ensures rows { GivesRows text.now result }
    ensures sound { IfOk result AreNetRows }
{
    rows_are_sound();
    match read_net(alloc, text) {
        Ok(raw) => Ok(raw),
        Err(ReadNetEnd::Refused(refusal)) => Err(Outcome::NetRefused(refusal)),
        Err(ReadNetEnd::Memory) => Err(Outcome::Memory),
    }
}

/// The rows of the network in the file of that name. They borrow from `text`, which then holds the file's bytes.
pub fn net_in<'t, F: Shelf>(
    alloc: Global,
    shelf: &mut F,
    name: &str,
    text: &'t mut Vec<u8>,
) -> Result<RawNet<'t>, Outcome>
    ensures rows { GivesNet name.now (F.seen shelf.old) (F.seen shelf.new) result }
    ensures sound { IfOk result AreNetRows }
{
    *text = match file_text(alloc, shelf, name, MAX_NET_BYTES, FileKind::Network) {
        Ok(text) => text,
        Err(outcome) => return Err(outcome),
    };
    net_rows(alloc, text)
}

/// The valid certificate in the file of that name, and the network in units that the rows stand for under its options.
pub fn certificate_in<F: Shelf>(
    alloc: Global,
    shelf: &mut F,
    rows: &RawNet<'_>,
    name: &str,
) -> Result<(Scaled, Proof), Outcome>
    requires { AreNetRows rows.now }
    ensures certificate { GivesCertificate rows.now name.now (F.seen shelf.old) (F.seen shelf.new) result }
    ensures sound { IfOk result (λ found. IsCertificate rows.now found.0 found.1) }
{
    let text = match file_text(alloc, shelf, name, MAX_CERT_BYTES, FileKind::Certificate) {
        Ok(text) => text,
        Err(outcome) => return Err(outcome),
    };
    match read_certificate(alloc, rows, &text) {
        Ok(Certified::Valid(net, proof)) => Ok((net, proof)),
        Ok(Certified::Said(judged)) => Err(Outcome::Judged(judged)),
        Err(_) => Err(Outcome::Memory),
    }
}
