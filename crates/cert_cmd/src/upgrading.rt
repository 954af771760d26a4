//! The command `upgrade`: a valid certificate, written in form 2.

ghost use Rattle.sndlib_grammar.specs.Rows.{AreNetRows};
ghost use Rattle.cert_lines.specs.Sheet.{IsOf, sheet_of};
ghost use Rattle.cert_writer.specs.Text.{FitsProof};
ghost use Rattle.base_cmd.specs.Answer.{IsTold, Writes};
ghost use Rattle.cert_cmd.specs.Upgrade.{OfUpgrade, OfUpgraded, upgraded};

use base_cmd::{Ended, Found, certificate_in, end_of, net_in, tell};
use cert_lines::{Form, Names};
use cert_writer::write_cert;
use flow_paths::Proof;
use mcf_base::{Shelf, Sink};
use sndlib_rows::RawNet;
use std::alloc::Global;
use unit_scale::Scaled;

// Writes the certificate in form 2, which it fits.
fn write_upgraded<K: Sink>(rows: &RawNet<'_>, net: &Scaled, proof: &Proof, out: &mut K) -> Ended
    requires of { IsOf rows.now net.now }
    requires fits { FitsProof (sheet_of rows.now net.now) proof.now }
    ensures { Writes (K.seen out.old) (K.seen out.new) result (upgraded rows.now net.now proof.now) }
{
    let written = write_cert(&Names::new(rows, net, Form::Second), proof, out);
    end_of(written, 0, Found::nothing())
}

// Writes the certificate of that name in form 2 where it is valid, and what else is said of it.
fn upgrade_on<F: Shelf, K: Sink>(
    alloc: Global,
    shelf: &mut F,
    out: &mut K,
    rows: &RawNet<'_>,
    cert: &str,
) -> Ended
    requires { AreNetRows rows.now }
    ensures { IsTold (OfUpgraded rows.now cert.now (F.seen shelf.old) (F.seen shelf.new))
        (K.seen out.old) (K.seen out.new) result }
{
    match certificate_in(alloc, shelf, rows, cert) {
        Ok((net, proof)) => write_upgraded(rows, &net, &proof, out),
        Err(outcome) => tell(out, outcome),
    }
}

/// Writes the certificate in the second file in form 2, where it is valid on the network in the first; else what is said of
/// it. Its phases, rows and dual stay as they are.
pub fn upgrade<F: Shelf, K: Sink>(
    alloc: Global,
    shelf: &mut F,
    out: &mut K,
    net: &str,
    cert: &str,
) -> Ended
    ensures { IsTold (OfUpgrade net.now cert.now (F.seen shelf.old) (F.seen shelf.new))
        (K.seen out.old) (K.seen out.new) result }
{
    let mut text = Vec::new(alloc);
    match net_in(alloc, shelf, net, &mut text) {
        Ok(rows) => upgrade_on(alloc, shelf, out, &rows, cert),
        Err(outcome) => tell(out, outcome),
    }
}
