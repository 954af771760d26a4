//! What is written of a network, a certificate and a script.

ghost use Rattle.std.specs.Prelude.{◌≤◌, length};
ghost use Rattle.mcf_limits.specs.declared.TheConstants.{MAX_CERT_BYTES, MAX_SCRIPT_BYTES};
ghost use Rattle.sndlib_grammar.specs.Rows.{AreNetRows};
ghost use Rattle.cert_judge.specs.Certified.{IsCertificate};

use crate::files::net_text;
use anyhow::{Result, bail, ensure};
use cert_judge::{Certified, read_certificate};
use flow_paths::Proof;
use mcf_base::OutSink;
use mcf_limits::{MAX_CERT_BYTES, MAX_SCRIPT_BYTES};
use net_whatif::{Scripted, read_script, write_shown};
use sndlib_grammar::rows_are_sound;
use sndlib_read::{RawNet, read_net};
use std::{fs, io};
use unit_scale::Scaled;

fn tell_steps(
    rt: &HostRuntime,
    rows: &RawNet<'_>,
    net: &Scaled,
    proof: &Proof,
    script: &[u8],
) -> Result<()>
    requires certificate { IsCertificate rows.now net.now proof.now }
    requires script { length script.now ≤ MAX_SCRIPT_BYTES }
{
    match read_script(rt.alloc(), rows, net, proof, script)? {
        Scripted::Refused(refusal) => {
            println!(rt; "refused {:?} line {}", refusal.kind, refusal.line)?;
        }
        Scripted::Ready(plan, steps) => {
            let mut out = OutSink::new(io::writer(rt));
            if write_shown(plan, &steps, &mut out).is_err() {
                bail!("the output failed");
            }
        }
    }
    Ok(())
}

fn tell_on_rows(rt: &HostRuntime, rows: &RawNet<'_>, cert: &[u8], script: &[u8]) -> Result<()>
    requires rows { AreNetRows rows.now }
    requires cert { length cert.now ≤ MAX_CERT_BYTES }
    requires script { length script.now ≤ MAX_SCRIPT_BYTES }
{
    match read_certificate(rt.alloc(), rows, cert)? {
        Certified::Valid(net, proof) => tell_steps(rt, rows, &net, &proof, script),
        Certified::Said(_) => bail!("no valid certificate"),
    }
}

/// What the script shows of the certificate of the network.
pub fn tell_script(rt: &HostRuntime, net: &str, cert: &str, script: &str) -> Result<()> {
    println!(rt; "{net} {cert} {script}")?;
    rows_are_sound();
    let net_text = net_text(rt, net)?;
    let cert_text = fs::read(rt, cert)?;
    ensure!(
        cert_text.len() <= MAX_CERT_BYTES,
        "a certificate that is too long"
    );
    let script_text = fs::read(rt, script)?;
    ensure!(
        script_text.len() <= MAX_SCRIPT_BYTES,
        "a script that is too long"
    );
    match read_net(rt.alloc(), &net_text) {
        Ok(rows) => tell_on_rows(rt, &rows, &cert_text, &script_text),
        Err(_) => bail!("no network"),
    }
}
