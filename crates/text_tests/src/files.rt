//! Texts of files, and what is written of a network that is refused.

ghost use Rattle.std.specs.Prelude.{◌≤◌, IfOk, length};
ghost use Rattle.mcf_limits.specs.declared.TheConstants.{MAX_NET_BYTES};

use anyhow::{Result, ensure};
use mcf_limits::MAX_NET_BYTES;
use sndlib_rows::{NetKind, NetRefusal};
use std::fs;

/// The text of a network.
pub fn net_text(rt: &HostRuntime, name: &str) -> Result<Vec<u8>>
    ensures { IfOk result (λ text. length text.items ≤ MAX_NET_BYTES) }
{
    let text = fs::read(rt, name)?;
    ensure!(text.len() <= MAX_NET_BYTES, "a network that is too long");
    Ok(text)
}

fn code(kind: NetKind) -> &'static str {
    match kind {
        NetKind::NoHeader => "N1",
        NetKind::LongWord => "N2",
        NetKind::Syntax => "N3",
        NetKind::TooMany => "N4",
        NetKind::Duplicate => "N5",
        NetKind::UnknownNode => "N6",
        NetKind::BadNumber => "N7",
        NetKind::TooFine => "N8",
        NetKind::TooLarge => "N9",
        NetKind::NoDemand => "N10",
        NetKind::HopTooFar => "N11",
    }
}

/// The refusal of a network, with its line; nothing where memory ran out.
pub fn tell_refusal(rt: &HostRuntime, refusal: Option<NetRefusal>) -> Result<()> {
    match refusal {
        Some(r) => println!(rt; "refused {} line {}", code(r.kind), r.line)?,
        None => println!(rt; "memory")?,
    }
    Ok(())
}
