//! What is written of a network and a list of demand matrices.

ghost use Rattle.std.specs.Prelude.{◌≤◌, IfOk, length};
ghost use Rattle.mcf_limits.specs.declared.TheConstants.{MAX_LIST_BYTES};

use crate::files::net_text;
use crate::texts::shown;
use anyhow::{Result, bail, ensure};
use matrix_batch::{ListKind, MatrixRows, ReadListEnd, read_list};
use mcf_limits::MAX_LIST_BYTES;
use sndlib_read::{RawNet, read_net};
use std::fs;
use std::time::Instant;

fn code(kind: ListKind) -> &'static str {
    match kind {
        ListKind::Syntax => "M1",
        ListKind::TooMany => "M2",
        ListKind::Duplicate => "M3",
        ListKind::UnknownNode => "M4",
        ListKind::BadNumber => "M5",
        ListKind::TooFine => "M6",
        ListKind::TooLarge => "M7",
        ListKind::NoDemand => "M8",
    }
}

fn tell_end(rt: &HostRuntime, end: ReadListEnd) -> Result<()> {
    match end {
        ReadListEnd::Refused(r) => println!(rt; "refused {} line {}", code(r.kind), r.line)?,
        ReadListEnd::Memory => println!(rt; "memory")?,
    }
    Ok(())
}

fn tell_matrix(rt: &HostRuntime, matrix: &MatrixRows<'_>) -> Result<()> {
    println!(rt; "matrix {} line {}", shown(matrix.name), matrix.line)?;
    for row in &matrix.demands {
        println!(rt;
            "demand {} from {} to {} {} {} {} line {}",
            shown(row.id),
            row.source,
            row.target,
            shown(row.unit),
            shown(row.value),
            shown(row.longest),
            row.line
        )?;
    }
    Ok(())
}

fn list_text(rt: &HostRuntime, name: &str) -> Result<Vec<u8>>
    ensures { IfOk result (λ text. length text.items ≤ MAX_LIST_BYTES) }
{
    let text = fs::read(rt, name)?;
    ensure!(text.len() <= MAX_LIST_BYTES, "a list that is too long");
    Ok(text)
}

fn tell_on_rows(rt: &HostRuntime, rows: &RawNet<'_>, list: &[u8]) -> Result<()>
    requires { length list.now ≤ MAX_LIST_BYTES }
{
    match read_list(rt.alloc(), rows, list) {
        Ok(matrices) => {
            for matrix in &matrices {
                tell_matrix(rt, matrix)?;
            }
            Ok(())
        }
        Err(end) => tell_end(rt, end),
    }
}

/// The matrices of a list over the rows of a network, or the list's refusal.
pub fn tell_list(rt: &HostRuntime, net: &str, list: &str) -> Result<()> {
    println!(rt; "{net} {list}")?;
    let net_text = net_text(rt, net)?;
    let list_text = list_text(rt, list)?;
    match read_net(rt.alloc(), &net_text) {
        Ok(rows) => tell_on_rows(rt, &rows, &list_text),
        Err(_) => bail!("the network is refused"),
    }
}

/// How long reading a list takes.
pub fn tell_list_time(rt: &HostRuntime, net: &str, list: &str) -> Result<()> {
    let net_text = net_text(rt, net)?;
    let text = list_text(rt, list)?;
    let rows = match read_net(rt.alloc(), &net_text) {
        Ok(rows) => rows,
        Err(_) => bail!("the network is refused"),
    };
    let start = Instant::now(rt)?;
    let answer = read_list(rt.alloc(), &rows, &text);
    let took = start.elapsed(rt)?;
    println!(rt;
        "{list} {} bytes in {} microseconds",
        text.len(),
        took.as_micros()
    )?;
    match answer {
        Ok(matrices) => println!(rt; "{} matrices", matrices.len())?,
        Err(end) => tell_end(rt, end)?,
    }
    Ok(())
}
