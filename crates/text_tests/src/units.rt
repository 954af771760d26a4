//! What is written of numbers and of networks in units.

use crate::files::{net_text, tell_refusal};
use anyhow::Result;
use mcf_limits::MAX_DECIMALS;
use sndlib_read::{RawNet, ReadNetEnd, read_net};
use unit_scale::{
    Decimal, LinkMode, ModuleMode, NetOptions, ScaleEnd, Scaled, UnitFault, read_decimal, scale,
    units,
};

/// A word in millionths.
pub fn tell_number(rt: &HostRuntime, word: &str) -> Result<()> {
    match read_decimal(word.as_bytes()) {
        None => println!(rt; "number {word} is none")?,
        Some(Decimal::Millionths(n)) => println!(rt; "number {word} is {n} millionths")?,
        Some(Decimal::Fine) => println!(rt; "number {word} is too fine")?,
        Some(Decimal::Huge) => println!(rt; "number {word} is too large")?,
    }
    Ok(())
}

/// A word in units: the decimals, a colon and the word.
pub fn tell_units(rt: &HostRuntime, what: &str) -> Result<()> {
    let bytes = what.as_bytes();
    if bytes.len() < 2 {
        return Ok(());
    }
    let decimals = match bytes[0] {
        digit @ b'0'..=b'6' => digit - b'0',
        _ => MAX_DECIMALS,
    };
    match units(&bytes[2..], decimals) {
        Ok(n) => println!(rt; "units {what} are {n}")?,
        Err(UnitFault::NotNumber) => println!(rt; "units {what} are no number")?,
        Err(UnitFault::TooFine) => println!(rt; "units {what} are too fine")?,
        Err(UnitFault::TooLarge) => println!(rt; "units {what} are too large")?,
    }
    Ok(())
}

fn options_of(word: &str) -> NetOptions {
    let links = if word.starts_with("directed") {
        LinkMode::Directed
    } else if word.starts_with("bidirected") {
        LinkMode::Bidirected
    } else {
        LinkMode::Undirected
    };
    let modules = if word.ends_with("none") {
        ModuleMode::Ignore
    } else if word.ends_with("largest") {
        ModuleMode::Largest
    } else {
        ModuleMode::Sum
    };
    NetOptions { links, modules }
}

fn tell_scaled(rt: &HostRuntime, raw: &RawNet<'_>, scaled: &Scaled) -> Result<()> {
    let net = scaled.net();
    println!(rt;
        "nodes {} decimals {} left {} hops {}",
        net.nodes(),
        scaled.decimals(),
        scaled.left(),
        scaled.hops()
    )?;
    for cell in net.cells() {
        println!(rt;
            "cell from {} to {} both {} capacity {}",
            cell.tail, cell.head, cell.both, cell.cap
        )?;
    }
    for commodity in net.commodities() {
        println!(rt;
            "commodity from {} to {} amount {}",
            commodity.from, commodity.to, commodity.amount
        )?;
    }
    for demand in 0..raw.demands() {
        println!(rt; "demand {demand} is {:?}", scaled.commodity_of(demand))?;
    }
    Ok(())
}

fn tell_raw(rt: &HostRuntime, raw: &RawNet<'_>, options: NetOptions) -> Result<()> {
    match scale(rt.alloc(), raw, options) {
        Ok(scaled) => tell_scaled(rt, raw, &scaled),
        Err(ScaleEnd::Refused(refusal)) => tell_refusal(rt, Some(refusal)),
        Err(ScaleEnd::Memory) => tell_refusal(rt, None),
    }
}

/// The network of a file under these options.
pub fn tell_net(rt: &HostRuntime, options: &str, name: &str) -> Result<()> {
    let text = net_text(rt, name)?;
    print!(rt; "{options} {name}: ")?;
    match read_net(rt.alloc(), &text) {
        Ok(raw) => tell_raw(rt, &raw, options_of(options)),
        Err(ReadNetEnd::Refused(refusal)) => tell_refusal(rt, Some(refusal)),
        Err(ReadNetEnd::Memory) => tell_refusal(rt, None),
    }
}
