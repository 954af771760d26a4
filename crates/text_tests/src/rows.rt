//! What is written of the rows of a network text.

use crate::files::{net_text, tell_refusal};
use crate::texts::{nested_text, shown};
use anyhow::Result;
use mcf_limits::MAX_NET_BYTES;
use sndlib_read::{RawNet, ReadNetEnd, read_net};
use std::time::Instant;

fn tell_end(rt: &HostRuntime, name: &str, end: ReadNetEnd) -> Result<()> {
    print!(rt; "{name} ")?;
    match end {
        ReadNetEnd::Refused(refusal) => tell_refusal(rt, Some(refusal)),
        ReadNetEnd::Memory => tell_refusal(rt, None),
    }
}

fn tell_sizes(rt: &HostRuntime, name: &str, net: &RawNet<'_>) -> Result<()> {
    println!(rt;
        "{name} accepted nodes {} links {} demands {} skipped {} end {}",
        net.nodes(),
        net.links(),
        net.demands(),
        net.skipped(),
        net.end_line()
    )?;
    Ok(())
}

fn tell_words(rt: &HostRuntime, words: &[&[u8]]) -> Result<()> {
    print!(rt; " (")?;
    for word in words {
        print!(rt; " {}", shown(word))?;
    }
    print!(rt; " )")?;
    Ok(())
}

fn tell_nodes(rt: &HostRuntime, net: &RawNet<'_>) -> Result<()> {
    for i in 0..net.nodes() {
        let id = net.node_id(i);
        print!(rt; "node {}", shown(id))?;
        if let Some(words) = net.node_place(i) {
            tell_words(rt, words)?;
        }
        println!(rt; " is {:?}", net.node_named(id))?;
    }
    Ok(())
}

fn tell_links(rt: &HostRuntime, net: &RawNet<'_>) -> Result<()> {
    for i in 0..net.links() {
        let row = net.link(i);
        print!(rt;
            "link {} from {} to {} {}",
            shown(row.id),
            row.source,
            row.target,
            shown(row.installed)
        )?;
        tell_words(rt, &row.costs)?;
        tell_words(rt, net.modules(i))?;
        println!(rt; " line {} is {:?}", row.line, net.link_named(row.id))?;
    }
    Ok(())
}

fn tell_demands(rt: &HostRuntime, net: &RawNet<'_>) -> Result<()> {
    for i in 0..net.demands() {
        let row = net.demand(i);
        println!(rt;
            "demand {} from {} to {} {} {} {} line {} is {:?}",
            shown(row.id),
            row.source,
            row.target,
            shown(row.unit),
            shown(row.value),
            shown(row.longest),
            row.line,
            net.demand_named(row.id)
        )?;
    }
    Ok(())
}

/// The rows of a file, or its refusal.
pub fn tell_rows(rt: &HostRuntime, name: &str) -> Result<()> {
    let text = net_text(rt, name)?;
    match read_net(rt.alloc(), &text) {
        Ok(net) => {
            tell_sizes(rt, name, &net)?;
            tell_nodes(rt, &net)?;
            tell_links(rt, &net)?;
            tell_demands(rt, &net)
        }
        Err(end) => tell_end(rt, name, end),
    }
}

/// Which cuts of a file are accepted, and how many are refused.
pub fn tell_cuts(rt: &HostRuntime, name: &str) -> Result<()> {
    let text = net_text(rt, name)?;
    let mut refused = 0u64;
    for cut in 0..text.len() {
        match read_net(rt.alloc(), &text[..cut]) {
            Ok(_) => println!(rt; "{name} accepted up to byte {cut}")?,
            Err(_) => refused = refused.wrapping_add(1),
        }
    }
    println!(rt; "{name} refused at {refused} cuts")?;
    Ok(())
}

/// A text with a skipped section of `count` nested groups.
pub fn tell_nested(rt: &HostRuntime, count: &str) -> Result<()> {
    let groups = match count.parse::<u32>() {
        Ok(groups) => groups as usize,
        Err(_) => return Ok(()),
    };
    let text = nested_text(rt.alloc(), groups)?;
    if text.len() > MAX_NET_BYTES {
        return Ok(());
    }
    match read_net(rt.alloc(), &text) {
        Ok(net) => tell_sizes(rt, "nested", &net),
        Err(end) => tell_end(rt, "nested", end),
    }
}

/// How long reading a file takes.
pub fn tell_time(rt: &HostRuntime, name: &str) -> Result<()> {
    let text = net_text(rt, name)?;
    let start = Instant::now(rt)?;
    let answer = read_net(rt.alloc(), &text);
    let took = start.elapsed(rt)?;
    println!(rt;
        "{name} {} bytes in {} microseconds",
        text.len(),
        took.as_micros()
    )?;
    match answer {
        Ok(net) => tell_sizes(rt, name, &net),
        Err(end) => tell_end(rt, name, end),
    }
}
