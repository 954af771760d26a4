//! The canonical text, written.

ghost use Rattle.std.specs.Prelude.{◌≡◌, ◌++◌, [], length, map, OnOk, OnErr};
ghost use Rattle.text_lines.specs.Lines.{text_of};
ghost use Rattle.mcf_base.specs.Sink.{Wrote};
ghost use Rattle.text_lines.specs.Writing.{Puts};
ghost use Rattle.sndlib_grammar.specs.Rows.{names_of_nodes};
ghost use Rattle.sndlib_grammar.specs.Canonical.{node_line, link_line, demand_line, canonical_text};

use crate::entries::{put_demand, put_link, put_node};
use mcf_base::{Sink, WriteFault};
use sndlib_rows::RawNet;
use text_lines::Buffer;

// The first line, and the line that opens the nodes.
const NODES: &[u8] = b"?SNDlib native format; type: network; version: 1.0\nNODES (\n";

// The line that closes the nodes, and the one that opens the links.
const LINKS: &[u8] = b")\nLINKS (\n";

const DEMANDS: &[u8] = b")\nDEMANDS (\n";

const END: &[u8] = b")\n";

fn put_nodes<K: Sink>(raw: &RawNet<'_>, buffer: &mut Buffer, out: &mut K) -> Result<(), WriteFault>
    ensures { Puts (K.seen out.old) (K.seen out.new) buffer.old buffer.new result
        (text_of (map node_line raw.now.nodes)) }
{
    for i in 0..raw.nodes() {
        match put_node(raw, i, buffer, out) {
            Ok(()) => {}
            Err(fault) => return Err(fault),
        }
    }
    Ok(())
}

fn put_links<K: Sink>(raw: &RawNet<'_>, buffer: &mut Buffer, out: &mut K) -> Result<(), WriteFault>
    ensures { Puts (K.seen out.old) (K.seen out.new) buffer.old buffer.new result
        (text_of (map (link_line (names_of_nodes raw.now)) raw.now.links)) }
{
    for i in 0..raw.links() {
        match put_link(raw, i, buffer, out) {
            Ok(()) => {}
            Err(fault) => return Err(fault),
        }
    }
    Ok(())
}

fn put_demands<K: Sink>(
    raw: &RawNet<'_>,
    buffer: &mut Buffer,
    out: &mut K,
) -> Result<(), WriteFault>
    ensures { Puts (K.seen out.old) (K.seen out.new) buffer.old buffer.new result
        (text_of (map (demand_line (names_of_nodes raw.now)) raw.now.demands)) }
{
    for i in 0..raw.demands() {
        match put_demand(raw, i, buffer, out) {
            Ok(()) => {}
            Err(fault) => return Err(fault),
        }
    }
    Ok(())
}

// The text from the opening of the demands on.
fn put_from_demands<K: Sink>(
    raw: &RawNet<'_>,
    buffer: &mut Buffer,
    out: &mut K,
) -> Result<(), WriteFault>
    ensures { Puts (K.seen out.old) (K.seen out.new) buffer.old buffer.new result
        (DEMANDS.now ++ (text_of (map (demand_line (names_of_nodes raw.now)) raw.now.demands) ++ END.now)) }
{
    match buffer.put(out, DEMANDS) {
        Ok(()) => {}
        Err(fault) => return Err(fault),
    }
    match put_demands(raw, buffer, out) {
        Ok(()) => {}
        Err(fault) => return Err(fault),
    }
    buffer.put(out, END)
}

// The text from the opening of the links on.
fn put_from_links<K: Sink>(
    raw: &RawNet<'_>,
    buffer: &mut Buffer,
    out: &mut K,
) -> Result<(), WriteFault>
    ensures { Puts (K.seen out.old) (K.seen out.new) buffer.old buffer.new result
        (LINKS.now ++ (text_of (map (link_line (names_of_nodes raw.now)) raw.now.links) ++
        (DEMANDS.now ++ (text_of (map (demand_line (names_of_nodes raw.now)) raw.now.demands) ++ END.now)))) }
{
    match buffer.put(out, LINKS) {
        Ok(()) => {}
        Err(fault) => return Err(fault),
    }
    match put_links(raw, buffer, out) {
        Ok(()) => {}
        Err(fault) => return Err(fault),
    }
    put_from_demands(raw, buffer, out)
}

// The whole text.
fn put_all<K: Sink>(raw: &RawNet<'_>, buffer: &mut Buffer, out: &mut K) -> Result<(), WriteFault>
    ensures { Puts (K.seen out.old) (K.seen out.new) buffer.old buffer.new result (canonical_text raw.now) }
{
    match buffer.put(out, NODES) {
        Ok(()) => {}
        Err(fault) => return Err(fault),
    }
    match put_nodes(raw, buffer, out) {
        Ok(()) => {}
        Err(fault) => return Err(fault),
    }
    put_from_links(raw, buffer, out)
}

/// Writes the canonical text of the rows, and takes no memory. After a fault a prefix of it was written.
pub fn print_net<K: Sink>(raw: &RawNet<'_>, out: &mut K) -> Result<(), WriteFault>
    ensures { Wrote (K.seen out.old) (K.seen out.new) result (canonical_text raw.now) }
{
    let mut buffer = Buffer::new();
    match put_all(raw, &mut buffer, out) {
        Ok(()) => {}
        Err(fault) => return Err(fault),
    }
    buffer.flush(out)
}
