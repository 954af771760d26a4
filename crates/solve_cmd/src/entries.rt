//! The line of an entry, put into a buffer.

ghost use Rattle.std.specs.Prelude.{◌≡◌, ◌<◌, ◌∷◌, ◌++◌, [], codes, length, map};
ghost use Rattle.text_lines.specs.Lines.{spelled};
ghost use Rattle.text_lines.specs.Writing.{Puts};
ghost use Rattle.text_lines.specs.Spelling.{behind};
ghost use Rattle.sndlib_grammar.specs.Rows.{node_at, link_at, demand_at, names_of_nodes, AreNetRows};
ghost use Rattle.sndlib_grammar.specs.Canonical.{node_line, link_line, demand_line};

use mcf_base::{Sink, WriteFault};
use sndlib_rows::{LinkRow, RawNet};
use text_lines::Buffer;

// Puts the words, a space before each, and a line feed.
fn put_last_words<K: Sink>(
    buffer: &mut Buffer,
    out: &mut K,
    words: &[&[u8]],
) -> Result<(), WriteFault>
    ensures { Puts (K.seen out.old) (K.seen out.new) buffer.old buffer.new result
        (behind (map (λ w. w.now) words.now) ++ 10 ∷ []) }
{
    match buffer.put_words(out, words) {
        Ok(()) => {}
        Err(fault) => return Err(fault),
    }
    buffer.put(out, b"\n")
}

// Puts the line of an entry: a space, and words with one before each.
fn put_entry<K: Sink>(
    buffer: &mut Buffer,
    out: &mut K,
    front: &[&[u8]],
    middle: &[&[u8]],
    back: &[&[u8]],
) -> Result<(), WriteFault>
    ensures { Puts (K.seen out.old) (K.seen out.new) buffer.old buffer.new result
        (spelled ([] ∷ map (λ w. w.now) front.now ++ (map (λ w. w.now) middle.now ++ map (λ w. w.now) back.now))) }
{
    match buffer.put_words(out, front) {
        Ok(()) => {}
        Err(fault) => return Err(fault),
    }
    match buffer.put_words(out, middle) {
        Ok(()) => {}
        Err(fault) => return Err(fault),
    }
    put_last_words(buffer, out, back)
}

/// Puts the line of the node of that number.
pub fn put_node<K: Sink>(
    raw: &RawNet<'_>,
    i: u16,
    buffer: &mut Buffer,
    out: &mut K,
) -> Result<(), WriteFault>
    requires { i < length raw.now.nodes }
    ensures { Puts (K.seen out.old) (K.seen out.new) buffer.old buffer.new result
        (spelled (node_line (node_at raw.now i))) }
{
    match raw.node_place(i) {
        None => put_entry(buffer, out, &[b"", raw.node_id(i)], &[], &[]),
        Some(words) => put_entry(buffer, out, &[b"", raw.node_id(i), b"("], words, &[b")"]),
    }
}

// Puts the line of a link with the ids of its ends and the words of its modules.
fn put_link_row<K: Sink>(
    row: &LinkRow<'_>,
    source: &[u8],
    target: &[u8],
    modules: &[&[u8]],
    buffer: &mut Buffer,
    out: &mut K,
) -> Result<(), WriteFault>
    ensures { Puts (K.seen out.old) (K.seen out.new) buffer.old buffer.new result
        (spelled ([] ∷ [] ∷ row.now.id.now ∷ codes "(" ∷ source.now ∷ target.now ∷ codes ")" ∷ row.now.installed.now
        ∷ map (λ w. w.now) row.now.costs ++ codes "(" ∷ map (λ w. w.now) modules.now ++ codes ")" ∷ [])) }
{
    let [cost, routing, setup] = row.costs;
    let front: [&[u8]; 11] = [
        b"",
        row.id,
        b"(",
        source,
        target,
        b")",
        row.installed,
        cost,
        routing,
        setup,
        b"(",
    ];
    put_entry(buffer, out, &front, modules, &[b")"])
}

/// Puts the line of the link of that number.
pub fn put_link<K: Sink>(
    raw: &RawNet<'_>,
    i: u16,
    buffer: &mut Buffer,
    out: &mut K,
) -> Result<(), WriteFault>
    requires link { i < length raw.now.links }
    requires rows { AreNetRows raw.now }
    ensures { Puts (K.seen out.old) (K.seen out.new) buffer.old buffer.new result
        (spelled (link_line (names_of_nodes raw.now) (link_at raw.now i))) }
{
    let row = raw.link(i);
    let source = raw.node_id(row.source);
    let target = raw.node_id(row.target);
    put_link_row(&row, source, target, raw.modules(i), buffer, out)
}

/// Puts the line of the demand of that number.
pub fn put_demand<K: Sink>(
    raw: &RawNet<'_>,
    i: u32,
    buffer: &mut Buffer,
    out: &mut K,
) -> Result<(), WriteFault>
    requires demand { i < length raw.now.demands }
    requires rows { AreNetRows raw.now }
    ensures { Puts (K.seen out.old) (K.seen out.new) buffer.old buffer.new result
        (spelled (demand_line (names_of_nodes raw.now) (demand_at raw.now i))) }
{
    let row = raw.demand(i);
    let source = raw.node_id(row.source);
    let target = raw.node_id(row.target);
    let front: [&[u8]; 9] = [
        b"",
        row.id,
        b"(",
        source,
        target,
        b")",
        row.unit,
        row.value,
        row.longest,
    ];
    put_entry(buffer, out, &front, &[], &[])
}
