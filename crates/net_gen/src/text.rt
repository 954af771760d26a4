//! The text of a generated network.

ghost use Rattle.std.specs.Prelude.{◌≡◌, ◌≤◌, ◌++◌, OnOk, IfOk, map, length};
ghost use Rattle.std.specs.List.{range_with_len};
ghost use Rattle.std.specs.String.{string_bytes};
ghost use Rattle.mcf_limits.specs.declared.TheConstants.{MAX_NET_BYTES, MAX_NODES};
ghost use Rattle.text_lines.specs.Lines.{spelled, text_of};
ghost use Rattle.sndlib_grammar.specs.Canonical.{node_line, link_line, demand_line};
ghost use Rattle.net_gen.specs.Draws.{past};
ghost use Rattle.net_gen.specs.Lines.{drawn_link_line, drawn_demand_line};
ghost use Rattle.net_gen.specs.Generated.{AreCounts, generated_names, generated_node, generated_link, generated_links, generated_demand, generated_demands, generated_text, words_of_link, words_before_link};

use crate::draws::{LinkDraw, draw_ends, draw_link};
use rand_core::SeedableRng;
use rand_pcg::Lcg128Xsl64;
use std::alloc::{AllocError, Global};

// The first line, and the line that opens the nodes.
const NODES: &str = "?SNDlib native format; type: network; version: 1.0\nNODES (\n";

// The line that closes the nodes, and the one that opens the links.
const LINKS: &str = ")\nLINKS (\n";

const DEMANDS: &str = ")\nDEMANDS (\n";

const END: &str = ")\n";

// Puts the line of a node.
fn put_node(text: &mut String, i: u16) -> Result<(), AllocError>
    ensures { OnOk result (string_bytes text.new
        ≡ string_bytes text.old ++ spelled (node_line (generated_node i))) }
{
    write!(text, "  N{i}\n")
}

// Puts the lines of the nodes.
fn put_nodes(text: &mut String, nodes: u16) -> Result<(), AllocError>
    ensures { OnOk result (string_bytes text.new
        ≡ string_bytes text.old ++ text_of (map node_line (map generated_node (range_with_len 0 nodes)))) }
{
    for i in 0..nodes {
        put_node(text, i)?;
    }
    Ok(())
}

// Puts the line of a link.
fn put_link_line(text: &mut String, i: u16, link: &LinkDraw) -> Result<(), AllocError>
    ensures { OnOk result (string_bytes text.new
        ≡ string_bytes text.old ++ spelled (drawn_link_line i link.now.source link.now.target link.now.capacity)) }
{
    let LinkDraw {
        source,
        target,
        capacity,
    } = link;
    write!(
        text,
        "  L{i} ( N{source} N{target} ) {capacity} 0 0 0 ( )\n"
    )
}

// Draws a link, and puts its line.
fn put_link(
    text: &mut String,
    draws: &mut Lcg128Xsl64,
    nodes: u16,
    i: u16,
) -> Result<(), AllocError>
    requires some { 2 ≤ nodes }
    requires most { nodes ≤ MAX_NODES }
    ensures line { OnOk result (string_bytes text.new
        ≡ string_bytes text.old ++ spelled (link_line (generated_names nodes) (generated_link draws.old nodes i))) }
    ensures rest { OnOk result (draws.new ≡ past (words_of_link nodes i) draws.old) }
{
    let link = draw_link(draws, nodes, i);
    put_link_line(text, i, &link)
}

// Draws the links, and puts their lines.
fn put_links(
    text: &mut String,
    draws: &mut Lcg128Xsl64,
    nodes: u16,
    links: u16,
) -> Result<(), AllocError>
    requires some { 2 ≤ nodes }
    requires most { nodes ≤ MAX_NODES }
    ensures lines { OnOk result (string_bytes text.new
        ≡ string_bytes text.old ++ text_of
        (map (link_line (generated_names nodes)) (generated_links draws.old nodes links))) }
    ensures rest { OnOk result (draws.new ≡ past (words_before_link nodes links) draws.old) }
{
    for i in 0..links {
        put_link(text, draws, nodes, i)?;
    }
    Ok(())
}

// Puts the line of a demand.
fn put_demand_line(text: &mut String, i: u32, source: u16, target: u16) -> Result<(), AllocError>
    ensures { OnOk result (string_bytes text.new
        ≡ string_bytes text.old ++ spelled (drawn_demand_line i source target)) }
{
    let value = 1 + i % 10;
    write!(text, "  D{i} ( N{source} N{target} ) 1 {value} UNLIMITED\n")
}

// Draws the ends of a demand, and puts its line.
fn put_demand(
    text: &mut String,
    draws: &mut Lcg128Xsl64,
    nodes: u16,
    i: u32,
) -> Result<(), AllocError>
    requires some { 2 ≤ nodes }
    requires most { nodes ≤ MAX_NODES }
    ensures line { OnOk result (string_bytes text.new
        ≡ string_bytes text.old ++ spelled
        (demand_line (generated_names nodes) (generated_demand draws.old nodes i))) }
    ensures rest { OnOk result (draws.new ≡ past 2 draws.old) }
{
    let (source, target) = draw_ends(draws, nodes);
    put_demand_line(text, i, source, target)
}

// Draws the demands, and puts their lines.
fn put_demands(
    text: &mut String,
    draws: &mut Lcg128Xsl64,
    nodes: u16,
    demands: u32,
) -> Result<(), AllocError>
    requires some { 2 ≤ nodes }
    requires most { nodes ≤ MAX_NODES }
    ensures lines { OnOk result (string_bytes text.new
        ≡ string_bytes text.old ++ text_of
        (map (demand_line (generated_names nodes)) (generated_demands draws.old nodes demands))) }
{
    for i in 0..demands {
        put_demand(text, draws, nodes, i)?;
    }
    Ok(())
}

/// The canonical text of the network that is drawn from the seed, with these numbers of nodes, links and demands.
/// It is within the limit of texts that are read.
pub fn generate(
    alloc: Global,
    seed: u64,
    nodes: u16,
    links: u16,
    demands: u32,
) -> Result<String, AllocError>
    requires { AreCounts nodes links demands }
    ensures text { IfOk result (λ text. string_bytes text ≡ generated_text seed nodes links demands) }
    ensures short { IfOk result (λ text. length (string_bytes text) ≤ MAX_NET_BYTES) }
{
    let mut draws = Lcg128Xsl64::seed_from_u64(seed);
    let mut text = String::new(alloc);
    text.push_str(NODES)?;
    put_nodes(&mut text, nodes)?;
    text.push_str(LINKS)?;
    put_links(&mut text, &mut draws, nodes, links)?;
    text.push_str(DEMANDS)?;
    put_demands(&mut text, &mut draws, nodes, demands)?;
    text.push_str(END)?;
    Ok(text)
}
