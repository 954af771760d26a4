//! Networks with as many rows as there may be, and with one more.

ghost use Rattle.std.specs.Prelude.{◌≤◌};

use crate::running::{answer_within, is_line};
use base_tests::{PRINT, expect_net, judged};
use std::alloc::{AllocError, Global};
use std::process::Abort;
use std::test::Fail;
use std::thread::Threads;

const HEADER: &[u8] = b"?SNDlib native format; type: network; version: 1.0\n";

// What stands behind the name of each link.
const LINK: &[u8] = b" ( N00000 N00001 ) 10 0 0 0 ( )\n";

// And of each demand.
const DEMAND: &[u8] = b" ( N00000 N00001 ) 1 1 UNLIMITED\n";

// Room for the text of the largest network, and for its certificate.
const ROOM: usize = 2 << 20;

// One phase puts all demands on one link.
const SOLVE: &[&str] = &["solve", "net", "--phases", "1", "--workers", "2"];

// The same with twice as many cells as links.
const SOLVE_EACH_WAY: &[&str] = &[
    "solve",
    "net",
    "--phases",
    "1",
    "--workers",
    "2",
    "--links",
    "bidirected",
];

// How many nodes, links and demands a network has.
#[derive(Clone, Copy)]
struct Counts {
    nodes: u32,
    links: u32,
    demands: u32,
}

// The digit of that place.
fn digit(number: u32, place: u32) -> u8
    requires { 1 ≤ place }
{
    b"0123456789"[(number / place % 10) as usize]
}

// The number in five digits.
fn put_number(text: &mut Vec<u8>, number: u32) -> Result<(), AllocError> {
    text.push(digit(number, 10_000))?;
    text.push(digit(number, 1000))?;
    text.push(digit(number, 100))?;
    text.push(digit(number, 10))?;
    text.push(digit(number, 1))?;
    Ok(())
}

// The rows of a section, each with a letter and its number.
fn put_rows(text: &mut Vec<u8>, count: u32, letter: &[u8], rest: &[u8]) -> Result<(), AllocError> {
    for i in 0..count {
        text.extend_from_slice(letter)?;
        put_number(text, i)?;
        text.extend_from_slice(rest)?;
    }
    Ok(())
}

// Links of 10 side by side, and demands of 1 over them.
fn network(alloc: Global, counts: Counts) -> Result<Vec<u8>, AllocError> {
    let mut text = Vec::from_slice(alloc, HEADER)?;
    text.extend_from_slice(b"NODES (\n")?;
    put_rows(&mut text, counts.nodes, b"  N", b"\n")?;
    text.extend_from_slice(b")\nLINKS (\n")?;
    put_rows(&mut text, counts.links, b"  L", LINK)?;
    text.extend_from_slice(b")\nDEMANDS (\n")?;
    put_rows(&mut text, counts.demands, b"  D", DEMAND)?;
    text.extend_from_slice(b")\n")?;
    Ok(text)
}

// As many of everything as there may be: printed as it is.
fn expect_printed(rt: &(impl Abort + Threads + Sync), alloc: Global) -> Result<(), Fail> {
    let counts = Counts {
        nodes: 512,
        links: 4096,
        demands: 32768,
    };
    let net = network(alloc, counts)?;
    let printed = answer_within(rt, alloc, PRINT, &[("net", &net)], ROOM)?;
    assert!(rt; printed.is(0, &net));
    Ok(())
}

// As many nodes and links: what is solved is valid, and `check` says so with a line that begins so.
fn expect_solved(
    rt: &(impl Abort + Threads + Sync),
    alloc: Global,
    words: &[&str],
    front: &[u8],
) -> Result<(), Fail> {
    let counts = Counts {
        nodes: 512,
        links: 4096,
        demands: 1024,
    };
    let net = network(alloc, counts)?;
    let solved = answer_within(rt, alloc, words, &[("net", &net)], ROOM)?;
    assert!(rt; solved.status == 1);
    let said = judged(rt, alloc, &net, solved.text())?;
    assert!(rt; is_line(&said, 0, front));
    Ok(())
}

#[test]
fn as_many_rows_as_there_may_be(rt: HostRuntime) -> Result<(), Fail> {
    expect_printed(&rt, rt.alloc())?;
    let front = b"valid open undirected largest lower 10/1024 0.009765 upper ";
    expect_solved(&rt, rt.alloc(), SOLVE, front)?;
    let front = b"valid open bidirected largest lower 10/1024 0.009765 upper ";
    expect_solved(&rt, rt.alloc(), SOLVE_EACH_WAY, front)
}

// What a row shows, how many nodes, links and demands there are, and the line.
type Row = (&'static str, Counts, &'static [u8]);

const TOO_MANY: &[Row] = &[
    (
        "node_too_many",
        Counts {
            nodes: 513,
            links: 1,
            demands: 1,
        },
        b"refused net N4 line 515\n",
    ),
    (
        "link_too_many",
        Counts {
            nodes: 2,
            links: 4097,
            demands: 1,
        },
        b"refused net N4 line 4103\n",
    ),
    (
        "demand_too_many",
        Counts {
            nodes: 2,
            links: 1,
            demands: 32769,
        },
        b"refused net N4 line 32778\n",
    ),
];

#[test]
fn one_row_too_many(rt: HostRuntime) -> Result<(), Fail> {
    for (shows, counts, line) in TOO_MANY {
        let net = network(rt.alloc(), *counts)?;
        expect_net(&rt, rt.alloc(), shows, PRINT, &net, 3, line)?;
    }
    Ok(())
}
