//! Runs of `hops` and `throughput`, and of `checkhops` and `checkthroughput`: what is said of a text, and of one in which a part is
//! another.

use crate::texts::{HOPS, NET};
use base_tests::{File, expect, expect_net};
use cert_tests::{ONE_LINK, edited};
use std::alloc::Global;
use std::test::Fail;
use std::thread::Threads;

const CHECK_HOPS: &[&str] = &["checkhops", "net", "cert"];

const CHECK_TOTAL: &[&str] = &["checkthroughput", "net", "cert"];

const SOLVE_HOPS: &[&str] = &["hops", "net", "--step", "1048576"];

const SOLVE_TOTAL: &[&str] = &[
    "throughput",
    "net",
    "--links",
    "directed",
    "--phases",
    "1",
    "--step",
    "327680",
];

// A certificate of the total of one link.
const TOTAL: &[u8] =
    b"mcf-throughput 1\nverdict open\nlinks directed\nmodules largest\nnet nodes 2 cells 1 commodities 1 decimals 0 skipped 0 left 0 hops 0\ngap 0.050000\nphases 1\nscale 4 4\nlower 16/4 4.000000\nupper 20266198323167224/4728779608739020 4.285715\nthreshold 4728779608739020\npath D1 4 +L1\nlength +L1 225179981368524\npotential A 0 225179981368524\nend\n";

// What a row shows, the part that is replaced and what takes its place, the status, and the line.
type Row = (
    &'static str,
    &'static [u8],
    &'static [u8],
    u8,
    &'static [u8],
);

const OF_HOPS: &[Row] = &[
    (
        "valid",
        b"",
        b"",
        0,
        b"valid closed undirected largest lower 2/2 1.000000 upper 9007474132647932/9007199254740992 1.000031\n",
    ),
    (
        "path_over_its_limit",
        b"=L1\nl",
        b"=L2 =L3\nl",
        1,
        b"invalid C1\n",
    ),
    (
        "layer_left_out",
        b"layer A 1 0 4503599627370496 13743895347\n",
        b"",
        1,
        b"invalid C6\n",
    ),
    (
        "layer_that_rises_too_far",
        b"layer A 1 0 4503599627370496",
        b"layer A 1 0 4503599627370497",
        1,
        b"invalid C7\n",
    ),
    ("another_verdict", b"closed", b"open", 1, b"invalid C10\n"),
    (
        "certificate_without_limits",
        b"mcf-hops 1",
        b"mcf-certificate 2",
        3,
        b"refused cert K1 line 1\n",
    ),
    (
        "layer_that_is_no_number",
        b"layer A 0",
        b"layer A 00",
        3,
        b"refused cert K4 line 15\n",
    ),
];

const OF_TOTALS: &[Row] = &[
    (
        "valid",
        b"",
        b"",
        0,
        b"valid open directed largest lower 16/4 4.000000 upper 20266198323167224/4728779608739020 4.285715\n",
    ),
    (
        "more_than_is_wanted",
        b"path D1 4",
        b"path D1 5",
        1,
        b"invalid C2\n",
    ),
    (
        "length_left_out",
        b"length +L1 225179981368524\n",
        b"",
        1,
        b"invalid C5\n",
    ),
    (
        "threshold_of_nothing",
        b"threshold 4728779608739020",
        b"threshold 0",
        1,
        b"invalid C8\n",
    ),
    (
        "certificate_of_a_fraction",
        b"mcf-throughput 1",
        b"mcf-certificate 2",
        3,
        b"refused cert K1 line 1\n",
    ),
    (
        "no_threshold",
        b"threshold 4728779608739020\n",
        b"",
        3,
        b"refused cert K2 line 11\n",
    ),
];

// The words are answered so, on the network and the text.
fn said<'a, R: Threads + Sync>(
    rt: &R,
    alloc: Global,
    words: &[&str],
    net: &'a [u8],
    cert: &'a [u8],
    row: &Row,
) -> Result<(), Fail> {
    let (shows, _, _, status, line) = *row;
    let files: [File<'a>; 2] = [("net", net), ("cert", cert)];
    expect(rt, alloc, shows, words, &files, status, line)
}

// Each row is answered so, on the network and the text with its edit.
fn all_said<R: Threads + Sync>(
    rt: &R,
    alloc: Global,
    words: &[&str],
    net: &[u8],
    cert: &[u8],
    rows: &[Row],
) -> Result<(), Fail> {
    for row in rows {
        let text = edited(alloc, cert, row.1, row.2)?;
        said(rt, alloc, words, net, &text, row)?;
    }
    Ok(())
}

#[test]
fn hops_judged(rt: HostRuntime) -> Result<(), Fail> {
    all_said(&rt, rt.alloc(), CHECK_HOPS, NET, HOPS, OF_HOPS)
}

#[test]
fn totals_judged(rt: HostRuntime) -> Result<(), Fail> {
    all_said(&rt, rt.alloc(), CHECK_TOTAL, ONE_LINK, TOTAL, OF_TOTALS)
}

// The certificate where the demand may take no link.
const NO_WALK: &[u8] =
    b"mcf-hops 1\nverdict closed\nlinks undirected\nmodules largest\nnet nodes 3 cells 3 commodities 1 decimals 0 skipped 0 left 0 hops 1\ngap 0.050000\nphases 0\nscale 0 1\nlower 0/1 0.000000\nupper 0/2 0.000000\nlength =L1 0\nlength =L2 0\nlength =L3 0\nlayer A 0 0 1 1\nend\n";

#[test]
fn hops_solved(rt: HostRuntime) -> Result<(), Fail> {
    expect_net(
        &rt,
        rt.alloc(),
        "one_link_allowed",
        SOLVE_HOPS,
        NET,
        0,
        HOPS,
    )?;
    let none = edited(rt.alloc(), NET, b"1 2 1\n", b"1 2 0\n")?;
    expect_net(
        &rt,
        rt.alloc(),
        "no_link_allowed",
        SOLVE_HOPS,
        &none,
        0,
        NO_WALK,
    )
}

#[test]
fn total_solved(rt: HostRuntime) -> Result<(), Fail> {
    expect_net(&rt, rt.alloc(), "one_link", SOLVE_TOTAL, ONE_LINK, 1, TOTAL)
}
