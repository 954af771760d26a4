//! Rows of `solve`: the certificate of a network, or its refusal. Each certificate is then judged by `check`.

use base_tests::{
    BOTH_WAYS, BOTH_WAYS_SOLVED, CUT_SIGNED, NO_CAPACITY, TWO_LINKS, expect_net, judged,
};
use cert_tests::{ONE_LINK, SIGNED};
use std::test::Fail;

// Three nodes in a row with modules, a skipped section, and a demand from a node to itself.
const THREE_CITIES: &[u8] =
    b"?SNDlib native format; type: network; version: 1.0\n# network tri\nMETA (\n  granularity = 1\n)\n# NODE SECTION\nNODES (\n  Berlin ( 13.48 52.52 )\n  Essen ( 7.01 51.45 )\n  Ulm ( 9.99 48.40 )\n)\nLINKS (\n  L1 ( Berlin Essen ) 0.00 0.00 0.00 0.00 ( 155.00 100.00 622.00 300.00 )\n  L2 ( Essen Ulm ) 0.00 0.00 0.00 0.00 ( 155.00 100.00 622.00 300.00 )\n)\nDEMANDS (\n  D1 ( Berlin Ulm ) 1 100.00 UNLIMITED\n  D2 ( Ulm Ulm ) 1 5.00 UNLIMITED\n  D3 ( Essen Ulm ) 1 100.00 3\n)\nADMISSIBLE_PATHS (\n  D1 ( P1 ( L1 L2 ) )\n)\n";

// What is solved of it.
const THREE_CITIES_SOLVED: &[u8] =
    b"mcf-certificate 2\nverdict closed\nlinks undirected\nmodules largest\nnet nodes 3 cells 2 commodities 2 decimals 0 skipped 2 left 1 hops 1\ngap 0.050000\nphases 1\nscale 622 200\nlower 622/200 3.110000\nupper 2812181307944075264/902479144078540800 3.116063\npath D1 100 =L1 =L2\npath D3 100 =L2\nlength =L1 17592186044416\nlength =L2 4503599627370496\npotential Berlin 0 17592186044416 4521191813414912\npotential Essen 17592186044416 0 4503599627370496\nend\n";

// Two links that share no node: the first is used against its direction, the second along it.
const APART: &[u8] =
    b"?SNDlib native format; type: network; version: 1.0\nNODES (\n  A\n  B\n  C\n  D\n)\nLINKS (\n  L1 ( B A ) 6 0 0 0 ( )\n  L2 ( C D ) 4 0 0 0 ( )\n)\nDEMANDS (\n  D1 ( A B ) 1 3 UNLIMITED\n  D2 ( C D ) 1 2 UNLIMITED\n)\n";

// A demand from a node to itself alone.
const FROM_A_TO_A: &[u8] =
    b"?SNDlib native format; type: network; version: 1.0\nNODES (\n  A\n  B\n)\nLINKS (\n  L1 ( A B ) 10 0 0 0 ( )\n)\nDEMANDS (\n  D1 ( A A ) 1 4 UNLIMITED\n)\n";

// A capacity at its limit, and a demand one over it.
const GREAT_DEMAND: &[u8] =
    b"?SNDlib native format; type: network; version: 1.0\nNODES (\n  A\n  B\n)\nLINKS (\n  L1 ( A B ) 17592186044416 0 0 0 ( )\n)\nDEMANDS (\n  D1 ( A B ) 1 17592186044417 UNLIMITED\n)\n";

// A capacity of seven decimals.
const SEVEN_DECIMALS: &[u8] =
    b"?SNDlib native format; type: network; version: 1.0\nNODES (\n  A\n  B\n)\nLINKS (\n  L1 ( A B ) 0.1234567 0 0 0 ( )\n)\nDEMANDS (\n  D1 ( A B ) 1 4 UNLIMITED\n)\n";

// What a row shows, the words, the network, the status, and the text.
type Row = (
    &'static str,
    &'static [&'static str],
    &'static [u8],
    u8,
    &'static [u8],
);

const SOLVED: &[Row] = &[
    (
        "closed_on_one_link",
        &["solve", "net", "--links", "directed"],
        ONE_LINK,
        0,
        SIGNED,
    ),
    (
        "gap_met_by_equality",
        &["solve", "net", "--links", "directed", "--gap", "0"],
        ONE_LINK,
        0,
        b"mcf-certificate 2\nverdict closed\nlinks directed\nmodules largest\nnet nodes 2 cells 1 commodities 1 decimals 0 skipped 0 left 0 hops 0\ngap 0.000000\nphases 1\nscale 10 4\nlower 10/4 2.500000\nupper 45035996273704960/18014398509481984 2.500000\npath D1 4 +L1\nlength +L1 4503599627370496\npotential A 0 4503599627370496\nend\n",
    ),
    (
        "open_after_one_phase",
        &[
            "solve", "net", "--links", "directed", "--phases", "1", "--step", "65536",
        ],
        TWO_LINKS,
        1,
        b"mcf-certificate 2\nverdict open\nlinks directed\nmodules largest\nnet nodes 2 cells 2 commodities 1 decimals 0 skipped 0 left 0 hops 0\ngap 0.050000\nphases 1\nscale 7 10\nlower 7/10 0.700000\nupper 20266198323167226/19301141260159260 1.050001\npath D1 10 +L2\nlength +L1 2251799813685248\nlength +L2 1930114126015926\npotential A 0 1930114126015926\nend\n",
    ),
    (
        "open_just_above_the_gap",
        &[
            "solve", "net", "--links", "directed", "--phases", "1", "--step", "65536", "--gap",
            "0.5",
        ],
        TWO_LINKS,
        1,
        b"mcf-certificate 2\nverdict open\nlinks directed\nmodules largest\nnet nodes 2 cells 2 commodities 1 decimals 0 skipped 0 left 0 hops 0\ngap 0.500000\nphases 1\nscale 7 10\nlower 7/10 0.700000\nupper 20266198323167226/19301141260159260 1.050001\npath D1 10 +L2\nlength +L1 2251799813685248\nlength +L2 1930114126015926\npotential A 0 1930114126015926\nend\n",
    ),
    (
        "closed_a_millionth_later",
        &[
            "solve", "net", "--links", "directed", "--phases", "1", "--step", "65536", "--gap",
            "0.500001",
        ],
        TWO_LINKS,
        0,
        b"mcf-certificate 2\nverdict closed\nlinks directed\nmodules largest\nnet nodes 2 cells 2 commodities 1 decimals 0 skipped 0 left 0 hops 0\ngap 0.500001\nphases 1\nscale 7 10\nlower 7/10 0.700000\nupper 20266198323167226/19301141260159260 1.050001\npath D1 10 +L2\nlength +L1 2251799813685248\nlength +L2 1930114126015926\npotential A 0 1930114126015926\nend\n",
    ),
    (
        "second_phase_takes_the_other_link",
        &[
            "solve", "net", "--links", "directed", "--step", "65536", "--gap", "0.2",
        ],
        TWO_LINKS,
        0,
        b"mcf-certificate 2\nverdict closed\nlinks directed\nmodules largest\nnet nodes 2 cells 2 commodities 1 decimals 0 skipped 0 left 0 hops 0\ngap 0.200000\nphases 3\nscale 3 10\nlower 9/10 0.900000\nupper 20266198323167226/19301141260159260 1.050001\npath D1 10 +L1\npath D1 20 +L2\nlength +L1 2251799813685248\nlength +L2 1930114126015926\npotential A 0 1930114126015926\nend\n",
    ),
    (
        "no_way_against_a_direction",
        &["solve", "net", "--links", "directed"],
        BOTH_WAYS,
        0,
        b"mcf-certificate 2\nverdict closed\nlinks directed\nmodules largest\nnet nodes 2 cells 1 commodities 2 decimals 0 skipped 0 left 0 hops 0\ngap 0.050000\nphases 0\nscale 0 1\nlower 0/1 0.000000\nupper 0/5 0.000000\nlength +L1 0\npotential A 0 0\npotential B 1 0\nend\n",
    ),
    (
        "no_way_over_a_link_without_capacity",
        &["solve", "net"],
        NO_CAPACITY,
        0,
        CUT_SIGNED,
    ),
    (
        "file_behind_two_dashes",
        &["solve", "--gap=5E-2", "--", "net"],
        ONE_LINK,
        0,
        b"mcf-certificate 2\nverdict closed\nlinks undirected\nmodules largest\nnet nodes 2 cells 1 commodities 1 decimals 0 skipped 0 left 0 hops 0\ngap 0.050000\nphases 1\nscale 10 4\nlower 10/4 2.500000\nupper 45035996273704960/18014398509481984 2.500000\npath D1 4 =L1\nlength =L1 4503599627370496\npotential A 0 4503599627370496\nend\n",
    ),
    (
        "whole_capacity_each_way",
        &["solve", "net", "--links", "bidirected"],
        BOTH_WAYS,
        0,
        BOTH_WAYS_SOLVED,
    ),
    (
        "cells_in_the_order_of_links",
        &["solve", "net", "--links=bidirected", "--phases", "1"],
        APART,
        1,
        b"mcf-certificate 2\nverdict open\nlinks bidirected\nmodules largest\nnet nodes 4 cells 4 commodities 2 decimals 0 skipped 0 left 0 hops 0\ngap 0.050000\nphases 1\nscale 6 3\nlower 6/3 2.000000\nupper 69067349549907964/18014398509481982 3.834009\npath D1 3 -L1\npath D2 2 +L2\nlength +L1 2753212710912000\nlength -L1 3002399751580330\nlength +L2 4503599627370496\nlength -L2 4129819066368000\npotential A 0 3002399751580330 4611686018427387904 4611686018427387904\npotential C 4611686018427387904 4611686018427387904 0 4503599627370496\nend\n",
    ),
    (
        "no_way_either_way",
        &["solve", "net", "--links", "bidirected"],
        NO_CAPACITY,
        0,
        b"mcf-certificate 2\nverdict closed\nlinks bidirected\nmodules largest\nnet nodes 2 cells 2 commodities 1 decimals 0 skipped 0 left 0 hops 0\ngap 0.050000\nphases 0\nscale 0 1\nlower 0/1 0.000000\nupper 0/5 0.000000\nlength +L1 1\nlength -L1 1\npotential A 0 1\nend\n",
    ),
    (
        "modules_and_a_demand_left_out",
        &["solve", "net", "--step", "1048576"],
        THREE_CITIES,
        0,
        THREE_CITIES_SOLVED,
    ),
];

const REFUSED: &[Row] = &[
    (
        "no_demand_is_left",
        &["solve", "net"],
        FROM_A_TO_A,
        3,
        b"refused net N10 line 12\n",
    ),
    (
        "amount_over_its_limit",
        &["solve", "net"],
        GREAT_DEMAND,
        3,
        b"refused net N9 line 10\n",
    ),
    (
        "seventh_decimal_is_too_fine",
        &["solve", "net"],
        SEVEN_DECIMALS,
        3,
        b"refused net N8 line 7\n",
    ),
];

// The paths are forced, so the text is the same for every number of workers.
const FORCED: &[&str] = &["1", "2", "16"];

#[test]
fn solved(rt: HostRuntime) -> Result<(), Fail> {
    for (shows, words, net, status, text) in SOLVED {
        expect_net(&rt, rt.alloc(), shows, words, net, *status, text)?;
        let said = judged(&rt, rt.alloc(), net, text)?;
        assert!(&rt; said.begins(0, b"valid "), "{shows}");
    }
    Ok(())
}

#[test]
fn refused(rt: HostRuntime) -> Result<(), Fail> {
    for (shows, words, net, status, text) in REFUSED {
        expect_net(&rt, rt.alloc(), shows, words, net, *status, text)?;
    }
    Ok(())
}

#[test]
fn same_for_every_number_of_workers(rt: HostRuntime) -> Result<(), Fail> {
    for workers in FORCED {
        let words = ["solve", "net", "--step", "1048576", "--workers", workers];
        expect_net(
            &rt,
            rt.alloc(),
            workers,
            &words,
            THREE_CITIES,
            0,
            THREE_CITIES_SOLVED,
        )?;
    }
    Ok(())
}
