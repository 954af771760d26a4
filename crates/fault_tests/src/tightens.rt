//! Rows of `tighten`: the best certificate that one or two give, or what else is said of the files.

use base_tests::{File, TIGHTEN, TIGHTEN_BOTH, expect};
use std::test::Fail;

// A triangle with demands from one node to both others.
const TRIANGLE: &[u8] =
    b"?SNDlib native format; type: network; version: 1.0\nNODES (\n  A\n  B\n  C\n)\nLINKS (\n  L1 ( A B ) 10 0 0 0 ( )\n  L2 ( B C ) 6 0 0 0 ( )\n  L3 ( C A ) 6 0 0 0 ( )\n)\nDEMANDS (\n  D1 ( A B ) 1 8 UNLIMITED\n  D2 ( A C ) 1 4 UNLIMITED\n)\n";

// A certificate of it with the greater lower fraction, and the bound of lengths 1.
const ROUTED: &[u8] =
    b"mcf-certificate 2\nverdict open\nlinks undirected\nmodules largest\nnet nodes 3 cells 3 commodities 2 decimals 0 skipped 0 left 0 hops 0\ngap 0.050000\nphases 1\nscale 10 8\nlower 10/8 1.250000\nupper 22/12 1.833334\npath D1 8 =L1\npath D2 4 =L3\nlength =L1 1\nlength =L2 1\nlength =L3 1\npotential A 0 1 1\nend\n";

// One with the smaller lower fraction, and the bound of the cut round the node.
const CUT_OUT: &[u8] =
    b"mcf-certificate 2\nverdict open\nlinks undirected\nmodules largest\nnet nodes 3 cells 3 commodities 2 decimals 0 skipped 0 left 0 hops 0\ngap 0.050000\nphases 2\nscale 6 10\nlower 12/10 1.200000\nupper 16/12 1.333334\npath D1 14 =L1\npath D1 2 =L3 =L2\npath D2 8 =L3\nlength =L1 1\nlength =L2 0\nlength =L3 1\npotential A 0 1 1\nend\n";

// The best that each with the other, and the first alone, gives.
const BEST: &[u8] =
    b"mcf-certificate 2\nverdict open\nlinks undirected\nmodules largest\nnet nodes 3 cells 3 commodities 2 decimals 0 skipped 0 left 0 hops 0\ngap 0.050000\nphases 1\nscale 10 8\nlower 10/8 1.250000\nupper 16/12 1.333334\npath D1 8 =L1\npath D2 4 =L3\nlength =L1 1\nlength =L2 0\nlength =L3 1\npotential A 0 1 1\nend\n";

// The first of them with a verdict that its fractions do not bear out.
const UNTRUE: &[u8] =
    b"mcf-certificate 2\nverdict closed\nlinks undirected\nmodules largest\nnet nodes 3 cells 3 commodities 2 decimals 0 skipped 0 left 0 hops 0\ngap 0.050000\nphases 1\nscale 10 8\nlower 10/8 1.250000\nupper 22/12 1.833334\npath D1 8 =L1\npath D2 4 =L3\nlength =L1 1\nlength =L2 1\nlength =L3 1\npotential A 0 1 1\nend\n";

/// A path of links of one way.
pub const PATH: &[u8] =
    b"?SNDlib native format; type: network; version: 1.0\nNODES (\n  A\n  B\n  C\n)\nLINKS (\n  L1 ( A B ) 9 0 0 0 ( )\n  L2 ( B C ) 5 0 0 0 ( )\n)\nDEMANDS (\n  D1 ( A B ) 1 2 UNLIMITED\n  D2 ( A C ) 1 1 UNLIMITED\n  D3 ( B C ) 1 1 UNLIMITED\n)\n";

pub const PATH_CERTIFICATE: &[u8] =
    b"mcf-certificate 2\nverdict open\nlinks directed\nmodules none\nnet nodes 3 cells 2 commodities 3 decimals 0 skipped 0 left 0 hops 0\ngap 0.000000\nphases 1\nscale 5 2\nlower 5/2 2.500000\nupper 14/5 2.800000\npath D1 2 +L1\npath D2 1 +L1 +L2\npath D3 1 +L2\nlength +L1 1\nlength +L2 1\npotential B 0 0 1\npotential A 0 1 2\nend\n";

pub const PATH_BEST: &[u8] =
    b"mcf-certificate 2\nverdict closed\nlinks directed\nmodules none\nnet nodes 3 cells 2 commodities 3 decimals 0 skipped 0 left 0 hops 0\ngap 0.000000\nphases 1\nscale 5 2\nlower 5/2 2.500000\nupper 5/2 2.500000\npath D1 2 +L1\npath D2 1 +L1 +L2\npath D3 1 +L2\nlength +L1 0\nlength +L2 1\npotential A 0 0 1\npotential B 0 0 1\nend\n";

// Two nodes and a link of two cells.
const PAIR: &[u8] =
    b"?SNDlib native format; type: network; version: 1.0\nNODES (\n  A\n  B\n)\nLINKS (\n  L1 ( A B ) 10 0 0 0 ( )\n)\nDEMANDS (\n  D1 ( A B ) 1 5 UNLIMITED\n  D2 ( B A ) 1 4 UNLIMITED\n)\n";

const PAIR_CERTIFICATE: &[u8] =
    b"mcf-certificate 2\nverdict open\nlinks bidirected\nmodules largest\nnet nodes 2 cells 2 commodities 2 decimals 0 skipped 0 left 0 hops 0\ngap 0.050000\nphases 1\nscale 10 5\nlower 10/5 2.000000\nupper 20/9 2.222223\npath D1 5 +L1\npath D2 4 -L1\nlength +L1 1\nlength -L1 1\npotential A 0 1\npotential B 1 0\nend\n";

const PAIR_BEST: &[u8] =
    b"mcf-certificate 2\nverdict closed\nlinks bidirected\nmodules largest\nnet nodes 2 cells 2 commodities 2 decimals 0 skipped 0 left 0 hops 0\ngap 0.050000\nphases 1\nscale 10 5\nlower 10/5 2.000000\nupper 10/5 2.000000\npath D1 5 +L1\npath D2 4 -L1\nlength +L1 1\nlength -L1 0\npotential A 0 1\npotential B 0 0\nend\n";

// Two triangles, with a link between them.
const BAR: &[u8] =
    b"?SNDlib native format; type: network; version: 1.0\nNODES (\n  A\n  B\n  C\n  D\n  E\n  F\n)\nLINKS (\n  L1 ( A B ) 9 0 0 0 ( )\n  L2 ( B C ) 9 0 0 0 ( )\n  L3 ( A C ) 9 0 0 0 ( )\n  L4 ( C D ) 2 0 0 0 ( )\n  L5 ( D E ) 9 0 0 0 ( )\n  L6 ( E F ) 9 0 0 0 ( )\n  L7 ( D F ) 9 0 0 0 ( )\n)\nDEMANDS (\n  D1 ( A F ) 1 1 UNLIMITED\n  D2 ( B E ) 1 1 UNLIMITED\n)\n";

const BAR_CERTIFICATE: &[u8] =
    b"mcf-certificate 2\nverdict open\nlinks undirected\nmodules largest\nnet nodes 6 cells 7 commodities 2 decimals 0 skipped 0 left 0 hops 0\ngap 0.000000\nphases 1\nscale 2 2\nlower 2/2 1.000000\nupper 56/6 9.333334\npath D1 1 =L3 =L4 =L7\npath D2 1 =L2 =L4 =L5\nlength =L1 1\nlength =L2 1\nlength =L3 1\nlength =L4 1\nlength =L5 1\nlength =L6 1\nlength =L7 1\npotential A 0 1 1 2 3 3\npotential B 1 0 1 2 3 3\nend\n";

const BAR_BEST: &[u8] =
    b"mcf-certificate 2\nverdict closed\nlinks undirected\nmodules largest\nnet nodes 6 cells 7 commodities 2 decimals 0 skipped 0 left 0 hops 0\ngap 0.000000\nphases 1\nscale 2 2\nlower 2/2 1.000000\nupper 2/2 1.000000\npath D1 1 =L3 =L4 =L7\npath D2 1 =L2 =L4 =L5\nlength =L1 0\nlength =L2 0\nlength =L3 0\nlength =L4 1\nlength =L5 0\nlength =L6 0\nlength =L7 0\npotential A 0 0 0 1 1 1\npotential B 0 0 0 1 1 1\nend\n";

// What a row shows, the network, the certificate, the status, and the text.
type Row = (
    &'static str,
    &'static [u8],
    &'static [u8],
    u8,
    &'static [u8],
);

const ROWS: &[Row] = &[
    ("cut_round_a_node", TRIANGLE, ROUTED, 1, BEST),
    ("tightened_stays", TRIANGLE, BEST, 1, BEST),
    ("cut_into_a_node", PATH, PATH_CERTIFICATE, 0, PATH_BEST),
    ("cells_of_both_ways", PAIR, PAIR_CERTIFICATE, 0, PAIR_BEST),
    ("front_of_potentials", BAR, BAR_CERTIFICATE, 0, BAR_BEST),
    ("invalid_first", TRIANGLE, UNTRUE, 1, b"invalid C10\n"),
];

// What a row shows, both certificates of the triangle, the status, and the text.
type OfTwo = (
    &'static str,
    &'static [u8],
    &'static [u8],
    u8,
    &'static [u8],
);

const OF_TWO: &[OfTwo] = &[
    ("lower_of_the_first", ROUTED, CUT_OUT, 1, BEST),
    ("lower_of_the_second", CUT_OUT, ROUTED, 1, BEST),
    ("invalid_second", ROUTED, UNTRUE, 1, b"invalid2 C10\n"),
    (
        "invalid_first_before_the_second",
        UNTRUE,
        b"",
        1,
        b"invalid C10\n",
    ),
    (
        "routing_as_the_second",
        ROUTED,
        b"mcf-routing 2\n",
        3,
        b"refused cert2 K1 line 1\n",
    ),
    (
        "second_of_another_link_mode",
        ROUTED,
        b"mcf-certificate 2\nverdict open\nlinks directed\nmodules none\n",
        3,
        b"refused cert2 K6 line 3\n",
    ),
    (
        "second_of_another_module_mode",
        ROUTED,
        b"mcf-certificate 2\nverdict open\nlinks undirected\nmodules none\n",
        3,
        b"refused cert2 K6 line 4\n",
    ),
    (
        "line_without_form_before_another_mode",
        ROUTED,
        b"mcf-certificate 2\nverdict open\nlinks directed\nmodules all\n",
        3,
        b"refused cert2 K2 line 4\n",
    ),
];

#[test]
fn tightened(rt: HostRuntime) -> Result<(), Fail> {
    for (shows, net, cert, status, text) in ROWS {
        let files: [File<'_>; 2] = [("net", net), ("cert", cert)];
        expect(&rt, rt.alloc(), shows, TIGHTEN, &files, *status, text)?;
    }
    Ok(())
}

#[test]
fn tightened_of_two(rt: HostRuntime) -> Result<(), Fail> {
    for (shows, first, second, status, text) in OF_TWO {
        let files: [File<'_>; 3] = [("net", TRIANGLE), ("cert", first), ("cert2", second)];
        expect(&rt, rt.alloc(), shows, TIGHTEN_BOTH, &files, *status, text)?;
    }
    Ok(())
}
