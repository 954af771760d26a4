//! Rows of `sweep`: what a certificate is worth without each single link, or what else is said of the files.

use crate::upgrades::OPEN_SIGNED;
use base_tests::{
    BOTH_WAYS, BOTH_WAYS_SOLVED, CUT, CUT_SIGNED, EACH_WAY_ROUTED, File, INVALID, NO_CAPACITY,
    OPEN, OPEN_SWEPT, SWEEP, TWO_LINKS, expect,
};
use cert_tests::{CERTIFICATE, ONE_LINK, ROUTING, SIGNED_ROUTING};
use std::test::Fail;

/// Nodes without a link, and a demand between them.
pub const NO_LINKS: &[u8] =
    b"?SNDlib native format; type: network; version: 1.0\nNODES (\n  A\n  B\n)\nLINKS (\n)\nDEMANDS (\n  D1 ( A B ) 1 4 UNLIMITED\n)\n";

// Its certificate.
const NO_LINKS_SOLVED: &[u8] =
    b"mcf-certificate 2\nverdict closed\nlinks directed\nmodules largest\nnet nodes 2 cells 0 commodities 1 decimals 0 skipped 0 left 0 hops 0\ngap 0.050000\nphases 0\nscale 0 1\nlower 0/1 0.000000\nupper 0/4 0.000000\npotential A 0 1\nend\n";

// What a row shows, the network, the certificate, the status, and the text.
type Row = (
    &'static str,
    &'static [u8],
    &'static [u8],
    u8,
    &'static [u8],
);

const ROWS: &[Row] = &[
    ("each_link_is_closed_alone", TWO_LINKS, OPEN, 0, OPEN_SWEPT),
    (
        "certificate_of_form_2",
        TWO_LINKS,
        OPEN_SIGNED,
        0,
        OPEN_SWEPT,
    ),
    (
        "both_cells_are_closed",
        BOTH_WAYS,
        BOTH_WAYS_SOLVED,
        0,
        b"sweep L1 lower 0/5 0.000000 upper 0/45035996273704960 0.000000\n",
    ),
    (
        "only_link_closed",
        ONE_LINK,
        CERTIFICATE,
        0,
        b"sweep L1 lower 0/4 0.000000 upper 0/18014398509481984 0.000000\n",
    ),
    (
        "a_cut_stays_one",
        NO_CAPACITY,
        CUT,
        0,
        b"sweep L1 lower 0/1 0.000000 upper 0/5 0.000000\n",
    ),
    (
        "a_cut_of_form_2_stays_one",
        NO_CAPACITY,
        CUT_SIGNED,
        0,
        b"sweep L1 lower 0/1 0.000000 upper 0/5 0.000000\n",
    ),
    ("no_links_no_lines", NO_LINKS, NO_LINKS_SOLVED, 0, b""),
    ("invalid", ONE_LINK, INVALID, 1, b"invalid C10\n"),
    (
        "routing_is_no_certificate",
        ONE_LINK,
        ROUTING,
        3,
        b"refused cert K1 line 1\n",
    ),
    (
        "routing_of_form_2_is_no_certificate",
        ONE_LINK,
        SIGNED_ROUTING,
        3,
        b"refused cert K1 line 1\n",
    ),
    (
        "routing_of_links_of_two_cells",
        BOTH_WAYS,
        EACH_WAY_ROUTED,
        3,
        b"refused cert K1 line 1\n",
    ),
    (
        "certificate_of_another_network",
        TWO_LINKS,
        CERTIFICATE,
        3,
        b"refused cert K6 line 5\n",
    ),
    (
        "network_is_refused_before",
        b"",
        b"",
        3,
        b"refused net N1 line 1\n",
    ),
];

#[test]
fn swept(rt: HostRuntime) -> Result<(), Fail> {
    for (shows, net, cert, status, text) in ROWS {
        let files: [File<'_>; 2] = [("net", net), ("cert", cert)];
        expect(&rt, rt.alloc(), shows, SWEEP, &files, *status, text)?;
    }
    Ok(())
}
