//! Rows of `upgrade`: a valid certificate of either form in form 2, or what else is said of the files.

use base_tests::{
    BOTH_WAYS, BOTH_WAYS_SOLVED, CUT, CUT_SIGNED, EACH_WAY_ROUTED, File, INVALID, NO_CAPACITY,
    OPEN, TWO_LINKS, UPGRADE, expect,
};
use cert_tests::{CERTIFICATE, ONE_LINK, ROUTING, SIGNED, SIGNED_ROUTING};
use std::test::Fail;

/// The certificate of one phase over the second link in form 2.
pub const OPEN_SIGNED: &[u8] =
    b"mcf-certificate 2\nverdict open\nlinks directed\nmodules largest\nnet nodes 2 cells 2 commodities 1 decimals 0 skipped 0 left 0 hops 0\ngap 0.050000\nphases 1\nscale 7 10\nlower 7/10 0.700000\nupper 20266198323167226/19301141260159260 1.050001\npath D1 10 +L2\nlength +L1 2251799813685248\nlength +L2 1930114126015926\npotential A 0 1930114126015926\nend\n";

// A certificate in form 1 that `solve` does not write: rows in another order, without weight, and repeated.
const UNUSUAL: &[u8] =
    b"mcf-certificate 1\nverdict open\nlinks directed\nmodules largest\nnet nodes 2 cells 2 commodities 1 decimals 0 skipped 0 left 0 hops 0\ngap 0.050000\nphases 1\nscale 7 10\nlower 7/10 0.700000\nupper 20266198323167226/19301141260159260 1.050001\npath D1 4 L2\npath D1 0 L1\npath D1 6 L2\nlength L2 1930114126015926\nlength L1 2251799813685248\npotential A 0 1930114126015926\nend\n";

// The same rows in form 2.
const UNUSUAL_SIGNED: &[u8] =
    b"mcf-certificate 2\nverdict open\nlinks directed\nmodules largest\nnet nodes 2 cells 2 commodities 1 decimals 0 skipped 0 left 0 hops 0\ngap 0.050000\nphases 1\nscale 7 10\nlower 7/10 0.700000\nupper 20266198323167226/19301141260159260 1.050001\npath D1 4 +L2\npath D1 0 +L1\npath D1 6 +L2\nlength +L2 1930114126015926\nlength +L1 2251799813685248\npotential A 0 1930114126015926\nend\n";

// What a row shows, a certificate of one link, the status, and the text.
type OfOneLink = (&'static str, &'static [u8], u8, &'static [u8]);

const ON_ONE_LINK: &[OfOneLink] = &[
    ("links_of_one_way", CERTIFICATE, 0, SIGNED),
    ("form_2_byte_for_byte", SIGNED, 0, SIGNED),
    ("invalid_is_not_written", INVALID, 1, b"invalid C10\n"),
    (
        "routing_is_no_certificate",
        ROUTING,
        3,
        b"refused cert K1 line 1\n",
    ),
    (
        "routing_of_form_2_is_no_certificate",
        SIGNED_ROUTING,
        3,
        b"refused cert K1 line 1\n",
    ),
    (
        "header_of_a_routing_alone",
        b"mcf-routing 2",
        3,
        b"refused cert K1 line 1\n",
    ),
];

// What a row shows, the network, the certificate, the status, and the text.
type Row = (
    &'static str,
    &'static [u8],
    &'static [u8],
    u8,
    &'static [u8],
);

const ROWS: &[Row] = &[
    ("links_both_ways", NO_CAPACITY, CUT, 0, CUT_SIGNED),
    (
        "form_2_of_links_both_ways",
        NO_CAPACITY,
        CUT_SIGNED,
        0,
        CUT_SIGNED,
    ),
    (
        "links_of_two_cells",
        BOTH_WAYS,
        BOTH_WAYS_SOLVED,
        0,
        BOTH_WAYS_SOLVED,
    ),
    ("open_is_written_too", TWO_LINKS, OPEN, 0, OPEN_SIGNED),
    (
        "rows_stay_as_they_stand",
        TWO_LINKS,
        UNUSUAL,
        0,
        UNUSUAL_SIGNED,
    ),
    (
        "rows_of_form_2_stay_as_they_stand",
        TWO_LINKS,
        UNUSUAL_SIGNED,
        0,
        UNUSUAL_SIGNED,
    ),
    (
        "routing_of_links_of_two_cells",
        BOTH_WAYS,
        EACH_WAY_ROUTED,
        3,
        b"refused cert K1 line 1\n",
    ),
    (
        "certificate_of_another_network",
        TWO_LINKS,
        CERTIFICATE,
        3,
        b"refused cert K6 line 5\n",
    ),
    (
        "network_is_refused_before",
        b"",
        b"",
        3,
        b"refused net N1 line 1\n",
    ),
];

#[test]
fn upgraded_on_one_link(rt: HostRuntime) -> Result<(), Fail> {
    for (shows, cert, status, text) in ON_ONE_LINK {
        let files: [File<'_>; 2] = [("net", ONE_LINK), ("cert", cert)];
        expect(&rt, rt.alloc(), shows, UPGRADE, &files, *status, text)?;
    }
    Ok(())
}

#[test]
fn upgraded(rt: HostRuntime) -> Result<(), Fail> {
    for (shows, net, cert, status, text) in ROWS {
        let files: [File<'_>; 2] = [("net", net), ("cert", cert)];
        expect(&rt, rt.alloc(), shows, UPGRADE, &files, *status, text)?;
    }
    Ok(())
}
