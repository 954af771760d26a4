//! Rows of `check` on certificates.

use base_tests::{BOTH_WAYS, BOTH_WAYS_SOLVED, CUT, Edit, NO_CAPACITY, expect_cert, expect_certs};
use cert_tests::{CERTIFICATE, ONE_LINK, SIGNED, VALID, edited, repeated};
use std::test::Fail;

const CERTIFICATES: &[Edit] = &[
    ("closed_on_one_link", b"", b"", 0, VALID),
    (
        "path_is_no_walk",
        b"4 L1\n",
        b"4 L1 L1\n",
        1,
        b"invalid C1\n",
    ),
    (
        "weights_over_the_demand",
        b"path D1 4",
        b"path D1 5",
        1,
        b"invalid C2\n",
    ),
    (
        "scaled_load_over_the_capacity",
        b"scale 10 4",
        b"scale 10 3",
        1,
        b"invalid C3\n",
    ),
    (
        "length_is_missing",
        b"length L1 4503599627370496\n",
        b"",
        1,
        b"invalid C5\n",
    ),
    (
        "potentials_are_missing",
        b"potential A 0 4503599627370496\n",
        b"",
        1,
        b"invalid C6\n",
    ),
    (
        "potential_over_the_length",
        b"length L1 4503599627370496",
        b"length L1 4503599627370495",
        1,
        b"invalid C7\n",
    ),
    (
        "no_weighted_distance",
        b"A 0 4503599627370496",
        b"A 0 0",
        1,
        b"invalid C8\n",
    ),
    (
        "printed_fraction_is_off",
        b"lower 10/4 2.500000",
        b"lower 10/4 2.500001",
        1,
        b"invalid C9\n",
    ),
    (
        "verdict_is_off",
        b"verdict closed",
        b"verdict open",
        1,
        b"invalid C10\n",
    ),
    (
        "other_version",
        b"mcf-certificate 1",
        b"mcf-certificate 9",
        3,
        b"refused cert K1 line 1\n",
    ),
    (
        "end_is_missing",
        b"end\n",
        b"",
        3,
        b"refused cert K2 line 14\n",
    ),
    (
        "path_behind_a_length",
        b"path D1 4 L1\nlength L1 4503599627370496\n",
        b"length L1 4503599627370496\npath D1 4 L1\n",
        3,
        b"refused cert K2 line 12\n",
    ),
    (
        "potential_is_missing",
        b"A 0 4503599627370496",
        b"A 0",
        3,
        b"refused cert K2 line 13\n",
    ),
    (
        "more_behind_the_end",
        b"end\n",
        b"end\nx",
        3,
        b"refused cert K2 line 15\n",
    ),
    (
        "unknown_link",
        b"4 L1\n",
        b"4 L9\n",
        3,
        b"refused cert K3 line 11\n",
    ),
    (
        "number_begins_with_zero",
        b"path D1 4",
        b"path D1 04",
        3,
        b"refused cert K4 line 11\n",
    ),
    (
        "number_of_forty_digits",
        b"path D1 4",
        b"path D1 9999999999999999999999999999999999999999",
        3,
        b"refused cert K4 line 11\n",
    ),
    (
        "number_of_thirty_nine_digits",
        b"path D1 4",
        b"path D1 999999999999999999999999999999999999999",
        3,
        b"refused cert K5 line 11\n",
    ),
    (
        "weight_over_its_limit",
        b"path D1 4",
        b"path D1 4611686018427387905",
        3,
        b"refused cert K5 line 11\n",
    ),
    (
        "phases_over_their_limit",
        b"phases 1",
        b"phases 65537",
        3,
        b"refused cert K5 line 7\n",
    ),
    (
        "nodes_over_their_limit",
        b"nodes 2",
        b"nodes 4294967296",
        3,
        b"refused cert K5 line 5\n",
    ),
    (
        "nodes_of_another_network",
        b"nodes 2",
        b"nodes 3",
        3,
        b"refused cert K6 line 5\n",
    ),
];

const CUTS: &[Edit] = &[
    (
        "closed_at_zero",
        b"",
        b"",
        0,
        b"valid closed undirected largest lower 0/1 0.000000 upper 0/5 0.000000\n",
    ),
    (
        "cut_has_no_load",
        b"scale 0 1",
        b"scale 0 0",
        1,
        b"invalid C4\n",
    ),
];

// Of the certificate of one link in form 2.
const OF_ONE_WAY: &[Edit] = &[
    ("closed_in_form_2", b"", b"", 0, VALID),
    (
        "sign_against_a_link_of_one_way",
        b"4 +L1",
        b"4 -L1",
        3,
        b"refused cert K3 line 11\n",
    ),
    (
        "sign_for_both_ways_of_one",
        b"4 +L1",
        b"4 =L1",
        3,
        b"refused cert K3 line 11\n",
    ),
    (
        "id_without_its_sign",
        b"length +L1",
        b"length L1",
        3,
        b"refused cert K3 line 12\n",
    ),
    (
        "cell_words_in_form_1",
        b"mcf-certificate 2",
        b"mcf-certificate 1",
        3,
        b"refused cert K3 line 11\n",
    ),
    (
        "third_form",
        b"mcf-certificate 2",
        b"mcf-certificate 3",
        3,
        b"refused cert K1 line 1\n",
    ),
    (
        "form_of_two_digits",
        b"mcf-certificate 2",
        b"mcf-certificate 12",
        3,
        b"refused cert K1 line 1\n",
    ),
];

// Of a certificate of a link of two cells.
const OF_TWO_CELLS: &[Edit] = &[
    (
        "closed_with_two_cells",
        b"",
        b"",
        0,
        b"valid closed bidirected largest lower 10/5 2.000000 upper 90071992547409920/45035996273704960 2.000000\n",
    ),
    (
        "path_goes_the_other_way",
        b"5 +L1",
        b"5 -L1",
        1,
        b"invalid C1\n",
    ),
    (
        "there_and_back_is_no_way",
        b"5 +L1",
        b"5 +L1 -L1",
        1,
        b"invalid C1\n",
    ),
    (
        "sign_for_both_ways",
        b"5 +L1",
        b"5 =L1",
        3,
        b"refused cert K3 line 11\n",
    ),
    (
        "sign_alone",
        b"5 +L1",
        b"5 +",
        3,
        b"refused cert K3 line 11\n",
    ),
    (
        "unknown_link_behind_a_sign",
        b"5 -L1",
        b"5 -L9",
        3,
        b"refused cert K3 line 12\n",
    ),
    (
        "two_signs",
        b"5 -L1",
        b"5 +-L1",
        3,
        b"refused cert K3 line 12\n",
    ),
    (
        "length_of_no_cell",
        b"length -L1",
        b"length =L1",
        3,
        b"refused cert K3 line 14\n",
    ),
    (
        "one_cell_has_two_lengths",
        b"length -L1",
        b"length +L1",
        1,
        b"invalid C5\n",
    ),
    (
        "potential_over_the_length_of_a_cell",
        b"length -L1 4503599627370496",
        b"length -L1 4503599627370495",
        1,
        b"invalid C7\n",
    ),
    (
        "links_are_counted_as_cells",
        b"cells 2",
        b"cells 1",
        3,
        b"refused cert K6 line 5\n",
    ),
    (
        "another_mode_has_other_cells",
        b"links bidirected",
        b"links directed",
        3,
        b"refused cert K6 line 5\n",
    ),
    (
        "form_1_has_no_such_links",
        b"mcf-certificate 2",
        b"mcf-certificate 1",
        3,
        b"refused cert K2 line 3\n",
    ),
];

#[test]
fn certificates_of_form_2(rt: HostRuntime) -> Result<(), Fail> {
    expect_certs(&rt, rt.alloc(), ONE_LINK, SIGNED, OF_ONE_WAY)?;
    expect_certs(&rt, rt.alloc(), BOTH_WAYS, BOTH_WAYS_SOLVED, OF_TWO_CELLS)
}

#[test]
fn certificates(rt: HostRuntime) -> Result<(), Fail> {
    expect_certs(&rt, rt.alloc(), ONE_LINK, CERTIFICATE, CERTIFICATES)?;
    expect_certs(&rt, rt.alloc(), NO_CAPACITY, CUT, CUTS)
}

// A path has at most 511 links.
#[test]
fn path_of_512_links(rt: HostRuntime) -> Result<(), Fail> {
    let path = repeated(rt.alloc(), b" L1", 511)?;
    let cert = edited(rt.alloc(), CERTIFICATE, b"D1 4", &path)?;
    let cert = edited(rt.alloc(), &cert, b"path ", b"path D1 4")?;
    expect_cert(
        &rt,
        rt.alloc(),
        "path_of_512_links",
        ONE_LINK,
        &cert,
        3,
        b"refused cert K5 line 11\n",
    )
}

// The 512th cell word of a row is too many, whatever it names.
#[test]
fn word_of_no_cell_behind_511(rt: HostRuntime) -> Result<(), Fail> {
    let path = repeated(rt.alloc(), b" +L1", 511)?;
    let cert = edited(rt.alloc(), SIGNED, b"4 +L1", b"4 =L9")?;
    let cert = edited(rt.alloc(), &cert, b" =L9", &path)?;
    let cert = edited(rt.alloc(), &cert, b"\nlength", b" =L9\nlength")?;
    expect_cert(
        &rt,
        rt.alloc(),
        "word_of_no_cell_behind_511",
        ONE_LINK,
        &cert,
        3,
        b"refused cert K5 line 11\n",
    )
}
