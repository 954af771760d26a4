//! Rows of `check` on routings and on networks, and the order of refusals.

use base_tests::{
    BOTH_ROUTED, BOTH_WAYS, EACH_WAY_ROUTED, Edit, File, THERE_AND_BACK, expect, expect_certs,
    expect_on_nets,
};
use cert_tests::{CERTIFICATE, ONE_LINK, ROUTING, SIGNED_ROUTING, edited};
use std::test::Fail;

const ROUTINGS: &[Edit] = &[
    (
        "feasible_on_one_link",
        b"",
        b"",
        0,
        b"feasible directed none 10/4 2.500000\n",
    ),
    (
        "scale_has_no_load",
        b"scale 10 4",
        b"scale 0 0",
        1,
        b"invalid C4\n",
    ),
    (
        "weight_over_the_demand",
        b"path D1 4",
        b"path D1 5",
        1,
        b"invalid C2\n",
    ),
    (
        "load_over_the_capacity",
        b"scale 10 4",
        b"scale 10 3",
        1,
        b"invalid C3\n",
    ),
];

// A routing in which the demands of both directions share one load.
const TWO_WAYS: &[Edit] = &[
    (
        "undirected_link_shares_one_load",
        b"",
        b"",
        0,
        b"feasible undirected none 10/10 1.000000\n",
    ),
    (
        "shared_load_over_the_capacity",
        b"scale 10 10",
        b"scale 10 9",
        1,
        b"invalid C3\n",
    ),
];

// A routing of form 2.
const OF_FORM_2: &[Edit] = &[
    (
        "feasible_in_form_2",
        b"",
        b"",
        0,
        b"feasible directed none 10/4 2.500000\n",
    ),
    (
        "cell_words_in_form_1",
        b"mcf-routing 2",
        b"mcf-routing 1",
        3,
        b"refused cert K3 line 6\n",
    ),
    (
        "sign_of_another_mode",
        b"links directed",
        b"links undirected",
        3,
        b"refused cert K3 line 6\n",
    ),
    (
        "third_form_of_a_routing",
        b"mcf-routing 2",
        b"mcf-routing 3",
        3,
        b"refused cert K1 line 1\n",
    ),
];

// A routing with a cell for each direction.
const EACH_WAY: &[Edit] = &[
    (
        "each_way_has_its_load",
        b"",
        b"",
        0,
        b"feasible bidirected none 10/5 2.000000\n",
    ),
    (
        "load_of_one_way_over_the_capacity",
        b"scale 10 5",
        b"scale 10 4",
        1,
        b"invalid C3\n",
    ),
    (
        "form_1_has_no_such_links",
        b"mcf-routing 2",
        b"mcf-routing 1",
        3,
        b"refused cert K2 line 2\n",
    ),
];

// Whole texts in place of a certificate.
const WHOLE: &[Edit] = &[
    (
        "walk_uses_a_link_three_times",
        ROUTING,
        THERE_AND_BACK,
        0,
        b"feasible undirected none 10/12 0.833333\n",
    ),
    (
        "empty_certificate",
        ROUTING,
        b"",
        3,
        b"refused cert K1 line 1\n",
    ),
    (
        "header_without_its_end",
        ROUTING,
        b"mcf-certificate 1",
        3,
        b"refused cert K2 line 1\n",
    ),
    (
        "routing_header_without_its_end",
        ROUTING,
        b"mcf-routing 1",
        3,
        b"refused cert K2 line 1\n",
    ),
];

// Changes of a network, under a routing that stands.
const NETWORKS: &[Edit] = &[
    (
        "second_section",
        b"UNLIMITED\n)\n",
        b"UNLIMITED\n)\nNODES ( )\n",
        3,
        b"refused net N3 line 12\n",
    ),
    (
        "seventh_decimal_is_too_fine",
        b"10 0 0 0",
        b"10.0000001 0 0 0",
        3,
        b"refused net N8 line 7\n",
    ),
    (
        "capacity_over_its_limit",
        b"10 0 0 0",
        b"17592186044417 0 0 0",
        3,
        b"refused net N9 line 7\n",
    ),
    (
        "no_demand_is_left",
        b"( A B ) 1 4",
        b"( A B ) 1 0",
        3,
        b"refused net N10 line 12\n",
    ),
];

// Two refusals at once: which one is told.
const HEADS: &[Edit] = &[
    (
        "head_before_units",
        b"mcf-certificate 1",
        b"mcf-certificate 9",
        3,
        b"refused cert K1 line 1\n",
    ),
    (
        "options_before_units",
        b"links directed",
        b"links both",
        3,
        b"refused cert K2 line 3\n",
    ),
    (
        "units_before_the_rest",
        b"path D1 4",
        b"path D1 04",
        3,
        b"refused net N8 line 7\n",
    ),
];

const TEXTS: &[Edit] = &[(
    "network_text_before_the_head",
    b"UNLIMITED\n)\n",
    b"UNLIMITED\n)\nNODES ( )\n",
    3,
    b"refused net N3 line 12\n",
)];

#[test]
fn routings(rt: HostRuntime) -> Result<(), Fail> {
    expect_certs(&rt, rt.alloc(), ONE_LINK, ROUTING, ROUTINGS)?;
    expect_certs(&rt, rt.alloc(), BOTH_WAYS, BOTH_ROUTED, TWO_WAYS)?;
    expect_certs(&rt, rt.alloc(), ONE_LINK, SIGNED_ROUTING, OF_FORM_2)?;
    expect_certs(&rt, rt.alloc(), BOTH_WAYS, EACH_WAY_ROUTED, EACH_WAY)?;
    expect_certs(&rt, rt.alloc(), ONE_LINK, ROUTING, WHOLE)
}

#[test]
fn networks(rt: HostRuntime) -> Result<(), Fail> {
    expect_on_nets(&rt, rt.alloc(), ONE_LINK, ROUTING, NETWORKS)
}

#[test]
fn refusals_in_order(rt: HostRuntime) -> Result<(), Fail> {
    let too_fine = edited(rt.alloc(), ONE_LINK, b"10 0 0 0", b"10.0000001 0 0 0")?;
    expect_certs(&rt, rt.alloc(), &too_fine, CERTIFICATE, HEADS)?;
    expect_on_nets(&rt, rt.alloc(), ONE_LINK, b"", TEXTS)
}

#[test]
fn network_named_by_a_dash(rt: HostRuntime) -> Result<(), Fail> {
    let files: [File<'_>; 2] = [("-", ONE_LINK), ("cert", ROUTING)];
    expect(
        &rt,
        rt.alloc(),
        "network_named_by_a_dash",
        &["check", "-", "cert"],
        &files,
        0,
        b"feasible directed none 10/4 2.500000\n",
    )
}
