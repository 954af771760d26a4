//! Rows of `whatif`: what a script shows of a certificate, or the first refusal of the three files.

use base_tests::{
    BOTH_WAYS, BOTH_WAYS_SOLVED, CUT, File, INVALID, NO_CAPACITY, OPEN, TWO_LINKS, WHAT_IF, expect,
    expect_script,
};
use cert_tests::{CERTIFICATE, ONE_LINK, ROUTING, SIGNED, SIGNED_ROUTING, repeated};
use std::test::Fail;

// The header of a routing, without the end of its line.
const HEADER_OF_A_ROUTING: &[u8] = b"mcf-routing 1";

// A certificate of a phase over each link.
const TWO_PHASES: &[u8] =
    b"mcf-certificate 1\nverdict closed\nlinks directed\nmodules largest\nnet nodes 2 cells 2 commodities 1 decimals 0 skipped 0 left 0 hops 0\ngap 0.200000\nphases 3\nscale 3 10\nlower 9/10 0.900000\nupper 20266198323167226/19301141260159260 1.050001\npath D1 10 L1\npath D1 20 L2\nlength L1 2251799813685248\nlength L2 1930114126015926\npotential A 0 1930114126015926\nend\n";

// What a row shows, the network, the certificate, the script, the status, and the text.
type Row = (
    &'static str,
    &'static [u8],
    &'static [u8],
    &'static [u8],
    u8,
    &'static [u8],
);

const ROWS: &[Row] = &[
    (
        "invalid_certificate_before_the_script",
        ONE_LINK,
        INVALID,
        b"nothing",
        1,
        b"invalid C10\n",
    ),
    (
        "capacity_for_a_link_without_one",
        NO_CAPACITY,
        CUT,
        b"set L1 3 show",
        0,
        b"show lower 0/1 0.000000 upper 3/5 0.600000\n",
    ),
    (
        "routing_is_no_certificate",
        ONE_LINK,
        ROUTING,
        b"show",
        3,
        b"refused cert K1 line 1\n",
    ),
    (
        "routing_of_form_2_is_no_certificate",
        ONE_LINK,
        SIGNED_ROUTING,
        b"show",
        3,
        b"refused cert K1 line 1\n",
    ),
    (
        "header_of_a_routing_alone",
        ONE_LINK,
        HEADER_OF_A_ROUTING,
        b"",
        3,
        b"refused cert K1 line 1\n",
    ),
    (
        "capacities_set_and_closed",
        TWO_LINKS,
        OPEN,
        b"set L2 14 show close L2 show",
        0,
        b"show lower 14/10 1.400000 upper 33776997205278708/19301141260159260 1.750001\nshow lower 0/10 0.000000 upper 6755399441055744/19301141260159260 0.350001\n",
    ),
    (
        "capacity_below_zero",
        TWO_LINKS,
        OPEN,
        b"close L2\nsub L2 1\nshow\n",
        3,
        b"refused script S6 line 2\n",
    ),
    (
        "link_that_is_none",
        TWO_LINKS,
        OPEN,
        b"set L9 1",
        3,
        b"refused script S2 line 1\n",
    ),
    ("nothing_to_show", TWO_LINKS, OPEN, b"", 0, b""),
    (
        "lower_follows_the_fullest_cell",
        TWO_LINKS,
        OPEN,
        b"sub L1 3 show",
        0,
        b"show lower 7/10 0.700000 upper 13510798882111482/19301141260159260 0.700000\n",
    ),
    (
        "shown_twice",
        TWO_LINKS,
        OPEN,
        b"show show",
        0,
        b"show lower 7/10 0.700000 upper 20266198323167226/19301141260159260 1.050001\nshow lower 7/10 0.700000 upper 20266198323167226/19301141260159260 1.050001\n",
    ),
    (
        "another_cell_is_the_fullest",
        TWO_LINKS,
        TWO_PHASES,
        b"set L1 30 show",
        0,
        b"show lower 21/20 1.050000 upper 81064793292668922/19301141260159260 4.200001\n",
    ),
    (
        "command_cut_off",
        ONE_LINK,
        CERTIFICATE,
        b"set L1",
        3,
        b"refused script S1 line 1\n",
    ),
    (
        "no_number",
        ONE_LINK,
        CERTIFICATE,
        b"set L1 x",
        3,
        b"refused script S3 line 1\n",
    ),
    (
        "number_too_fine",
        ONE_LINK,
        CERTIFICATE,
        b"set L1 0.5",
        3,
        b"refused script S4 line 1\n",
    ),
    (
        "capacity_over_its_limit",
        ONE_LINK,
        CERTIFICATE,
        b"add L1 17592186044416",
        3,
        b"refused script S5 line 1\n",
    ),
    (
        "all_closed",
        ONE_LINK,
        CERTIFICATE,
        b"sub L1 10 show",
        0,
        b"show lower 0/4 0.000000 upper 0/18014398509481984 0.000000\n",
    ),
    (
        "certificate_of_form_2",
        ONE_LINK,
        SIGNED,
        b"show",
        0,
        b"show lower 10/4 2.500000 upper 45035996273704960/18014398509481984 2.500000\n",
    ),
];

// What a row shows, a script on a certificate of a link of two cells, the status, and the text.
type Script = (&'static str, &'static [u8], u8, &'static [u8]);

const ON_TWO_CELLS: &[Script] = &[
    (
        "both_cells_are_closed",
        b"close L1 show",
        0,
        b"show lower 0/5 0.000000 upper 0/45035996273704960 0.000000\n",
    ),
    (
        "both_cells_are_set",
        b"set L1 3 show",
        0,
        b"show lower 3/5 0.600000 upper 27021597764222976/45035996273704960 0.600000\n",
    ),
    (
        "both_cells_at_the_limit",
        b"add L1 17592186044406 show",
        0,
        b"show lower 17592186044416/5 3518437208883.200000 upper 158456325028528675187087900672/45035996273704960 3518437208883.200000\n",
    ),
    (
        "a_cell_is_no_link",
        b"close +L1",
        3,
        b"refused script S2 line 1\n",
    ),
];

#[test]
fn scripts(rt: HostRuntime) -> Result<(), Fail> {
    for (shows, net, cert, script, status, text) in ROWS {
        let files: [File<'_>; 3] = [("net", net), ("cert", cert), ("script", script)];
        expect(&rt, rt.alloc(), shows, WHAT_IF, &files, *status, text)?;
    }
    Ok(())
}

// An edit is one of the link, and so of both its cells.
#[test]
fn scripts_on_two_cells(rt: HostRuntime) -> Result<(), Fail> {
    for (shows, script, status, text) in ON_TWO_CELLS {
        let files: [File<'_>; 3] = [
            ("net", BOTH_WAYS),
            ("cert", BOTH_WAYS_SOLVED),
            ("script", script),
        ];
        expect(&rt, rt.alloc(), shows, WHAT_IF, &files, *status, text)?;
    }
    Ok(())
}

// A script over its limit is refused before it is judged.
#[test]
fn script_over_its_limit(rt: HostRuntime) -> Result<(), Fail> {
    let script = repeated(rt.alloc(), b"show ", 209_716)?;
    expect_script(
        &rt,
        rt.alloc(),
        "too_long",
        &script,
        3,
        b"refused script TooLong\n",
    )
}
