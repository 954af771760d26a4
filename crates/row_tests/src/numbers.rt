//! Numbers at their limits and one past them: of a network, of a certificate, and of the command line.

use crate::running::answer_within;
use base_tests::{Edit, ample_answer, expect_certs, expect_script};
use cert_tests::{CERTIFICATE, ONE_LINK, VALID, edited, repeated};
use std::test::Fail;

const SOLVE: &[&str] = &["solve", "net", "--workers", "1"];

const CLOSED: &[u8] = b"mcf-certificate 2\nverdict closed\n";

// Of what is written each row has the front.
const NETWORKS: &[Edit] = &[
    (
        "greatest_capacity",
        b") 10 0",
        b") 17592186044416 0",
        0,
        CLOSED,
    ),
    (
        "capacity_too_large",
        b") 10 0",
        b") 17592186044417 0",
        3,
        b"refused net N9 line 7\n",
    ),
    (
        "capacity_too_large_by_a_millionth",
        b") 10 0",
        b") 17592186044416.000001 0",
        3,
        b"refused net N9 line 7\n",
    ),
    (
        "greatest_capacity_in_units",
        b") 10 0",
        b") 17592186.044416 0",
        0,
        CLOSED,
    ),
    (
        "capacity_too_large_in_units",
        b") 10 0",
        b") 17592186.044417 0",
        3,
        b"refused net N9 line 7\n",
    ),
    ("sixth_decimal", b") 10 0", b") 0.000001 0", 0, CLOSED),
    (
        "seventh_decimal",
        b") 10 0",
        b") 0.0000001 0",
        3,
        b"refused net N8 line 7\n",
    ),
    (
        "zero_with_the_greatest_exponent",
        b") 10 0",
        b") 0E99 0",
        0,
        CLOSED,
    ),
    (
        "greatest_exponent",
        b") 10 0",
        b") 1E99 0",
        3,
        b"refused net N9 line 7\n",
    ),
    (
        "exponent_too_large",
        b") 10 0",
        b") 1E100 0",
        3,
        b"refused net N7 line 7\n",
    ),
    (
        "greatest_amount",
        b" 1 4 ",
        b" 1 17592186044416 ",
        0,
        CLOSED,
    ),
    (
        "amount_too_large",
        b" 1 4 ",
        b" 1 17592186044417 ",
        3,
        b"refused net N9 line 10\n",
    ),
    (
        "greatest_amount_as_a_product",
        b" 1 4 ",
        b" 4194304 4194304 ",
        0,
        CLOSED,
    ),
    (
        "product_too_large",
        b" 1 4 ",
        b" 4194304 4194305 ",
        3,
        b"refused net N9 line 10\n",
    ),
    (
        "greatest_total",
        b"  D1 ( A B ) 1 4 UNLIMITED\n",
        b"  D1 ( A B ) 1 17592186044416 UNLIMITED\n  D2 ( A B ) 1 17592186044416 UNLIMITED\n  D3 ( A B ) 1 17592186044416 UNLIMITED\n  D4 ( A B ) 1 17592186044416 UNLIMITED\n",
        0,
        CLOSED,
    ),
    (
        "total_too_large",
        b"  D1 ( A B ) 1 4 UNLIMITED\n",
        b"  D1 ( A B ) 1 17592186044416 UNLIMITED\n  D2 ( A B ) 1 17592186044416 UNLIMITED\n  D3 ( A B ) 1 17592186044416 UNLIMITED\n  D4 ( A B ) 1 17592186044416 UNLIMITED\n  D5 ( A B ) 1 1 UNLIMITED\n",
        3,
        b"refused net N9 line 14\n",
    ),
];

#[test]
fn numbers_of_a_network(rt: HostRuntime) -> Result<(), Fail> {
    for (shows, part, by, status, front) in NETWORKS {
        let net = edited(rt.alloc(), ONE_LINK, part, by)?;
        let given = ample_answer(&rt, rt.alloc(), SOLVE, &[("net", &net)])?;
        assert_eq!(&rt; given.status, *status, "{shows}");
        assert!(&rt; given.text().starts_with(front), "{shows}");
    }
    Ok(())
}

// Two edits a limit: at it, where the text is read and judged, and one past it.
const CERTIFICATES: &[Edit] = &[
    (
        "count",
        b"nodes 2",
        b"nodes 4294967295",
        3,
        b"refused cert K6 line 5\n",
    ),
    (
        "count",
        b"nodes 2",
        b"nodes 4294967296",
        3,
        b"refused cert K5 line 5\n",
    ),
    ("gap", b"gap 0.050000", b"gap 1000.000000", 0, VALID),
    (
        "gap",
        b"gap 0.050000",
        b"gap 1000.000001",
        3,
        b"refused cert K5 line 6\n",
    ),
    ("phases", b"phases 1", b"phases 65536", 1, b"invalid C2\n"),
    (
        "phases",
        b"phases 1",
        b"phases 65537",
        3,
        b"refused cert K5 line 7\n",
    ),
    (
        "scale",
        b"scale 10",
        b"scale 17592186044416",
        1,
        b"invalid C3\n",
    ),
    (
        "scale",
        b"scale 10",
        b"scale 17592186044417",
        3,
        b"refused cert K5 line 8\n",
    ),
    (
        "load",
        b"scale 10 4",
        b"scale 10 4611686018427387904",
        1,
        b"invalid C9\n",
    ),
    (
        "load",
        b"scale 10 4",
        b"scale 10 4611686018427387905",
        3,
        b"refused cert K5 line 8\n",
    ),
    (
        "lower",
        b"lower 10/4 ",
        b"lower 4611686018427387904/4611686018427387904 ",
        1,
        b"invalid C9\n",
    ),
    (
        "lower",
        b"lower 10/4 ",
        b"lower 10/4611686018427387905 ",
        3,
        b"refused cert K5 line 9\n",
    ),
    (
        "whole_part",
        b"10/4 2.5",
        b"10/4 1329227995784915872903807060280344576.5",
        1,
        b"invalid C9\n",
    ),
    (
        "whole_part",
        b"10/4 2.5",
        b"10/4 1329227995784915872903807060280344577.5",
        3,
        b"refused cert K5 line 9\n",
    ),
    (
        "upper",
        b"upper 45035996273704960/",
        b"upper 1329227995784915872903807060280344576/",
        1,
        b"invalid C9\n",
    ),
    (
        "upper",
        b"upper 45035996273704960/",
        b"upper 1329227995784915872903807060280344577/",
        3,
        b"refused cert K5 line 10\n",
    ),
    (
        "weight",
        b"D1 4 ",
        b"D1 4611686018427387904 ",
        1,
        b"invalid C2\n",
    ),
    (
        "weight",
        b"D1 4 ",
        b"D1 4611686018427387905 ",
        3,
        b"refused cert K5 line 11\n",
    ),
    (
        "length",
        b"L1 4503599627370496",
        b"L1 4611686018427387904",
        1,
        b"invalid C9\n",
    ),
    (
        "length",
        b"L1 4503599627370496",
        b"L1 4611686018427387905",
        3,
        b"refused cert K5 line 12\n",
    ),
    (
        "potential",
        b"A 0 4503599627370496",
        b"A 0 4611686018427387904",
        1,
        b"invalid C7\n",
    ),
    (
        "potential",
        b"A 0 4503599627370496",
        b"A 0 4611686018427387905",
        3,
        b"refused cert K5 line 13\n",
    ),
];

#[test]
fn numbers_of_a_certificate(rt: HostRuntime) -> Result<(), Fail> {
    expect_certs(&rt, rt.alloc(), ONE_LINK, CERTIFICATE, CERTIFICATES)
}

// Room for a network of 512 nodes.
const ROOM: usize = 65536;

// The words, and the status.
type Words = (&'static [&'static str], u8);

const WORDS: &[Words] = &[
    (&["solve", "net", "--gap", "1000"], 0),
    (&["solve", "net", "--gap", "1000.000001"], 2),
    (&["solve", "net", "--gap", "0.0000001"], 2),
    (&["solve", "net", "--gap", "-1"], 2),
    (&["solve", "net", "--phases", "65536"], 0),
    (&["solve", "net", "--phases", "65537"], 2),
    (&["solve", "net", "--phases", "0"], 2),
    (&["solve", "net", "--phases", "18446744073709551617"], 2),
    (&["solve", "net", "--workers", "16"], 0),
    (&["solve", "net", "--workers", "17"], 2),
    (&["solve", "net", "--workers", "0"], 2),
    (&["solve", "net", "--step", "1048576"], 0),
    (&["solve", "net", "--step", "1048577"], 2),
    (&["solve", "net", "--step", "0"], 2),
    (&["gen", "0", "512", "512", "1"], 0),
    (&["gen", "18446744073709551615", "2", "2", "1"], 0),
    (&["gen", "18446744073709551616", "2", "2", "1"], 2),
    (&["gen", "0", "513", "4096", "1"], 2),
    (&["gen", "0", "2", "4097", "1"], 2),
    (&["gen", "0", "2", "2", "32769"], 2),
    (&["gen", "0", "2", "1", "1"], 2),
    (&["gen", "0", "1", "2", "1"], 2),
    (&["gen", "0", "2", "2", "0"], 2),
];

#[test]
fn numbers_of_the_command_line(rt: HostRuntime) -> Result<(), Fail> {
    for (words, status) in WORDS {
        let given = answer_within(&rt, rt.alloc(), words, &[("net", ONE_LINK)], ROOM)?;
        assert_eq!(&rt; given.status, *status, "{words:?}");
        assert!(&rt; *status == 0 || given.is(2, b"usage\n"), "{words:?}");
    }
    Ok(())
}

// A script has at most 1 MiB.
#[test]
fn script_at_its_limit(rt: HostRuntime) -> Result<(), Fail> {
    let script = repeated(rt.alloc(), b" ", 1_048_576)?;
    expect_script(&rt, rt.alloc(), "at_its_limit", &script, 0, b"")
}
