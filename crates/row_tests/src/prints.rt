//! Rows of `print`: the canonical text of a network, or its refusal.

use base_tests::{Edit, FREE_LAYOUT, FREE_LAYOUT_PRINTED, PRINT, expect_net, expect_nets};
use cert_tests::{ONE_LINK, edited, repeated};
use std::alloc::{AllocError, Global};
use std::test::Fail;

const ROWS: &[Edit] = &[
    ("canonical_text", b"", b"", 0, ONE_LINK),
    ("free_layout", ONE_LINK, FREE_LAYOUT, 0, FREE_LAYOUT_PRINTED),
    (
        "printed_again",
        ONE_LINK,
        FREE_LAYOUT_PRINTED,
        0,
        FREE_LAYOUT_PRINTED,
    ),
    ("comment_ends_a_word", b"  A\n", b"A#x y\n", 0, ONE_LINK),
    (
        "skipped_section",
        b"UNLIMITED\n)\n",
        b"UNLIMITED\n)\nMETA ( ( a ) b )\n",
        0,
        ONE_LINK,
    ),
    ("empty", ONE_LINK, b"", 3, b"refused net N1 line 1\n"),
    (
        "bytes_that_are_no_text",
        ONE_LINK,
        b"\xff\xfe\x00\x80",
        3,
        b"refused net N1 line 1\n",
    ),
    (
        "header_alone",
        ONE_LINK,
        b"?SNDlib native format; type: network;",
        3,
        b"refused net N3 line 1\n",
    ),
    (
        "section_of_another_name",
        b"NODES",
        b"\xff",
        3,
        b"refused net N3 line 6\n",
    ),
    (
        "module_without_a_cost",
        b"0 ( )",
        b"0 ( 155 )",
        3,
        b"refused net N3 line 7\n",
    ),
    (
        "skipped_section_is_open",
        b"UNLIMITED\n)\n",
        b"UNLIMITED\n)\nMETA ( ( )\n",
        3,
        b"refused net N3 line 13\n",
    ),
    (
        "repeated_demand_before_unknown_node",
        b"( A B ) 10 0 0 0 ( )\n)\nDEMANDS (\n",
        b"( A X ) 10 0 0 0 ( )\n)\nDEMANDS (\n  D1 ( A B ) 1 4 UNLIMITED\n",
        3,
        b"refused net N5 line 11\n",
    ),
    (
        "unknown_node",
        b"L1 ( A B )",
        b"L1 ( A X )",
        3,
        b"refused net N6 line 7\n",
    ),
    (
        "longest_path_is_no_number",
        b"UNLIMITED",
        b"12x",
        3,
        b"refused net N7 line 10\n",
    ),
    (
        "unit_is_no_number",
        b" 1 4 ",
        b" -1 4 ",
        3,
        b"refused net N7 line 10\n",
    ),
];

#[test]
fn prints(rt: HostRuntime) -> Result<(), Fail> {
    expect_nets(&rt, rt.alloc(), PRINT, ONE_LINK, ROWS)
}

// Every byte but blanks, parentheses and `#` may stand in an id.
#[test]
fn id_of_unknown_bytes(rt: HostRuntime) -> Result<(), Fail> {
    let net = edited(rt.alloc(), ONE_LINK, b"  B\n", b"  B\n  \xff\x00\x80\n")?;
    expect_net(&rt, rt.alloc(), "id_of_unknown_bytes", PRINT, &net, 0, &net)
}

// The network of one link with another line in its nodes, in which `times` bytes stand in place of the `@`.
fn lengthened(alloc: Global, line: &[u8], times: u32) -> Result<Vec<u8>, AllocError> {
    let marked = edited(alloc, ONE_LINK, b"  B\n", line)?;
    edited(alloc, &marked, b"@", &repeated(alloc, b"x", times)?)
}

// A word has at most 255 bytes, and a comment any number.
#[test]
fn long_words(rt: HostRuntime) -> Result<(), Fail> {
    let longest = lengthened(rt.alloc(), b"  B\n  @\n", 255)?;
    expect_net(
        &rt,
        rt.alloc(),
        "longest_word",
        PRINT,
        &longest,
        0,
        &longest,
    )?;
    let too_long = lengthened(rt.alloc(), b"  B\n  @\n", 256)?;
    let line = b"refused net N2 line 5\n";
    expect_net(&rt, rt.alloc(), "word_too_long", PRINT, &too_long, 3, line)?;
    let comment = lengthened(rt.alloc(), b"  B #@\n", 300)?;
    expect_net(
        &rt,
        rt.alloc(),
        "long_comment",
        PRINT,
        &comment,
        0,
        ONE_LINK,
    )
}
