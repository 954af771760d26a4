//! Rows that other tables have not: each an edit of a small text, and its answer.

use base_tests::{CHECK, File, PRINT, WHAT_IF, expect, expect_net, expect_script};
use cert_tests::{CERTIFICATE, ONE_LINK, edited};
use std::test::Fail;

// What a row shows, the words, a part of the network of one link and what takes its place, the status, and the text.
type NetRow = (
    &'static str,
    &'static [&'static str],
    &'static [u8],
    &'static [u8],
    u8,
    &'static [u8],
);

const NETWORKS: &[NetRow] = &[
    (
        "module_is_no_number_where_none_counts",
        &["solve", "net", "--modules", "none"],
        b"0 0 0 ( )",
        b"0 0 0 ( x 1 )",
        3,
        b"refused net N7 line 7\n",
    ),
    (
        "no_links",
        &["solve", "net"],
        b"  L1 ( A B ) 10 0 0 0 ( )\n",
        b"",
        0,
        b"mcf-certificate 2\nverdict closed\nlinks undirected\nmodules largest\nnet nodes 2 cells 0 commodities 1 decimals 0 skipped 0 left 0 hops 0\ngap 0.050000\nphases 0\nscale 0 1\nlower 0/1 0.000000\nupper 0/4 0.000000\npotential A 0 1\nend\n",
    ),
    (
        "repeated_link",
        PRINT,
        b"0 ( )\n",
        b"0 ( )\n  L1 ( B A ) 1 0 0 0 ( )\n",
        3,
        b"refused net N5 line 8\n",
    ),
    (
        "repeated_node",
        PRINT,
        b"  B\n",
        b"  B\n  A\n",
        3,
        b"refused net N5 line 5\n",
    ),
    (
        "zero_byte_in_front",
        PRINT,
        b"?",
        b"\0?",
        3,
        b"refused net N1 line 1\n",
    ),
    (
        "byte_order_mark_in_front",
        PRINT,
        b"?",
        b"\xef\xbb\xbf?",
        3,
        b"refused net N1 line 1\n",
    ),
    (
        "group_closed_twice",
        PRINT,
        b"UNLIMITED\n)",
        b"UNLIMITED\n) )",
        3,
        b"refused net N3 line 11\n",
    ),
];

// What a row shows, a script on the certificate of one link, the status, and the text.
type ScriptRow = (&'static str, &'static [u8], u8, &'static [u8]);

const SCRIPTS: &[ScriptRow] = &[
    (
        "parenthesis_behind_a_command",
        b"set L1 3 )",
        3,
        b"refused script S1 line 1\n",
    ),
    (
        "capacity_one_over_its_limit",
        b"set L1 17592186044417",
        3,
        b"refused script S5 line 1\n",
    ),
    (
        "capacity_at_its_limit",
        b"set L1 17592186044416 show",
        0,
        b"show lower 17592186044416/4 4398046511104.000000 upper 79228162514264337593543950336/18014398509481984 4398046511104.000000\n",
    ),
    (
        "more_taken_than_there_is",
        b"sub L1 10\nsub L1 1",
        3,
        b"refused script S6 line 2\n",
    ),
    (
        "command_in_capitals",
        b"SHOW",
        3,
        b"refused script S1 line 1\n",
    ),
    (
        "bytes_that_are_no_text",
        b"show\n\xff\xfe",
        3,
        b"refused script S1 line 2\n",
    ),
];

#[test]
fn networks(rt: HostRuntime) -> Result<(), Fail> {
    for (shows, words, part, by, status, text) in NETWORKS {
        let net = edited(rt.alloc(), ONE_LINK, part, by)?;
        expect_net(&rt, rt.alloc(), shows, words, &net, *status, text)?;
    }
    Ok(())
}

#[test]
fn scripts(rt: HostRuntime) -> Result<(), Fail> {
    for (shows, script, status, text) in SCRIPTS {
        expect_script(&rt, rt.alloc(), shows, script, *status, text)?;
    }
    Ok(())
}

// A network of the same counts, whose link has half the capacity.
const NARROW: &[u8] =
    b"?SNDlib native format; type: network; version: 1.0\nNODES (\n  A\n  B\n)\nLINKS (\n  L1 ( A B ) 5 0 0 0 ( )\n)\nDEMANDS (\n  D1 ( A B ) 1 4 UNLIMITED\n)\n";

// A network of the same counts with other names.
const RENAMED: &[u8] =
    b"?SNDlib native format; type: network; version: 1.0\nNODES (\n  A\n  B\n)\nLINKS (\n  L2 ( A B ) 10 0 0 0 ( )\n)\nDEMANDS (\n  D1 ( A B ) 1 4 UNLIMITED\n)\n";

// A network whose link goes the other way.
const TURNED: &[u8] =
    b"?SNDlib native format; type: network; version: 1.0\nNODES (\n  A\n  B\n)\nLINKS (\n  L1 ( B A ) 10 0 0 0 ( )\n)\nDEMANDS (\n  D1 ( A B ) 1 4 UNLIMITED\n)\n";

// A network with one node more.
const LARGER: &[u8] =
    b"?SNDlib native format; type: network; version: 1.0\nNODES (\n  A\n  B\n  C\n)\nLINKS (\n  L1 ( A B ) 10 0 0 0 ( )\n)\nDEMANDS (\n  D1 ( A B ) 1 4 UNLIMITED\n)\n";

// A network whose demand starts at the other node.
const BACKWARDS: &[u8] =
    b"?SNDlib native format; type: network; version: 1.0\nNODES (\n  A\n  B\n)\nLINKS (\n  L1 ( A B ) 10 0 0 0 ( )\n)\nDEMANDS (\n  D1 ( B A ) 1 4 UNLIMITED\n)\n";

// What a row shows, a network for which the certificate was not made, the status, and the line.
type OtherRow = (&'static str, &'static [u8], u8, &'static [u8]);

const OTHERS: &[OtherRow] = &[
    ("half_the_capacity", NARROW, 1, b"invalid C3\n"),
    ("another_link", RENAMED, 3, b"refused cert K3 line 11\n"),
    ("link_turned", TURNED, 1, b"invalid C1\n"),
    ("one_node_more", LARGER, 3, b"refused cert K6 line 5\n"),
    ("demand_turned", BACKWARDS, 1, b"invalid C1\n"),
];

// A certificate is judged by the network that is given, in `check` as in `whatif`.
#[test]
fn certificate_of_another_network(rt: HostRuntime) -> Result<(), Fail> {
    for (shows, net, status, line) in OTHERS {
        let files: [File<'_>; 3] = [("net", net), ("cert", CERTIFICATE), ("script", b"show")];
        expect(&rt, rt.alloc(), shows, CHECK, &files, *status, line)?;
        expect(&rt, rt.alloc(), shows, WHAT_IF, &files, *status, line)?;
    }
    Ok(())
}
