//! Rows of `gen` and `trial`: networks that are drawn from a seed.

ghost use Rattle.std.specs.Prelude.{◌≤◌};

use base_tests::{AMPLE, Answer, Outside, PRINT, ample_answer, answer_to, expect, expect_net};
use std::str;
use std::test::Fail;

const SMALL: &[&str] = &["gen", "5", "2", "2", "1"];

const SMALL_DRAWN: &[u8] =
    b"?SNDlib native format; type: network; version: 1.0\nNODES (\n  N0\n  N1\n)\nLINKS (\n  L0 ( N0 N1 ) 1000000000 0 0 0 ( )\n  L1 ( N1 N0 ) 845 0 0 0 ( )\n)\nDEMANDS (\n  D0 ( N1 N0 ) 1 1 UNLIMITED\n)\n";

// What a row shows, the words, the status, and the text.
type Row = (&'static str, &'static [&'static str], u8, &'static [u8]);

const ROWS: &[Row] = &[
    ("least_network", SMALL, 0, SMALL_DRAWN),
    (
        "one_worker",
        &[
            "trial",
            "7",
            "6",
            "9",
            "12",
            "--phases",
            "5",
            "--workers",
            "1",
            "--gap",
            "0",
        ],
        1,
        b"trial nodes 6 links 9 commodities 12 total 58 phases 5 routes 60 carried 290 open\n",
    ),
    (
        "sixteen_workers",
        &[
            "trial",
            "7",
            "6",
            "9",
            "12",
            "--phases",
            "5",
            "--workers",
            "16",
            "--gap",
            "0",
        ],
        1,
        b"trial nodes 6 links 9 commodities 12 total 58 phases 5 routes 60 carried 290 open\n",
    ),
    (
        "work_over_its_limit",
        &["trial", "7", "40", "120", "32768", "--phases", "65"],
        3,
        b"refused work 2129920\n",
    ),
    (
        "links_and_not_cells_are_counted",
        &[
            "trial",
            "7",
            "6",
            "9",
            "12",
            "--phases",
            "5",
            "--workers",
            "1",
            "--gap",
            "0",
            "--links",
            "bidirected",
        ],
        1,
        b"trial nodes 6 links 9 commodities 12 total 58 phases 5 routes 60 carried 290 open\n",
    ),
    (
        "links_of_two_cells_count_once",
        &[
            "trial",
            "1",
            "2",
            "2",
            "33",
            "--phases",
            "65536",
            "--links",
            "bidirected",
        ],
        3,
        b"refused work 2162688\n",
    ),
    ("one_node", &["trial", "7", "1", "1", "1"], 2, b"usage\n"),
    (
        "fewer_links_than_nodes",
        &["gen", "7", "3", "2", "1"],
        2,
        b"usage\n",
    ),
    ("no_demand", &["gen", "7", "3", "3", "0"], 2, b"usage\n"),
    (
        "more_nodes_than_the_limit",
        &["gen", "7", "513", "600", "1"],
        2,
        b"usage\n",
    ),
    (
        "option_of_another_command",
        &["gen", "7", "3", "3", "1", "--gap", "0"],
        2,
        b"usage\n",
    ),
];

#[test]
fn draws_and_trials(rt: HostRuntime) -> Result<(), Fail> {
    for (shows, words, status, text) in ROWS {
        expect(&rt, rt.alloc(), shows, words, &[], *status, text)?;
    }
    Ok(())
}

// The text that is drawn is canonical: printing repeats it.
#[test]
fn drawn_text_is_canonical(rt: HostRuntime) -> Result<(), Fail> {
    expect_net(
        &rt,
        rt.alloc(),
        "canonical",
        PRINT,
        SMALL_DRAWN,
        0,
        SMALL_DRAWN,
    )
}

// What was written as text.
fn text_of(drawn: &Answer) -> &str {
    str::from_utf8(drawn.text()).unwrap_or("")
}

// The line of that number, counted from 1.
fn line_of(text: &str, number: usize) -> &str
    requires { 1 ≤ number }
{
    text.lines().nth(number - 1).unwrap_or("")
}

#[test]
fn known_lines(rt: HostRuntime) -> Result<(), Fail> {
    let words = ["gen", "7", "40", "120", "400"];
    let drawn = ample_answer(&rt, rt.alloc(), &words, &[])?;
    let text = text_of(&drawn);
    assert!(rt; drawn.status == 0);
    assert_eq!(rt; line_of(text, 45), "  L0 ( N0 N1 ) 1000000000 0 0 0 ( )");
    assert_eq!(rt; line_of(text, 46), "  L1 ( N1 N2 ) 216 0 0 0 ( )");
    assert_eq!(rt; line_of(text, 85), "  L40 ( N38 N13 ) 976 0 0 0 ( )");
    assert_eq!(rt; line_of(text, 167), "  D0 ( N22 N11 ) 1 1 UNLIMITED");
    assert_eq!(rt; line_of(text, 566), "  D399 ( N9 N1 ) 1 10 UNLIMITED");
    Ok(())
}

// Room for the text of the greatest network.
const ROOMY: Outside = Outside {
    room: 2 << 20,
    ..AMPLE
};

#[test]
fn greatest_network(rt: HostRuntime) -> Result<(), Fail> {
    let words = ["gen", "18446744073709551615", "512", "4096", "32768"];
    let drawn = answer_to(&rt, rt.alloc(), &words, &[], ROOMY)?;
    let text = text_of(&drawn);
    assert!(rt; drawn.status == 0);
    assert_eq!(rt; text.len(), 1338430);
    assert_eq!(rt; text.lines().count(), 37383);
    assert_eq!(rt; line_of(text, 4612), "  L4095 ( N433 N10 ) 108 0 0 0 ( )");
    assert_eq!(rt; line_of(text, 37382), "  D32767 ( N130 N62 ) 1 8 UNLIMITED");
    Ok(())
}
