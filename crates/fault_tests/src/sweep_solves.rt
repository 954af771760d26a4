//! Rows of `sweepsolve`: the network solved without each single link, or why it is not.

use crate::sweeps::NO_LINKS;
use base_tests::{BOTH_WAYS, NO_CAPACITY, TWO_LINKS, expect_net};
use cert_tests::ONE_LINK;
use std::test::Fail;

// Links of 7, 3 and 1 side by side, and a demand of 10.
const THREE_LINKS: &[u8] =
    b"?SNDlib native format; type: network; version: 1.0\nNODES (\n  A\n  B\n)\nLINKS (\n  L1 ( A B ) 7 0 0 0 ( )\n  L2 ( A B ) 3 0 0 0 ( )\n  L3 ( A B ) 1 0 0 0 ( )\n)\nDEMANDS (\n  D1 ( A B ) 1 10 UNLIMITED\n)\n";

// What a row shows, the words, the network, the status, and the text.
type Row = (
    &'static str,
    &'static [&'static str],
    &'static [u8],
    u8,
    &'static [u8],
);

const ROWS: &[Row] = &[
    (
        "each_link_is_closed_alone",
        &["sweepsolve", "net", "--links", "directed"],
        TWO_LINKS,
        0,
        b"sweep L1 closed phases 1 lower 7/10 0.700000 upper 31525197391593472/45035996273704960 0.700000\nsweep L2 closed phases 1 lower 3/10 0.300000 upper 13510798882111488/45035996273704960 0.300000\n",
    ),
    (
        "some_link_is_open",
        &[
            "sweepsolve",
            "net",
            "--gap",
            "0",
            "--phases",
            "1",
            "--step",
            "65536",
            "--links",
            "directed",
        ],
        THREE_LINKS,
        1,
        b"sweep L1 open phases 1 lower 3/10 0.300000 upper 6755399441055743/15011998757901650 0.450001\nsweep L2 open phases 1 lower 7/10 0.700000 upper 6755399441055742/6433713753386420 1.050001\nsweep L3 open phases 1 lower 7/10 0.700000 upper 20266198323167226/19301141260159260 1.050001\n",
    ),
    (
        "only_link_closed_is_a_cut",
        &["sweepsolve", "net"],
        ONE_LINK,
        0,
        b"sweep L1 closed phases 0 lower 0/1 0.000000 upper 0/4 0.000000\n",
    ),
    (
        "both_cells_are_closed",
        &["sweepsolve", "net", "--links", "bidirected"],
        BOTH_WAYS,
        0,
        b"sweep L1 closed phases 0 lower 0/1 0.000000 upper 0/10 0.000000\n",
    ),
    (
        "a_cut_stays_one",
        &["sweepsolve", "net"],
        NO_CAPACITY,
        0,
        b"sweep L1 closed phases 0 lower 0/1 0.000000 upper 0/5 0.000000\n",
    ),
    (
        "no_links_no_lines",
        &["sweepsolve", "--phases=65536", "net"],
        NO_LINKS,
        0,
        b"",
    ),
    (
        "network_is_refused",
        &["sweepsolve", "net"],
        b"",
        3,
        b"refused net N1 line 1\n",
    ),
    (
        "no_such_file",
        &["sweepsolve", "other"],
        ONE_LINK,
        4,
        b"read fault\n",
    ),
    (
        "workers_are_not_asked",
        &["sweepsolve", "net", "--workers", "1"],
        ONE_LINK,
        2,
        b"usage\n",
    ),
];

#[test]
fn solved_without_each_link(rt: HostRuntime) -> Result<(), Fail> {
    for (shows, words, net, status, text) in ROWS {
        expect_net(&rt, rt.alloc(), shows, words, net, *status, text)?;
    }
    Ok(())
}
