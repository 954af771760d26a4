//! Rows of `batch`: the matrices of a list solved on one network, or why they are not.

use base_tests::{File, expect};
use std::test::Fail;

// What a row shows, the words, the files, the status, and the text.
type Row = (
    &'static str,
    &'static [&'static str],
    &'static [File<'static>],
    u8,
    &'static [u8],
);

const ROWS: &[Row] = &[
    (
        "matrices_are_solved_in_order",
        &["batch", "net", "list", "--links", "directed"],
        &[
            (
                "net",
                b"?SNDlib native format; type: network; version: 1.0\nNODES (\n  A\n  B\n)\nLINKS (\n  L1 ( A B ) 10 0 0 0 ( )\n)\nDEMANDS (\n  D1 ( A B ) 1 4 UNLIMITED\n)\n",
            ),
            (
                "list",
                b"m1 ( D1 ( A B ) 1 4 UNLIMITED )\nm2 ( D1 ( A B ) 1 5 UNLIMITED )\n",
            ),
        ],
        0,
        b"matrix m1\nmcf-certificate 2\nverdict closed\nlinks directed\nmodules largest\nnet nodes 2 cells 1 commodities 1 decimals 0 skipped 0 left 0 hops 0\ngap 0.050000\nphases 1\nscale 10 4\nlower 10/4 2.500000\nupper 45035996273704960/18014398509481984 2.500000\npath D1 4 +L1\nlength +L1 4503599627370496\npotential A 0 4503599627370496\nend\nmatrix m2\nmcf-certificate 2\nverdict closed\nlinks directed\nmodules largest\nnet nodes 2 cells 1 commodities 1 decimals 0 skipped 0 left 0 hops 0\ngap 0.050000\nphases 1\nscale 10 5\nlower 10/5 2.000000\nupper 45035996273704960/22517998136852480 2.000000\npath D1 5 +L1\nlength +L1 4503599627370496\npotential A 0 4503599627370496\nend\n",
    ),
    (
        "matrix_without_demands",
        &["batch", "net", "list", "--links", "directed"],
        &[
            (
                "net",
                b"?SNDlib native format; type: network; version: 1.0\nNODES (\n  A\n  B\n)\nLINKS (\n  L1 ( A B ) 10 0 0 0 ( )\n)\nDEMANDS (\n  D1 ( A B ) 1 4 UNLIMITED\n)\n",
            ),
            (
                "list",
                b"m1 ( D1 ( A B ) 1 4 UNLIMITED )\nm2 ( D1 ( A B ) 1 5 UNLIMITED )\nm3 ( )\n",
            ),
        ],
        3,
        b"refused list M8 line 3\n",
    ),
    (
        "name_of_an_earlier_matrix",
        &["batch", "net", "list", "--links", "directed"],
        &[
            (
                "net",
                b"?SNDlib native format; type: network; version: 1.0\nNODES (\n  A\n  B\n)\nLINKS (\n  L1 ( A B ) 10 0 0 0 ( )\n)\nDEMANDS (\n  D1 ( A B ) 1 4 UNLIMITED\n)\n",
            ),
            (
                "list",
                b"m1 ( D1 ( A B ) 1 4 UNLIMITED )\nm2 ( D1 ( A B ) 1 5 UNLIMITED )\nm1 ( )\n",
            ),
        ],
        3,
        b"refused list M3 line 3\n",
    ),
    (
        "list_is_cut_short",
        &["batch", "net", "list", "--links", "directed"],
        &[
            (
                "net",
                b"?SNDlib native format; type: network; version: 1.0\nNODES (\n  A\n  B\n)\nLINKS (\n  L1 ( A B ) 10 0 0 0 ( )\n)\nDEMANDS (\n  D1 ( A B ) 1 4 UNLIMITED\n)\n",
            ),
            ("list", b"m1 ( D1 ( A B ) 1 4\n"),
        ],
        3,
        b"refused list M1 line 2\n",
    ),
    (
        "list_without_matrices",
        &["batch", "net", "list", "--links", "directed"],
        &[
            (
                "net",
                b"?SNDlib native format; type: network; version: 1.0\nNODES (\n  A\n  B\n)\nLINKS (\n  L1 ( A B ) 10 0 0 0 ( )\n)\nDEMANDS (\n  D1 ( A B ) 1 4 UNLIMITED\n)\n",
            ),
            ("list", b"# m1 ( )\n\t \r\n#"),
        ],
        0,
        b"",
    ),
    (
        "some_matrix_is_open",
        &[
            "batch",
            "net",
            "list",
            "--links",
            "directed",
            "--phases",
            "2",
            "--modules",
            "none",
        ],
        &[
            (
                "net",
                b"?SNDlib native format; type: network; version: 1.0\nNODES (\n  A\n  B\n)\nLINKS (\n  L1 ( A B ) 3 0 0 0 ( 100 1 )\n  L2 ( A B ) 7 0 0 0 ( )\n)\nDEMANDS (\n  D1 ( A B ) 1 10 UNLIMITED\n)\n",
            ),
            (
                "list",
                b"a (\n  D ( A B ) 1 10 UNLIMITED\n)\nb (\n  D ( A B ) 1 3 UNLIMITED\n)\nc (\n  D ( A B ) 1 30 UNLIMITED\n  E ( A B ) 1 1 UNLIMITED\n)\n",
            ),
        ],
        1,
        b"matrix a\nmcf-certificate 2\nverdict open\nlinks directed\nmodules none\nnet nodes 2 cells 2 commodities 1 decimals 0 skipped 0 left 0 hops 0\ngap 0.050000\nphases 2\nscale 7 20\nlower 14/20 0.700000\nupper 24871981226655738/19301141260159260 1.288628\npath D 20 +L2\nlength +L1 3787060781514752\nlength +L2 1930114126015926\npotential A 0 1930114126015926\nend\nmatrix b\nmcf-certificate 2\nverdict open\nlinks directed\nmodules none\nnet nodes 2 cells 2 commodities 1 decimals 0 skipped 0 left 0 hops 0\ngap 0.050000\nphases 2\nscale 7 6\nlower 14/6 2.333333\nupper 24871981226655738/5790342378047778 4.295425\npath D 6 +L2\nlength +L1 3787060781514752\nlength +L2 1930114126015926\npotential A 0 1930114126015926\nend\nmatrix c\nmcf-certificate 2\nverdict open\nlinks directed\nmodules none\nnet nodes 2 cells 2 commodities 2 decimals 0 skipped 0 left 0 hops 0\ngap 0.050000\nphases 2\nscale 7 62\nlower 14/62 0.225806\nupper 24871981226655738/59833537906493706 0.415687\npath D 60 +L2\npath E 2 +L2\nlength +L1 3787060781514752\nlength +L2 1930114126015926\npotential A 0 1930114126015926\nend\n",
    ),
    (
        "fine_link_before_a_fine_demand",
        &["batch", "net", "list", "--links", "directed"],
        &[
            (
                "net",
                b"?SNDlib native format; type: network; version: 1.0\nNODES (\n  A\n  B\n)\nLINKS (\n  L1 ( A B ) 1e-7 0 0 0 ( )\n)\nDEMANDS (\n  D1 ( A B ) 1 4 UNLIMITED\n)\n",
            ),
            ("list", b"m1 ( D1 ( A B ) 1 1e-7 UNLIMITED )\n"),
        ],
        3,
        b"refused net N8 line 7\n",
    ),
    (
        "large_link_at_the_first_name",
        &["batch", "net", "list", "--links", "directed"],
        &[
            (
                "net",
                b"?SNDlib native format; type: network; version: 1.0\nNODES (\n  A\n  B\n)\nLINKS (\n  L1 ( A B ) 1e14 0 0 0 ( )\n)\nDEMANDS (\n  D1 ( A B ) 1 4 UNLIMITED\n)\n",
            ),
            (
                "list",
                b"\nm1 ( D1 ( A B ) 1 4 UNLIMITED )\nm2 ( D1 ( A B ) 1 5 UNLIMITED )\n",
            ),
        ],
        3,
        b"refused list M7 line 2\n",
    ),
    (
        "amount_by_own_decimals",
        &["batch", "net", "list", "--links", "directed"],
        &[
            (
                "net",
                b"?SNDlib native format; type: network; version: 1.0\nNODES (\n  A\n  B\n)\nLINKS (\n  L1 ( A B ) 10 0 0 0 ( )\n)\nDEMANDS (\n  D1 ( A B ) 1 4 UNLIMITED\n)\n",
            ),
            (
                "list",
                b"m1 (\nD1 ( A B ) 1 17592186044416 UNLIMITED\nD2 ( A B ) 1 0.5 UNLIMITED )",
            ),
        ],
        3,
        b"refused list M7 line 2\n",
    ),
    (
        "list_is_missing",
        &["batch", "net", "list", "--links", "directed"],
        &[(
            "net",
            b"?SNDlib native format; type: network; version: 1.0\nNODES (\n  A\n  B\n)\nLINKS (\n  L1 ( A B ) 1e-7 0 0 0 ( )\n)\nDEMANDS (\n  D1 ( A B ) 1 4 UNLIMITED\n)\n",
        )],
        4,
        b"read fault\n",
    ),
    (
        "network_before_the_list",
        &["batch", "net", "list", "--links", "directed"],
        &[(
            "net",
            b"?SNDlib native format; type: network; version: 1.0\nNODES (\n  A\n  B\n)\nLINKS (\n  L1 ( A B ) 10 0 0 0 ( )\n)\nDEMANDS (\n  D1 ( A B ) 1 4 UNLIMITED\n)\n(",
        )],
        3,
        b"refused net N3 line 12\n",
    ),
];

#[test]
fn batches_are_answered(rt: HostRuntime) -> Result<(), Fail> {
    for (shows, words, files, status, text) in ROWS {
        expect(&rt, rt.alloc(), shows, words, files, *status, text)?;
    }
    Ok(())
}
