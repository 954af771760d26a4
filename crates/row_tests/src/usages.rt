//! Words that ask for nothing.

use base_tests::{File, ample_answer};
use cert_tests::{ONE_LINK, ROUTING};
use std::test::Fail;

const USAGES: &[&[&str]] = &[
    &[],
    &[""],
    &["help"],
    &["--help"],
    &["Check", "net", "cert"],
    &["check"],
    &["check", "net"],
    &["check", "net", "cert", "net"],
    &["check", "net", "cert", "--gap", "0"],
    &["check", "net", "--links=directed"],
    &["print"],
    &["print", "net", "cert"],
    &["print", "net", "-h"],
    &["print", "--gap", "0.05", "net"],
    &["print", "--", "net", "--"],
    &["solve"],
    &["solve", "net", "--gap"],
    &["solve", "net", "--ga", "0.1"],
    &["solve", "net", "--gap=1000.000001"],
    &["solve", "net", "--gap", "0.05", "--gap", "0.1"],
    &["solve", "net", "--workers="],
    &["solve", "net", "--workers", "17"],
    &["solve", "net", "--gap", "0.1", "--gap=0.1"],
    &["solve", "net", "--workers=17"],
    &["solve", "net", "--workers", "-1"],
    &["solve", "net", "--workers=-1"],
    &["solve", "net", "--gap", "--"],
    &["solve", "--gap", "--", "net"],
    &["solve", "--gap", "--links=directed", "net"],
    &["solve", "net", "--links", "--modules", "sum"],
    &["solve", "net", "--links", "both"],
    &["solve", "net", "--links", "Bidirected"],
    &["check", "net", "cert", "--links", "bidirected"],
    &["upgrade", "net"],
    &["upgrade", "net", "cert", "net"],
    &["upgrade", "net", "cert", "--gap", "0"],
    &["tighten", "net"],
    &["tighten", "net", "cert", "cert", "cert"],
    &["tighten", "net", "cert", "--gap", "0"],
    &["sweep", "net"],
    &["sweep", "net", "cert", "net"],
    &["sweep", "net", "cert", "--gap", "0"],
    &["solve", "net", "--=x"],
    &["solve", "net", "-g", "0.1"],
    &["solve", "-ü", "net"],
    &["solve", "net", "--WORDS", "x"],
    &["solve", "net", "--", "--gap"],
    &["check", "net", "cert", "--gap", "0.1"],
    &["print", "--help"],
    &["print", "-h"],
    &["print", "net", "--version"],
    &["trial", "1", "2", "2"],
    &["trial", "1", "2", "2", "1", "--step", "0"],
    &["gen", "18446744073709551616", "2", "2", "1"],
];

#[test]
fn usage(rt: HostRuntime) -> Result<(), Fail> {
    let files: [File<'_>; 2] = [("net", ONE_LINK), ("cert", ROUTING)];
    for words in USAGES {
        let given = ample_answer(&rt, rt.alloc(), words, &files)?;
        assert!(&rt; given.is(2, b"usage\n"), "{words:?}");
    }
    Ok(())
}
