//! Rows of words that ask for something: the files they name, and the values of options.

use base_tests::owned_words;
use mcf_words::{Command, Request, WordsEnd, read_words};
use std::alloc::Global;
use std::test::Fail;

fn read(alloc: Global, words: &[&str]) -> Result<Request, WordsEnd> {
    let owned = owned_words(alloc, words)?;
    read_words(alloc, owned.as_slice())
}

const FIRST_NAMES: &[(&[&str], &str)] = &[
    (&["solve", "net"], "net"),
    (&["solve", ""], ""),
    (&["solve", "-"], "-"),
    (&["solve", "--", "--gap"], "--gap"),
    (&["solve", "--", "--"], "--"),
    (&["solve", "--phases", "5", "--", "-net"], "-net"),
    (&["solve", "--gap=0.05", "net=x"], "net=x"),
    (&["solve", "Zürich.net"], "Zürich.net"),
    (&["check", "-", "cert"], "-"),
    (&["print", "--", "-h"], "-h"),
    (&["upgrade", "-", "cert"], "-"),
    (&["sweep", "--", "--", "-"], "--"),
];

#[test]
fn names(rt: HostRuntime) -> Result<(), Fail> {
    for (words, name) in FIRST_NAMES {
        let request = read(rt.alloc(), words).or(Err("a request"))?;
        assert!(&rt; request.names.len() > 0, "{words:?}");
        if request.names.len() > 0 {
            assert!(&rt; request.names.name(0) == *name, "{words:?}");
        }
    }
    Ok(())
}

#[test]
fn options(rt: HostRuntime) -> Result<(), Fail> {
    let words = [
        "trial",
        "--step=8",
        "0",
        "512",
        "--gap",
        "1e-6",
        "4096",
        "--workers",
        "016",
        "32768",
        "--phases=007",
    ];
    let request = read(rt.alloc(), &words).or(Err("a request"))?;
    assert!(rt; request.command == Command::Trial);
    assert!(rt; request.numbers == [0, 512, 4096, 32768]);
    assert!(rt; request.phases == Some(7));
    assert!(rt; request.workers == Some(16));
    assert!(rt; request.step == 8);
    assert!(rt; request.gap == 1);
    Ok(())
}
