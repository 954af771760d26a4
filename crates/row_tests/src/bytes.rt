//! Single bytes exchanged, removed and doubled at every place of a small text of each kind.

use crate::running::is_line;
use crate::texts::{SCRIPT, last_line, spliced};
use base_tests::{Answer, File, PRINT, WHAT_IF, ample_answer, judged};
use cert_tests::{CERTIFICATE, ONE_LINK, ROUTING, SIGNED, SIGNED_ROUTING, VALID};
use std::alloc::Global;
use std::process::Abort;
use std::test::Fail;
use std::thread::Threads;

// What a byte is exchanged for.
const OTHERS: &[u8] = b" #9\xff";

const SOLVE: &[&str] = &["solve", "net", "--workers", "1", "--phases", "20"];

// What a text is read as.
#[derive(Clone, Copy)]
enum Kind {
    Network,
    Certificate,
    Routing,
    Script,
}

// What is solved of an accepted network is judged valid on it, or the network is refused under its options.
fn expect_solved(
    rt: &(impl Abort + Threads + Sync),
    alloc: Global,
    place: usize,
    net: &[u8],
) -> Result<(), Fail> {
    let solved = ample_answer(rt, alloc, SOLVE, &[("net", net)])?;
    if solved.status == 3 {
        assert!(rt; is_line(&solved, 3, b"refused net N"), "{place}");
        return Ok(());
    }
    assert!(rt; solved.status <= 1, "{place}");
    let said = judged(rt, alloc, net, solved.text())?;
    assert!(rt; is_line(&said, 0, b"valid "), "{place}");
    Ok(())
}

// A network is refused, or it is printed, what is printed is printed as it is, and what is solved of it is valid.
fn expect_net(
    rt: &(impl Abort + Threads + Sync),
    alloc: Global,
    place: usize,
    net: &[u8],
) -> Result<(), Fail> {
    let printed = ample_answer(rt, alloc, PRINT, &[("net", net)])?;
    if printed.status == 3 {
        assert!(rt; is_line(&printed, 3, b"refused net N"), "{place}");
        return Ok(());
    }
    let again = ample_answer(rt, alloc, PRINT, &[("net", printed.text())])?;
    assert!(rt;
        printed.status == 0 && again.is(0, printed.text()),
        "{place}"
    );
    expect_solved(rt, alloc, place, net)
}

// The last word of a line as a number of millionths.
fn millionths(line: &[u8]) -> u64 {
    let mut value = 0u64;
    for b in line {
        if *b == b' ' {
            value = 0;
        } else if b.is_ascii_digit() {
            value = value
                .saturating_mul(10)
                .saturating_add(u64::from(b.saturating_sub(b'0')));
        }
    }
    value
}

// Whether this may be said of a routing on the network of one link: no routing carries more than 10/4.
fn is_sane_routing(said: &Answer) -> bool {
    match said.status {
        0 => is_line(said, 0, b"feasible directed none ") && millionths(said.text()) <= 2_500_000,
        1 => is_line(said, 1, b"invalid C"),
        _ => is_line(said, 3, b"refused cert K"),
    }
}

// Whether this may be said of a certificate there: its fractions are printed twice, so no change of one byte moves them.
fn is_sane_certificate(said: &Answer) -> bool {
    match said.status {
        0 => said.text() == VALID,
        1 => is_line(said, 1, b"invalid C"),
        _ => is_line(said, 3, b"refused cert K"),
    }
}

// One more than how often `show` stands in the script outside of comments.
fn shows(script: &[u8]) -> u64 {
    let mut count = 1u64;
    let mut comment = false;
    for i in 0..script.len() {
        comment = script[i] == b'#' || (comment && script[i] != b'\n');
        if !comment && script[i..].starts_with(b"show") {
            count = count.saturating_add(1);
        }
    }
    count
}

// A script is refused, or it shows a line for each `show`.
fn is_sane_script(script: &[u8], said: &Answer) -> bool {
    if said.status == 3 {
        return is_line(said, 3, b"refused script S");
    }
    let begins = said.text().is_empty() || said.text().starts_with(b"show lower ");
    said.status == 0 && begins && last_line(said.text()) == shows(script)
}

// The text is refused with one line, or what is said of it is sane.
fn expect_sane(
    rt: &(impl Abort + Threads + Sync),
    alloc: Global,
    kind: Kind,
    place: usize,
    text: &[u8],
) -> Result<(), Fail> {
    let script: [File<'_>; 3] = [("net", ONE_LINK), ("cert", CERTIFICATE), ("script", text)];
    match kind {
        Kind::Network => expect_net(rt, alloc, place, text)?,
        Kind::Certificate => {
            let said = judged(rt, alloc, ONE_LINK, text)?;
            assert!(rt; is_sane_certificate(&said), "{place}");
        }
        Kind::Routing => {
            let said = judged(rt, alloc, ONE_LINK, text)?;
            assert!(rt; is_sane_routing(&said), "{place}");
        }
        Kind::Script => {
            let said = ample_answer(rt, alloc, WHAT_IF, &script)?;
            assert!(rt; is_sane_script(text, &said), "{place}");
        }
    }
    Ok(())
}

// The byte of that place removed, doubled, and exchanged.
fn expect_at(
    rt: &(impl Abort + Threads + Sync),
    alloc: Global,
    kind: Kind,
    text: &[u8],
    place: usize,
    byte: u8,
) -> Result<(), Fail> {
    let removed = spliced(alloc, text, place, 1, &[])?;
    expect_sane(rt, alloc, kind, place, &removed)?;
    let doubled = spliced(alloc, text, place, 0, &[byte])?;
    expect_sane(rt, alloc, kind, place, &doubled)?;
    for other in OTHERS {
        let exchanged = spliced(alloc, text, place, 1, &[*other])?;
        expect_sane(rt, alloc, kind, place, &exchanged)?;
    }
    Ok(())
}

// The same at every place.
fn expect_everywhere(
    rt: &(impl Abort + Threads + Sync),
    alloc: Global,
    kind: Kind,
    text: &[u8],
) -> Result<(), Fail> {
    for place in 0..text.len() {
        expect_at(rt, alloc, kind, text, place, text[place])?;
    }
    Ok(())
}

#[test]
fn bytes_of_a_network(rt: HostRuntime) -> Result<(), Fail> {
    expect_everywhere(&rt, rt.alloc(), Kind::Network, ONE_LINK)
}

#[test]
fn bytes_of_a_certificate(rt: HostRuntime) -> Result<(), Fail> {
    expect_everywhere(&rt, rt.alloc(), Kind::Certificate, CERTIFICATE)
}

#[test]
fn bytes_of_a_certificate_of_form_2(rt: HostRuntime) -> Result<(), Fail> {
    expect_everywhere(&rt, rt.alloc(), Kind::Certificate, SIGNED)
}

#[test]
fn bytes_of_a_routing(rt: HostRuntime) -> Result<(), Fail> {
    expect_everywhere(&rt, rt.alloc(), Kind::Routing, ROUTING)
}

#[test]
fn bytes_of_a_routing_of_form_2(rt: HostRuntime) -> Result<(), Fail> {
    expect_everywhere(&rt, rt.alloc(), Kind::Routing, SIGNED_ROUTING)
}

#[test]
fn bytes_of_a_script(rt: HostRuntime) -> Result<(), Fail> {
    expect_everywhere(&rt, rt.alloc(), Kind::Script, SCRIPT)
}
