//! Every proper front of a small text of each kind.

use crate::texts::{SCRIPT, last_line};
use base_tests::{File, PRINT, WHAT_IF, ample_answer, expect_cert, expect_script, judged};
use cert_tests::{CERTIFICATE, ONE_LINK, ROUTING, SIGNED, SIGNED_ROUTING, VALID};
use std::alloc::Global;
use std::process::Abort;
use std::test::Fail;
use std::thread::Threads;

// How many bytes of a network's header are wanted.
const NET_HEADER: usize = 37;

// The front of the network of one link: refused at its end, or accepted without its last line feed.
fn expect_net(
    rt: &(impl Abort + Threads + Sync),
    alloc: Global,
    count: usize,
    front: &[u8],
) -> Result<(), Fail> {
    let given = ample_answer(rt, alloc, PRINT, &[("net", front)])?;
    if count < NET_HEADER {
        assert!(rt; given.is(3, b"refused net N1 line 1\n"), "{count}");
    } else if front.ends_with(b"\n)") && last_line(front) == 11 {
        assert!(rt; given.is(0, ONE_LINK), "{count}");
    } else {
        let line = format!(in alloc; "refused net N3 line {}\n", last_line(front))?;
        assert!(rt; given.is(3, line.as_bytes()), "{count}");
    }
    Ok(())
}

// A network that is cut off is refused, but where its last line feed alone is missing.
#[test]
fn fronts_of_a_network(rt: HostRuntime) -> Result<(), Fail> {
    for i in 0..ONE_LINK.len() {
        expect_net(&rt, rt.alloc(), i, &ONE_LINK[..i])?;
    }
    Ok(())
}

// What is said of the first `count` bytes of a certificate or a routing, whose header has `header` bytes: that there is no header where it
// is cut off, else that the last line is.
fn expect_front(
    rt: &(impl Abort + Threads + Sync),
    alloc: Global,
    header: usize,
    count: usize,
    front: &[u8],
) -> Result<(), Fail> {
    let given = judged(rt, alloc, ONE_LINK, front)?;
    if count < header {
        assert!(rt; given.is(3, b"refused cert K1 line 1\n"), "{count}");
    } else {
        let line = format!(in alloc; "refused cert K2 line {}\n", last_line(front))?;
        assert!(rt; given.is(3, line.as_bytes()), "{count}");
    }
    Ok(())
}

// Each proper front of it.
fn expect_fronts(
    rt: &(impl Abort + Threads + Sync),
    alloc: Global,
    header: usize,
    text: &[u8],
) -> Result<(), Fail> {
    for i in 0..text.len() {
        expect_front(rt, alloc, header, i, &text[..i])?;
    }
    Ok(())
}

#[test]
fn fronts_of_a_certificate(rt: HostRuntime) -> Result<(), Fail> {
    expect_fronts(&rt, rt.alloc(), 17, CERTIFICATE)?;
    expect_cert(&rt, rt.alloc(), "form 1", ONE_LINK, CERTIFICATE, 0, VALID)?;
    expect_fronts(&rt, rt.alloc(), 17, SIGNED)?;
    expect_cert(&rt, rt.alloc(), "form 2", ONE_LINK, SIGNED, 0, VALID)
}

#[test]
fn fronts_of_a_routing(rt: HostRuntime) -> Result<(), Fail> {
    expect_fronts(&rt, rt.alloc(), 13, ROUTING)?;
    expect_fronts(&rt, rt.alloc(), 13, SIGNED_ROUTING)
}

// What comes of each front of the script: the number of the refusal, or a point where the front is itself a script.
const ENDS: &[u8] = b".1111211...111..1111112..111";

const SHOWN: &[u8] =
    b"show lower 14/4 3.500000 upper 63050394783186944/18014398509481984 3.500000\nshow lower 0/4 0.000000 upper 0/18014398509481984 0.000000\n";

// How many bytes the line of the first `show` has.
const FIRST: usize = 76;

// The front of the script: refused in its last line, or a script that shows so much.
fn expect_end(
    rt: &(impl Abort + Threads + Sync),
    alloc: Global,
    end: u8,
    front: &[u8],
) -> Result<(), Fail> {
    let files: [File<'_>; 3] = [("net", ONE_LINK), ("cert", CERTIFICATE), ("script", front)];
    let given = ample_answer(rt, alloc, WHAT_IF, &files)?;
    if end == b'.' {
        let shown = if last_line(front) == 1 || !front.contains(&b'w') {
            0
        } else {
            FIRST
        };
        assert!(rt;
            given.is(0, &SHOWN[..shown.min(SHOWN.len())]),
            "{}",
            front.len()
        );
    } else {
        let kind = end.saturating_sub(b'0');
        let line = format!(in alloc; "refused script S{kind} line {}\n", last_line(front))?;
        assert!(rt; given.is(3, line.as_bytes()), "{}", front.len());
    }
    Ok(())
}

#[test]
fn fronts_of_a_script(rt: HostRuntime) -> Result<(), Fail> {
    for i in 0..SCRIPT.len().min(ENDS.len()) {
        expect_end(&rt, rt.alloc(), ENDS[i], &SCRIPT[..i])?;
    }
    expect_script(&rt, rt.alloc(), "whole", SCRIPT, 0, SHOWN)
}
