//! Tables of edits: texts in which one part is replaced, and what is said of them.

use crate::expected::{expect_cert, expect_net};
use cert_tests::edited;
use std::alloc::Global;
use std::test::Fail;
use std::thread::Threads;

/// What a row shows, a part of a text and what takes its place, the status, and the text that is written.
pub type Edit = (
    &'static str,
    &'static [u8],
    &'static [u8],
    u8,
    &'static [u8],
);

/// Each certificate or routing, with its part replaced, is judged so.
pub fn expect_certs<R: Threads + Sync>(
    rt: &R,
    alloc: Global,
    net: &[u8],
    cert: &[u8],
    rows: &[Edit],
) -> Result<(), Fail> {
    for (shows, part, by, status, line) in rows {
        let cert = edited(alloc, cert, part, by)?;
        expect_cert(rt, alloc, shows, net, &cert, *status, line)?;
    }
    Ok(())
}

/// The certificate or routing is judged so on each network with its part replaced.
pub fn expect_on_nets<R: Threads + Sync>(
    rt: &R,
    alloc: Global,
    net: &[u8],
    cert: &[u8],
    rows: &[Edit],
) -> Result<(), Fail> {
    for (shows, part, by, status, line) in rows {
        let net = edited(alloc, net, part, by)?;
        expect_cert(rt, alloc, shows, &net, cert, *status, line)?;
    }
    Ok(())
}

/// Each network, with its part replaced, is answered so.
pub fn expect_nets<R: Threads + Sync>(
    rt: &R,
    alloc: Global,
    words: &[&str],
    net: &[u8],
    rows: &[Edit],
) -> Result<(), Fail> {
    for (shows, part, by, status, text) in rows {
        let net = edited(alloc, net, part, by)?;
        expect_net(rt, alloc, shows, words, &net, *status, text)?;
    }
    Ok(())
}
