//! What is expected of a run: its status and its text.

use crate::running::{File, ample_answer};
use cert_tests::{CERTIFICATE, ONE_LINK};
use std::alloc::Global;
use std::test::Fail;
use std::thread::Threads;

/// Prints the network.
pub const PRINT: &[&str] = &["print", "net"];

/// Judges the certificate on the network.
pub const CHECK: &[&str] = &["check", "net", "cert"];

/// Runs the script on the certificate of the network.
pub const WHAT_IF: &[&str] = &["whatif", "net", "cert", "script"];

/// Writes the certificate of the network in form 2.
pub const UPGRADE: &[&str] = &["upgrade", "net", "cert"];

/// Writes the best certificate that the certificate of the network gives.
pub const TIGHTEN: &[&str] = &["tighten", "net", "cert"];

/// The same of two certificates.
pub const TIGHTEN_BOTH: &[&str] = &["tighten", "net", "cert", "cert2"];

/// Closes each link for the certificate of the network.
pub const SWEEP: &[&str] = &["sweep", "net", "cert"];

/// The words are answered so, where these files stand. A failure names what the row shows.
pub fn expect<R: Threads + Sync>(
    rt: &R,
    alloc: Global,
    shows: &str,
    words: &[&str],
    files: &[File<'_>],
    status: u8,
    text: &[u8],
) -> Result<(), Fail> {
    let given = ample_answer(rt, alloc, words, files)?;
    if given.is(status, text) {
        return Ok(());
    }
    Err(Fail::new(format_args!("{shows}: status {}", given.status)))
}

/// The words are answered so, where the network alone stands.
pub fn expect_net<'a, R: Threads + Sync>(
    rt: &R,
    alloc: Global,
    shows: &str,
    words: &[&str],
    net: &'a [u8],
    status: u8,
    text: &[u8],
) -> Result<(), Fail> {
    let files: [File<'a>; 1] = [("net", net)];
    expect(rt, alloc, shows, words, &files, status, text)
}

/// This is said of the certificate or the routing on the network.
pub fn expect_cert<'a, R: Threads + Sync>(
    rt: &R,
    alloc: Global,
    shows: &str,
    net: &'a [u8],
    cert: &'a [u8],
    status: u8,
    line: &[u8],
) -> Result<(), Fail> {
    let files: [File<'a>; 2] = [("net", net), ("cert", cert)];
    expect(rt, alloc, shows, CHECK, &files, status, line)
}

/// The script is answered so on the certificate of the network of one link.
pub fn expect_script<'a, R: Threads + Sync>(
    rt: &R,
    alloc: Global,
    shows: &str,
    script: &'a [u8],
    status: u8,
    text: &[u8],
) -> Result<(), Fail> {
    let files: [File<'a>; 3] = [("net", ONE_LINK), ("cert", CERTIFICATE), ("script", script)];
    expect(rt, alloc, shows, WHAT_IF, &files, status, text)
}
