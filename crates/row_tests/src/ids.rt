//! Ids of unusual bytes, through every command; and words at and past their limit.

use crate::texts::filled;
use base_tests::{
    CHECK, File, PRINT, UPGRADE, WHAT_IF, expect, expect_cert, expect_net, expect_script,
};
use cert_tests::{ONE_LINK, VALID, repeated};
use std::alloc::Global;
use std::test::Fail;
use std::thread::Threads;

// A node, a link and a demand of one id, which stands for each `@`.
const NETWORK: &[u8] =
    b"?SNDlib native format; type: network; version: 1.0\nNODES (\n  @\n  B\n)\nLINKS (\n  @ ( @ B ) 10 0 0 0 ( )\n)\nDEMANDS (\n  @ ( @ B ) 1 4 UNLIMITED\n)\n";

// What is solved of it.
const SOLVED: &[u8] =
    b"mcf-certificate 2\nverdict closed\nlinks directed\nmodules largest\nnet nodes 2 cells 1 commodities 1 decimals 0 skipped 0 left 0 hops 0\ngap 0.050000\nphases 1\nscale 10 4\nlower 10/4 2.500000\nupper 45035996273704960/18014398509481984 2.500000\npath @ 4 +@\nlength +@ 4503599627370496\npotential @ 0 4503599627370496\nend\n";

// The same in form 1.
const OLD: &[u8] =
    b"mcf-certificate 1\nverdict closed\nlinks directed\nmodules largest\nnet nodes 2 cells 1 commodities 1 decimals 0 skipped 0 left 0 hops 0\ngap 0.050000\nphases 1\nscale 10 4\nlower 10/4 2.500000\nupper 45035996273704960/18014398509481984 2.500000\npath @ 4 @\nlength @ 4503599627370496\npotential @ 0 4503599627370496\nend\n";

const SCRIPT: &[u8] = b"set @ 10 add @ 2 sub @ 12\nclose @ show";

const SHOWN: &[u8] = b"show lower 0/4 0.000000 upper 0/18014398509481984 0.000000\n";

const SOLVE: &[&str] = &["solve", "net", "--links", "directed"];

// Words of the formats, digits, signs, control bytes, and bytes that are no UTF-8.
const IDS: &[&[u8]] = &[
    b"NODES",
    b"LINKS",
    b"DEMANDS",
    b"UNLIMITED",
    b"META",
    b"?SNDlib",
    b"mcf-certificate",
    b"path",
    b"length",
    b"potential",
    b"end",
    b"show",
    b"set",
    b"close",
    b"0",
    b"007",
    b"1.5",
    b"1E9",
    b"-1",
    b"--",
    b"--gap",
    b"/",
    b"=",
    b"+",
    b"-",
    b"+@",
    b"=+-",
    b"\"",
    b"'",
    b"\\",
    b"%s",
    b"\0",
    b"\x01\x02",
    b"\x0b\x0c",
    b"\x1b[31m",
    b"\x7f",
    b"\xff\xfe",
    b"\xc3A",
    b"\xc3\xa9",
    b"\xe2\x80\xa8",
    b"\xed\xa0\x80",
    b"\xf0\x9f\x9a\x80",
];

// The id goes through every command unchanged.
fn expect_id<R: Threads + Sync>(rt: &R, alloc: Global, shows: &str, id: &[u8]) -> Result<(), Fail> {
    let net = filled(alloc, NETWORK, b'@', id)?;
    let cert = filled(alloc, SOLVED, b'@', id)?;
    let script = filled(alloc, SCRIPT, b'@', id)?;
    let files: [File<'_>; 3] = [("net", &net), ("cert", &cert), ("script", &script)];
    expect(rt, alloc, shows, PRINT, &files, 0, &net)?;
    expect(rt, alloc, shows, SOLVE, &files, 0, &cert)?;
    expect(rt, alloc, shows, CHECK, &files, 0, VALID)?;
    expect(rt, alloc, shows, WHAT_IF, &files, 0, SHOWN)?;
    let old = filled(alloc, OLD, b'@', id)?;
    let files: [File<'_>; 2] = [("net", &net), ("cert", &old)];
    expect(rt, alloc, shows, CHECK, &files, 0, VALID)?;
    expect(rt, alloc, shows, UPGRADE, &files, 0, &cert)
}

#[test]
fn ids_of_unusual_bytes(rt: HostRuntime) -> Result<(), Fail> {
    for id in IDS {
        expect_id(&rt, rt.alloc(), "unusual", id)?;
    }
    Ok(())
}

// Links side by side whose ids begin with signs. That of `L` is the least capacity that carries the routing.
const SIGNS: &[u8] =
    b"?SNDlib native format; type: network; version: 1.0\nNODES (\n  A\n  B\n)\nLINKS (\n  + ( A B ) 1 0 0 0 ( )\n  - ( A B ) 2 0 0 0 ( )\n  = ( A B ) 3 0 0 0 ( )\n  +L ( A B ) 4 0 0 0 ( )\n  -L ( A B ) 5 0 0 0 ( )\n  =L ( A B ) 6 0 0 0 ( )\n  L ( A B ) 7 0 0 0 ( )\n  ++L ( A B ) 8 0 0 0 ( )\n)\nDEMANDS (\n  D ( A B ) 1 1 UNLIMITED\n)\n";

// A routing over one of them: its form stands for `!`, its links for `#`, and the word of its path for `@`.
const ROUTING: &[u8] =
    b"mcf-routing !\nlinks #\nmodules none\nphases 1\nscale 7 1\npath D 1 @\nend\n";

// The form, how links are read, the word of the path, the status, and the line.
type Signed = (
    &'static [u8],
    &'static [u8],
    &'static [u8],
    u8,
    &'static [u8],
);

const SIGNED: &[Signed] = &[
    (b"1", b"directed", b"+L", 1, b"invalid C3\n"),
    (
        b"2",
        b"directed",
        b"+L",
        0,
        b"feasible directed none 7/1 7.000000\n",
    ),
    (
        b"1",
        b"directed",
        b"++L",
        0,
        b"feasible directed none 7/1 7.000000\n",
    ),
    (b"2", b"directed", b"++L", 1, b"invalid C3\n"),
    (b"2", b"directed", b"++", 1, b"invalid C3\n"),
    (b"2", b"directed", b"+", 3, b"refused cert K3 line 6\n"),
    (b"2", b"directed", b"--", 3, b"refused cert K3 line 6\n"),
    (b"1", b"undirected", b"=L", 1, b"invalid C3\n"),
    (
        b"2",
        b"undirected",
        b"=L",
        0,
        b"feasible undirected none 7/1 7.000000\n",
    ),
    (b"2", b"undirected", b"+L", 3, b"refused cert K3 line 6\n"),
    (
        b"2",
        b"bidirected",
        b"+++L",
        0,
        b"feasible bidirected none 7/1 7.000000\n",
    ),
    (b"2", b"bidirected", b"-L", 1, b"invalid C1\n"),
    (b"2", b"bidirected", b"=", 3, b"refused cert K3 line 6\n"),
    (b"1", b"bidirected", b"-L", 3, b"refused cert K2 line 2\n"),
];

// The first byte of a cell word is the sign, whatever follows it.
#[test]
fn ids_that_begin_with_signs(rt: HostRuntime) -> Result<(), Fail> {
    let alloc = rt.alloc();
    for (form, links, word, status, line) in SIGNED {
        let cert = filled(alloc, ROUTING, b'!', form)?;
        let cert = filled(alloc, &cert, b'#', links)?;
        let cert = filled(alloc, &cert, b'@', word)?;
        expect_cert(&rt, alloc, "signs", SIGNS, &cert, *status, line)?;
    }
    Ok(())
}

// A word has at most 255 bytes.
#[test]
fn words_at_their_limit(rt: HostRuntime) -> Result<(), Fail> {
    let longest = repeated(rt.alloc(), b"x", 255)?;
    expect_id(&rt, rt.alloc(), "longest", &longest)
}

#[test]
fn words_past_their_limit(rt: HostRuntime) -> Result<(), Fail> {
    let alloc = rt.alloc();
    let too_long = repeated(alloc, b"x", 256)?;
    let net = filled(alloc, NETWORK, b'@', &too_long)?;
    let line = b"refused net N2 line 3\n";
    expect_net(&rt, alloc, "network", PRINT, &net, 3, line)?;
    let cert = filled(alloc, SOLVED, b'@', &too_long)?;
    let line = b"refused cert K3 line 11\n";
    expect_cert(&rt, alloc, "certificate", ONE_LINK, &cert, 3, line)?;
    let script = filled(alloc, SCRIPT, b'@', &too_long)?;
    let line = b"refused script S1 line 1\n";
    expect_script(&rt, alloc, "script", &script, 3, line)
}
