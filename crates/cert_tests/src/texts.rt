//! Texts of certificates and routings: what their heads say, and each refusal with its line.

ghost use Rattle.std.specs.Prelude.{◌≡◌, ◌≤◌, Ok, length};
ghost use Rattle.mcf_limits.specs.declared.TheConstants.{MAX_CERT_BYTES};
ghost use Rattle.cert_lines.specs.Sheet.{IsOf};
ghost use Rattle.sndlib_grammar.specs.Rows.{AreNetRows};
ghost use Rattle.unit_scale.specs.Scaling.{scaled_of};

use crate::one_link::{CERTIFICATE, ONE_LINK, ROUTING, SIGNED, SIGNED_ROUTING, edited};
use cert_text::{CertEnd, CertKind, CertRefusal, Form, Kind, Known, open, read_rest};
use mcf_limits::MAX_CERT_BYTES;
use sndlib_read::{RawNet, read_net};
use std::alloc::Global;
use std::process::Abort;
use std::test::Fail;
use unit_scale::{LinkMode, ModuleMode, NetOptions, Scaled, scale};

// A text to be replaced, what takes its place, and the line and kind of the refusal.
type Edit = (&'static [u8], &'static [u8], u32, CertKind);

const OF_FORM_1: &[Edit] = &[
    (
        b"mcf-certificate 1",
        b"mcf-certificate 9",
        1,
        CertKind::NoHeader,
    ),
    (b"verdict closed", b"verdict shut", 2, CertKind::Syntax),
    (b"links directed", b"links both", 3, CertKind::Syntax),
    (b"modules largest", b"modules  largest", 4, CertKind::Syntax),
    (b"net nodes 2", b"net nodes 3", 5, CertKind::OtherNet),
    (
        b"net nodes 2",
        b"net nodes 4294967296",
        5,
        CertKind::TooLarge,
    ),
    (b"hops 0", b"hops 00", 5, CertKind::BadNumber),
    (b"hops 0", b"hops", 5, CertKind::Syntax),
    (b"gap 0.050000", b"gap 1000.000001", 6, CertKind::TooLarge),
    (b"gap 0.050000", b"gap 0.05", 6, CertKind::BadNumber),
    (b"phases 1", b"phases 65537", 7, CertKind::TooLarge),
    (b"scale 10 4", b"scale 10  4", 8, CertKind::Syntax),
    (
        b"lower 10/4 2.500000",
        b"lower 10 2.500000",
        9,
        CertKind::Syntax,
    ),
    (
        b"lower 10/4 2.500000",
        b"lower 10/4/1 2.500000",
        9,
        CertKind::BadNumber,
    ),
    (
        b"lower 10/4 2.500000",
        b"lower 4611686018427387905/x 2.500000",
        9,
        CertKind::TooLarge,
    ),
    (b"path D1 4 L1", b"path D1 4 L9", 11, CertKind::UnknownName),
    (b"path D1 4 L1", b"path D1 04 L1", 11, CertKind::BadNumber),
    (
        b"path D1 4 L1",
        b"path D1 4611686018427387905 L1",
        11,
        CertKind::TooLarge,
    ),
    (
        b"path D1 4 L1",
        b"path D1 999999999999999999999999999999999999999 L1",
        11,
        CertKind::TooLarge,
    ),
    (
        b"path D1 4 L1",
        b"path D1 9999999999999999999999999999999999999999 L1",
        11,
        CertKind::BadNumber,
    ),
    (b"path D1 4 L1", b"path D1 4 L1 ", 11, CertKind::Syntax),
    (
        b"path D1 4 L1\nlength L1 4503599627370496\n",
        b"length L1 4503599627370496\npath D1 4 L1\n",
        12,
        CertKind::Syntax,
    ),
    (
        b"potential A 0 4503599627370496",
        b"potential A 0",
        13,
        CertKind::Syntax,
    ),
    (
        b"potential A 0",
        b"potential C 0",
        13,
        CertKind::UnknownName,
    ),
    (b"end\n", b"", 14, CertKind::Syntax),
    (b"end\n", b"end", 14, CertKind::Syntax),
    (b"end\n", b"end\nx", 15, CertKind::Syntax),
];

const OF_FORM_2: &[Edit] = &[
    (
        b"mcf-certificate 2",
        b"mcf-certificate 3",
        1,
        CertKind::NoHeader,
    ),
    (
        b"mcf-certificate 2",
        b"mcf-certificate 1",
        11,
        CertKind::UnknownName,
    ),
    (b"4 +L1", b"4 -L1", 11, CertKind::UnknownName),
    (b"4 +L1", b"4 =L1", 11, CertKind::UnknownName),
    (b"4 +L1", b"4 ++L1", 11, CertKind::UnknownName),
    (b"4 +L1", b"4 +L9", 11, CertKind::UnknownName),
    (b"4 +L1", b"4 L1", 11, CertKind::UnknownName),
    (b"4 +L1", b"4 +", 11, CertKind::UnknownName),
    (b"4 +L1", b"4 +L1 ", 11, CertKind::Syntax),
    (b"4 +L1", b"04 =L1", 11, CertKind::BadNumber),
    (b"length +L1", b"length L1", 12, CertKind::UnknownName),
    (b"length +L1", b"length =L1", 12, CertKind::UnknownName),
];

// The first fault of the text, where it has one.
fn fault_of(alloc: Global, rows: &RawNet<'_>, net: &Scaled, text: &[u8]) -> Option<CertRefusal>
    requires net { IsOf rows.now net.now }
    requires text { length text.now ≤ MAX_CERT_BYTES }
{
    let opened = match open(Known::Both, text) {
        Ok(opened) => opened,
        Err(refusal) => return Some(refusal),
    };
    match read_rest(alloc, rows, net, opened) {
        Err(CertEnd::Refused(refusal)) => Some(refusal),
        _ => None,
    }
}

// Each edit of the certificate is refused at its line, by rows that scale to the network under the options.
fn refused(
    rt: &impl Abort,
    alloc: Global,
    rows: &RawNet<'_>,
    net: &Scaled,
    _options: NetOptions,
    cert: &[u8],
    edits: &[Edit],
) -> Result<(), Fail>
    requires rows { AreNetRows rows.now }
    requires net { scaled_of rows.now _options ≡ Ok net.now }
{
    for (old, new, line, kind) in edits {
        let text = edited(alloc, cert, *old, *new)?;
        assert!(rt; text.len() <= MAX_CERT_BYTES);
        match fault_of(alloc, &*rows, net, &text) {
            Some(refusal) => {
                assert_eq!(rt; refusal.line, *line, "{kind:?}");
                assert_eq!(rt; refusal.kind, *kind, "at {line}");
            }
            None => assert!(rt; false, "{kind:?} at {line}"),
        }
    }
    Ok(())
}

fn on_rows(rt: &impl Abort, alloc: Global, rows: &RawNet<'_>) -> Result<(), Fail> {
    assert_eq!(rt; rows.nodes(), 2);
    let options = NetOptions {
        links: LinkMode::Directed,
        modules: ModuleMode::Largest,
    };
    match scale(alloc, rows, options) {
        Ok(net) => {
            refused(rt, alloc, rows, &net, options, CERTIFICATE, OF_FORM_1)?;
            refused(rt, alloc, rows, &net, options, SIGNED, OF_FORM_2)
        }
        Err(_) => {
            assert!(rt; false, "the network is refused");
            Ok(())
        }
    }
}

#[test]
fn refusals_with_their_lines(rt: HostRuntime) -> Result<(), Fail> {
    match read_net(rt.alloc(), ONE_LINK) {
        Ok(rows) => on_rows(&rt, rt.alloc(), &rows),
        Err(_) => {
            assert!(rt; false, "the text is refused");
            Ok(())
        }
    }
}

// How the text is headed.
fn expect_head(rt: &impl Abort, text: &[u8], kind: Kind, form: Form, modules: ModuleMode) {
    assert!(rt; text.len() <= MAX_CERT_BYTES);
    match open(Known::Both, text) {
        Ok(opened) => {
            let head = opened.head;
            assert!(rt; head.kind == kind && head.form == form);
            assert!(rt; head.links == LinkMode::Directed && head.modules == modules);
        }
        Err(_) => assert!(rt; false, "the head is refused"),
    }
}

#[test]
fn heads(rt: HostRuntime) {
    let largest = ModuleMode::Largest;
    expect_head(&rt, CERTIFICATE, Kind::Certificate, Form::First, largest);
    expect_head(&rt, SIGNED, Kind::Certificate, Form::Second, largest);
    let none = ModuleMode::Ignore;
    expect_head(&rt, ROUTING, Kind::Routing, Form::First, none);
    expect_head(&rt, SIGNED_ROUTING, Kind::Routing, Form::Second, none);
}

#[test]
fn head_of_links_of_two_cells(rt: HostRuntime) {
    let text = b"mcf-routing 2\nlinks bidirected\nmodules sum\n";
    let opened = open(Known::Both, text);
    assert!(rt;
        opened.is_ok_and(|o| o.head.links == LinkMode::Bidirected
            && o.head.modules == ModuleMode::Sum)
    );
}

#[test]
fn heads_that_are_refused(rt: HostRuntime) {
    for (text, line, kind) in [
        (b"".as_slice(), 1u32, CertKind::NoHeader),
        (b"mcf-certificate 3\n", 1, CertKind::NoHeader),
        (b"mcf-routing 2", 1, CertKind::Syntax),
        (b"mcf-routing 1\nlinks both\n", 2, CertKind::Syntax),
        (b"mcf-routing 1\nlinks bidirected\n", 2, CertKind::Syntax),
        (
            b"mcf-certificate 1\nverdict open\nlinks bidirected\n",
            3,
            CertKind::Syntax,
        ),
        (
            b"mcf-certificate 2\nverdict open\nlinks directed\nmodules all\n",
            4,
            CertKind::Syntax,
        ),
    ] {
        assert!(rt; text.len() <= MAX_CERT_BYTES);
        assert!(rt;
            open(Known::Both, text).is_err_and(|r| r.line == line && r.kind == kind),
            "at {line}"
        );
    }
}

// Where the headers of certificates alone are known, that of a routing is none, whatever follows it.
#[test]
fn routings_that_are_not_known(rt: HostRuntime) {
    for text in [
        b"mcf-routing 1".as_slice(),
        b"mcf-routing 2",
        b"mcf-routing 2\nlinks both\n",
        ROUTING,
        SIGNED_ROUTING,
    ] {
        assert!(rt; text.len() <= MAX_CERT_BYTES);
        assert!(rt;
            open(Known::Certificates, text).is_err_and(|r| r.line == 1
                && r.kind == CertKind::NoHeader)
        );
    }
    assert!(rt; CERTIFICATE.len() <= MAX_CERT_BYTES);
    assert!(rt; open(Known::Certificates, CERTIFICATE).is_ok());
}
