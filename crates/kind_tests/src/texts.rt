//! Both texts: read and written again byte for byte, what their heads say, and each refusal with its line.

ghost use Rattle.std.specs.Prelude.{◌≡◌, ◌≤◌, Ok, length};
ghost use Rattle.mcf_limits.specs.declared.TheConstants.{MAX_CERT_BYTES};
ghost use Rattle.sndlib_grammar.specs.Rows.{AreNetRows};
ghost use Rattle.unit_scale.specs.Scaling.{scaled_of};

use cert_lines::{CertEnd, CertKind, Form, Names};
use cert_tests::edited;
use kind_texts::{hops_head, part_head, read_hops_text, read_part_text, write_hops, write_part};
use mcf_base::MemSink;
use mcf_limits::MAX_CERT_BYTES;
use sndlib_read::{RawNet, read_net};
use std::alloc::Global;
use std::process::Abort;
use std::test::Fail;
use unit_scale::{LinkMode, ModuleMode, NetOptions, Scaled, scale};

// A short way of 2 and a long way of 10; the demand of 2 may take one link.
pub const NET: &[u8] =
    b"?SNDlib native format; type: network; version: 1.0\nNODES (\n  A\n  B\n  C\n)\nLINKS (\n  L1 ( A B ) 2 0 0 0 ( )\n  L2 ( A C ) 10 0 0 0 ( )\n  L3 ( C B ) 10 0 0 0 ( )\n)\nDEMANDS (\n  D1 ( A B ) 1 2 1\n)\n";

pub const HOPS: &[u8] =
    b"mcf-hops 1\nverdict closed\nlinks undirected\nmodules largest\nnet nodes 3 cells 3 commodities 1 decimals 0 skipped 0 left 0 hops 1\ngap 0.050000\nphases 1\nscale 2 2\nlower 2/2 1.000000\nupper 9007474132647932/9007199254740992 1.000031\npath D1 2 =L1\nlength =L1 4503599627370496\nlength =L2 13743895347\nlength =L3 13743895347\nlayer A 0 0 4611686018427387904 4611686018427387904\nlayer A 1 0 4503599627370496 13743895347\nend\n";

const TOTAL: &[u8] =
    b"mcf-throughput 1\nverdict open\nlinks undirected\nmodules largest\nnet nodes 3 cells 3 commodities 1 decimals 0 skipped 0 left 0 hops 1\ngap 0.050000\nphases 1\nscale 4 4\nlower 1329227995784915872903807060280344576/4 4.000000\nupper 20266198323167224/4728779608739020 4.285715\nthreshold 4611686018427387904\npath D1 4 =L1\nlength =L1 225179981368524\npotential A 0 225179981368524 0\nend\n";

// A text to be replaced, what takes its place, and the line and kind of the refusal.
type Edit = (&'static [u8], &'static [u8], u32, CertKind);

const OF_HOPS: &[Edit] = &[
    (b"mcf-hops 1", b"mcf-hops 2", 1, CertKind::NoHeader),
    (b"mcf-hops 1", b"mcf-throughput 1", 1, CertKind::NoHeader),
    (b"mcf-hops 1", b"mcf-certificate 2", 1, CertKind::NoHeader),
    (b"verdict closed", b"verdict shut", 2, CertKind::Syntax),
    (b"links undirected", b"links directed", 3, CertKind::Syntax),
    (b"nodes 3", b"nodes 2", 5, CertKind::OtherNet),
    (
        b"lower 2/2",
        b"lower 4611686018427387905/2",
        9,
        CertKind::TooLarge,
    ),
    (
        b"path D1 2 =L1",
        b"path D1 2 =L9",
        11,
        CertKind::UnknownName,
    ),
    (b"layer A 0", b"layer D 0", 15, CertKind::UnknownName),
    (b"layer A 0", b"layer A 00", 15, CertKind::BadNumber),
    (b"layer A 1", b"layer A 65", 16, CertKind::TooLarge),
    (b"layer A 1", b"layer A", 16, CertKind::Syntax),
    (b"layer A 1", b"layer A 1 1", 16, CertKind::Syntax),
    (b"layer A 1", b"layer  A 1", 16, CertKind::Syntax),
    (
        b"0 4611686018427387904 ",
        b"0 4611686018427387905 ",
        15,
        CertKind::TooLarge,
    ),
    (b"layer A 1", b"potential A", 16, CertKind::Syntax),
    (b"end\n", b"", 17, CertKind::Syntax),
    (b"end\n", b"end\nx", 18, CertKind::Syntax),
];

const OF_TOTALS: &[Edit] = &[
    (
        b"mcf-throughput 1",
        b"mcf-throughput 2",
        1,
        CertKind::NoHeader,
    ),
    (b"mcf-throughput 1", b"mcf-hops 1", 1, CertKind::NoHeader),
    (
        b"lower 1329227995784915872903807060280344576/4",
        b"lower 1329227995784915872903807060280344577/4",
        9,
        CertKind::TooLarge,
    ),
    (
        b"threshold 4611686018427387904",
        b"threshold 4611686018427387905",
        11,
        CertKind::TooLarge,
    ),
    (
        b"threshold 4611686018427387904",
        b"threshold 04",
        11,
        CertKind::BadNumber,
    ),
    (
        b"threshold 4611686018427387904",
        b"threshold",
        11,
        CertKind::Syntax,
    ),
    (
        b"threshold 4611686018427387904\n",
        b"",
        11,
        CertKind::Syntax,
    ),
    (b"potential A", b"layer A", 14, CertKind::Syntax),
    (b"end\n", b"end", 15, CertKind::Syntax),
];

// Which text is meant.
#[derive(Clone, Copy)]
enum Kind {
    Hops,
    Total,
}

// The line and the kind of the refusal; none where the text is read.
fn fault_of(
    alloc: Global,
    names: &Names<'_, '_>,
    kind: Kind,
    text: &[u8],
) -> Option<(u32, CertKind)>
    requires { length text.now ≤ MAX_CERT_BYTES }
{
    let end = match kind {
        Kind::Hops => match read_hops_text(alloc, names, text) {
            Ok(_) => return None,
            Err(end) => end,
        },
        Kind::Total => match read_part_text(alloc, names, text) {
            Ok(_) => return None,
            Err(end) => end,
        },
    };
    match end {
        CertEnd::Refused(refusal) => Some((refusal.line, refusal.kind)),
        CertEnd::Memory => None,
    }
}

// Each edit of the text is refused at its line.
fn refused(
    rt: &impl Abort,
    alloc: Global,
    names: &Names<'_, '_>,
    kind: Kind,
    cert: &[u8],
    edits: &[Edit],
) -> Result<(), Fail> {
    for (old, new, line, fault) in edits {
        let text = edited(alloc, cert, *old, *new)?;
        assert!(rt; text.len() <= MAX_CERT_BYTES);
        match fault_of(alloc, names, kind, &text) {
            Some((at, found)) => {
                assert_eq!(rt; at, *line, "{fault:?}");
                assert_eq!(rt; found, *fault, "at {line}");
            }
            None => assert!(rt; false, "{fault:?} at {line}"),
        }
    }
    Ok(())
}

// The text is read, and written again byte for byte.
fn hops_again(rt: &impl Abort, alloc: Global, names: &Names<'_, '_>) -> Result<(), Fail> {
    let mut out = MemSink::new(alloc, 6000, 700, Vec::new(alloc))?;
    assert!(rt; HOPS.len() <= MAX_CERT_BYTES);
    match read_hops_text(alloc, names, HOPS) {
        Ok(proof) => assert!(rt; write_hops(names, &proof, &mut out).is_ok()),
        Err(_) => assert!(rt; false, "the text is refused"),
    }
    assert_eq!(rt; out.written(), HOPS);
    Ok(())
}

fn total_again(rt: &impl Abort, alloc: Global, names: &Names<'_, '_>) -> Result<(), Fail> {
    let mut out = MemSink::new(alloc, 6000, 700, Vec::new(alloc))?;
    assert!(rt; TOTAL.len() <= MAX_CERT_BYTES);
    match read_part_text(alloc, names, TOTAL) {
        Ok(proof) => assert!(rt; write_part(names, &proof, &mut out).is_ok()),
        Err(_) => assert!(rt; false, "the text is refused"),
    }
    assert_eq!(rt; out.written(), TOTAL);
    Ok(())
}

// Both texts in the words of these rows, which scale to the network under the options.
fn with_names(
    rt: &impl Abort,
    alloc: Global,
    rows: &RawNet<'_>,
    net: &Scaled,
    _options: NetOptions,
) -> Result<(), Fail>
    requires rows { AreNetRows rows.now }
    requires net { scaled_of rows.now _options ≡ Ok net.now }
{
    let names = Names::new(rows, net, Form::Second);
    hops_again(rt, alloc, &names)?;
    total_again(rt, alloc, &names)?;
    refused(rt, alloc, &names, Kind::Hops, HOPS, OF_HOPS)?;
    refused(rt, alloc, &names, Kind::Total, TOTAL, OF_TOTALS)
}

fn on_rows(rt: &impl Abort, alloc: Global, rows: &RawNet<'_>) -> Result<(), Fail> {
    assert_eq!(rt; rows.nodes(), 3);
    let options = NetOptions {
        links: LinkMode::Undirected,
        modules: ModuleMode::Largest,
    };
    match scale(alloc, rows, options) {
        Ok(net) => with_names(rt, alloc, rows, &net, options),
        Err(_) => {
            assert!(rt; false, "the network is refused");
            Ok(())
        }
    }
}

#[test]
fn texts_both_ways(rt: HostRuntime) -> Result<(), Fail> {
    match read_net(rt.alloc(), NET) {
        Ok(rows) => on_rows(&rt, rt.alloc(), &rows),
        Err(_) => {
            assert!(rt; false, "the text is refused");
            Ok(())
        }
    }
}

#[test]
fn heads(rt: HostRuntime) {
    assert!(rt; HOPS.len() <= MAX_CERT_BYTES && TOTAL.len() <= MAX_CERT_BYTES);
    for head in [hops_head(HOPS), part_head(TOTAL)] {
        assert!(rt;
            head.is_ok_and(|o| o.links == LinkMode::Undirected && o.modules == ModuleMode::Largest)
        );
    }
    assert!(rt; hops_head(TOTAL).is_err_and(|r| r.line == 1 && r.kind == CertKind::NoHeader));
    assert!(rt; part_head(HOPS).is_err_and(|r| r.line == 1 && r.kind == CertKind::NoHeader));
    assert!(rt; hops_head(b"mcf-hops 1").is_err_and(|r| r.line == 1 && r.kind == CertKind::Syntax));
    assert!(rt;
        part_head(b"mcf-throughput 1\nverdict open\nlinks both\n").is_err_and(|r| r.line == 3
            && r.kind == CertKind::Syntax)
    );
}
