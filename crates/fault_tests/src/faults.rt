//! Files and output that fail: at each read, at each write, and where nothing stands.

use crate::tightens::{PATH, PATH_BEST, PATH_CERTIFICATE};
use base_tests::{
    AMPLE, FREE_LAYOUT, FREE_LAYOUT_PRINTED, File, OPEN, OPEN_SWEPT, Outside, TWO_LINKS,
    ample_answer, answer_to, expect,
};
use cert_tests::{CERTIFICATE, ONE_LINK, ROUTING, SIGNED, VALID};
use std::alloc::Global;
use std::process::Abort;
use std::test::Fail;
use std::thread::Threads;

// A run that answers with status 0, and how often it reads.
#[derive(Drop)]
struct Run {
    words: &'static [&'static str],
    files: &'static [File<'static>],
    text: &'static [u8],
    reads: u64,
}

// A read takes 64 bytes at most, and a write one byte.
const SMALL: Outside = Outside {
    most_read: 64,
    most_written: 1,
    ..AMPLE
};

// Each file is started, read in pieces, and read once more at its end.
const CHECK: Run = Run {
    words: &["check", "net", "cert"],
    files: &[("net", ONE_LINK), ("cert", CERTIFICATE)],
    text: VALID,
    reads: 12,
};

const PRINT: Run = Run {
    words: &["print", "net"],
    files: &[("net", FREE_LAYOUT)],
    text: FREE_LAYOUT_PRINTED,
    reads: 5,
};

const SOLVE: Run = Run {
    words: &["solve", "net", "--links", "directed"],
    files: &[("net", ONE_LINK)],
    text: SIGNED,
    reads: 5,
};

const UPGRADE: Run = Run {
    words: &["upgrade", "net", "cert"],
    files: &[("net", ONE_LINK), ("cert", CERTIFICATE)],
    text: SIGNED,
    reads: 12,
};

const SWEEP: Run = Run {
    words: &["sweep", "net", "cert"],
    files: &[("net", TWO_LINKS), ("cert", OPEN)],
    text: OPEN_SWEPT,
    reads: 13,
};

const TIGHTEN: Run = Run {
    words: &["tighten", "net", "cert"],
    files: &[("net", PATH), ("cert", PATH_CERTIFICATE)],
    text: PATH_BEST,
    reads: 13,
};

const WHAT_IF: Run = Run {
    words: &["whatif", "net", "cert", "script"],
    files: &[
        ("net", TWO_LINKS),
        ("cert", OPEN),
        ("script", b"set L2 14 show close L2 show"),
    ],
    text: b"show lower 14/10 1.400000 upper 33776997205278708/19301141260159260 1.750001\nshow lower 0/10 0.000000 upper 6755399441055744/19301141260159260 0.350001\n",
    reads: 16,
};

// Where the read of that number fails, the fault is told; a fault behind the last read changes nothing.
fn reads_fail(rt: &(impl Abort + Threads + Sync), alloc: Global, case: &Run) -> Result<(), Fail> {
    for number in 1..=case.reads {
        let outside = Outside {
            failing_read: number,
            ..SMALL
        };
        let given = answer_to(rt, alloc, case.words, case.files, outside)?;
        assert!(rt; given.is(4, b"read fault\n"), "read {number}");
    }
    let outside = Outside {
        failing_read: case.reads.saturating_add(1),
        ..SMALL
    };
    let given = answer_to(rt, alloc, case.words, case.files, outside)?;
    assert!(rt; given.is(0, case.text), "no read fails");
    Ok(())
}

// Where the write of that number fails, the bytes of the writes before it stand there; a fault behind the last write changes
// nothing.
fn writes_fail(rt: &(impl Abort + Threads + Sync), alloc: Global, case: &Run) -> Result<(), Fail> {
    let mut number = 1u64;
    for front in 0..case.text.len() {
        let outside = Outside {
            failing_write: number,
            ..SMALL
        };
        let given = answer_to(rt, alloc, case.words, case.files, outside)?;
        assert!(rt; given.is(5, &case.text[..front]), "write {number}");
        number = number.saturating_add(1);
    }
    let outside = Outside {
        failing_write: number,
        ..SMALL
    };
    let given = answer_to(rt, alloc, case.words, case.files, outside)?;
    assert!(rt; given.is(0, case.text), "no write fails");
    Ok(())
}

// Where there is room for a front of the text, that front stands there.
fn rooms_end(rt: &(impl Abort + Threads + Sync), alloc: Global, case: &Run) -> Result<(), Fail> {
    for room in 0..case.text.len() {
        let outside = Outside { room, ..SMALL };
        let given = answer_to(rt, alloc, case.words, case.files, outside)?;
        assert!(rt; given.is(5, &case.text[..room]), "room {room}");
    }
    Ok(())
}

#[test]
fn check_fails(rt: HostRuntime) -> Result<(), Fail> {
    reads_fail(&rt, rt.alloc(), &CHECK)?;
    writes_fail(&rt, rt.alloc(), &CHECK)?;
    rooms_end(&rt, rt.alloc(), &CHECK)
}

#[test]
fn solve_fails(rt: HostRuntime) -> Result<(), Fail> {
    reads_fail(&rt, rt.alloc(), &SOLVE)?;
    writes_fail(&rt, rt.alloc(), &SOLVE)
}

#[test]
fn upgrade_fails(rt: HostRuntime) -> Result<(), Fail> {
    reads_fail(&rt, rt.alloc(), &UPGRADE)?;
    writes_fail(&rt, rt.alloc(), &UPGRADE)
}

#[test]
fn sweep_fails(rt: HostRuntime) -> Result<(), Fail> {
    reads_fail(&rt, rt.alloc(), &SWEEP)?;
    writes_fail(&rt, rt.alloc(), &SWEEP)
}

#[test]
fn tighten_fails(rt: HostRuntime) -> Result<(), Fail> {
    reads_fail(&rt, rt.alloc(), &TIGHTEN)?;
    writes_fail(&rt, rt.alloc(), &TIGHTEN)
}

#[test]
fn whatif_fails(rt: HostRuntime) -> Result<(), Fail> {
    reads_fail(&rt, rt.alloc(), &WHAT_IF)?;
    writes_fail(&rt, rt.alloc(), &WHAT_IF)?;
    rooms_end(&rt, rt.alloc(), &WHAT_IF)
}

#[test]
fn print_fails(rt: HostRuntime) -> Result<(), Fail> {
    reads_fail(&rt, rt.alloc(), &PRINT)?;
    writes_fail(&rt, rt.alloc(), &PRINT)?;
    rooms_end(&rt, rt.alloc(), &PRINT)
}

// Ten bytes a write, and the second fails.
#[test]
fn second_write_fails(rt: HostRuntime) -> Result<(), Fail> {
    let outside = Outside {
        most_written: 10,
        failing_write: 2,
        ..AMPLE
    };
    let given = answer_to(&rt, rt.alloc(), SOLVE.words, SOLVE.files, outside)?;
    assert!(&rt; given.is(5, b"mcf-certif"));
    Ok(())
}

// A read fault whose line cannot be written ends as a write that failed.
#[test]
fn read_and_write_fail(rt: HostRuntime) -> Result<(), Fail> {
    for case in [&CHECK, &PRINT, &SOLVE, &UPGRADE, &SWEEP, &TIGHTEN, &WHAT_IF] {
        let outside = Outside {
            failing_read: case.reads,
            failing_write: 6,
            ..SMALL
        };
        let given = answer_to(&rt, rt.alloc(), case.words, case.files, outside)?;
        assert!(&rt; given.is(5, b"read "));
    }
    Ok(())
}

// What a row shows, the words, the files that stand, the status, and the line.
type Row = (
    &'static str,
    &'static [&'static str],
    &'static [File<'static>],
    u8,
    &'static [u8],
);

const MISSING: &[Row] = &[
    (
        "no_network",
        &["print", "net"],
        &[("cert", ROUTING)],
        4,
        b"read fault\n",
    ),
    (
        "no_certificate",
        &["check", "net", "cert"],
        &[("net", ONE_LINK)],
        4,
        b"read fault\n",
    ),
    (
        "no_file_of_two",
        &["check", "net", "cert"],
        &[],
        4,
        b"read fault\n",
    ),
    (
        "network_is_refused_before",
        &["check", "net", "cert"],
        &[("net", b"")],
        3,
        b"refused net N1 line 1\n",
    ),
    (
        "empty_name",
        &["print", ""],
        &[("net", ONE_LINK)],
        4,
        b"read fault\n",
    ),
    (
        "name_behind_dashes",
        &["print", "--", "-h"],
        &[("-h", ONE_LINK)],
        0,
        ONE_LINK,
    ),
    (
        "first_of_one_name",
        &["print", "net"],
        &[("net", ONE_LINK), ("net", b"")],
        0,
        ONE_LINK,
    ),
];

#[test]
fn files_that_do_not_stand(rt: HostRuntime) -> Result<(), Fail> {
    for (shows, words, files, status, text) in MISSING {
        expect(&rt, rt.alloc(), shows, words, files, *status, text)?;
    }
    Ok(())
}

// A program that always answers that memory ran out meets its contract, and fails here.
#[test]
fn always_memory(rt: HostRuntime) -> Result<(), Fail> {
    for case in [&CHECK, &PRINT, &SOLVE, &UPGRADE, &SWEEP, &TIGHTEN, &WHAT_IF] {
        let given = ample_answer(&rt, rt.alloc(), case.words, case.files)?;
        assert!(&rt; given.is(0, case.text));
    }
    let given = ample_answer(&rt, rt.alloc(), &["help"], &[])?;
    assert!(&rt; given.is(2, b"usage\n"));
    Ok(())
}
