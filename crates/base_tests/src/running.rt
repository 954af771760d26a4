//! A run over files and output in memory, and its answer.

ghost use Rattle.std.specs.Prelude.{◌≡◌, ◌≤◌, ◌↔◌, IsTrue};

use crate::expected::CHECK;
use mcf_base::{Gate, MemShelf, MemSink, OpenGate};
use mcf_cli::run;
use std::alloc::{AllocError, Global};
use std::thread::Threads;

/// A name and its bytes.
pub type File<'a> = (&'a str, &'a [u8]);

/// How many bytes a read and a write take at most, how many there is room for, and the numbers of the read and of the write
/// that fail: 0 fails none.
#[derive(Clone, Copy)]
pub struct Outside {
    /// How many bytes a read gives at most.
    pub most_read: usize,
    /// How many bytes a write takes at most.
    pub most_written: usize,
    /// How many bytes there is room for in the output.
    pub room: usize,
    /// The number of the read that fails, from 1 on; 0 for none.
    pub failing_read: u64,
    /// The number of the write that fails, from 1 on; 0 for none.
    pub failing_write: u64,
}

/// Nothing fails, and the usual texts are read and written at once.
pub const AMPLE: Outside = Outside {
    most_read: 65536,
    most_written: 65536,
    room: 65536,
    failing_read: 0,
    failing_write: 0,
};

/// What a run wrote, and how it ended.
#[derive(Drop)]
pub struct Answer {
    /// The status, 0 to 6.
    pub status: u8,
    /// The output.
    pub sink: MemSink,
}

impl Answer {
    /// Whether these are its status and its text.
    pub fn is(&self, status: u8, text: &[u8]) -> bool
        ensures { IsTrue result ↔ ((self.now.status ≡ status) × (self.now.sink.written ≡ text.now)) }
    {
        self.status == status && self.sink.written() == text
    }

    /// The text that was written.
    pub fn text(&self) -> &[u8] {
        self.sink.written()
    }

    /// Whether this is its status, and its text begins so.
    pub fn begins(&self, status: u8, text: &[u8]) -> bool {
        self.status == status && self.sink.written().starts_with(text)
    }
}

/// The words as a run takes them.
pub fn owned_words(alloc: Global, words: &[&str]) -> Result<Vec<String>, AllocError> {
    let mut owned = Vec::new(alloc);
    for word in words {
        owned.push(String::from_str(alloc, word)?)?;
    }
    Ok(owned)
}

fn owned_files(alloc: Global, files: &[File<'_>]) -> Result<Vec<(String, Vec<u8>)>, AllocError> {
    let mut owned = Vec::new(alloc);
    for (name, bytes) in files {
        owned.push((
            String::from_str(alloc, name)?,
            Vec::from_slice(alloc, bytes)?,
        ))?;
    }
    Ok(owned)
}

fn only(alloc: Global, number: u64) -> Result<Vec<u64>, AllocError> {
    let mut numbers = Vec::new(alloc);
    numbers.push(number)?;
    Ok(numbers)
}

/// The answer to the words, where these files stand, with this gate behind each claim.
pub fn answer_through<G: Gate, R: Threads + Sync>(
    rt: &R,
    alloc: Global,
    words: &[&str],
    files: &[File<'_>],
    outside: Outside,
    gate: &G,
) -> Result<Answer, AllocError>
    requires reads { 1 ≤ outside.most_read }
    requires writes { 1 ≤ outside.most_written }
{
    let owned = owned_words(alloc, words)?;
    let failing = only(alloc, outside.failing_read)?;
    let mut shelf = MemShelf::new(
        alloc,
        owned_files(alloc, files)?,
        outside.most_read,
        failing,
    );
    let failing = only(alloc, outside.failing_write)?;
    let mut sink = MemSink::new(alloc, outside.room, outside.most_written, failing)?;
    let ended = run(rt, alloc, &owned, &mut shelf, &mut sink, gate);
    Ok(Answer {
        status: ended.status,
        sink,
    })
}

/// The answer to the words, where these files stand.
pub fn answer_to<R: Threads + Sync>(
    rt: &R,
    alloc: Global,
    words: &[&str],
    files: &[File<'_>],
    outside: Outside,
) -> Result<Answer, AllocError>
    requires reads { 1 ≤ outside.most_read }
    requires writes { 1 ≤ outside.most_written }
{
    answer_through(rt, alloc, words, files, outside, &OpenGate)
}

/// The answer where nothing fails.
pub fn ample_answer<R: Threads + Sync>(
    rt: &R,
    alloc: Global,
    words: &[&str],
    files: &[File<'_>],
) -> Result<Answer, AllocError> {
    answer_to(rt, alloc, words, files, AMPLE)
}

/// What `check` says of the certificate or the routing on the network, where nothing fails.
pub fn judged<'a, R: Threads + Sync>(
    rt: &R,
    alloc: Global,
    net: &'a [u8],
    cert: &'a [u8],
) -> Result<Answer, AllocError> {
    let files: [File<'a>; 2] = [("net", net), ("cert", cert)];
    ample_answer(rt, alloc, CHECK, &files)
}
