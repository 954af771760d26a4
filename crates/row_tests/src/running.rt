//! Answers of one line, and answers with more room than usual.

use base_tests::{AMPLE, Answer, File, Outside, answer_to};
use std::alloc::{AllocError, Global};
use std::thread::Threads;

// One line feed, at the end.
fn is_one_line(text: &[u8]) -> bool {
    match text.split_last() {
        Some((last, rest)) => *last == b'\n' && !rest.contains(&b'\n'),
        None => false,
    }
}

/// Whether this is the status of the answer, and its text is one line that begins so.
pub fn is_line(answer: &Answer, status: u8, front: &[u8]) -> bool {
    answer.begins(status, front) && is_one_line(answer.text())
}

/// The answer to the words, where these files stand, with room for `room` bytes of output.
pub fn answer_within<R: Threads + Sync>(
    rt: &R,
    alloc: Global,
    words: &[&str],
    files: &[File<'_>],
    room: usize,
) -> Result<Answer, AllocError> {
    answer_to(rt, alloc, words, files, Outside { room, ..AMPLE })
}
