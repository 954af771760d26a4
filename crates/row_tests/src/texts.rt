//! A small script, texts with some bytes replaced, and the line in which a text ends.

use std::alloc::{AllocError, Global};

/// A script for the certificate of one link.
pub const SCRIPT: &[u8] = b"set L1 14\nshow close L1\nshow";

/// The text with `count` bytes from place `at` on replaced.
pub fn spliced(
    alloc: Global,
    text: &[u8],
    at: usize,
    count: usize,
    by: &[u8],
) -> Result<Vec<u8>, AllocError> {
    let from = at.min(text.len());
    let to = from.saturating_add(count).min(text.len());
    let mut changed = Vec::from_slice(alloc, &text[..from])?;
    changed.extend_from_slice(by)?;
    changed.extend_from_slice(&text[to..])?;
    Ok(changed)
}

/// The text with every such byte replaced.
pub fn filled(alloc: Global, text: &[u8], mark: u8, by: &[u8]) -> Result<Vec<u8>, AllocError> {
    let mut changed = Vec::new(alloc);
    for b in text {
        if *b == mark {
            changed.extend_from_slice(by)?;
        } else {
            changed.push(*b)?;
        }
    }
    Ok(changed)
}

/// The number of the line in which the text ends.
pub fn last_line(text: &[u8]) -> u64 {
    let mut line = 1u64;
    for b in text {
        if *b == b'\n' {
            line = line.saturating_add(1);
        }
    }
    line
}
