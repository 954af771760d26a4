//! Texts that are made here, and words as text.

use std::alloc::{AllocError, Global};
use std::str;

const FRONT: &[u8] =
    b"?SNDlib native format; type: network;\nNODES ( )\nLINKS ( )\nDEMANDS ( )\nMETA ";

/// A text with a skipped section of `groups` nested groups.
pub fn nested_text(alloc: Global, groups: usize) -> Result<Vec<u8>, AllocError> {
    let mut text = Vec::new(alloc);
    for b in FRONT {
        text.push(*b)?;
    }
    for _ in 0..groups {
        text.push(b'(')?;
    }
    for _ in 0..groups {
        text.push(b')')?;
    }
    Ok(text)
}

/// The word as text, or a question mark where it is no UTF-8.
pub fn shown(word: &[u8]) -> &str {
    match str::from_utf8(word) {
        Ok(text) => text,
        Err(_) => "?",
    }
}
