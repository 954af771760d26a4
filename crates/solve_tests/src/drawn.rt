//! Numbers that look random, the same in each run.

ghost use Rattle.std.specs.Prelude.{◌≡◌, ◌<◌, ◌≤◌, All, IfOk, length};

use mcf_limits::MAX_LENGTH;
use std::alloc::{AllocError, Global};

/// A row of numbers by a linear rule, which other programs can repeat.
#[derive(Drop)]
pub struct Words {
    state: u64,
}

impl Words {
    /// The row that goes on from this state.
    pub fn new(state: u64) -> Self {
        Words { state }
    }

    /// The next number, below that one.
    pub fn below(&mut self, n: u64) -> u64
        requires { 0 < n }
        ensures { result < n }
    {
        self.state = self
            .state
            .wrapping_mul(6364136223846793005)
            .wrapping_add(1442695040888963407);
        (self.state >> 33) % n
    }
}

/// `count` loads, each drawn below `below`.
pub fn loads(
    alloc: Global,
    words: &mut Words,
    count: usize,
    below: u64,
) -> Result<Vec<u64>, AllocError>
    requires positive { 0 < below }
    requires most { below ≤ MAX_LENGTH }
    ensures count { IfOk result (λ loads. length loads.items ≡ count) }
    ensures small { IfOk result (λ loads. All (λ x. x ≤ MAX_LENGTH) loads.items) }
{
    let mut loads = Vec::new(alloc);
    for _ in 0..count {
        loads.push(words.below(below))?;
    }
    Ok(loads)
}
