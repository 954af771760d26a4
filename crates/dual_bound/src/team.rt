//! Who works: a handle that starts threads, and how many there may be.

/// A handle, and in how many threads work is done at most, the caller's among them: in 1 (and 0 stands for 1) it starts none.
#[derive(Drop)]
pub struct Team<'a, R> {
    /// The handle by which threads are started.
    pub rt: &'a R,
    /// How many threads work at most.
    pub threads: u16,
}
