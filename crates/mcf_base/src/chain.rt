//! A chain of joins: each starts a thread for one chunk and goes on to the next.

ghost use Rattle.std.specs.Prelude.{◌≡◌, ℕ, max, ◌+◌, ◌^◌, ◌<◌, ◌≤◌, length};
ghost use Rattle.std.specs.Thread.{IsSync};
ghost use denote.Param.Send.{IsSend};
ghost use Rattle.std.specs.Fork.{AcceptsAt, ChangesAt, AcceptsChunksMut, ChangesChunks, AllInChunks};
ghost use Rattle.std.specs.Fork.Halves.{ChangesByChunks};
ghost use Rattle.mcf_base.specs.Chain.{AreAccepted};

use std::thread;
use std::thread::Threads;

/// How many threads share work out: as many as there are processors, but at most `most`. 0 stands for 1.
pub fn thread_count(rt: &impl Threads, most: u16) -> usize
    ensures some { 1 ≤ result }
    ensures few { result ≤ max most 1 }
{
    match thread::available_parallelism(rt) {
        Ok(count) => count.get().min(most as usize).max(1),
        Err(_) => 1,
    }
}

/// Calls `work(start, chunk)` at each chunk that `items.chunks_mut(size)` has: the last one in the caller's thread, and
/// each other in a thread of its own, where one can be made.
///
/// The contract is that of `std::thread::for_each_chunk_mut`, which splits the list in halves, so that threads which it
/// started start further ones. Linux often leaves such a thread on the processor of the one that started it, although
/// another is free. Here the caller starts all. The stack grows with the number of chunks, so they are to be few.
pub fn for_each_chunk_mut<R: Threads + Sync, T: Send, F: Fn(usize, &mut [T]) + Sync>(
    rt: &R,
    items: &mut [T],
    size: usize,
    work: &F,
)
    requires size { 0 < size }
    requires accepts { AcceptsChunksMut F.Fn work.now size items.old }
    ensures chunks { ChangesChunks F.Fn work.now size items.old items.new }
    ensures by_index { AllInChunks F.Fn work.now size items.old items.new }
{
    if !items.is_empty() {
        chain(rt, work, 0, size, items);
    }
}

// The chunks of `items`, which start at place `base` of the whole list.
#[cycle(chain)]
fn chain<R: Threads + Sync, T: Send, F: Fn(usize, &mut [T]) + Sync>(
    rt: &R,
    work: &F,
    base: usize,
    size: usize,
    items: &mut [T],
)
    requires { AreAccepted (AcceptsAt F.Fn work.now) base size items.old }
    ensures { ChangesByChunks (ChangesAt F.Fn work.now) base size items.old items.new }
{
    if items.len() <= size {
        call(work, base, items);
        return;
    }
    let (first, rest) = items.split_at_mut(size);
    first_and_rest(rt, work, base, size, first, base + size, rest);
}

// The first chunk in a new thread, and the rest from this one.
#[cycle(chain)]
fn first_and_rest<R: Threads + Sync, T: Send, F: Fn(usize, &mut [T]) + Sync>(
    rt: &R,
    work: &F,
    base: usize,
    size: usize,
    first: &mut [T],
    next: usize,
    rest: &mut [T],
)
    requires first { AcceptsAt F.Fn work.now base first.old }
    requires rest { AreAccepted (AcceptsAt F.Fn work.now) next size rest.old }
    ensures first { ChangesAt F.Fn work.now base first.old first.new }
    ensures rest { ChangesByChunks (ChangesAt F.Fn work.now) next size rest.old rest.new }
{
    let mut in_new_thread = ||
        requires { AcceptsAt F.Fn work.now base first.now }
        ensures { ChangesAt F.Fn work.entry.now base first.entry.now first.exit.now }
    { call(work, base, first) };
    let mut in_this_one = ||
        requires { IsSync R.row × IsSync F.row × IsSend T.row
            × AreAccepted (AcceptsAt F.Fn work.now) next size rest.now }
        ensures { ChangesByChunks (ChangesAt F.Fn work.entry.now) next size rest.entry.now rest.exit.now }
    { chain(rt, work, next, size, rest) };
    thread::join_mut(rt, &mut in_new_thread, &mut in_this_one);
}

fn call<T, F: Fn(usize, &mut [T])>(work: &F, start: usize, chunk: &mut [T])
    requires { AcceptsAt F.Fn work.now start chunk.old }
    ensures { ChangesAt F.Fn work.now start chunk.old chunk.new }
{
    work(start, chunk);
}
