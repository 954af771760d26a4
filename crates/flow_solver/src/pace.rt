//! How the caller's thread and the others of a crew share out what a phase needs: guesses, of whose limits alone contracts speak.

ghost use Rattle.std.specs.Prelude.{◌≤◌};

use mcf_limits::MAX_WORKERS;

// A share is a number of this many parts of the whole.
const PARTS: u16 = 64;

// The most threads beside the caller's.
const OTHERS: usize = MAX_WORKERS as usize - 1;

// The weight of a thread's part of the rows at the start.
const EVEN: u32 = 1024;

// About how much of its weight goes from the thread that finished a bound last.
const WEIGHT_STEP: u32 = 16;

// So much it weighs at least.
const LEAST: u32 = EVEN / 4;

/// How the rows of a bound are shared out: how many each thread takes, how many threads take none, and what is left is for the caller's
/// thread.
#[derive(Clone, Copy)]
pub(crate) struct Split {
    pub threads: usize,
    pub idle: usize,
    sizes: [usize; OTHERS],
}

/// What the caller's thread does beside the others, as shares of the whole. It alone notes rows: those of some commodities of a phase
/// while the next phase is routed, and those of the others while the bound is made, of which it fills a share of the rows itself. The
/// other threads fill the rest by their weights. All of it follows what the last phase has shown, a little at a time.
#[derive(Clone, Copy)]
pub struct Pace {
    first: u16,
    own: u16,
    weights: [u32; OTHERS],
}

impl Split {
    /// How many rows thread i has.
    pub(crate) fn rows_of(&self, i: usize) -> usize {
        self.sizes.get(i).copied().unwrap_or(0)
    }
}

impl Pace {
    /// To begin with, all commodities are noted beside the routing, and the caller's thread fills as many rows of the bound as each other.
    pub(crate) fn new() -> Self {
        let weights = [EVEN; OTHERS];
        Pace {
            first: PARTS,
            own: PARTS,
            weights,
        }
    }

    /// How many of these commodities are noted beside the routing.
    pub(crate) fn first_of(&self, commodities: usize) -> usize
        ensures { result ≤ commodities }
    {
        share_of(self.first, commodities).min(commodities)
    }

    /// How `rows` rows are shared out with `threads` threads, where `idle` others get none.
    pub(crate) fn split(&self, rows: usize, threads: u16, idle: usize) -> Split {
        let own = self.own.min(even_share(threads));
        let shared = rows.saturating_sub(share_of(own, rows));
        let threads = threads as usize;
        let sizes = sizes_of(shared, &self.weights, threads.min(OTHERS));
        Split {
            threads,
            idle,
            sizes,
        }
    }

    /// After the routing: more commodities are noted beside it, where that left the caller's thread time, and fewer where the others had routed
    /// all before; as many where the crew rests.
    pub(crate) fn after_routing(self, had_time: bool, rests: bool) -> Self {
        if rests {
            return self;
        }
        let weights = self.weights;
        Pace {
            first: moved(self.first, had_time, PARTS),
            own: self.own,
            weights,
        }
    }

    /// After a bound with `threads` threads: where the caller's thread had to wait for another one, it fills more rows, but never more
    /// than an even share; and the thread that it waited for last fills fewer. Where the crew rests, nothing changes.
    pub(crate) fn after_bound(self, threads: u16, last: Option<usize>, rests: bool) -> Self {
        if rests {
            return self;
        }
        let before = self.weights;
        let weights = shifted(before, threads as usize, last);
        Pace {
            first: self.first,
            own: moved(self.own, last.is_some(), even_share(threads)),
            weights,
        }
    }
}

// The sum of the weights of the first `threads` threads.
fn weight_of(weights: &[u32; OTHERS], threads: usize) -> usize
    requires { threads ≤ OTHERS }
{
    let mut all = 0usize;
    for i in 0..threads {
        all = all.saturating_add(weights[i] as usize);
    }
    all
}

// How `rows` rows are shared out with `threads` threads by their weights, each border at the nearest row.
fn sizes_of(rows: usize, weights: &[u32; OTHERS], threads: usize) -> [usize; OTHERS]
    requires { threads ≤ OTHERS }
{
    let all = weight_of(weights, threads);
    let mut sizes = [0; OTHERS];
    let mut before = 0usize;
    let mut given = 0usize;
    for i in 0..threads {
        before = before.saturating_add(weights[i] as usize);
        let until = rows.saturating_mul(before).saturating_add(all / 2) / all.max(1);
        sizes[i] = until.saturating_sub(given);
        given = until;
    }
    sizes
}

// The weights after a bound: less for the thread that was done last, unless that would bring it below the least, and as much more for all
// others together.
fn shifted(weights: [u32; OTHERS], threads: usize, last: Option<usize>) -> [u32; OTHERS] {
    let threads = threads.min(OTHERS);
    let Some(last) = last else {
        return weights;
    };
    if threads < 2 || last >= threads {
        return weights;
    }
    let mut weights = weights;
    let more = WEIGHT_STEP.div_ceil(threads as u32 - 1);
    let less = more.saturating_mul(threads as u32 - 1);
    if weights[last] < LEAST.saturating_add(less) {
        return weights;
    }
    for i in 0..threads {
        weights[i] = if i == last {
            weights[i].saturating_sub(less)
        } else {
            weights[i].saturating_add(more)
        };
    }
    weights
}

// The share of the caller's thread where it has as much to do as each of `threads` others.
fn even_share(threads: u16) -> u16 {
    PARTS.div_ceil(threads.saturating_add(1))
}

// How many of `all` are in the share.
fn share_of(share: u16, all: usize) -> usize {
    all.saturating_mul(share as usize) / PARTS as usize
}

// A share that is a part more or less, of this much at most.
fn moved(share: u16, up: bool, most: u16) -> u16 {
    let share = share.min(most);
    if up {
        share.saturating_add(1).min(most)
    } else {
        share.saturating_sub(1)
    }
}
