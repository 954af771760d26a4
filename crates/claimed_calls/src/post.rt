//! A post: its owner leaves a job there, another thread works on it, and the owner takes back what was made of it.

ghost use Rattle.std.specs.Prelude.{◌≡◌, ◌∷◌, [], None, IfErr, IfOk, IfSome, IfNone, OnOk, true};
ghost use Rattle.claimed_calls.specs.declared.role.Role.TheVariants.{Gives, Given, Serves};
ghost use Rattle.claimed_calls.specs.Posts.{AreAt, IsAsGiven, IsEnd, IsMade};

use crate::job::Job;
use crate::plays::{Ends, Finish, Leave, PostRule, Recall, Sit, TakeBack, TakeJob, Unchanged};
use crate::role::Role;
use crate::waiting::{SOON, back_off};
use atomic_table::{Seat, Table};
use std::alloc::{AllocError, Global};
use std::hint::spin_loop;
use std::sync::atomic::{AtomicBool, Ordering};

// The states of a post: no job is out; a job waits; it is done; the other thread has ended; or a job is under way.
const FREE: u64 = 0;

const HANDED: u64 = 1;

const DONE: u64 = 2;

const AWAY: u64 = 3;

const TAKEN: u64 = 4;

// How often the owner polls for a job that is under way before it gives the job up: minutes of processor time, and longer by the clock
// on a busy machine.
const LOOKS: u64 = SOON + 200_000;

// How many jobs and vain polls end a thread for good; no run comes to that.
const ROUNDS: u64 = 1 << 32;

/// A seat at a post.
pub(crate) type PostSeat<J> = Seat<Option<J>, Role<J>>;

/// Where a job lies while neither thread has it.
#[derive(Drop)]
pub struct Post<J: Job> {
    pub(crate) table: Table<Option<J>, Role<J>, (), PostRule, Global>,
    ghost sized: { (table.shared.table_id.words ≡ 1) × (table.shared.table_id.slots ≡ 1) },
}

/// The seats of both threads at a post.
#[derive(Drop)]
pub struct Seats<J: Job> {
    pub(crate) end: PostSeat<J>,
    pub(crate) mate: PostSeat<J>,
    ghost end_is: { end.me ≡ (Gives, (0, None) ∷ []) },
    ghost mate_is: { mate.me ≡ (Serves, []) },
}

/// The owner's side of a post: whether a job is out, how often the owner polls for it before it lets others have its processor, whether
/// the last job had to be waited for, and whether it was still under way after these polls.
#[derive(Drop)]
pub(crate) struct End<'a, J: Job> {
    post: &'a Post<J>,
    seat: PostSeat<J>,
    out: bool,
    patience: u64,
    has_waited: bool,
    was_late: bool,
    ghost of: { seat.table_id ≡ post.now.table.shared.table_id },
    ghost is_end: { IsEnd out seat.me },
}

/// The other thread's side of a post: the thread works on the owner's jobs.
#[derive(Drop)]
pub struct Mate<'a, J: Job> {
    post: &'a Post<J>,
    seat: PostSeat<J>,
    ghost of: { seat.table_id ≡ post.now.table.shared.table_id },
    ghost is_free: { seat.me ≡ (Serves, []) },
}

impl<J: Job> Post<J> {
    /// A post with its seats. `Err`: out of memory.
    pub fn new(alloc: Global) -> Result<(Self, Seats<J>), AllocError>
        ensures { IfOk result (λ r. AreAt r.0.table.shared.table_id r.1.end.table_id r.1.mate.table_id) }
    {
        let (table, mut end) = Table::vacant(alloc, &[FREE], 1, &())?;
        table.shared.load::<Sit>(&mut end, 0);
        let mate = table.shared.split_seat::<Ends>(&mut end);
        Ok((Post { table }, Seats { end, mate }))
    }

    fn word(&self) -> u64 {
        self.table.shared.peek(0)
    }
}

impl<'a, J: Job> End<'a, J> {
    pub(crate) fn new(post: &'a Post<J>, seat: PostSeat<J>, patience: u64) -> Self
        requires table { seat.table_id ≡ post.now.table.shared.table_id }
        requires seat { seat.me ≡ (Gives, (0, None) ∷ []) }
    {
        End {
            post,
            seat,
            out: false,
            patience,
            has_waited: false,
            was_late: false,
        }
    }

    /// Whether the owner had to wait for the last job: it was not done when the owner first polled for it. No proof rests on the answer.
    pub(crate) fn has_waited(&self) -> bool {
        self.has_waited
    }

    /// Whether the last job was still under way after as many polls as the owner has patience for. No proof rests on the answer.
    pub(crate) fn was_late(&self) -> bool {
        self.was_late
    }

    /// Whether the other thread is still there. No proof rests on the answer.
    pub(crate) fn is_there(&self) -> bool {
        self.post.word() != AWAY
    }

    /// Hands over a job; it comes back where another one is out or the other thread has ended.
    pub(crate) fn hand(&mut self, job: J) -> Result<(), J>
        requires { J.asks job }
        ensures out { OnOk result (self.new.seat.me.0 ≡ Given job) }
        ensures back { IfErr result (λ j. j ≡ job) }
    {
        if self.out {
            return Err(job);
        }
        self.has_waited = false;
        self.was_late = false;
        let shared = &self.post.table.shared;
        drop(shared.exchange(&mut self.seat, 0, Some(job)));
        if shared.compare_exchange::<Leave>(&mut self.seat, 0, FREE, HANDED) == FREE {
            self.out = true;
            return Ok(());
        }
        match shared.exchange(&mut self.seat, 0, None) {
            Some(job) => Err(job),
            None => unreachable!(),
        }
    }

    // Whether the job that is out still waits for its thread. No proof rests on the answer.
    fn is_waiting(&self) -> bool {
        self.post.word() == HANDED
    }

    // Whether the job that is out may be taken back. No proof rests on the answer.
    fn is_done(&self) -> bool {
        self.post.word() == DONE
    }

    // Takes back the job that is out, if no thread has begun it.
    fn recall(&mut self) -> Option<J>
        requires { self.old.out ≡ true }
        ensures job { IfSome result (IsAsGiven J.asks self.old.seat.me) }
        ensures same { IfNone result ((self.new.seat.me ≡ self.old.seat.me) × (self.new.out ≡ true)) }
    {
        let shared = &self.post.table.shared;
        if shared.compare_exchange::<Recall>(&mut self.seat, 0, HANDED, FREE) != HANDED {
            return None;
        }
        self.out = false;
        shared.exchange(&mut self.seat, 0, None)
    }

    // Takes back what was made of the job that is out, if that is done.
    fn take_back(&mut self) -> Option<J>
        requires { self.old.out ≡ true }
        ensures made { IfSome result (IsMade J.does self.old.seat.me) }
        ensures same { IfNone result ((self.new.seat.me ≡ self.old.seat.me) × (self.new.out ≡ true)) }
    {
        let shared = &self.post.table.shared;
        if shared.compare_exchange::<TakeBack>(&mut self.seat, 0, DONE, FREE) != DONE {
            return None;
        }
        self.out = false;
        shared.exchange(&mut self.seat, 0, None)
    }

    // Polls for the job that is out until it is done, as often as the owner has patience for; answers how often it was not. On a busy
    // machine a thread that yields comes back only after the others' time, some milliseconds for each of them.
    fn spin(&self) -> u64 {
        for polls in 0..self.patience {
            if self.is_done() {
                return polls;
            }
            spin_loop();
        }
        self.patience
    }

    // Waits for the result of the job that is under way. `None` where it was still under way at the last poll.
    fn wait_back(&mut self) -> Option<J>
        requires { self.old.out ≡ true }
        ensures { IfSome result (IsMade J.does self.old.seat.me) }
    {
        let polls = self.spin();
        self.was_late = !self.is_done();
        self.has_waited = polls > 0 || self.was_late;
        'looks: for looks in 0..LOOKS {
            if self.is_done() {
                if let Some(job) = self.take_back() {
                    return Some(job);
                }
            }
            back_off(looks);
        }
        None
    }

    /// The result of the job that is out: made here where no thread has begun it, else waited for. `None` where it was still under way at
    /// the last poll.
    pub(crate) fn bring_back(&mut self) -> Option<J>
        requires { self.old.out ≡ true }
        ensures { IfSome result (IsMade J.does self.old.seat.me) }
    {
        if self.is_waiting() {
            if let Some(job) = self.recall() {
                self.has_waited = true;
                return Some(job.work());
            }
        }
        self.wait_back()
    }
}

impl<'a, J: Job> Mate<'a, J> {
    pub(crate) fn new(post: &'a Post<J>, seat: PostSeat<J>) -> Self
        requires table { seat.table_id ≡ post.now.table.shared.table_id }
        requires seat { seat.me ≡ (Serves, []) }
    {
        Mate { post, seat }
    }

    /// Says that this thread has gone, unless a job is out.
    pub(crate) fn go(&mut self) -> bool {
        let shared = &self.post.table.shared;
        shared.compare_exchange::<Unchanged>(&mut self.seat, 0, FREE, AWAY) == FREE
    }

    // Whether a job waits. No proof rests on what this tells.
    fn has_job(&self) -> bool {
        self.post.word() == HANDED
    }

    // Works on the job that waits, if one does.
    fn serve(&mut self) -> bool {
        let shared = &self.post.table.shared;
        if shared.compare_exchange::<TakeJob>(&mut self.seat, 0, HANDED, TAKEN) != HANDED {
            return false;
        }
        match shared.exchange(&mut self.seat, 0, None) {
            Some(job) => drop(shared.exchange(&mut self.seat, 0, Some(job.work()))),
            None => unreachable!(),
        }
        shared.store::<Finish>(&mut self.seat, 0, DONE);
        true
    }

    // Whether it is told to go, and goes: not while a job waits.
    fn goes_at(&mut self, closed: &AtomicBool) -> bool {
        closed.load(Ordering::SeqCst) && (self.go() || self.post.word() == DONE)
    }

    // Works on the next job; answers whether the thread stays: not where it is told to go, or has polled in vain.
    fn serve_next(&mut self, closed: &AtomicBool) -> bool {
        for looks in 0..SOON {
            if self.has_job() && self.serve() {
                return true;
            }
            if self.goes_at(closed) {
                return false;
            }
            back_off(looks);
        }
        !self.go()
    }

    /// Works on each job that is posted, until the flag is set, or no job has come for so long that the thread ends. Only the owner of
    /// the jobs may set the flag, and only while no job is out. A thread stays once.
    pub fn stay(self, closed: &AtomicBool) {
        let mut mate = self;
        'rounds: for _ in 0..ROUNDS {
            if !mate.serve_next(closed) {
                return;
            }
        }
    }
}
