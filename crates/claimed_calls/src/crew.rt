//! Threads that stay beside the caller's for a while, and work on what it hands to them.

ghost use Rattle.std.specs.Prelude.{◌≡◌, ◌⊎◌, ℕ, ◌<◌, Contains, IsTrue, IsFalse, None, true, length, slice_index_or};
ghost use Rattle.claimed_calls.specs.Jobs.{Waits, IsWorked, IsOut};
ghost use Rattle.claimed_calls.specs.Posts.{AreAt};

use crate::job::Job;
use crate::post::{End, Mate, Post, Seats};
use std::alloc::{AllocError, Global};

// The most calls that are judged while a crew rests.
const LONGEST_REST: u32 = 64;

/// The threads beside the caller's, as it sees them: those that were taken on; how often it polls for a job before it lets others have its
/// processor; for how many more calls that are judged the crew rests, and for how many it rested last, less the calls without a late job.
#[derive(Drop)]
pub struct Crew<'a, J: Job> {
    ends: Vec<End<'a, J>>,
    patience: u64,
    rest: u32,
    last_rest: u32,
}

impl<'a, J: Job> Crew<'a, J> {
    /// Nobody. `patience` is how often the caller's thread will poll for a job that is under way before it lets other threads have its
    /// processor; a poll takes 10 to 60 nanoseconds.
    pub fn new(alloc: Global, patience: u64) -> Self {
        Crew {
            ends: Vec::new(alloc),
            patience,
            rest: 0,
            last_rest: 0,
        }
    }

    /// Takes on one more thread, at the post of these two sides. The side that is answered is for that thread, which is to stay
    /// there. `Err`: out of memory.
    pub fn take_on(&mut self, post: &'a Post<J>, seats: Seats<J>) -> Result<Mate<'a, J>, AllocError>
        requires { AreAt post.now.table.shared.table_id seats.end.table_id seats.mate.table_id }
    {
        let Seats { end, mate } = seats;
        self.ends.push(End::new(post, end, self.patience))?;
        Ok(Mate::new(post, mate))
    }

    /// Whether all threads are still there. A thread ends when it is told to, or had no job for a while, and does not come back. No proof
    /// rests on the answer.
    pub fn is_there(&self) -> bool {
        self.ends.iter().all(|end| end.is_there())
    }

    /// The thread that the caller's waited for last when jobs were last worked on, counted from the first that was taken on: as far as
    /// the caller's thread could see, it finished last. `None` where it waited for none. No proof rests on the answer.
    pub fn last_waited_for(&self) -> Option<usize> {
        self.ends.iter().position(|end| end.has_waited())
    }

    /// Judges the last call of `work_beside`, whose jobs have to be such that each ends within the caller's patience if its thread has a
    /// processor. Where one did not, its thread has none, since the machine is busy with others' work, and the crew rests: until as many
    /// more calls are judged as it rested last, twice, which is one at least and 64 at most. Each call without a late job takes one off
    /// that number. No proof rests on it.
    pub fn judge(&mut self) {
        if self.rest > 0 {
            self.rest -= 1;
            return;
        }
        if self.ends.iter().any(|end| end.was_late()) {
            self.last_rest = (self.last_rest.min(LONGEST_REST / 2) * 2).max(1);
            self.rest = self.last_rest;
        } else {
            self.last_rest = self.last_rest.saturating_sub(1);
        }
    }

    /// Whether the crew rests: the caller's thread works on all jobs then. No proof rests on the answer.
    pub fn rests(&self) -> bool {
        self.rest > 0
    }

    /// Works on each job: the first in the first thread that was taken on, and so on. The caller's thread calls `lead` meanwhile, and
    /// then works on the jobs beyond the number of threads, on each whose thread has ended, and on each that its thread has not begun; on
    /// all jobs while the crew rests. So it waits only for jobs that are under way. `false` where one of them was under way for minutes of
    /// processor time; that job is lost.
    pub fn work_beside<T, F: FnMut() -> T>(
        &mut self,
        jobs: &mut [Option<J>],
        lead: &mut F,
    ) -> (bool, T)
        requires jobs { (k : ℕ) (d : _) → k < length jobs.old → Waits J.asks (slice_index_or jobs.old k d) }
        requires lead { F.pre lead.old }
        ensures worked { IsTrue result.0 → (k : ℕ) (d : _) → k < length jobs.old
            → IsWorked J.does (slice_index_or jobs.old k d) (slice_index_or jobs.new k d) }
        ensures lost { IsFalse result.0 → Contains jobs.new None }
        ensures lead { F.step lead.old result.1 lead.new }
    {
        if self.rests() {
            return (true, work_here(jobs, lead));
        }
        work_from(&mut self.ends, jobs, lead)
    }
}

// Works on the job here.
fn work_one<J: Job>(job: &mut Option<J>)
    requires { Waits J.asks job.old }
    ensures { IsWorked J.does job.old job.new }
{
    match job.take() {
        Some(it) => *job = Some(it.work()),
        None => unreachable!(),
    }
}

// Works on all jobs here.
fn work_all<J: Job>(jobs: &mut [Option<J>])
    requires { (k : ℕ) (d : _) → k < length jobs.old → Waits J.asks (slice_index_or jobs.old k d) }
    ensures { (k : ℕ) (d : _) → k < length jobs.old
        → IsWorked J.does (slice_index_or jobs.old k d) (slice_index_or jobs.new k d) }
{
    for job in jobs.iter_mut() {
        work_one(job);
    }
}

// Works on all jobs here, after a call of `lead`.
fn work_here<J: Job, T, F: FnMut() -> T>(jobs: &mut [Option<J>], lead: &mut F) -> T
    requires jobs { (k : ℕ) (d : _) → k < length jobs.old → Waits J.asks (slice_index_or jobs.old k d) }
    requires lead { F.pre lead.old }
    ensures worked { (k : ℕ) (d : _) → k < length jobs.old
        → IsWorked J.does (slice_index_or jobs.old k d) (slice_index_or jobs.new k d) }
    ensures lead { F.step lead.old result lead.new }
{
    let made = lead();
    work_all(jobs);
    made
}

// Hands the job over; it stays here where the thread that is to take it has ended.
fn hand_over<J: Job>(end: &mut End<'_, J>, job: &mut Option<J>) -> bool
    requires { Waits J.asks job.old }
    ensures out { IsTrue result → (end.new.out ≡ true) × IsOut job.old end.new.seat.me.0 × (job.new ≡ None) }
    ensures same { IsFalse result → job.new ≡ job.old }
{
    let it = match job.take() {
        Some(it) => it,
        None => unreachable!(),
    };
    match end.hand(it) {
        Ok(()) => true,
        Err(it) => {
            *job = Some(it);
            false
        }
    }
}

// Works on all jobs: each of the first in its thread, and the others here, after a call of `lead`.
#[cycle(work_from)]
fn work_from<J: Job, T, F: FnMut() -> T>(
    ends: &mut [End<'_, J>],
    jobs: &mut [Option<J>],
    lead: &mut F,
) -> (bool, T)
    requires jobs { (k : ℕ) (d : _) → k < length jobs.old → Waits J.asks (slice_index_or jobs.old k d) }
    requires lead { F.pre lead.old }
    ensures worked { IsTrue result.0 → (k : ℕ) (d : _) → k < length jobs.old
        → IsWorked J.does (slice_index_or jobs.old k d) (slice_index_or jobs.new k d) }
    ensures lost { IsFalse result.0 → Contains jobs.new None }
    ensures lead { F.step lead.old result.1 lead.new }
{
    let Some((end, others)) = ends.split_first_mut() else {
        return (true, work_here(jobs, lead));
    };
    match jobs.split_first_mut() {
        Some((job, rest)) => hand_and_lead(end, others, job, rest, lead),
        None => (true, lead()),
    }
}

// Works on the job with the thread of the end, and on the rest meanwhile.
#[cycle(work_from)]
fn hand_and_lead<J: Job, T, F: FnMut() -> T>(
    end: &mut End<'_, J>,
    others: &mut [End<'_, J>],
    job: &mut Option<J>,
    rest: &mut [Option<J>],
    lead: &mut F,
) -> (bool, T)
    requires job { Waits J.asks job.old }
    requires rest { (k : ℕ) (d : _) → k < length rest.old → Waits J.asks (slice_index_or rest.old k d) }
    requires lead { F.pre lead.old }
    ensures job { IsTrue result.0 → IsWorked J.does job.old job.new }
    ensures rest { IsTrue result.0 → (k : ℕ) (d : _) → k < length rest.old
        → IsWorked J.does (slice_index_or rest.old k d) (slice_index_or rest.new k d) }
    ensures lost { IsFalse result.0 → (job.new ≡ None) ⊎ Contains rest.new None }
    ensures lead { F.step lead.old result.1 lead.new }
{
    let handed = hand_over(end, job);
    let (whole, made) = work_from(others, rest, lead);
    if !handed {
        work_one(job);
        return (whole, made);
    }
    match end.bring_back() {
        Some(back) => {
            *job = Some(back);
            (whole, made)
        }
        None => (false, made),
    }
}
