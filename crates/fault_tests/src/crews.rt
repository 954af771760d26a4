//! Crews of threads: jobs at the same time, jobs that no thread takes, and threads that go.

ghost use Rattle.claimed_calls.specs.Posts.{AreAt};
ghost use Rattle.std.specs.Prelude.{ℕ, ◌<◌, IfOk, IsSome, length, slice_index_or};

use claimed_calls::{Crew, Job, Post, Seats};
use std::alloc::{AllocError, Global};
use std::process::Abort;
use std::sync::atomic::{AtomicBool, AtomicU64, Ordering};
use std::test::Fail;
use std::thread;
use std::thread::Threads;

// Turns that a job waits for the others at most.
const TURNS: u32 = 10_000_000;

// Polls of the caller's thread before it lets others have its processor.
const PATIENCE: u64 = 1_000;

// A number that is doubled once `jobs` jobs have begun.
#[derive(Drop)]
struct Doubling<'a> {
    number: u64,
    begun: &'a AtomicU64,
    jobs: u64,
}

impl<'a> Job for Doubling<'a> {
    ghost asks = { λ _. Unit {0} };

    ghost does = { λ _ _. Unit {0} };

    fn work(self) -> Self {
        let Doubling {
            number,
            begun,
            jobs,
        } = self;
        begun.fetch_add(1, Ordering::SeqCst);
        let mut together = false;
        for _ in 0..TURNS {
            together = together || begun.load(Ordering::SeqCst) >= jobs;
            if together {
                break;
            }
            thread::yield_now();
        }
        Doubling {
            number: if together { number.wrapping_mul(2) } else { 0 },
            begun,
            jobs,
        }
    }
}

// A number that waits until `jobs` jobs have begun.
fn one(number: u64, begun: &AtomicU64, jobs: u64) -> Option<Doubling<'_>>
    ensures { IsSome result }
{
    Some(Doubling {
        number,
        begun,
        jobs,
    })
}

// The numbers 1, 2 and 3, which wait until `jobs` jobs have begun.
fn three(
    alloc: Global,
    begun: &AtomicU64,
    jobs: u64,
) -> Result<Vec<Option<Doubling<'_>>>, AllocError>
    ensures { IfOk result (λ v. (k : ℕ) (d : _) → k < length v.items → IsSome (slice_index_or v.items k d)) }
{
    let mut all = Vec::new(alloc);
    for number in 1..4 {
        all.push(one(number, begun, jobs))?;
    }
    Ok(all)
}

// The number in a job, or 0 where the job is lost.
fn number_of(job: &Option<Doubling<'_>>) -> u64 {
    match job {
        Some(it) => it.number,
        None => 0,
    }
}

// Whether the jobs have come to 2, 4 and 6.
fn are_doubled(jobs: &[Option<Doubling<'_>>]) -> bool {
    let mut wanted = 2u64;
    for job in jobs {
        if number_of(job) != wanted {
            return false;
        }
        wanted = wanted.wrapping_add(2);
    }
    jobs.len() == 3
}

// Whether the crew has worked on three jobs, which wait until `count` of them have begun.
fn work_on<'a>(
    alloc: Global,
    crew: &mut Crew<'_, Doubling<'a>>,
    begun: &'a AtomicU64,
    count: u64,
) -> Result<bool, AllocError> {
    let mut jobs = three(alloc, begun, count)?;
    let (whole, ()) = crew.work_beside(&mut jobs, &mut || {});
    Ok(whole && are_doubled(&jobs))
}

// Whether the crew has worked on three jobs, of which the first waits for a call beside them, and has answered with what that found.
fn work_beside_a_call<'a>(
    alloc: Global,
    crew: &mut Crew<'_, Doubling<'a>>,
    begun: &'a AtomicU64,
) -> Result<bool, AllocError> {
    let mut jobs = three(alloc, begun, 2)?;
    let mut call = || begun.fetch_add(1, Ordering::SeqCst);
    let (whole, found) = crew.work_beside(&mut jobs, &mut call);
    Ok(whole && found == 0 && are_doubled(&jobs))
}

// Whether no thread had gone, and they have worked on three jobs, of which the first waits for the second. Then they are told to go.
fn lead<'a>(
    alloc: Global,
    crew: &mut Crew<'_, Doubling<'a>>,
    begun: &'a AtomicU64,
    closed: &AtomicBool,
) -> bool {
    let there = crew.is_there();
    let worked = matches!(work_on(alloc, crew, begun, 2), Ok(true));
    closed.store(true, Ordering::SeqCst);
    there && worked
}

// Whether a thread at this post and the caller's have worked at the same time, and the thread has gone then.
fn meet<'a, 'c, R: Threads + Sync>(
    rt: &R,
    alloc: Global,
    post: &'c Post<Doubling<'a>>,
    seats: Seats<Doubling<'a>>,
    begun: &'a AtomicU64,
    closed: &AtomicBool,
) -> Result<bool, AllocError>
    requires { AreAt post.now.table.shared.table_id seats.end.table_id seats.mate.table_id }
{
    let mut crew = Crew::new(alloc, PATIENCE);
    let first = crew.take_on(post, seats)?;
    let ((), worked) = thread::join(
        rt,
        || first.stay(closed),
        || lead(alloc, &mut crew, begun, closed),
    );
    Ok(worked && !crew.is_there())
}

#[test]
fn jobs_are_worked_on_at_the_same_time(rt: HostRuntime) -> Result<(), Fail> {
    let alloc = rt.alloc();
    let begun = AtomicU64::new(0);
    let closed = AtomicBool::new(false);
    let (one, at_one) = Post::new(alloc)?;
    let met = meet(&rt, alloc, &one, at_one, &begun, &closed)?;
    assert!(rt; met);
    Ok(())
}

#[test]
fn jobs_that_no_thread_takes_are_worked_on_here(rt: HostRuntime) -> Result<(), Fail> {
    let alloc = rt.alloc();
    let begun = AtomicU64::new(0);
    let (one, at_one) = Post::new(alloc)?;
    let mut crew = Crew::new(alloc, PATIENCE);
    let _nobody = crew.take_on(&one, at_one)?;
    assert!(rt; work_on(alloc, &mut crew, &begun, 1)?);
    assert!(rt; crew.is_there());
    Ok(())
}

#[test]
fn a_call_beside_comes_before_jobs_that_no_thread_takes(rt: HostRuntime) -> Result<(), Fail> {
    let alloc = rt.alloc();
    let begun = AtomicU64::new(0);
    let (one, at_one) = Post::new(alloc)?;
    let mut crew = Crew::new(alloc, PATIENCE);
    let _nobody = crew.take_on(&one, at_one)?;
    assert!(rt; work_beside_a_call(alloc, &mut crew, &begun)?);
    Ok(())
}

// Whether the crew has worked on three jobs a hundred times, at each of which it was judged. Then it is told to go.
fn lead_often<'a>(
    alloc: Global,
    crew: &mut Crew<'_, Doubling<'a>>,
    begun: &'a AtomicU64,
    closed: &AtomicBool,
) -> bool {
    let mut worked = true;
    for _ in 0..100 {
        worked = worked && matches!(work_on(alloc, crew, begun, 1), Ok(true));
        crew.judge();
    }
    closed.store(true, Ordering::SeqCst);
    worked
}

// Whether a thread at this post and the caller's, which has no patience, have worked on three jobs a hundred times.
fn work_often<'a, 'c, R: Threads + Sync>(
    rt: &R,
    alloc: Global,
    post: &'c Post<Doubling<'a>>,
    seats: Seats<Doubling<'a>>,
    begun: &'a AtomicU64,
    closed: &AtomicBool,
) -> Result<bool, AllocError>
    requires { AreAt post.now.table.shared.table_id seats.end.table_id seats.mate.table_id }
{
    let mut crew = Crew::new(alloc, 0);
    let first = crew.take_on(post, seats)?;
    let ((), worked) = thread::join(
        rt,
        || first.stay(closed),
        || lead_often(alloc, &mut crew, begun, closed),
    );
    Ok(worked)
}

// With no patience each job that is under way when the caller's thread polls is late, so that the crew rests ever again.
#[test]
fn a_crew_that_rests_works_on_all_jobs(rt: HostRuntime) -> Result<(), Fail> {
    let alloc = rt.alloc();
    let begun = AtomicU64::new(0);
    let closed = AtomicBool::new(false);
    let (one, at_one) = Post::new(alloc)?;
    let worked = work_often(&rt, alloc, &one, at_one, &begun, &closed)?;
    assert!(rt; worked);
    Ok(())
}

// It starts when it is told to go already, so it goes at once, and is given no job.
#[test]
fn a_thread_that_was_told_to_go_is_not_there(rt: HostRuntime) -> Result<(), Fail> {
    let alloc = rt.alloc();
    let begun = AtomicU64::new(0);
    let closed = AtomicBool::new(true);
    let (one, at_one) = Post::new(alloc)?;
    let mut crew = Crew::new(alloc, PATIENCE);
    let first = crew.take_on(&one, at_one)?;
    thread::join(&rt, || first.stay(&closed), || ());
    assert!(rt; !crew.is_there());
    assert!(rt; work_on(alloc, &mut crew, &begun, 1)?);
    Ok(())
}
