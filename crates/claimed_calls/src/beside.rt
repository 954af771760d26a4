//! A thread that stays beside the caller's while that does something.

ghost use denote.Param.Send.{IsSend};

use crate::job::Job;
use crate::post::Mate;
use std::sync::atomic::AtomicBool;
use std::thread::{Threads, join_mut};

// Stays beside another thread, unless that was done.
fn stay_once<J: Job>(mate: &mut Option<Mate<'_, J>>, closed: &AtomicBool) {
    if let Some(mate) = mate.take() {
        mate.stay(closed);
    }
}

/// Calls `lead`, and has a new thread stay beside it until the flag is set, if one can be started. It may wait for its own thread.
pub fn stay_beside<R: Threads + Sync, J: Job, T, F: FnMut() -> T>(
    rt: &R,
    mate: Mate<'_, J>,
    closed: &AtomicBool,
    lead: &mut F,
) -> T
    requires { F.pre lead.old }
    ensures { F.step lead.old result lead.new }
{
    let mut mate = Some(mate);
    let mut stay = ||
        requires { IsSend J.row }
    { stay_once(&mut mate, closed) };
    join_mut(rt, &mut stay, lead).1
}
