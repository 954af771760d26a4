//! The rule of a post, and what each step tells. These types are for the proofs alone.

ghost use Rattle.claimed_calls.specs.declared.role.Role.TheVariants.{Fresh, Gives, Serves};
ghost use Rattle.claimed_calls.specs.Posts.{IsAtStage, SitsDown, IsUnchanged, Leaves, Recalls, TakesBack, TakesJob, Finishes};

use crate::job::Job;
use crate::role::Role;
use atomic_table::{Play, Split, TableRule};

/// What lies at a post waits and may be worked on, or is what the work made of the job that was left there.
pub(crate) struct PostRule;

impl<J: Job> TableRule<Option<J>, Role<J>, ()> for PostRule {
    ghost holds = { λ _. IsAtStage J.asks J.does };

    ghost first = { λ _. Fresh };
}

pub(crate) struct Sit;

impl<J> Play<Option<J>, Role<J>> for Sit {
    ghost then = { SitsDown };
}

/// How the first seat is made those of both threads.
pub(crate) struct Ends;

impl<J> Split<Role<J>> for Ends {
    ghost left = { λ _. Gives };

    ghost right = { λ _. Serves };
}

pub(crate) struct Unchanged;

impl<J> Play<Option<J>, Role<J>> for Unchanged {
    ghost then = { IsUnchanged };
}

pub(crate) struct Leave;

impl<J> Play<Option<J>, Role<J>> for Leave {
    ghost then = { Leaves };
}

pub(crate) struct Recall;

impl<J: Job> Play<Option<J>, Role<J>> for Recall {
    ghost then = { Recalls J.asks };
}

pub(crate) struct TakeBack;

impl<J: Job> Play<Option<J>, Role<J>> for TakeBack {
    ghost then = { TakesBack J.does };
}

pub(crate) struct TakeJob;

impl<J: Job> Play<Option<J>, Role<J>> for TakeJob {
    ghost then = { TakesJob J.asks };
}

pub(crate) struct Finish;

impl<J> Play<Option<J>, Role<J>> for Finish {
    ghost then = { Finishes };
}
