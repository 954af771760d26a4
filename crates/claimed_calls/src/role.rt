//! What the two threads at a post know.

/// What a seat at the post knows. No value of it is made.
pub(crate) enum Role<J> {
    /// The first seat, with nothing in hand.
    Fresh,
    /// The first seat, with the place in hand.
    Whole,
    /// The owner of jobs, with the place in hand.
    Gives,
    /// The owner, whose job this is that is out.
    Given(J),
    /// The other thread, with nothing in hand.
    Serves,
    /// The other thread, which has taken this job.
    Serving(J),
}
