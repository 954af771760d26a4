//! What can be handed to another thread.

/// What a thread can be handed: it is worked on there, and comes back.
pub trait Job: Send + Drop {
    /// What has to hold of a job before it is worked on.
    ghost asks: { Self → Type 0 };

    /// What the work makes of it.
    ghost does: { Self → Self → Type 0 };

    fn work(self) -> Self
        requires { asks self }
        ensures { does self result };
}
