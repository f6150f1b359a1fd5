// What the lock asks of a value.
ghost use Rattle.std.specs.Prelude.{◌≡◌, ℕ, ◌<◌, ◌^◌, List, length};

/// A value with a list of events, and with an origin that no call changes.
pub trait Storied {
    /// One thing that a session did to the value.
    type Event;

    /// Where the value began: plain data.
    type Origin;

    /// The events so far, the oldest first.
    ghost events: { Self → List Self.Event };

    /// The number of the session whose event it is.
    ghost session: { Self.Event → ℕ };

    /// Where the value began.
    ghost origin: { Self → Self.Origin };

    /// Any origin. What was a pass and is one no more has it.
    ghost nowhere: { Self.Origin };

    /// How many events there are.
    fn count(&self) -> u64
        requires { length (events self.now) < 2 ^ 64 }
        ensures { result ≡ length (events self.now) };
}
