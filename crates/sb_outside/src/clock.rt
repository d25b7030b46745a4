// Readings of time.
ghost use Rattle.std.specs.Prelude.{ℕ};

/// A clock. Its readings are milliseconds since 1970, and may be any that it may read: they may stand
/// still or go back.
pub trait Clock {
    /// What it may read.
    ghost reads: { Self → ℕ → Type 0 };

    /// The reading now.
    fn now(&self) -> u64
        ensures { reads self.now result };

    /// Lets a little time pass, for a caller that asks again.
    fn pause(&self);

    /// Microseconds since some moment, for who measures how long something takes. No clause says anything of
    /// it, and nothing that the namespace does depends on it.
    fn micros(&self) -> u64;
}
