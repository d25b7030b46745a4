// Some commits, and some jumps of time, worked out by hand.
ghost use Rattle.sb_app.specs.Commits.{IsPastQuota, IsNet};
ghost use Rattle.sb_app.specs.Jumps.{AreJumps};

/// A commit is counted as a whole against the quota of 1,000,000 live copies, in every namespace.
pub fn worked_commits()
    ensures past { IsPastQuota }
    ensures net { IsNet }
{}

/// Which distances of a clock and a moment are jumps, to the millisecond.
pub fn worked_jumps()
    ensures { AreJumps }
{}
