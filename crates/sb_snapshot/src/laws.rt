// Laws of the base: a function without effect whose contract is the statements of specs/Laws.
ghost use Rattle.sb_snapshot.specs.Laws.{ReadsBack, IsReadAsSpelled, IsSpelledOnce, BeginsNone, IsWrittenAgain, ConsistentIsWritten};

/// Each state that has a base has one of its own, which begins no other and is read back; and
/// bytes are read only as the state whose base they are.
pub fn one_base()
    ensures reads_back { ReadsBack }
    ensures exact { IsReadAsSpelled }
    ensures once { IsSpelledOnce }
    ensures apart { BeginsNone }
    ensures again { IsWrittenAgain }
{}

/// A consistent state may be written.
pub fn consistent_is_written()
    ensures { ConsistentIsWritten }
{}
