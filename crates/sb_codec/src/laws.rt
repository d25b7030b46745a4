// Laws of the spelling: functions without effect whose contracts are statements of specs/Laws.
ghost use Rattle.sb_codec.specs.Laws.{IsSpelledOnce, BeginsNone, ReadsBack, IsWrittenAgain, JudgedIsWritten, IsJournaled, IsShort, TicksAreShort};

/// Each event that has a spelling has one of its own, which begins no other and is read back.
pub fn one_spelling()
    ensures once { IsSpelledOnce }
    ensures apart { BeginsNone }
    ensures reads_back { ReadsBack }
    ensures again { IsWrittenAgain }
{}

/// A call that changes the state can be written, and a journal record holds it; so it is with a
/// tick.
pub fn journaled_calls()
    ensures judged { JudgedIsWritten }
    ensures written { IsJournaled }
    ensures short { IsShort }
    ensures ticks { TicksAreShort }
{}
