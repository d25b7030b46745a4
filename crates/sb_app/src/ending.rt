// How a run ends before its input does, and the status that says so.
ghost use Rattle.std.specs.Prelude.{◌≡◌};
ghost use Rattle.sb_app.specs.Taking.{end_of_reading};
ghost use Rattle.sb_app.specs.Endings.{status_of_end};

use sb_input::ReadEnd;

/// Why a run ended before its input did.
#[derive(Clone, Copy, PartialEq, Eq)]
pub enum RunEnd {
    ReadFault,
    WriteFault,
    DiskFault,
    OutOfMemory,
    /// 2^40 bytes of input were taken.
    LongInput,
    /// The next line's moment is too far ahead of the clock.
    TimeJump,
}

/// The end of a run whose reading ended.
pub fn end_of(end: ReadEnd) -> RunEnd
    ensures { result ≡ end_of_reading end }
{
    match end {
        ReadEnd::Fault => RunEnd::ReadFault,
        ReadEnd::OutOfMemory => RunEnd::OutOfMemory,
        ReadEnd::TooMuch => RunEnd::LongInput,
    }
}

/// The status of a run that ended so.
pub fn status_of(end: RunEnd) -> u8
    ensures { result ≡ status_of_end end }
{
    match end {
        RunEnd::ReadFault => 3,
        RunEnd::WriteFault => 4,
        RunEnd::DiskFault => 5,
        RunEnd::OutOfMemory => 7,
        RunEnd::LongInput => 10,
        RunEnd::TimeJump => 14,
    }
}
