// How a run of the client ends.
ghost use Rattle.std.specs.Prelude.{◌≡◌};
ghost use Rattle.sb_client.specs.Endings.{end_of_reading};

use sb_input::ReadEnd;

/// How a run of the client ended.
#[derive(Clone, Copy, PartialEq, Eq)]
pub enum ClientEnding {
    /// All lines were answered; one or more of the replies may be refusals.
    Done { refused: bool },
    ReadFault,
    WriteFault,
    LinkFault,
    /// The link gave bytes that are no response with a reply line.
    BadReply,
    /// 2^40 bytes of input were taken.
    LongInput,
    OutOfMemory,
}

/// The ending of a run whose reading ended.
pub(crate) fn end_of(end: ReadEnd) -> ClientEnding
    ensures { result ≡ end_of_reading end }
{
    match end {
        ReadEnd::Fault => ClientEnding::ReadFault,
        ReadEnd::OutOfMemory => ClientEnding::OutOfMemory,
        ReadEnd::TooMuch => ClientEnding::LongInput,
    }
}
