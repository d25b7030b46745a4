// A run that has a server answer the lines of its input.
ghost use Rattle.std.specs.Prelude.{◌≡◌};
ghost use Rattle.sb_journal.specs.Disks.{Disks};
ghost use Rattle.sb_app.specs.Outside.{input_of, output_of};
ghost use Rattle.sb_app.specs.Clients.{exchanges_of, status_of_client, IsClientCall};

use sb_client::{ClientEnding, run_script};
use sb_outside::{Link, Sink, Source};
use std::alloc::Global;

fn status_of_ending(end: ClientEnding) -> u8
    ensures { result ≡ status_of_client end }
{
    match end {
        ClientEnding::Done { refused: false } => 0,
        ClientEnding::Done { refused: true } => 1,
        ClientEnding::ReadFault => 3,
        ClientEnding::WriteFault => 4,
        ClientEnding::OutOfMemory => 7,
        ClientEnding::LinkFault => 8,
        ClientEnding::BadReply => 9,
        ClientEnding::LongInput => 10,
    }
}

/// Has a server answer the lines of the input, each request with this key, if it isn't empty, and gives
/// the status: 0 where all were answered, 1 where a reply is a refusal too, 3, 4 and 8 for a fault of the
/// input, the output or the link, 7 for want of memory, 9 for a response without a reply line, and 10 once
/// 2^40 bytes were read.
pub fn client_status<N: Link, S: Source, K: Sink>(
    alloc: Global,
    key: &[u8],
    link: &mut N,
    input: &mut S,
    output: &mut K,
) -> u8
    ensures { (disks : Disks)
        → IsClientCall (record { input = input_of S.Source input.old; output = output_of K.Sink output.old; disks = disks }) (record { input = input_of S.Source input.new; output = output_of K.Sink output.new; disks = disks })
        (exchanges_of key.now N.Link link.old) (exchanges_of key.now N.Link link.new) result }
{
    let end = run_script(alloc, key, link, input, output);
    status_of_ending(end)
}
