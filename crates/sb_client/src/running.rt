// A run of the client over the lines of its input.
ghost use Rattle.std.specs.Prelude.{◌≡◌, ◌≢◌, ◌||◌, IfOk, IfErr, OnOk};
ghost use Rattle.sb_outside.specs.Causes.{RoseByOne};
ghost use Rattle.sb_client.specs.Outside.{outside_of};
ghost use Rattle.sb_client.specs.Runs.{IsWholeRun, IsCutRun, IsRun};
ghost use Rattle.sb_client.specs.declared.ending.ClientEnding.TheVariants.{ReadFault, WriteFault, LinkFault};

use crate::asking::answer_line;
use crate::ending::{ClientEnding, end_of};
use sb_input::Reader;
use sb_outside::{Link, Sink, Source};
use std::alloc::Global;

fn either(a: bool, b: bool) -> bool
    ensures { result ≡ (a || b) }
{
    a || b
}

// Answers each line; at the input's end it says whether a reply was a refusal. `Err` says why it ended before.
fn run_lines<N: Link, S: Source, K: Sink>(
    alloc: Global,
    key: &[u8],
    link: &mut N,
    source: &mut S,
    sink: &mut K,
) -> Result<bool, ClientEnding>
    ensures done { IfOk result (IsWholeRun (outside_of key.now N.Link S.Source K.Sink link.old source.old sink.old) (outside_of key.now N.Link S.Source K.Sink link.new source.new sink.new)) }
    ensures cut { IfErr result (IsCutRun (outside_of key.now N.Link S.Source K.Sink link.old source.old sink.old) (outside_of key.now N.Link S.Source K.Sink link.new source.new sink.new)) }
    ensures read_passed { OnOk result (S.count source.new ≡ S.count source.old) }
    ensures read_fault { IfErr result (λ e. e ≡ ReadFault → RoseByOne (S.count source.old) (S.count source.new)) }
    ensures read_quiet { IfErr result (λ e. e ≢ ReadFault → S.count source.new ≡ S.count source.old) }
    ensures link_passed { OnOk result (N.count link.new ≡ N.count link.old) }
    ensures link_fault { IfErr result (λ e. e ≡ LinkFault → RoseByOne (N.count link.old) (N.count link.new)) }
    ensures link_quiet { IfErr result (λ e. e ≢ LinkFault → N.count link.new ≡ N.count link.old) }
    ensures write_passed { OnOk result (K.count sink.new ≡ K.count sink.old) }
    ensures write_fault { IfErr result (λ e. e ≡ WriteFault → RoseByOne (K.count sink.old) (K.count sink.new)) }
    ensures write_quiet { IfErr result (λ e. e ≢ WriteFault → K.count sink.new ≡ K.count sink.old) }
{
    let Ok(mut reader) = Reader::new(alloc) else {
        return Err(ClientEnding::OutOfMemory);
    };
    let mut refused = false;
    'lines: loop {
        let partial = match reader.next_line(alloc, source) {
            Ok(Some(partial)) => partial,
            Ok(None) => return Ok(refused),
            Err(end) => return Err(end_of(end)),
        };
        let was_refused = answer_line(alloc, key, link, partial, sink)?;
        refused = either(refused, was_refused);
        if reader.is_done() {
            return Ok(refused);
        }
    }
}

/// Sends each line of the input that isn't blank to a server, and writes the reply lines. A line above 2,097,152 bytes
/// isn't sent: its reply is the refusal `BadCall`, which is written without the server. The key, of visible ASCII characters,
/// is shown with each request; where it is empty, none is.
pub fn run_script<N: Link, S: Source, K: Sink>(
    alloc: Global,
    key: &[u8],
    link: &mut N,
    source: &mut S,
    sink: &mut K,
) -> ClientEnding
    ensures run { IsRun (outside_of key.now N.Link S.Source K.Sink link.old source.old sink.old) (outside_of key.now N.Link S.Source K.Sink link.new source.new sink.new) result }

    // One fault more was counted of what ended the run, and none of the others.
    ensures read_fault { result ≡ ReadFault → RoseByOne (S.count source.old) (S.count source.new) }
    ensures read_quiet { result ≢ ReadFault → S.count source.new ≡ S.count source.old }
    ensures link_fault { result ≡ LinkFault → RoseByOne (N.count link.old) (N.count link.new) }
    ensures link_quiet { result ≢ LinkFault → N.count link.new ≡ N.count link.old }
    ensures write_fault { result ≡ WriteFault → RoseByOne (K.count sink.old) (K.count sink.new) }
    ensures write_quiet { result ≢ WriteFault → K.count sink.new ≡ K.count sink.old }
{
    match run_lines(alloc, key, link, source, sink) {
        Ok(refused) => ClientEnding::Done { refused },
        Err(end) => end,
    }
}
