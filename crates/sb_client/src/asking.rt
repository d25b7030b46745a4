// Answering one line.
ghost use Rattle.std.specs.Prelude.{◌≡◌, ◌≢◌, ◌⊎◌, [], ◌∷◌, ℕ, List, Option, IfOk, IfErr, OnOk, OnErr};
ghost use Rattle.sb_outside.specs.Causes.{RoseByOne};
ghost use Rattle.sb_outside.specs.Streams.{Stays, Gains};
ghost use Rattle.sb_outside.specs.Links.{Exchange};
ghost use Rattle.sb_input.specs.PartialLines.{StandsFor};
ghost use Rattle.sb_client.specs.Answers.{kind_of, sent, too_long};
ghost use Rattle.sb_client.specs.Serving.{IsServed, IsCutServing};
ghost use Rattle.sb_client.specs.declared.ending.ClientEnding.TheVariants.{WriteFault, LinkFault as LostLink, OutOfMemory};

use crate::ending::ClientEnding;
use crate::reply::{long_line, take_reply};
use crate::request::request_of;
use sb_input::{PartialLine, is_blank_line};
use sb_outside::{Link, LinkFault, Sink, write_all};
use std::alloc::Global;

fn exchange<N: Link>(link: &mut N, request: &[u8], reply: &mut Vec<u8>) -> Result<(), ClientEnding>
    ensures ok { OnOk result (Gains (N.told link.old) (N.told link.new) (record { request = request.now; reply = reply.new.items } ∷ [])) }
    ensures err { OnErr result (Stays (N.told link.old) (N.told link.new)) }
    ensures known { IfErr result (λ e. (e ≡ LostLink) ⊎ (e ≡ OutOfMemory)) }
    ensures passed { OnOk result (N.count link.new ≡ N.count link.old) }
    ensures cause { IfErr result (λ e. e ≡ LostLink → RoseByOne (N.count link.old) (N.count link.new)) }
    ensures quiet { IfErr result (λ e. e ≢ LostLink → N.count link.new ≡ N.count link.old) }
{
    match link.exchange(request, reply) {
        Ok(()) => Ok(()),
        Err(LinkFault::Fault) => Err(ClientEnding::LinkFault),
        Err(LinkFault::OutOfMemory) => Err(ClientEnding::OutOfMemory),
    }
}

// Sends a line and writes its reply line; says whether that is a refusal.
fn send_line<N: Link, K: Sink>(
    alloc: Global,
    key: &[u8],
    link: &mut N,
    line: &[u8],
    sink: &mut K,
) -> Result<bool, ClientEnding>
    ensures done { kind_of line.now ≡ sent → IfOk result (IsServed key.now line.now (N.told link.old) (N.told link.new) (K.given sink.old) (K.given sink.new)) }
    ensures cut { kind_of line.now ≡ sent → IfErr result (IsCutServing key.now line.now (N.told link.old) (N.told link.new) (K.given sink.old) (K.given sink.new)) }
    ensures link_passed { OnOk result (N.count link.new ≡ N.count link.old) }
    ensures link_fault { IfErr result (λ e. e ≡ LostLink → RoseByOne (N.count link.old) (N.count link.new)) }
    ensures link_quiet { IfErr result (λ e. e ≢ LostLink → N.count link.new ≡ N.count link.old) }
    ensures sink_passed { OnOk result (K.count sink.new ≡ K.count sink.old) }
    ensures sink_fault { IfErr result (λ e. e ≡ WriteFault → RoseByOne (K.count sink.old) (K.count sink.new)) }
    ensures sink_quiet { IfErr result (λ e. e ≢ WriteFault → K.count sink.new ≡ K.count sink.old) }
{
    let Ok(request) = request_of(alloc, key, line) else {
        return Err(ClientEnding::OutOfMemory);
    };
    let mut reply = Vec::new(alloc);
    if let Err(end) = exchange(link, &request, &mut reply) {
        return Err(end);
    }
    match take_reply(alloc, &reply) {
        Ok((text, refused)) => match write_all(sink, text) {
            Ok(()) => Ok(refused),
            Err(_) => Err(ClientEnding::WriteFault),
        },
        Err(end) => Err(end),
    }
}

// Writes the reply to a line that is too long to be sent.
fn refuse_long<K: Sink>(sink: &mut K) -> Result<bool, ClientEnding>
    ensures done { (key line : List ℕ) (told : Option (List Exchange)) → kind_of line ≡ too_long → IfOk result (IsServed key line told told (K.given sink.old) (K.given sink.new)) }
    ensures cut { (key line : List ℕ) (told : Option (List Exchange)) → kind_of line ≡ too_long → IfErr result (IsCutServing key line told told (K.given sink.old) (K.given sink.new)) }
    ensures sink_passed { OnOk result (K.count sink.new ≡ K.count sink.old) }
    ensures sink_fault { IfErr result (λ e. e ≡ WriteFault → RoseByOne (K.count sink.old) (K.count sink.new)) }
    ensures known { IfErr result (λ e. e ≡ WriteFault) }
{
    match write_all(sink, long_line().as_bytes()) {
        Ok(()) => Ok(true),
        Err(_) => Err(ClientEnding::WriteFault),
    }
}

/// Answers a line that was read; says whether its reply is a refusal. `Err` says how the run ends at it.
pub(crate) fn answer_line<N: Link, K: Sink>(
    alloc: Global,
    key: &[u8],
    link: &mut N,
    partial: PartialLine,
    sink: &mut K,
) -> Result<bool, ClientEnding>
    ensures done { (line : List ℕ) → StandsFor partial line → IfOk result (IsServed key.now line (N.told link.old) (N.told link.new) (K.given sink.old) (K.given sink.new)) }
    ensures cut { (line : List ℕ) → StandsFor partial line → IfErr result (IsCutServing key.now line (N.told link.old) (N.told link.new) (K.given sink.old) (K.given sink.new)) }
    ensures link_passed { OnOk result (N.count link.new ≡ N.count link.old) }
    ensures link_fault { IfErr result (λ e. e ≡ LostLink → RoseByOne (N.count link.old) (N.count link.new)) }
    ensures link_quiet { IfErr result (λ e. e ≢ LostLink → N.count link.new ≡ N.count link.old) }
    ensures sink_passed { OnOk result (K.count sink.new ≡ K.count sink.old) }
    ensures sink_fault { IfErr result (λ e. e ≡ WriteFault → RoseByOne (K.count sink.old) (K.count sink.new)) }
    ensures sink_quiet { IfErr result (λ e. e ≢ WriteFault → K.count sink.new ≡ K.count sink.old) }
{
    match partial {
        PartialLine::Short(kept) => {
            if is_blank_line(&kept) {
                return Ok(false);
            }
            send_line(alloc, key, link, &kept, sink)
        }
        PartialLine::Long(true) => Ok(false),
        PartialLine::Long(false) => refuse_long(sink),
    }
}
