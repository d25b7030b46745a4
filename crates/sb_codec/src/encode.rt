// From an event to its bytes.
ghost use Rattle.std.specs.Prelude.{◌≡◌, Some, OnOk, IfOk};
ghost use Rattle.sb_codec.specs.EventBytes.{event_bytes, event_of, read_event, IsSpellable, HasSpelling};
ghost use Rattle.sb_codec.specs.Forms.{Puts};

use crate::events::put_event;
use sb_machine::EventRef;
use std::alloc::{AllocError, Global};

/// Adds the one spelling of an event to these bytes. Where they lack the room and memory is
/// wanting, some of the spelling may stand there.
#[tactic(auto, using(crate::proofs::Spelling::read_event_again))]
pub fn write_event(event: &EventRef<'_>, out: &mut Vec<u8>) -> Result<(), AllocError>
    // The act has a code, lists are in order, and no length or number passes its bytes.
    requires { IsSpellable (event_of event.now) }
    // Memory is wanting only where the room for the spelling is not there.
    ensures puts { Puts (event_bytes (event_of event.now)) out.old out.new result }
    ensures spelled { OnOk result (HasSpelling (event_of event.now)) }
    // What is spelled so is read.
    ensures reads_back { OnOk result (read_event (event_bytes (event_of event.now)) ≡ Some (event_of event.now)) }
{
    put_event(event, out)
}

/// The one spelling of an event.
pub fn encode_event(alloc: Global, event: &EventRef<'_>) -> Result<Vec<u8>, AllocError>
    requires { IsSpellable (event_of event.now) }
    ensures exact { IfOk result (λ bytes. bytes.items ≡ event_bytes (event_of event.now)) }
    ensures spelled { OnOk result (HasSpelling (event_of event.now)) }
    ensures reads_back { IfOk result (λ bytes. read_event bytes.items ≡ Some (event_of event.now)) }
{
    let mut bytes = Vec::new(alloc);
    write_event(event, &mut bytes)?;
    Ok(bytes)
}
