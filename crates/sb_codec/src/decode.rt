// From bytes to the event that they spell.
ghost use Rattle.std.specs.Prelude.{◌≡◌, Some, IfOk, IfSome};
ghost use Rattle.sb_machine.specs.declared.call.Event.{Event};
ghost use Rattle.sb_codec.specs.EventBytes.{event_bytes, HasSpelling, read_event};
ghost use Rattle.sb_codec.specs.Readers.{Gives};

use crate::events::take_event;
use crate::unread::Unread;
use sb_machine::Event;
use std::alloc::{AllocError, Global};

#[tactic(auto, unfolding(crate::specs::EventBytes::read_event))]
fn whole_event(alloc: Global, bytes: &[u8]) -> Result<Event, Unread>
    ensures { Gives (λ e. e) result (read_event bytes.now) }
{
    let (event, rest) = take_event(alloc, bytes)?;
    if !rest.is_empty() {
        drop(event);
        return Err(Unread::NoSpelling);
    }
    Ok(event)
}

fn decoded(alloc: Global, bytes: &[u8]) -> Result<Option<Event>, AllocError>
    ensures { IfOk result (λ o. o ≡ read_event bytes.now) }
{
    match whole_event(alloc, bytes) {
        Ok(event) => Ok(Some(event)),
        Err(Unread::NoSpelling) => Ok(None),
        Err(Unread::Memory) => Err(AllocError),
    }
}

/// The event that these bytes spell, if they spell one.
pub fn decode_event(alloc: Global, bytes: &[u8]) -> Result<Option<Event>, AllocError>
    ensures exact { IfOk result (λ o. o ≡ read_event bytes.now) }
    // What is read is spelled so, all of the bytes.
    ensures found { IfOk result (λ o. IfSome o (λ e. (bytes.now ≡ event_bytes e) × HasSpelling e)) }
    // What is spelled so is read.
    ensures only { IfOk result (λ o. (e : Event) → HasSpelling e → bytes.now ≡ event_bytes e → o ≡ Some e) }
{
    decoded(alloc, bytes)
}
