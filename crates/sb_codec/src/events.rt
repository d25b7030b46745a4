// Events: time went on, or a call acted.
ghost use Rattle.std.specs.Prelude.{◌≡◌, OnOk};
ghost use Rattle.sb_codec.specs.EventBytes as event_bytes;
ghost use Rattle.sb_codec.specs.Readers.{Gives};
ghost use Rattle.sb_codec.specs.Forms.{Form, Puts};

use crate::acts::ActPiece;
use crate::coded::split_code;
use crate::fields::{Number64, Opt};
use crate::piece::{Piece, put_fields, take_fields};
use crate::pieces::ByPiece;
use crate::unread::Unread;
use sb_machine::{Call, Event, EventRef};
use std::alloc::{AllocError, Global};

#[tactic(auto, unfolding(crate::specs::EventBytes::event))]
pub(crate) fn put_event(event: &EventRef<'_>, out: &mut Vec<u8>) -> Result<(), AllocError>
    requires { event_bytes.IsSpellable (event_bytes.event_of event.now) }
    ensures puts { Puts (event_bytes.event_bytes (event_bytes.event_of event.now)) out.old out.new result }
    ensures fits { OnOk result (event_bytes.HasSpelling (event_bytes.event_of event.now)) }
{
    match event {
        EventRef::Tick { moment } => {
            out.push(0)?;
            Number64::put(moment, out)
        }
        EventRef::Called { moment, call } => {
            out.push(1)?;
            put_fields!(out, moment => Number64, call => CallPiece)
        }
    }
}

#[tactic(auto, unfolding(crate::specs::EventBytes::event, crate::specs::Forms::chosen_at))]
pub(crate) fn take_event(alloc: Global, bytes: &[u8]) -> Result<(Event, &[u8]), Unread>
    ensures { Gives (λ x. (x.0, x.1.now)) result (event_bytes.event.reads bytes.now) }
{
    let Some((kind, rest)) = split_code(bytes) else {
        return Err(Unread::NoSpelling);
    };
    match kind {
        0 => take_fields!(alloc, rest, Event::Tick { moment: Number64 }),
        1 => take_fields!(
            alloc,
            rest,
            Event::Called {
                moment: Number64,
                call: CallPiece
            }
        ),
        _ => Err(Unread::NoSpelling),
    }
}

pub(crate) struct CallPiece;

impl Piece for CallPiece {
    type Value = Call;

    ghost form = { event_bytes.a_call };

    #[tactic(auto, unfolding(crate::specs::EventBytes::a_call))]
    fn put(value: &Call, out: &mut Vec<u8>) -> Result<(), AllocError> {
        put_fields!(out, &value.by => Opt<ByPiece>, &value.act => ActPiece)
    }

    #[tactic(auto, unfolding(crate::specs::EventBytes::a_call))]
    fn take(alloc: Global, bytes: &[u8]) -> Result<(Call, &[u8]), Unread> {
        take_fields!(alloc, bytes, Call { by: Opt<ByPiece>, act: ActPiece })
    }
}
