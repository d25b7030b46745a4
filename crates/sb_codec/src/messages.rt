// Messages, their properties, and what a correlation filter asks of them.
ghost use Rattle.std.specs.Prelude.{◌≡◌, ◌==◌, find, OnOk};
ghost use Rattle.std.specs.Option.{option_copied};
ghost use Rattle.sb_model.specs.SystemNames.{system_code, system_names};
ghost use Rattle.sb_codec.specs.Readers.{Gives};
ghost use Rattle.sb_codec.specs.Forms.{Form, Puts};
ghost use Rattle.sb_codec.specs.Messages as messages;

use crate::coded::split_code;
use crate::fields::{Number64, Opt, Shared, Truth, Words};
use crate::lists::{Item, Listed};
use crate::piece::{Piece, put_fields, take_fields};
use crate::unread::Unread;
use sb_machine::Conditions;
use sb_model::{Message, Property, PropertyValue, Rows, SystemName, SystemText, Text};
use std::alloc::{AllocError, Global};
use std::cmp::Ordering;

pub(crate) struct NamePiece;

#[tactic(auto, unfolding(crate::specs::Forms::coded_at))]
fn named_by(code: u8) -> Option<SystemName>
    ensures { result ≡ find (λ n. system_code n == code) system_names }
{
    match code {
        1 => Some(SystemName::MessageId),
        2 => Some(SystemName::Label),
        3 => Some(SystemName::CorrelationId),
        4 => Some(SystemName::SessionId),
        5 => Some(SystemName::To),
        6 => Some(SystemName::ReplyTo),
        7 => Some(SystemName::ReplyToSessionId),
        8 => Some(SystemName::ContentType),
        _ => None,
    }
}

impl Piece for NamePiece {
    type Value = SystemName;

    ghost form = { messages.system_kind };

    fn put(value: &SystemName, out: &mut Vec<u8>) -> Result<(), AllocError> {
        out.push(value.code())?;
        Ok(())
    }

    #[tactic(auto, unfolding(crate::specs::Forms::coded_at))]
    fn take(_alloc: Global, bytes: &[u8]) -> Result<(SystemName, &[u8]), Unread> {
        let Some((code, rest)) = split_code(bytes) else {
            return Err(Unread::NoSpelling);
        };
        let Some(name) = named_by(code) else {
            return Err(Unread::NoSpelling);
        };
        Ok((name, rest))
    }
}

pub(crate) struct SystemPiece;

impl Piece for SystemPiece {
    type Value = SystemText;

    ghost form = { messages.system };

    #[tactic(auto, unfolding(crate::specs::Messages::system))]
    fn put(value: &SystemText, out: &mut Vec<u8>) -> Result<(), AllocError> {
        put_fields!(out, &value.name => NamePiece, &value.text => Words)
    }

    #[tactic(auto, unfolding(crate::specs::Messages::system))]
    fn take(alloc: Global, bytes: &[u8]) -> Result<(SystemText, &[u8]), Unread> {
        take_fields!(
            alloc,
            bytes,
            SystemText {
                name: NamePiece,
                text: Words
            }
        )
    }
}

impl Item for SystemPiece {
    ghost follows = { messages.is_next_system };

    fn follows(last: Option<&SystemText>, next: &SystemText) -> bool {
        if next.text.as_bytes().is_empty() {
            return false;
        }
        match last {
            None => true,
            Some(last) => last.name.code() < next.name.code(),
        }
    }
}

pub(crate) struct Signed64;

impl Piece for Signed64 {
    type Value = i64;

    ghost form = { messages.signed64 };

    #[tactic(auto, unfolding(crate::specs::Messages::signed64))]
    fn put(value: &i64, out: &mut Vec<u8>) -> Result<(), AllocError> {
        Number64::put(&value.cast_unsigned(), out)
    }

    #[tactic(auto, unfolding(crate::specs::Messages::signed64))]
    fn take(alloc: Global, bytes: &[u8]) -> Result<(i64, &[u8]), Unread> {
        let (number, rest) = Number64::take(alloc, bytes)?;
        Ok((number.cast_signed(), rest))
    }
}

pub(crate) struct ValuePiece;

impl Piece for ValuePiece {
    type Value = PropertyValue;

    ghost form = { messages.value };

    #[tactic(auto, unfolding(crate::specs::Messages::value))]
    fn put(value: &PropertyValue, out: &mut Vec<u8>) -> Result<(), AllocError> {
        match value {
            PropertyValue::Int(number) => {
                out.push(0)?;
                Signed64::put(number, out)
            }
            PropertyValue::Text(text) => {
                out.push(1)?;
                Words::put(text, out)
            }
            PropertyValue::Bool(truth) => {
                out.push(2)?;
                Truth::put(truth, out)
            }
        }
    }

    #[tactic(auto, unfolding(crate::specs::Messages::value, crate::specs::Forms::chosen_at))]
    fn take(alloc: Global, bytes: &[u8]) -> Result<(PropertyValue, &[u8]), Unread> {
        let Some((kind, rest)) = split_code(bytes) else {
            return Err(Unread::NoSpelling);
        };
        match kind {
            0 => take_fields!(alloc, rest, PropertyValue::Int(Signed64)),
            1 => take_fields!(alloc, rest, PropertyValue::Text(Words)),
            2 => take_fields!(alloc, rest, PropertyValue::Bool(Truth)),
            _ => Err(Unread::NoSpelling),
        }
    }
}

pub(crate) struct PropertyPiece;

impl Piece for PropertyPiece {
    type Value = Property;

    ghost form = { messages.property };

    #[tactic(auto, unfolding(crate::specs::Messages::property))]
    fn put(value: &Property, out: &mut Vec<u8>) -> Result<(), AllocError> {
        put_fields!(out, &value.name => Words, &value.value => ValuePiece)
    }

    #[tactic(auto, unfolding(crate::specs::Messages::property))]
    fn take(alloc: Global, bytes: &[u8]) -> Result<(Property, &[u8]), Unread> {
        take_fields!(
            alloc,
            bytes,
            Property {
                name: Words,
                value: ValuePiece
            }
        )
    }
}

impl Item for PropertyPiece {
    ghost follows = { messages.is_next_property };

    fn follows(last: Option<&Property>, next: &Property) -> bool {
        match last {
            None => true,
            Some(last) => last.name.as_str().cmp(next.name.as_str()) == Ordering::Less,
        }
    }
}

/// What a correlation filter asks.
pub struct ConditionsPiece;

impl Piece for ConditionsPiece {
    type Value = Conditions;

    ghost form = { messages.conditions };

    #[tactic(auto, unfolding(crate::specs::Messages::conditions))]
    fn put(value: &Conditions, out: &mut Vec<u8>) -> Result<(), AllocError> {
        put_fields!(out, &value.sys => Listed<SystemPiece>, &value.props => Listed<PropertyPiece>)
    }

    #[tactic(auto, unfolding(crate::specs::Messages::conditions))]
    fn take(alloc: Global, bytes: &[u8]) -> Result<(Conditions, &[u8]), Unread> {
        take_fields!(alloc, bytes, Conditions { sys: Listed<SystemPiece>, props: Listed<PropertyPiece> })
    }
}

/// A message.
pub struct MessagePiece;

impl Piece for MessagePiece {
    type Value = Message;

    ghost form = { messages.message };

    #[tactic(auto, unfolding(crate::specs::Messages::message))]
    fn put(value: &Message, out: &mut Vec<u8>) -> Result<(), AllocError> {
        put_fields!(out,
            &value.body => Shared,
            &value.sys => Listed<SystemPiece>,
            &value.props => Listed<PropertyPiece>,
            &value.ttl => Opt<Number64>,
            &value.schedule => Opt<Number64>)
    }

    #[tactic(auto, unfolding(crate::specs::Messages::message))]
    fn take(alloc: Global, bytes: &[u8]) -> Result<(Message, &[u8]), Unread> {
        take_fields!(alloc, bytes, Message {
            body: Shared,
            sys: Listed<SystemPiece>,
            props: Listed<PropertyPiece>,
            ttl: Opt<Number64>,
            schedule: Opt<Number64>
        })
    }
}

impl Item for MessagePiece {
    ghost follows = { messages.any_next };

    fn follows(_last: Option<&Message>, _next: &Message) -> bool {
        true
    }
}
