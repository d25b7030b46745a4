// Messages, and what a correlation filter asks for.
ghost use Rattle.std.specs.Prelude.{◌≡◌, IfOk};
ghost use Rattle.serde_json.specs.View.{view, items_view};
ghost use Rattle.std.specs.Result.{result_ok};
ghost use Rattle.sb_amqp.specs.Found.{message_in};
ghost use Rattle.sb_lines.specs.Faults.{Answers, or_key};
ghost use Rattle.sb_lines.specs.Messages as messages;
ghost use Rattle.sb_lines.specs.Tables.{object_of};

use crate::fault::{LineFault, bad};
use crate::fields::hex_at;
use crate::keys::{Digits, PlainBytes, Whole};
use crate::properties::UserProperties;
use crate::table::{AtMostOne, Both, Either, Field, Optional, object_of};
use crate::texts::{Lifetime, SystemTexts};
use sb_amqp::{AmqpFault, read_message};
use sb_machine::Conditions;
use sb_model::{Body, Message, Rows};
use serde_json::Value;
use std::alloc::{AllocError, Global};

fn bytes_or_none(said: Option<Either<Rows<u8>, Rows<u8>>>) -> Option<Rows<u8>>
    ensures { result ≡ messages.bytes_or_none said }
{
    match said {
        Some(Either::First(bytes)) => Some(bytes),
        Some(Either::Second(bytes)) => Some(bytes),
        None => None,
    }
}

/// Bytes, as text under the first key or as digits under the second.
pub(crate) struct Bytes(pub &'static str, pub &'static str);

impl Field for Bytes {
    type Value = Option<Rows<u8>>;

    ghost field = { λ f. messages.bytes f.0.now f.1.now };

    #[tactic(auto, unfolding(crate::specs::Messages::bytes))]
    fn knows(&self, key: &str) -> bool {
        key == self.0 || key == self.1
    }

    #[tactic(auto, unfolding(crate::specs::Messages::bytes))]
    fn read(&self, alloc: Global, value: &Value) -> Result<Option<Rows<u8>>, LineFault> {
        let said = AtMostOne(self.0, PlainBytes(self.0), self.1, Digits(self.1)).read(
            alloc, value,
        )?;
        Ok(bytes_or_none(said))
    }
}

fn body_or_empty(bytes: Option<Rows<u8>>) -> Result<Body, AllocError>
    ensures { IfOk result (λ b. b ≡ messages.or_empty bytes) }
{
    match bytes {
        Some(bytes) => Body::from_vec(bytes.into_vec()),
        None => Ok(Body::new()),
    }
}

struct MessageFields;

impl Field for MessageFields {
    type Value = Message;

    ghost field = { λ _. messages.message_fields };

    #[tactic(auto, unfolding(crate::specs::Messages::message_fields, crate::specs::Messages::bytes))]
    fn knows(&self, key: &str) -> bool {
        key == "body"
            || key == "body_hex"
            || key == "sys"
            || key == "props"
            || key == "ttl"
            || key == "schedule"
    }

    #[tactic(auto, unfolding(crate::specs::Messages::message_fields))]
    fn read(&self, alloc: Global, value: &Value) -> Result<Message, LineFault> {
        let body = Bytes("body", "body_hex").read(alloc, value)?;
        let sys = SystemTexts("sys").read(alloc, value)?;
        let props = UserProperties("props").read(alloc, value)?;
        let ttl = Lifetime("ttl").read(alloc, value)?;
        let schedule = Optional("schedule", Whole("schedule")).read(alloc, value)?;
        Ok(Message {
            body: body_or_empty(body)?,
            sys,
            props,
            ttl,
            schedule,
        })
    }
}

// The message that bytes of AMQP spell, or the fault of its key.
fn amqp_message(alloc: Global, bytes: &[u8]) -> Result<Message, LineFault>
    ensures { Answers result (or_key messages.amqp_key (message_in bytes.now)) }
{
    match read_message(alloc, bytes) {
        Ok(message) => Ok(message),
        Err(AmqpFault::BadMessage { .. }) | Err(AmqpFault::Unsupported { .. }) => {
            bad(alloc, "amqp_hex")
        }
        Err(AmqpFault::OutOfMemory) => Err(LineFault::OutOfMemory),
    }
}

/// A message in the bytes of AMQP, as digits.
struct AmqpDigits;

impl Field for AmqpDigits {
    type Value = Message;

    ghost field = { λ _. messages.amqp_field };

    #[tactic(auto, unfolding(crate::specs::Messages::amqp_field))]
    fn knows(&self, key: &str) -> bool {
        key == "amqp_hex"
    }

    #[tactic(auto, unfolding(crate::specs::Messages::amqp_field))]
    fn read(&self, alloc: Global, value: &Value) -> Result<Message, LineFault> {
        let bytes = hex_at(alloc, value, "amqp_hex")?;
        amqp_message(alloc, bytes.as_slice())
    }
}

// The same, which has no other keys beside it. Its own key is at fault, whatever is wrong.
fn amqp_alone(alloc: Global, value: &Value) -> Result<Message, LineFault>
    ensures { Answers result (or_key messages.amqp_key (result_ok (object_of messages.amqp_field (view value.now)))) }
{
    match object_of(alloc, value, &AmqpDigits) {
        Ok(message) => Ok(message),
        Err(LineFault::BadKey(_)) => bad(alloc, "amqp_hex"),
        Err(LineFault::OutOfMemory) => Err(LineFault::OutOfMemory),
    }
}

/// A message in its fields, or in the bytes of AMQP.
struct SentFields;

impl Field for SentFields {
    type Value = Message;

    ghost field = { λ _. messages.sent_fields };

    #[tactic(auto, unfolding(crate::specs::Messages::sent_fields))]
    fn knows(&self, key: &str) -> bool {
        key == "amqp_hex" || MessageFields.knows(key)
    }

    #[tactic(auto, unfolding(crate::specs::Messages::sent_fields))]
    fn read(&self, alloc: Global, value: &Value) -> Result<Message, LineFault> {
        if value.get("amqp_hex").is_none() {
            return MessageFields.read(alloc, value);
        }
        amqp_alone(alloc, value)
    }
}

fn message_of(alloc: Global, value: &Value) -> Result<Message, LineFault>
    ensures { Answers result (messages.message_of (view value.now)) }
{
    if !value.is_object() {
        return bad(alloc, "messages");
    }
    object_of(alloc, value, &SentFields)
}

fn messages_of(alloc: Global, values: &[Value]) -> Result<Rows<Message>, LineFault>
    ensures { Answers result (messages.messages_of (items_view values.now)) }
{
    let mut list = Vec::new(alloc);
    for value in values {
        let message = message_of(alloc, value)?;
        list.push(message)?;
    }
    Ok(Rows::from_vec(list))
}

/// A list of messages.
pub(crate) struct Messages(pub &'static str);

impl Field for Messages {
    type Value = Rows<Message>;

    ghost field = { λ f. messages.messages f.0.now };

    #[tactic(auto, unfolding(crate::specs::Messages::messages))]
    fn knows(&self, key: &str) -> bool {
        key == self.0
    }

    #[tactic(auto, unfolding(crate::specs::Messages::messages))]
    fn read(&self, alloc: Global, value: &Value) -> Result<Rows<Message>, LineFault> {
        let Some(values) = value.get(self.0).and_then(Value::as_array) else {
            return bad(alloc, self.0);
        };
        messages_of(alloc, values.as_slice())
    }
}

struct ConditionFields;

impl Field for ConditionFields {
    type Value = Conditions;

    ghost field = { λ _. messages.condition_fields };

    #[tactic(auto, unfolding(crate::specs::Messages::condition_fields))]
    fn knows(&self, key: &str) -> bool {
        key == "sys" || key == "props"
    }

    #[tactic(auto, unfolding(crate::specs::Messages::condition_fields))]
    fn read(&self, alloc: Global, value: &Value) -> Result<Conditions, LineFault> {
        let sys = SystemTexts("sys").read(alloc, value)?;
        let props = UserProperties("props").read(alloc, value)?;
        Ok(Conditions { sys, props })
    }
}

/// The conditions of a correlation filter.
pub(crate) struct Correlation(pub &'static str);

impl Field for Correlation {
    type Value = Conditions;

    ghost field = { λ f. messages.conditions f.0.now };

    #[tactic(auto, unfolding(crate::specs::Messages::conditions))]
    fn knows(&self, key: &str) -> bool {
        key == self.0
    }

    #[tactic(auto, unfolding(crate::specs::Messages::conditions))]
    fn read(&self, alloc: Global, value: &Value) -> Result<Conditions, LineFault> {
        let Some(member) = value.get(self.0) else {
            return bad(alloc, self.0);
        };
        if !member.is_object() {
            return bad(alloc, self.0);
        }
        object_of(alloc, member, &ConditionFields)
    }
}
