// System texts and time to live, as lines and broker properties of HTTP spell them.
ghost use Rattle.std.specs.Prelude.{◌≡◌, IfOk, option_map, option_and_then};
ghost use Rattle.serde_json.specs.View.{view};
ghost use Rattle.sb_model.specs.SystemNames.{system_name};
ghost use Rattle.sb_lines.specs.Fields.{whole_in};
ghost use Rattle.sb_lines.specs.Faults.{Answers};
ghost use Rattle.sb_lines.specs.Messages as messages;

use crate::fault::{LineFault, bad};
use crate::table::{Field, object_of};
use sb_model::{Rows, SystemName, SystemText, Text};
use serde_json::Value;
use std::alloc::{AllocError, Global};

/// The longest time to live, in s.
const MAX_TTL: u64 = 922_337_203_685;

/// What a null stands for.
#[derive(Clone, Copy, PartialEq, Eq)]
pub enum Nulls {
    /// A value of another kind.
    Wrong,
    /// No member.
    Absent,
}

fn member_at<'a>(value: &'a Value, key: &str, nulls: Nulls) -> Option<&'a Value>
    ensures { option_map (λ v. view v.now) result ≡ messages.member_at nulls key.now (view value.now) }
{
    let member = value.get(key)?;
    if nulls == Nulls::Absent && member.is_null() {
        return None;
    }
    Some(member)
}

fn with_text(
    name: SystemName,
    text: Text,
    sys: Rows<SystemText>,
) -> Result<Rows<SystemText>, AllocError>
    ensures { IfOk result (λ r. r ≡ messages.with_text name text sys) }
{
    if text.as_bytes().is_empty() {
        return Ok(sys);
    }
    let mut sys = sys;
    sys.push(SystemText { name, text })?;
    Ok(sys)
}

fn put_text(
    alloc: Global,
    value: &Value,
    name: SystemName,
    nulls: Nulls,
    sys: Rows<SystemText>,
) -> Result<Rows<SystemText>, LineFault>
    ensures { Answers result (messages.text_with nulls name (view value.now) sys) }
{
    let Some(member) = member_at(value, name.name(), nulls) else {
        return Ok(sys);
    };
    let Some(text) = member.as_str() else {
        return bad(alloc, name.name());
    };
    let text = Text::of(alloc, text)?;
    Ok(with_text(name, text, sys)?)
}

/// The system texts that an object's members are, all but ContentType (Microsoft Learn, Service Bus,
/// "Message headers and properties"). An empty text counts as absent. A member that is no text is the
/// fault, by its name; the first of several is that of least code.
pub fn broker_texts(
    alloc: Global,
    value: &Value,
    nulls: Nulls,
) -> Result<Rows<SystemText>, LineFault>
    ensures { Answers result (messages.broker_texts nulls (view value.now)) }
{
    let sys = put_text(alloc, value, SystemName::MessageId, nulls, Rows::new(alloc))?;
    let sys = put_text(alloc, value, SystemName::Label, nulls, sys)?;
    let sys = put_text(alloc, value, SystemName::CorrelationId, nulls, sys)?;
    let sys = put_text(alloc, value, SystemName::SessionId, nulls, sys)?;
    let sys = put_text(alloc, value, SystemName::To, nulls, sys)?;
    let sys = put_text(alloc, value, SystemName::ReplyTo, nulls, sys)?;
    put_text(alloc, value, SystemName::ReplyToSessionId, nulls, sys)
}

struct EightTexts;

impl Field for EightTexts {
    type Value = Rows<SystemText>;

    ghost field = { λ _. messages.eight_texts };

    fn knows(&self, key: &str) -> bool {
        key == "MessageId"
            || key == "Label"
            || key == "CorrelationId"
            || key == "SessionId"
            || key == "To"
            || key == "ReplyTo"
            || key == "ReplyToSessionId"
            || key == "ContentType"
    }

    fn read(&self, alloc: Global, value: &Value) -> Result<Rows<SystemText>, LineFault> {
        let sys = broker_texts(alloc, value, Nulls::Wrong)?;
        put_text(alloc, value, SystemName::ContentType, Nulls::Wrong, sys)
    }
}

/// An object of system texts, or none.
pub(crate) struct SystemTexts(pub &'static str);

impl Field for SystemTexts {
    type Value = Rows<SystemText>;

    ghost field = { λ f. messages.system_texts f.0.now };

    fn knows(&self, key: &str) -> bool {
        key == self.0
    }

    fn read(&self, alloc: Global, value: &Value) -> Result<Rows<SystemText>, LineFault> {
        let Some(member) = value.get(self.0) else {
            return Ok(Rows::new(alloc));
        };
        if !member.is_object() {
            return bad(alloc, self.0);
        }
        object_of(alloc, member, &EightTexts)
    }
}

fn capped(n: u64) -> Option<u64>
    ensures { result ≡ messages.capped n }
{
    if n <= MAX_TTL { Some(n) } else { None }
}

fn if_positive(n: u64) -> Option<Option<u64>>
    ensures { result ≡ messages.if_positive n }
{
    if 1 <= n { Some(capped(n)) } else { None }
}

fn positive_in(value: &Value) -> Option<Option<u64>>
    ensures { result ≡ option_and_then messages.if_positive (whole_in (view value.now)) }
{
    let n = value.as_u64()?;
    if_positive(n)
}

/// The time to live at a key, in s: a whole number, 1 or more; above 922,337,203,685 it counts as none.
pub fn lifetime_at(
    alloc: Global,
    value: &Value,
    key: &str,
    nulls: Nulls,
) -> Result<Option<u64>, LineFault>
    ensures { Answers result (messages.lifetime_at nulls key.now (view value.now)) }
{
    let Some(member) = member_at(value, key, nulls) else {
        return Ok(None);
    };
    match positive_in(member) {
        Some(lifetime) => Ok(lifetime),
        None => bad(alloc, key),
    }
}

/// A time to live in s, or none.
pub(crate) struct Lifetime(pub &'static str);

impl Field for Lifetime {
    type Value = Option<u64>;

    ghost field = { λ f. messages.lifetime f.0.now };

    fn knows(&self, key: &str) -> bool {
        key == self.0
    }

    fn read(&self, alloc: Global, value: &Value) -> Result<Option<u64>, LineFault> {
        lifetime_at(alloc, value, self.0, Nulls::Wrong)
    }
}
