// Values of a message's properties.
ghost use Rattle.std.specs.Prelude.{◌≡◌};
ghost use Rattle.sb_model.specs.Meaning as meaning;
ghost use Rattle.sb_sqleval.specs.Values.{value_in, Is};

use crate::{Evaluated, Value};
use sb_model::{EvalFault, Message, PropertyName, SystemName, is_same_word};
use std::borrow::CowStr;

/// A longer time to live, in seconds, has no value: 2^63 steps of 100 ns, the service's unit.
const MAX_SECONDS: u64 = 922_337_203_685;

/// The user property of this folded name.
pub(crate) fn user_value<'a>(message: &'a Message, name: &str) -> Value<'a>
    ensures { value_in result ≡ meaning.user_value message.now name.now }
{
    match message
        .props
        .as_slice()
        .iter()
        .find(|p| p.name.as_str() == name)
    {
        Some(property) => Value::of(&property.value),
        None => Value::Unknown,
    }
}

fn system_text<'a>(message: &'a Message, name: SystemName) -> Value<'a>
    ensures { value_in result ≡ meaning.system_text message.now name }
{
    match message
        .sys
        .as_slice()
        .iter()
        .find(|s| s.name.code() == name.code())
    {
        Some(system) => Value::Text(CowStr::Borrowed(system.text.as_str())),
        None => Value::Unknown,
    }
}

fn time_to_live<'a>(seconds: Option<u64>) -> Value<'a>
    ensures { value_in result ≡ meaning.time_to_live seconds }
{
    match seconds {
        Some(seconds) if seconds <= MAX_SECONDS => Value::Int(seconds as i64),
        _ => Value::Unknown,
    }
}

/// The value of a property that the service itself knows, by its name in any ASCII case;
/// NoSystemProperty where it knows none of this name.
fn system_value<'a>(message: &'a Message, name: &str) -> Evaluated<'a>
    ensures { Is value_in result (meaning.system_value message.now name.now) }
{
    if is_same_word(name, "TimeToLive") {
        return Ok(time_to_live(message.ttl));
    }
    match SystemName::named(name) {
        Some(name) => Ok(system_text(message, name)),
        None => Err(EvalFault::NoSystemProperty),
    }
}

pub(crate) fn property_value<'a>(message: &'a Message, name: &PropertyName) -> Evaluated<'a>
    ensures { Is value_in result (meaning.property_value message.now name.now) }
{
    match name {
        PropertyName::User(name) => Ok(user_value(message, name.as_str())),
        PropertyName::System(name) => system_value(message, name.as_str()),
    }
}
