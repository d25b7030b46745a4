// User properties.
ghost use Rattle.std.specs.Prelude.{◌≡◌, IfOk, Some, []};
ghost use Rattle.std.specs.Str.{str_to_ascii_lowercase};
ghost use Rattle.serde_json.specs.View.{view, members_view};
ghost use Rattle.sb_model.specs.Effects.{with_user};
ghost use Rattle.sb_lines.specs.Faults.{Answers, or_key};
ghost use Rattle.sb_lines.specs.Gathering.{Leaves};
ghost use Rattle.sb_lines.specs.Messages as messages;

use crate::fault::{LineFault, bad};
use crate::table::Field;
use sb_amqp::Gathered;
use sb_model::{Body, Message, Property, PropertyValue, Rows, Text};
use sb_sqleval::with_property;
use serde_json::{Map, Value};
use std::alloc::{AllocError, Global};

/// The longest name, in bytes.
const MAX_NAME: usize = 128;

/// What a member holds as a property: a text, a whole number of 64 bits, or a truth value; else its
/// key is at fault.
pub fn property_value(alloc: Global, value: &Value, key: &str) -> Result<PropertyValue, LineFault>
    ensures { Answers result (or_key key.now (messages.value_in (view value.now))) }
{
    match value {
        Value::String(text) => Ok(PropertyValue::Text(Text::of(alloc, text.as_str())?)),
        Value::Bool(truth) => Ok(PropertyValue::Bool(*truth)),
        Value::Number(number) => match number.as_i64() {
            Some(n) => Ok(PropertyValue::Int(n)),
            None => bad(alloc, key),
        },
        Value::Null | Value::Array(_) | Value::Object(_) => bad(alloc, key),
    }
}

/// These properties with one set, in its place by name; the name is folded to ASCII lower case.
pub fn put_property(
    alloc: Global,
    name: &str,
    value: PropertyValue,
    props: Rows<Property>,
) -> Result<Rows<Property>, AllocError>
    ensures { IfOk result (λ r. r ≡ with_user (str_to_ascii_lowercase name.now) (Some value) props) }
{
    let folded = name.to_ascii_lowercase(alloc)?;
    let message = Message {
        body: Body::new(),
        sys: Rows::new(alloc),
        props,
        ttl: None,
        schedule: None,
    };
    let message = with_property(alloc, folded.as_str(), value, message)?;
    let Message { props, .. } = message;
    Ok(props)
}

fn property_of(alloc: Global, name: &str, value: &Value) -> Result<PropertyValue, LineFault>
    ensures { Answers result (messages.property_from name.now (view value.now)) }
{
    if name.len() < 1 || name.len() > MAX_NAME {
        return bad(alloc, name);
    }
    property_value(alloc, value, name)
}

fn gather(
    alloc: Global,
    members: &Map<String, Value>,
    props: &mut Gathered,
) -> Result<(), LineFault>
    ensures { Leaves result props.new (messages.with_members (members_view members.now.entries) props.old) }
{
    for (name, member) in members.iter() {
        let value = property_of(alloc, name.as_str(), member)?;
        props.put(alloc, name.as_str(), value)?;
    }
    Ok(())
}

fn properties_of(alloc: Global, members: &Map<String, Value>) -> Result<Rows<Property>, LineFault>
    ensures { Answers result (messages.with_members (members_view members.now.entries) []) }
{
    let mut props = Gathered::new(alloc);
    if let Err(fault) = gather(alloc, members, &mut props) {
        drop(props);
        return Err(fault);
    }
    Ok(props.into_rows(alloc)?)
}

/// An object of user properties, or none.
pub(crate) struct UserProperties(pub &'static str);

impl Field for UserProperties {
    type Value = Rows<Property>;

    ghost field = { λ f. messages.user_properties f.0.now };

    fn knows(&self, key: &str) -> bool {
        key == self.0
    }

    fn read(&self, alloc: Global, value: &Value) -> Result<Rows<Property>, LineFault> {
        let Some(member) = value.get(self.0) else {
            return Ok(Rows::new(alloc));
        };
        let Some(members) = member.as_object() else {
            return bad(alloc, self.0);
        };
        properties_of(alloc, members)
    }
}
