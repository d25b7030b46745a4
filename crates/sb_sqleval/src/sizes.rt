// How large a message's properties are.
ghost use Rattle.std.specs.Prelude.{◌≡◌, ◌+◌, ◌<◌, IfSome, IfNone};
ghost use Rattle.std.specs.List.{sum_by};
ghost use Rattle.sb_model.specs.Effects as effects;

use sb_model::{Message, Property, PropertyValue, SystemText};

/// In bytes: names and texts of user properties, texts of system properties, and 8 for each number
/// or truth value.
const MAX_PROPERTY_BYTES: usize = 65_536;

const MAX_USER_PROPERTIES: usize = 256;

fn value_size(value: &PropertyValue) -> usize
    ensures { result ≡ effects.value_size value.now }
{
    match value {
        PropertyValue::Text(text) => text.as_bytes().len(),
        PropertyValue::Int(_) | PropertyValue::Bool(_) => 8,
    }
}

/// The room that user properties leave, if there is enough.
fn behind_props(room: usize, props: &[Property]) -> Option<usize>
    ensures some { IfSome result (λ left. left + sum_by effects.property_size props.now ≡ room) }
    ensures none { IfNone result (room < sum_by effects.property_size props.now) }
{
    let mut left = room;
    for property in props {
        left = left.checked_sub(property.name.as_bytes().len())?;
        left = left.checked_sub(value_size(&property.value))?;
    }
    Some(left)
}

/// The room that system texts leave, if there is enough.
fn behind_texts(room: usize, sys: &[SystemText]) -> Option<usize>
    ensures some { IfSome result (λ left. left + sum_by effects.text_size sys.now ≡ room) }
    ensures none { IfNone result (room < sum_by effects.text_size sys.now) }
{
    let mut left = room;
    for system in sys {
        left = left.checked_sub(system.text.as_bytes().len())?;
    }
    Some(left)
}

/// More than 65,536 bytes of properties, or more than 256 user properties.
pub(crate) fn is_too_large(message: &Message) -> bool
    ensures { result ≡ effects.is_too_large message.now }
{
    if message.props.len() > MAX_USER_PROPERTIES {
        return true;
    }
    let Some(room) = behind_props(MAX_PROPERTY_BYTES, message.props.as_slice()) else {
        return true;
    };
    behind_texts(room, message.sys.as_slice()).is_none()
}
