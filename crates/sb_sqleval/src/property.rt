// A message with a user property set from outside any action.
ghost use Rattle.std.specs.Prelude.{◌≡◌, IfOk, Some};
ghost use Rattle.sb_model.specs.Effects as effects;

use crate::changes::with_user;
use sb_model::{Message, PropertyValue};
use std::alloc::{AllocError, Global};

/// The message with this user property set, in its place by name.
pub fn with_property(
    alloc: Global,
    name: &str,
    value: PropertyValue,
    message: Message,
) -> Result<Message, AllocError>
    ensures { IfOk result (λ m. m ≡ record message { props = effects.with_user name.now (Some value) message.props }) }
{
    let Message {
        body,
        sys,
        props,
        ttl,
        schedule,
    } = message;
    let props = with_user(alloc, name, Some(value), props)?;
    Ok(Message {
        body,
        sys,
        props,
        ttl,
        schedule,
    })
}
