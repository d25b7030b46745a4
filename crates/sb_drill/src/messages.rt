// The messages that a drill sends.
ghost use Rattle.std.specs.Prelude.{◌≡◌, ◌∷◌, [], IfOk, None, string_bytes};
ghost use Rattle.std.specs.Fmt.{decimal};
ghost use Rattle.sb_drill.specs.Calls as calls;

use sb_model::{Body, Message, Property, PropertyValue, Rows, SystemName, SystemText, Text};
use std::alloc::{AllocError, Global};

/// The message to `d0` of a call: it has an id, a property, and a time to live.
pub(crate) fn plain_message(alloc: Global, call: u64, value: u32) -> Result<Message, AllocError>
    ensures { IfOk result (λ m. m ≡ calls.plain_message call value) }
{
    let sys = one_text(alloc, SystemName::MessageId, value)?;
    let props = one_number(alloc, value)?;
    let ttl = u64::from(value) + 1;
    numbered(alloc, call, sys, props, Some(ttl))
}

/// The message to `dt` of a call: it has a property alone.
pub(crate) fn topic_message(alloc: Global, call: u64, value: u32) -> Result<Message, AllocError>
    ensures { IfOk result (λ m. m ≡ calls.topic_message call value) }
{
    let props = one_number(alloc, value)?;
    numbered(alloc, call, Rows::new(alloc), props, None)
}

/// The message to `d1` of a call: it is of one of four sessions.
pub(crate) fn session_message(alloc: Global, call: u64, value: u32) -> Result<Message, AllocError>
    ensures { IfOk result (λ m. m ≡ calls.session_message call value) }
{
    let sys = one_text(alloc, SystemName::SessionId, value % 4)?;
    numbered(alloc, call, sys, Rows::new(alloc), None)
}

// A message whose body is the number of its call.
fn numbered(
    alloc: Global,
    call: u64,
    sys: Rows<SystemText>,
    props: Rows<Property>,
    ttl: Option<u64>,
) -> Result<Message, AllocError>
    ensures { IfOk result (λ m. m ≡ record { body = decimal call; sys = sys; props = props; ttl = ttl; schedule = None }) }
{
    let digits = digits_of(alloc, call)?;
    let body = Body::of(alloc, digits.as_bytes())?;
    Ok(Message {
        body,
        sys,
        props,
        ttl,
        schedule: None,
    })
}

// One system text, which is a number.
fn one_text(alloc: Global, name: SystemName, value: u32) -> Result<Rows<SystemText>, AllocError>
    ensures { IfOk result (λ r. r ≡ calls.number_text name value ∷ []) }
{
    let text = Text::from_string(digits_of(alloc, u64::from(value))?);
    let mut rows = Rows::new(alloc);
    rows.push(SystemText { name, text })?;
    Ok(rows)
}

// The one property `n`, which is a number.
fn one_number(alloc: Global, value: u32) -> Result<Rows<Property>, AllocError>
    ensures { IfOk result (λ r. r ≡ calls.number_property value ∷ []) }
{
    let name = Text::of(alloc, "n")?;
    let mut rows = Rows::new(alloc);
    rows.push(Property {
        name,
        value: PropertyValue::Int(i64::from(value)),
    })?;
    Ok(rows)
}

fn digits_of(alloc: Global, n: u64) -> Result<String, AllocError>
    ensures { IfOk result (λ s. string_bytes s ≡ decimal n) }
{
    format!(in alloc; "{n}")
}
