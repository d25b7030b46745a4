// Sizes in bytes.
ghost use Rattle.std.specs.Prelude.{◌≡◌, ◌+◌, length, IfOk};
ghost use Rattle.std.specs.List.{sum_by};
ghost use Rattle.sb_machine.specs.Administration as administration;
ghost use Rattle.sb_machine.specs.Messages as messages;
ghost use Rattle.sb_model.specs.Effects as effects;

use crate::limits::{MAX_BODY, MAX_PROPERTY_BYTES};
use sb_machine::FilterText;
use sb_model::{Message, Property, PropertyValue, SystemText};
use std::alloc::AllocError;

// Memory is wanting for a sum that passes 2^64 - 1, which nothing in memory comes to.
pub(crate) fn sum(a: u64, b: u64) -> Result<u64, AllocError>
    ensures { IfOk result (λ s. s ≡ a + b) }
{
    match a.checked_add(b) {
        Some(sum) => Ok(sum),
        None => Err(AllocError),
    }
}

/// How large the value of a property counts, in bytes: a text as it is long, another as 8.
pub fn value_size(value: &PropertyValue) -> u64
    ensures { result ≡ effects.value_size value.now }
{
    match value {
        PropertyValue::Text(text) => text.as_bytes().len() as u64,
        PropertyValue::Int(_) | PropertyValue::Bool(_) => 8,
    }
}

/// How large a property is with its name, in bytes.
pub fn property_size(property: &Property) -> Result<u64, AllocError>
    ensures { IfOk result (λ size. size ≡ effects.property_size property.now) }
{
    sum(
        property.name.as_bytes().len() as u64,
        value_size(&property.value),
    )
}

/// How large user properties are together, in bytes.
pub fn properties_size(props: &[Property]) -> Result<u64, AllocError>
    ensures { IfOk result (λ size. size ≡ sum_by effects.property_size props.now) }
{
    let mut size = 0_u64;
    'props: for property in props {
        size = sum(size, property_size(property)?)?;
    }
    Ok(size)
}

/// How large system texts are together, in bytes.
pub fn texts_size(sys: &[SystemText]) -> Result<u64, AllocError>
    ensures { IfOk result (λ size. size ≡ sum_by effects.text_size sys.now) }
{
    let mut size = 0_u64;
    'sys: for own in sys {
        size = sum(size, own.text.as_bytes().len() as u64)?;
    }
    Ok(size)
}

/// How large the conditions of a filter are, in bytes.
pub fn conditions_size(asked: &FilterText) -> Result<u64, AllocError>
    ensures { IfOk result (λ size. size ≡ administration.conditions_size asked.now) }
{
    match asked {
        FilterText::Sql(_) => Ok(0),
        FilterText::Correlation(conditions) => sum(
            properties_size(conditions.props.as_slice())?,
            texts_size(conditions.sys.as_slice())?,
        ),
    }
}

// ---- messages

fn body_size(message: &Message) -> u64
    ensures { result ≡ length message.now.body }
{
    message.body.len() as u64
}

/// How large the properties of a message are together, in bytes.
pub fn property_bytes(message: &Message) -> Result<u64, AllocError>
    ensures { IfOk result (λ size. size ≡ effects.property_bytes message.now) }
{
    sum(
        properties_size(message.props.as_slice())?,
        texts_size(message.sys.as_slice())?,
    )
}

fn message_size(message: &Message) -> Result<u64, AllocError>
    ensures { IfOk result (λ size. size ≡ length message.now.body + effects.property_bytes message.now) }
{
    sum(body_size(message), property_bytes(message)?)
}

pub(crate) fn all_sizes(sent: &[Message]) -> Result<u64, AllocError>
    ensures { IfOk result (λ size. size ≡ messages.all_bytes sent.now) }
{
    let mut size = 0_u64;
    'sent: for message in sent {
        size = sum(size, message_size(message)?)?;
    }
    Ok(size)
}

pub(crate) fn above(most: u64, size: u64) -> Option<u64>
    ensures { result ≡ messages.above most size }
{
    if size <= most { None } else { Some(size) }
}

fn large_in(message: &Message) -> Result<Option<u64>, AllocError>
    ensures { IfOk result (λ size. size ≡ messages.large_in message.now) }
{
    match above(MAX_BODY, body_size(message)) {
        Some(size) => Ok(Some(size)),
        None => Ok(above(MAX_PROPERTY_BYTES, property_bytes(message)?)),
    }
}

fn large_one(sent: &[Message]) -> Result<Option<u64>, AllocError>
    ensures { IfOk result (λ size. size ≡ messages.large_one sent.now) }
{
    for message in sent {
        if let Some(size) = large_in(message)? {
            return Ok(Some(size));
        }
    }
    Ok(None)
}

fn large_together(sent: &[Message]) -> Result<Option<u64>, AllocError>
    ensures { IfOk result (λ size. size ≡ messages.large_together sent.now) }
{
    if sent.len() > 1 {
        Ok(above(MAX_BODY, all_sizes(sent)?))
    } else {
        Ok(None)
    }
}

/// The first size of the messages of a send that is too large, in bytes: of a body, of a message's
/// properties, and of all together where they are two or more (Microsoft Learn, "Service Bus
/// quotas": 256 kB for a message and for a batch, 64 kB for its properties).
pub fn large_size(sent: &[Message]) -> Result<Option<u64>, AllocError>
    ensures { IfOk result (λ size. size ≡ messages.large_size sent.now) }
{
    match large_one(sent)? {
        Some(size) => Ok(Some(size)),
        None => large_together(sent),
    }
}
