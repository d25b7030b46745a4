// What delivery changes in messages.
ghost use Rattle.std.specs.Prelude.{◌≡◌, min, IfOk, Some};
ghost use Rattle.sb_machine.specs.Reasons as reasons;
ghost use Rattle.sb_machine.specs.Visits as visits;

use sb_machine::{DeadReason, Listed};
use sb_model::{Message, PropertyValue, SystemName, Text};
use sb_sqleval::with_property;
use std::alloc::{AllocError, Global};

/// What a reason is called in the property `deadletterreason`.
pub fn reason_text(reason: DeadReason) -> &'static str
    ensures { result.now ≡ reasons.reason_text reason }
{
    match reason {
        DeadReason::Expired => "TTLExpiredException",
        DeadReason::TooOften => "MaxDeliveryCountExceeded",
        DeadReason::TooManyHops => "MaxTransferHopCountExceeded",
        DeadReason::NoSession => "Session ID is null.",
        DeadReason::RuleFailed => "FilterEvaluationFailed",
        DeadReason::NoDestination => "TransferDestinationMissing",
    }
}

/// What a reason says in the property `deadlettererrordescription`.
pub fn description_text(reason: DeadReason) -> &'static str
    ensures { result.now ≡ reasons.description_text reason }
{
    match reason {
        DeadReason::Expired => "The message expired before it was received.",
        DeadReason::TooOften => "The message was delivered too often.",
        DeadReason::TooManyHops => "The message was forwarded more than 4 times.",
        DeadReason::NoSession => "The entity takes only messages with a session id.",
        DeadReason::RuleFailed => "A rule could not be evaluated.",
        DeadReason::NoDestination => "The destination does not exist.",
    }
}

fn marked(alloc: Global, name: &str, text: &str, message: Message) -> Result<Message, AllocError>
    ensures { IfOk result (λ m. m ≡ reasons.marked name.now (Some text.now) message) }
{
    let text = Text::of(alloc, text)?;
    with_property(alloc, name, PropertyValue::Text(text), message)
}

fn with_words(
    alloc: Global,
    reason: &str,
    description: &str,
    message: Message,
) -> Result<Message, AllocError>
    ensures { IfOk result (λ m. m ≡ reasons.with_reason (Some reason.now) (Some description.now) message) }
{
    let message = marked(alloc, "deadletterreason", reason, message)?;
    marked(alloc, "deadlettererrordescription", description, message)
}

/// The message with the reason and its description as user properties.
pub fn for_reason(
    alloc: Global,
    reason: DeadReason,
    message: Message,
) -> Result<Message, AllocError>
    ensures { IfOk result (λ m. m ≡ reasons.for_reason reason message) }
{
    with_words(
        alloc,
        reason_text(reason),
        description_text(reason),
        message,
    )
}

fn marked_where(
    alloc: Global,
    name: &str,
    text: &Option<Text>,
    message: Message,
) -> Result<Message, AllocError>
    ensures { IfOk result (λ m. m ≡ reasons.marked name.now text.now message) }
{
    match text {
        Some(text) => marked(alloc, name, text.as_str(), message),
        None => Ok(message),
    }
}

/// The message with these texts as the user properties `deadletterreason` and
/// `deadlettererrordescription`, each where it is given.
pub fn with_reason(
    alloc: Global,
    reason: &Option<Text>,
    description: &Option<Text>,
    message: Message,
) -> Result<Message, AllocError>
    ensures { IfOk result (λ m. m ≡ reasons.with_reason reason.now description.now message) }
{
    let message = marked_where(alloc, "deadletterreason", reason, message)?;
    marked_where(alloc, "deadlettererrordescription", description, message)
}

fn shorter(seconds: Option<u64>, limit: Option<u64>) -> Option<u64>
    ensures { result ≡ visits.shorter seconds limit }
{
    match (seconds, limit) {
        (None, limit) => limit,
        (Some(seconds), None) => Some(seconds),
        (Some(seconds), Some(limit)) => Some(seconds.min(limit)),
    }
}

/// The message with its time to live cut to that of the entity.
pub fn cut_to(entity: &Listed, message: Message) -> Message
    ensures { result ≡ visits.cut_to entity.now message }
{
    let Message {
        body,
        sys,
        props,
        ttl,
        schedule,
    } = message;
    Message {
        body,
        sys,
        props,
        ttl: shorter(ttl, entity.description.ttl),
        schedule,
    }
}

pub fn has_session(message: &Message) -> bool
    ensures { result ≡ visits.has_session message.now }
{
    message
        .sys
        .as_slice()
        .iter()
        .any(|s| s.name.code() == SystemName::SessionId.code())
}
