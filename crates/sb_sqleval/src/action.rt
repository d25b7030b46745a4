// Actions: statements that set and remove a message's properties.
ghost use Rattle.std.specs.Prelude.{◌≡◌, Ok, IfOk};
ghost use Rattle.sb_model.specs.Expressions.{term_of, change_of, changes_of};
ghost use Rattle.sb_model.specs.Meaning as meaning;
ghost use Rattle.sb_model.specs.Effects as effects;
ghost use Rattle.sb_sqleval.specs.Values.{value_in, Is, Gives};
ghost use Rattle.sb_sqleval.specs.Memory.{IsRemoval, RemoveAlone};

use crate::Value;
use crate::changes::{with_system, with_user, without_system, without_user};
use crate::evaluate::value_of;
use crate::likes::count_chars;
use crate::sizes::is_too_large;
use sb_model::{
    Action, EvalFault, Expression, Message, PropertyName, PropertyValue, Statement, SystemName,
    Text,
};
use std::alloc::{AllocError, Global};

/// The value as a message holds it; none where it is unknown.
fn owned(alloc: Global, value: Value) -> Result<Option<PropertyValue>, AllocError>
    ensures { IfOk result (λ x. x ≡ value_in value.entry) }
{
    match value {
        Value::Unknown => Ok(None),
        Value::Int(number) => Ok(Some(PropertyValue::Int(number))),
        Value::Bool(is) => Ok(Some(PropertyValue::Bool(is))),
        Value::Text(text) => {
            let text = text.into_owned(alloc)?;
            Ok(Some(PropertyValue::Text(Text::from_string(text))))
        }
    }
}

/// What the expression comes to on the message, in memory of its own.
fn value_found(
    alloc: Global,
    message: &Message,
    expression: &Expression,
) -> Result<Option<PropertyValue>, EvalFault>
    ensures { Gives (λ x. x) result (meaning.value_of message.now (term_of expression.now)) }
{
    let value = value_of(alloc, message, expression)?;
    Ok(owned(alloc, value)?)
}

/// How many characters the text may have, if it has a limit of its own.
fn text_limit(name: SystemName) -> Option<usize>
    ensures { result ≡ effects.text_limit name }
{
    match name {
        SystemName::MessageId | SystemName::SessionId | SystemName::ReplyToSessionId => Some(128),
        SystemName::Label
        | SystemName::CorrelationId
        | SystemName::To
        | SystemName::ReplyTo
        | SystemName::ContentType => None,
    }
}

fn is_within(limit: Option<usize>, count: usize) -> bool
    ensures { result ≡ effects.is_within limit count }
{
    match limit {
        Some(limit) => count <= limit,
        None => true,
    }
}

/// The text that a value sets, empty where it is unknown. BadSystemValue where it is a number, a
/// truth value or a text above its limit.
fn text_set(
    alloc: Global,
    name: SystemName,
    value: Option<PropertyValue>,
) -> Result<Text, EvalFault>
    ensures { Is (λ text. text) result (effects.text_set name value) }
{
    match value {
        None => Ok(Text::from_string(String::new(alloc))),
        Some(PropertyValue::Text(text)) => {
            if is_within(text_limit(name), count_chars(text.as_str())) {
                Ok(text)
            } else {
                Err(EvalFault::BadSystemValue)
            }
        }
        Some(PropertyValue::Int(_) | PropertyValue::Bool(_)) => Err(EvalFault::BadSystemValue),
    }
}

fn set_user(
    alloc: Global,
    message: Message,
    name: &str,
    expression: &Expression,
) -> Result<Message, EvalFault>
    ensures { Gives (λ m. m) result (meaning.and_then (meaning.value_of message (term_of expression.now)) (λ x. Ok (record message { props = effects.with_user name.now x message.props }))) }
{
    let value = value_found(alloc, &message, expression)?;
    let Message {
        body,
        sys,
        props,
        ttl,
        schedule,
    } = message;
    let props = with_user(alloc, name, value, props)?;
    Ok(Message {
        body,
        sys,
        props,
        ttl,
        schedule,
    })
}

fn set_system(
    alloc: Global,
    message: Message,
    name: SystemName,
    expression: &Expression,
) -> Result<Message, EvalFault>
    ensures { Gives (λ m. m) result (effects.system_set message name (term_of expression.now)) }
{
    let value = value_found(alloc, &message, expression)?;
    let text = text_set(alloc, name, value)?;
    let Message {
        body,
        sys,
        props,
        ttl,
        schedule,
    } = message;
    let sys = with_system(name, text, sys)?;
    Ok(Message {
        body,
        sys,
        props,
        ttl,
        schedule,
    })
}

fn remove_user(message: Message, name: &str) -> Message
    ensures { result ≡ record message { props = effects.without_user name.now message.props } }
{
    let Message {
        body,
        sys,
        props,
        ttl,
        schedule,
    } = message;
    Message {
        body,
        sys,
        props: without_user(props, name),
        ttl,
        schedule,
    }
}

fn remove_system(message: Message, name: SystemName) -> Message
    ensures { result ≡ record message { sys = effects.without_system name message.sys } }
{
    let Message {
        body,
        sys,
        props,
        ttl,
        schedule,
    } = message;
    Message {
        body,
        sys: without_system(sys, name),
        props,
        ttl,
        schedule,
    }
}

/// The message behind one statement.
fn changed(alloc: Global, message: Message, statement: &Statement) -> Result<Message, EvalFault>
    ensures gives { Gives (λ m. m) result (effects.after_change message (change_of statement.now)) }
    ensures without_memory { IsRemoval (change_of statement.now) → Is (λ m. m) result (effects.after_change message (change_of statement.now)) }
{
    match statement {
        Statement::Set(PropertyName::User(name), expression) => {
            set_user(alloc, message, name.as_str(), expression)
        }
        Statement::Set(PropertyName::System(text), expression) => {
            let Some(name) = SystemName::named(text.as_str()) else {
                return Err(EvalFault::NoSystemProperty);
            };
            set_system(alloc, message, name, expression)
        }
        Statement::Remove(PropertyName::User(name)) => Ok(remove_user(message, name.as_str())),
        Statement::Remove(PropertyName::System(text)) => {
            let Some(name) = SystemName::named(text.as_str()) else {
                return Err(EvalFault::NoSystemProperty);
            };
            Ok(remove_system(message, name))
        }
    }
}

/// The message as an action leaves it: statement by statement, each on what the one before left,
/// up to the first fault. `NoSystemProperty` comes where a statement names a system property that
/// can't be set (before its value is found), `BadSystemValue` where the value is no text within
/// the property's limit, and the faults of a filter where the value has none. Behind the last
/// statement `TooLarge` comes where the message has more than 65,536 bytes of properties or more
/// than 256 user properties, whether or not anything changed. `OutOfMemory` may come at any `SET`,
/// and always comes where `+` would join a text of more than 1,048,576 bytes.
pub fn run_action(alloc: Global, action: &Action, message: Message) -> Result<Message, EvalFault>
    ensures gives { Gives (λ m. m) result (effects.after_action message (changes_of action.now)) }
    ensures without_memory { RemoveAlone (changes_of action.now) → Is (λ m. m) result (effects.after_action message (changes_of action.now)) }
{
    let mut left = message;
    'statements: for statement in action.as_slice() {
        left = changed(alloc, left, statement)?;
    }
    if is_too_large(&left) {
        return Err(EvalFault::TooLarge);
    }
    Ok(left)
}
