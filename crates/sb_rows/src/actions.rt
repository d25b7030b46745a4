// What an action makes of a message.
use crate::outcome::Rows;
use anyhow::{Result, bail};
use sb_model::{Body, EvalFault, Message, Property, PropertyValue, Rows as List, Text};
use sb_sqleval::run_action;
use sb_sqltext::parse_action;
use std::alloc::{AllocError, Global};
use std::mem;

/// Rows of an action and of what it makes of a message: its system texts and then its user properties,
/// or the name of the fault, or `carried out` whatever that gives. Before them stands `message ACTION`,
/// which makes the message out of an empty one, or `properties COUNT`, one of so many user properties.
#[derive(Drop)]
pub struct Actions {
    message: Message,
}

impl Actions {
    pub fn new(alloc: Global) -> Actions {
        Actions {
            message: empty_message(alloc),
        }
    }
}

fn empty_message(alloc: Global) -> Message {
    Message {
        body: Body::new(),
        sys: List::new(alloc),
        props: List::new(alloc),
        ttl: None,
        schedule: None,
    }
}

// The message as the action of a text leaves it, or its fault; none where the text is no action.
fn acted(alloc: Global, message: Message, text: &str) -> Option<Result<Message, EvalFault>> {
    match parse_action(alloc, text) {
        Ok(action) => {
            let acted = run_action(alloc, &action, message);
            drop(action);
            Some(acted)
        }
        Err(_) => {
            drop(message);
            None
        }
    }
}

/// The message that an action makes of an empty one; that one itself where there is no text.
pub fn message_by(alloc: Global, action: &str) -> Result<Message> {
    let message = empty_message(alloc);
    if action.is_empty() {
        return Ok(message);
    }
    match acted(alloc, message, action) {
        Some(Ok(message)) => Ok(message),
        Some(Err(_)) => bail!("a fault of: {action}"),
        None => bail!("no action: {action}"),
    }
}

fn value_shown(alloc: Global, value: &PropertyValue) -> Result<String, AllocError> {
    match value {
        PropertyValue::Int(number) => format!(in alloc; "{number}"),
        PropertyValue::Text(text) => format!(in alloc; "'{}'", text.as_str()),
        PropertyValue::Bool(is) => format!(in alloc; "{is}"),
    }
}

// System texts and then user properties, each with its value, with a blank between two.
fn shown(alloc: Global, message: &Message) -> Result<String, AllocError> {
    let mut parts = Vec::new(alloc);
    for system in message.sys.as_slice() {
        let name = system.name.name();
        parts.push(format!(in alloc; "sys.{name}={}", system.text.as_str())?)?;
    }
    for property in message.props.as_slice() {
        let name = property.name.as_str();
        let value = value_shown(alloc, &property.value)?;
        parts.push(format!(in alloc; "{name}={value}")?)?;
    }
    parts.as_slice().join(alloc, " ")
}

// So many user properties, each of them true.
fn many(alloc: Global, count: u64) -> Result<List<Property>, AllocError> {
    let mut props = List::new(alloc);
    for number in 0..count {
        let name = format!(in alloc; "p{number:03}")?;
        props.push(Property {
            name: Text::from_string(name),
            value: PropertyValue::Bool(true),
        })?;
    }
    Ok(props)
}

fn message_of_many(alloc: Global, count: &str) -> Result<Message> {
    let props = many(alloc, count.parse::<u64>()?)?;
    Ok(Message {
        body: Body::new(),
        sys: List::new(alloc),
        props,
        ttl: None,
        schedule: None,
    })
}

// What came of an action, unless that is wanted.
fn told(
    alloc: Global,
    acted: Result<Message, EvalFault>,
    wanted: &str,
) -> Result<Option<String>, AllocError> {
    let came = match acted {
        Ok(message) => {
            let came = shown(alloc, &message);
            drop(message);
            came
        }
        Err(fault) => format!(in alloc; "{fault:?}"),
    };
    Ok(Some(came?).filter(|came| came.as_str() != wanted && wanted != "carried out"))
}

impl Rows for Actions {
    fn set(&mut self, alloc: Global, key: &str, value: &str) -> Result<bool> {
        let message = match key {
            "message" => message_by(alloc, value)?,
            "properties" => message_of_many(alloc, value)?,
            _ => return Ok(false),
        };
        drop(mem::replace(&mut self.message, message));
        Ok(true)
    }

    fn other(&self, alloc: Global, asked: &str, wanted: &str) -> Result<Option<String>> {
        let message = self.message.clone()?;
        match acted(alloc, message, asked) {
            Some(acted) => Ok(told(alloc, acted, wanted)?),
            None => bail!("no action: {asked}"),
        }
    }
}
