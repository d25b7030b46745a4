// Messages in the bytes of AMQP, read and written again.
use crate::outcome::Rows;
use anyhow::{Result, bail};
use sb_amqp::{AmqpFault, read_message, write_message};
use sb_model::Message;
use std::alloc::Global;

/// Rows of a message's bytes and of those that it is written as again, or `bad AT` or `unsupported AT`.
#[derive(Drop)]
pub struct Messages;

// What the bytes with these digits come to.
fn answer(alloc: Global, digits: &str) -> Result<String> {
    let bytes = hex::decode(alloc, digits)?;
    let read = read_message(alloc, bytes.as_slice());
    drop(bytes);
    match read {
        Ok(message) => written(alloc, message),
        Err(AmqpFault::BadMessage { at }) => Ok(format!(in alloc; "bad {at}")?),
        Err(AmqpFault::Unsupported { at }) => Ok(format!(in alloc; "unsupported {at}")?),
        Err(AmqpFault::OutOfMemory) => bail!("no memory"),
    }
}

// The digits of the bytes that a message is written as.
fn written(alloc: Global, message: Message) -> Result<String> {
    let bytes = write_message(alloc, &message);
    drop(message);
    Ok(hex::encode(alloc, bytes?.as_slice())?)
}

impl Rows for Messages {
    fn set(&mut self, _alloc: Global, _key: &str, _value: &str) -> Result<bool> {
        Ok(false)
    }

    fn other(&self, alloc: Global, asked: &str, wanted: &str) -> Result<Option<String>> {
        let came = answer(alloc, asked)?;
        Ok(Some(came).filter(|came| came.as_str() != wanted))
    }
}
