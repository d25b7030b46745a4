// What a filter comes to on a message.
use crate::actions::message_by;
use crate::outcome::Rows;
use anyhow::{Result, bail};
use sb_model::{EvalFault, Message, Truth};
use sb_sqleval::eval;
use sb_sqltext::parse_filter;
use std::alloc::{AllocError, Global};
use std::mem;

/// Rows of a filter and of what it comes to: `True`, `False`, `Unknown` or the name of the fault. Before
/// them stands `message ACTION`, which makes the message out of an empty one, and `ttl SECONDS`.
#[derive(Drop)]
pub struct Filters {
    message: Message,
}

impl Filters {
    pub fn new(alloc: Global) -> Result<Filters> {
        Ok(Filters {
            message: message_by(alloc, "")?,
        })
    }

    /// What a filter comes to, as one word.
    pub fn answer(&self, alloc: Global, filter: &str) -> Result<String> {
        match truth_of(alloc, filter, &self.message) {
            Some(truth) => Ok(word_of(alloc, truth)?),
            None => bail!("no filter: {filter}"),
        }
    }
}

// What the filter of a text comes to; none where the text is no filter.
fn truth_of(alloc: Global, text: &str, message: &Message) -> Option<Result<Truth, EvalFault>> {
    match parse_filter(alloc, text) {
        Ok(filter) => {
            let truth = eval(alloc, &filter, message);
            drop(filter);
            Some(truth)
        }
        Err(_) => None,
    }
}

fn word_of(alloc: Global, truth: Result<Truth, EvalFault>) -> Result<String, AllocError> {
    match truth {
        Ok(truth) => format!(in alloc; "{truth:?}"),
        Err(fault) => format!(in alloc; "{fault:?}"),
    }
}

impl Rows for Filters {
    fn set(&mut self, alloc: Global, key: &str, value: &str) -> Result<bool> {
        match key {
            "message" => drop(mem::replace(&mut self.message, message_by(alloc, value)?)),
            "ttl" => self.message.ttl = Some(value.parse::<u64>()?),
            _ => return Ok(false),
        }
        Ok(true)
    }

    fn other(&self, alloc: Global, asked: &str, wanted: &str) -> Result<Option<String>> {
        let came = self.answer(alloc, asked)?;
        Ok(Some(came).filter(|came| came.as_str() != wanted))
    }
}
