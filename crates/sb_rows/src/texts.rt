// Which texts are filters or actions, and where the first fault of another one is.
use crate::outcome::Rows;
use anyhow::{Result, bail};
use sb_sqltext::{ParseFault, parse_action, parse_filter};
use std::alloc::Global;

#[derive(Clone, Copy, Drop)]
enum Grammar {
    Filter,
    Action,
}

/// Rows of a text and `ok`, or `fault at PLACE`. Before them stands `as filter` or `as action`.
#[derive(Drop)]
pub struct Texts {
    grammar: Grammar,
}

impl Texts {
    pub fn new() -> Texts {
        Texts {
            grammar: Grammar::Filter,
        }
    }
}

// The fault of a text, none where it is one of the grammar.
fn fault_of(alloc: Global, grammar: Grammar, text: &str) -> Option<ParseFault> {
    match grammar {
        Grammar::Filter => match parse_filter(alloc, text) {
            Ok(filter) => {
                drop(filter);
                None
            }
            Err(fault) => Some(fault),
        },
        Grammar::Action => match parse_action(alloc, text) {
            Ok(action) => {
                drop(action);
                None
            }
            Err(fault) => Some(fault),
        },
    }
}

impl Rows for Texts {
    fn set(&mut self, _alloc: Global, key: &str, value: &str) -> Result<bool> {
        self.grammar = match (key, value) {
            ("as", "filter") => Grammar::Filter,
            ("as", "action") => Grammar::Action,
            _ => return Ok(false),
        };
        Ok(true)
    }

    fn other(&self, alloc: Global, asked: &str, wanted: &str) -> Result<Option<String>> {
        let came = match fault_of(alloc, self.grammar, asked) {
            None => String::from_str(alloc, "ok")?,
            Some(ParseFault::At(place)) => format!(in alloc; "fault at {place}")?,
            Some(ParseFault::OutOfMemory) => bail!("no memory"),
        };
        Ok(Some(came).filter(|came| came.as_str() != wanted))
    }
}
