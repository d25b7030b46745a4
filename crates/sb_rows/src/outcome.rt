// What trying a case shows.
use crate::table::{Case, Line};
use anyhow::{Error, Result, anyhow};
use std::alloc::{AllocError, Global};

#[derive(Drop)]
pub enum Outcome {
    /// All came to what the case says, its input so many lines.
    Holds(u64),
    /// The first line that didn't, with what was wanted and what came.
    Differs(String),
}

/// The outcome where something else came of a line than what it wants.
pub fn differing(alloc: Global, line: Line<'_>, came: &str) -> Result<Outcome, AllocError> {
    let Line { number, value, .. } = line;
    let told = format!(in alloc; "line {number}\n  wanted {value}\n  came   {came}")?;
    Ok(Outcome::Differs(told))
}

/// The error of a line whose key means nothing in its table.
pub fn no_such_key(line: Line<'_>) -> Error {
    anyhow!("line {}: no key {} here", line.number, line.key)
}

/// Rows of two lines: `> ` what is asked, and `< ` what has to come of it.
pub trait Rows {
    /// Takes what stands before a row; false where the key means nothing.
    fn set(&mut self, alloc: Global, key: &str, value: &str) -> Result<bool>;

    /// What came of this, or none where it is what was wanted.
    fn other(&self, alloc: Global, asked: &str, wanted: &str) -> Result<Option<String>>;
}

/// Tries the rows of a case one after the other, up to the first that doesn't hold.
pub fn try_rows<R: Rows + Drop>(alloc: Global, case: &Case<'_>, mut rows: R) -> Result<Outcome> {
    let mut asked = "";
    let mut count: u64 = 0;
    for line in &case.lines {
        let line = *line;
        match line.key {
            ">" => asked = line.value,
            "<" => {
                count = count.saturating_add(1);
                if let Some(came) = rows.other(alloc, asked, line.value)? {
                    return Ok(differing(alloc, line, came.as_str())?);
                }
            }
            _ => {
                if !rows.set(alloc, line.key, line.value)? {
                    return Err(no_such_key(line));
                }
            }
        }
    }
    Ok(Outcome::Holds(count))
}
