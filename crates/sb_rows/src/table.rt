// Tables as text: what stands in a file under `data/`.
use anyhow::{Result, bail};
use std::alloc::{AllocError, Global};

/// A line of a case.
#[derive(Clone, Copy)]
pub struct Line<'a> {
    /// Its number in the file, from 1.
    pub number: u64,
    /// Its first word.
    pub key: &'a str,
    /// What stands behind the blank that ends the key.
    pub value: &'a str,
}

/// A case: its name, and its lines in their order.
#[derive(Drop)]
pub struct Case<'a> {
    pub name: &'a str,
    pub lines: Vec<Line<'a>>,
}

impl<'a> Case<'a> {
    fn named(alloc: Global, name: &'a str, front: &[Line<'a>]) -> Result<Case<'a>, AllocError> {
        Ok(Case {
            name,
            lines: front.to_vec(alloc)?,
        })
    }
}

/// The cases of a file. A line `case NAME` begins one; lines before the first case stand at the front
/// of each. Blank lines, and those that begin with `#`, say nothing. A file without a case is an error.
pub fn cases_of<'a>(alloc: Global, text: &'a str) -> Result<Vec<Case<'a>>> {
    let mut front = Vec::new(alloc);
    let mut cases: Vec<Case<'a>> = Vec::new(alloc);
    let mut number: u64 = 0;
    for text in text.lines() {
        number = number.saturating_add(1);
        let Some(line) = line_of(number, text) else {
            continue;
        };
        if line.key == "case" {
            cases.push(Case::named(alloc, line.value, &front)?)?;
            continue;
        }
        match cases.last_mut() {
            Some(case) => case.lines.push(line)?,
            None => front.push(line)?,
        }
    }
    if cases.is_empty() {
        bail!("no case");
    }
    Ok(cases)
}

fn line_of(number: u64, text: &str) -> Option<Line<'_>> {
    if text.trim_ascii().is_empty() || text.starts_with('#') {
        return None;
    }
    let (key, value) = text.split_once(' ').unwrap_or((text, ""));
    Some(Line { number, key, value })
}
