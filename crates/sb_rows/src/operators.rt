// What operators come to on each pair of kinds of operands.
use crate::filters::Filters;
use crate::outcome::Rows;
use anyhow::Result;
use std::alloc::Global;

/// Rows of a filter with `{left}` and `{right}` in it, and of what it comes to with each pair of operands
/// in their place: a word for each on the left, of a letter for each on the right, which is the first of
/// `True`, `False` and `Unknown`, or `-` for a fault. Before them stand `left` and `right`, each with
/// operands between commas, and what stands before a filter.
#[derive(Drop)]
pub struct Operators {
    filters: Filters,
    left: String,
    right: String,
}

impl Operators {
    pub fn new(alloc: Global) -> Result<Operators> {
        Ok(Operators {
            filters: Filters::new(alloc)?,
            left: String::new(alloc),
            right: String::new(alloc),
        })
    }

    fn letter(&self, alloc: Global, filter: &str) -> Result<&'static str> {
        Ok(match self.filters.answer(alloc, filter)?.as_str() {
            "True" => "T",
            "False" => "F",
            "Unknown" => "U",
            _ => "-",
        })
    }

    // The letters with this operand on the left.
    fn word(&self, alloc: Global, filter: &str, left: &str) -> Result<String> {
        let filter = filter.replace(alloc, "{left}", left)?;
        let mut word = String::new(alloc);
        for right in self.right.as_str().split(", ") {
            let filter = filter.as_str().replace(alloc, "{right}", right)?;
            word.push_str(self.letter(alloc, filter.as_str())?)?;
        }
        Ok(word)
    }
}

impl Rows for Operators {
    fn set(&mut self, alloc: Global, key: &str, value: &str) -> Result<bool> {
        match key {
            "left" => self.left = String::from_str(alloc, value)?,
            "right" => self.right = String::from_str(alloc, value)?,
            _ => return self.filters.set(alloc, key, value),
        }
        Ok(true)
    }

    fn other(&self, alloc: Global, asked: &str, wanted: &str) -> Result<Option<String>> {
        let mut words = Vec::new(alloc);
        for left in self.left.as_str().split(", ") {
            words.push(self.word(alloc, asked, left)?)?;
        }
        let came = words.as_slice().join(alloc, " ")?;
        Ok(Some(came).filter(|came| came.as_str() != wanted))
    }
}
