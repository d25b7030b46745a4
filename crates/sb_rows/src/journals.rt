// What the cases of a table left on their disks, for the cases behind them.
use anyhow::{Context, Result};
use std::alloc::{AllocError, Global};

#[derive(Drop)]
struct Left {
    case: String,
    disk_a: Vec<u8>,
    disk_b: Vec<u8>,
}

#[derive(Drop)]
pub struct Journals {
    left: Vec<Left>,
}

impl Journals {
    pub fn new(alloc: Global) -> Journals {
        Journals {
            left: Vec::new(alloc),
        }
    }

    /// The bytes that a case left on disk a; an error where it isn't one that came before.
    pub fn left_by(&self, case: &str) -> Result<&[u8]> {
        Ok(self.by(case)?.disk_a.as_slice())
    }

    /// The same of disk b.
    pub fn left_on_b(&self, case: &str) -> Result<&[u8]> {
        Ok(self.by(case)?.disk_b.as_slice())
    }

    /// Keeps what a case left on disk a and on disk b.
    pub fn keep(
        &mut self,
        alloc: Global,
        case: &str,
        disk_a: Vec<u8>,
        disk_b: Vec<u8>,
    ) -> Result<(), AllocError> {
        let case = String::from_str(alloc, case)?;
        self.left.push(Left {
            case,
            disk_a,
            disk_b,
        })?;
        Ok(())
    }

    fn by(&self, case: &str) -> Result<&Left> {
        let left = self.left.iter().find(|left| left.case.as_str() == case);
        left.context("no such case before")
    }
}
