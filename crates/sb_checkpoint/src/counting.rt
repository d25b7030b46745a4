// How many bytes there are of what is put.
ghost use Rattle.std.specs.Prelude.{◌≡◌, ℕ, ◌+◌, ◌^◌, ◌≤◌, length};

use crate::{Pieces, Unput};

/// Counts bytes, and keeps none of them.
#[derive(Clone, Copy)]
pub(crate) struct Counter {
    /// `None` once they are more than 64 bits count.
    pub(crate) length: Option<u64>,
}

impl Pieces for Counter {
    ghost use Rattle.sb_checkpoint.specs.Counts.{IsCount};

    ghost Since = { Unit {0} };

    ghost since = { λ _. tt };

    ghost has = { λ c text. IsCount c.length (length text) };

    ghost stays = { λ _. Unit {0} };

    ghost refuses = { λ _. ⊥ };

    fn put(&mut self, bytes: &[u8]) -> Result<(), Unput> {
        if let Some(length) = self.length {
            self.length = length.checked_add(bytes.len() as u64);
        }
        Ok(())
    }
}
