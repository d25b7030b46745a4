// A judge that takes all.
ghost use Rattle.std.specs.Prelude.{◌≡◌, []};

use crate::{Bytes, Judge};
use std::alloc::{AllocError, Global};

/// Takes the base and each payload, and keeps them.
#[derive(Drop)]
pub struct Collecting {
    /// So much of the base as it was given.
    pub base: Vec<u8>,
    /// Those that it took, the oldest first.
    pub payloads: Vec<Bytes>,
}

impl Judge for Collecting {
    ghost given = { λ c _ base. (c.base.items ≡ base) × (c.payloads.items ≡ []) };

    ghost taken = { λ c _ base payloads. (c.base.items ≡ base) × (c.payloads.items ≡ payloads) };

    ghost refuses_base = { λ _ _. ⊥ };

    ghost refuses = { λ _ _ _ _. ⊥ };

    fn begin(alloc: Global, _salt: u64) -> Self {
        Collecting {
            base: Vec::new(alloc),
            payloads: Vec::new(alloc),
        }
    }

    fn take_base(&mut self, _alloc: Global, piece: &[u8]) -> Result<bool, AllocError> {
        self.base.extend_from_slice(piece)?;
        Ok(true)
    }

    fn end_base(&mut self, _alloc: Global) -> Result<bool, AllocError> {
        Ok(true)
    }

    fn take(&mut self, alloc: Global, payload: &[u8]) -> Result<bool, AllocError> {
        let kept = Bytes::of(alloc, payload)?;
        match self.payloads.push(kept) {
            Ok(()) => Ok(true),
            Err(_) => Err(AllocError),
        }
    }
}
