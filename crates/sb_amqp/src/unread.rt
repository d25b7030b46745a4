// Why sections that are well formed could not be read.
ghost use Rattle.std.specs.Prelude.{◌≡◌};
ghost use Rattle.sb_amqp.specs.declared.unread.Unread.TheVariants.{Memory};

use std::alloc::{AllocError, AllocFailed};

/// Why a value could not be used.
#[derive(Drop)]
pub(crate) enum Unread {
    /// It has no type, range or encoding that is used there, and begins so many bytes before the end.
    At(usize),
    /// Memory is wanting.
    Memory,
}

impl From<AllocError> for Unread {
    ghost from_gives = { λ _ e. e ≡ Memory };

    fn from(_e: AllocError) -> Unread {
        Unread::Memory
    }
}

impl<T: Drop> From<AllocFailed<T>> for Unread {
    ghost from_gives = { λ _ e. e ≡ Memory };

    fn from(_e: AllocFailed<T>) -> Unread {
        Unread::Memory
    }
}
