// Texts of filters and actions.
use std::alloc::AllocError;

/// Why a text gave no tree.
#[derive(Clone, Copy, PartialEq, Eq, Drop)]
pub enum ParseFault {
    /// The text spells none. The place, in bytes, is where the longest sequence of whole tokens
    /// ends that some text of the grammar continues, or that of character 1,025.
    At(u64),
    OutOfMemory,
}

impl From<AllocError> for ParseFault {
    ghost use Rattle.std.specs.Prelude.{◌≡◌};
    ghost use Rattle.sb_sqltext.specs.declared.texts.ParseFault.TheVariants.{OutOfMemory};

    ghost from_gives = { λ _ e. e ≡ OutOfMemory };

    fn from(_e: AllocError) -> Self {
        ParseFault::OutOfMemory
    }
}
