use sb_model::Kind;
use std::alloc::AllocError;

/// Why no tree was read: the tokens from the one on that fits nowhere, or want of memory.
#[derive(Drop)]
pub(crate) enum Missed<'a> {
    Here(&'a [Kind]),
    OutOfMemory,
}

impl<'a> From<AllocError> for Missed<'a> {
    ghost use Rattle.std.specs.Prelude.{◌≡◌};
    ghost use Rattle.sb_sqltext.specs.declared.missed.Missed.TheVariants.{OutOfMemory};

    ghost from_gives = { λ _ e. e ≡ OutOfMemory };

    fn from(_e: AllocError) -> Self {
        Missed::OutOfMemory
    }
}
