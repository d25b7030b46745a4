// Who takes bytes, a piece after another.
ghost use Rattle.std.specs.Prelude.{◌≡◌, ◌++◌, ℕ, List, OnOk};
ghost use Rattle.sb_checkpoint.specs.Refusals.{OnRefused};
ghost use Rattle.sb_checkpoint.specs.declared.pieces.Unput.TheVariants.{Memory};

use std::alloc::AllocError;

/// Why bytes weren't taken.
#[derive(Clone, Copy, PartialEq, Eq)]
pub enum Unput {
    /// Memory is wanting.
    Memory,
    /// Who takes them refused them, for a reason of his own.
    Refused,
}

impl From<AllocError> for Unput {
    ghost from_gives = { λ _ e. e ≡ Memory };

    fn from(_e: AllocError) -> Unput {
        Unput::Memory
    }
}

/// Who takes bytes, a piece after another.
pub trait Pieces {
    /// What it was as it began.
    ghost Since: { Type 0 };

    ghost since: { Self → Since };

    /// All that it has taken so far.
    ghost has: { Self → List ℕ → Type 0 };

    /// What holds of it at any moment, also once it has refused bytes.
    ghost stays: { Self → Type 0 };

    /// What holds of it once it has refused bytes.
    ghost refuses: { Self → Type 0 };

    /// Takes these bytes, behind those before. It isn't asked again once it has failed.
    fn put(&mut self, bytes: &[u8]) -> Result<(), Unput>
        ensures since { since self.new ≡ since self.old }
        ensures stays { stays self.old → stays self.new }
        ensures has { (text : List ℕ) → has self.old text → OnOk result (has self.new (text ++ bytes.now)) }
        ensures refused { OnRefused result (refuses self.new) };
}
