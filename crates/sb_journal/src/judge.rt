// Who judges the base and the payloads of a journal while it is read.
ghost use Rattle.std.specs.Prelude.{◌++◌, ◌∷◌, [], List, ℕ, IfOk};
ghost use Rattle.std.specs.Bool.{MatchBool};

use crate::Side;
use std::alloc::{AllocError, Global};

/// Who judges a journal as it is read: its base, a piece after another, and then its payloads, one after
/// another. None is asked once something was refused, or memory was wanting (`Err`).
pub trait Judge: Drop {
    /// It began with the file of this salt, and was given so much of its base.
    ghost given: { Self → ℕ → List ℕ → Type 0 };

    /// It has taken the whole base of a file of this salt, and these payloads, in order.
    ghost taken: { Self → ℕ → List ℕ → List (List ℕ) → Type 0 };

    /// In a file of this salt, it doesn't take this whole base.
    ghost refuses_base: { ℕ → List ℕ → Type 0 };

    /// In a file of this salt and this base, and behind these payloads, it doesn't take this one.
    ghost refuses: { ℕ → List ℕ → List (List ℕ) → List ℕ → Type 0 };

    /// It begins with the file of this salt. Where that has no base, it is taken as it is.
    fn begin(alloc: Global, salt: u64) -> Self
        ensures given { given result salt [] }
        ensures taken { taken result salt [] [] };

    /// Is given the next piece of the base; `false` where it takes none that begins so.
    fn take_base(&mut self, alloc: Global, piece: &[u8]) -> Result<bool, AllocError>
        requires { (salt : ℕ) × (base : List ℕ) × given self.old salt base }
        ensures { (salt : ℕ) (base : List ℕ) → given self.old salt base
            → IfOk result (λ b. MatchBool b (given self.new salt (base ++ piece.now)) ((rest : List ℕ) → refuses_base salt ((base ++ piece.now) ++ rest))) };

    /// Takes the base, all of which was given; `false` where it doesn't.
    fn end_base(&mut self, alloc: Global) -> Result<bool, AllocError>
        requires { (salt : ℕ) × (base : List ℕ) × given self.old salt base }
        ensures { (salt : ℕ) (base : List ℕ) → given self.old salt base
            → IfOk result (λ b. MatchBool b (taken self.new salt base []) (refuses_base salt base)) };

    /// Takes one payload more; `false` where it doesn't.
    fn take(&mut self, alloc: Global, payload: &[u8]) -> Result<bool, AllocError>
        requires { (salt : ℕ) × (base : List ℕ) × (before : List (List ℕ)) × taken self.old salt base before }
        ensures { (salt : ℕ) (base : List ℕ) (before : List (List ℕ)) → taken self.old salt base before
            → IfOk result (λ b. MatchBool b (taken self.new salt base (before ++ payload.now ∷ [])) (refuses salt base before payload.now)) };
}

/// The file that a journal was opened with, whose base and all of whose payloads a judge has taken.
#[derive(Drop)]
pub struct Judged<J> {
    /// The disk that it stands on.
    pub disk: Side,
    /// Which file of this journal it is, counted from 1.
    pub generation: u64,
    /// Told apart by it from the files of other journals.
    pub salt: u64,
    /// The number of the first event, from 1.
    pub first: u64,
    /// The number of the next event.
    pub next: u64,
    /// Who took its base and its payloads, the oldest first.
    pub judge: J,
}
