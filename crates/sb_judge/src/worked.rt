// States that were judged by hand.
ghost use Rattle.std.specs.Prelude.{◌≡◌, ℕ, true, false};
ghost use Rattle.sb_machine.specs.Namespace.{empty_state};
ghost use Rattle.sb_judge.specs.Decided.{is_consistent};
ghost use Rattle.sb_judge.specs.Worked as worked;

/// The definitions judge as was judged by hand: the empty state and a small one are consistent; with
/// two copies under one lock, or in falling numbers, it isn't.
pub fn worked_states()
    ensures empty { (salt : ℕ) → is_consistent (empty_state salt) ≡ true }
    ensures sound { is_consistent worked.sound ≡ true }
    ensures lock_twice { is_consistent worked.lock_twice ≡ false }
    ensures falling { is_consistent worked.falling ≡ false }
{}
