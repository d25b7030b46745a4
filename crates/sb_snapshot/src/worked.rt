// States whose bytes were worked out by hand.
ghost use Rattle.std.specs.Prelude.{◌≡◌, ◌∷◌, ◌++◌, [], ℕ, length, take, map, Some, None};
ghost use Rattle.sb_machine.specs.Namespace.{empty_state};
ghost use Rattle.sb_snapshot.specs.Base.{base_of, state_of};
ghost use Rattle.sb_snapshot.specs.Copies.{standing};
ghost use Rattle.sb_snapshot.specs.Entities.{kind, rule};
ghost use Rattle.sb_snapshot.specs.Replies.{answer};
ghost use Rattle.sb_snapshot.specs.Transactions.{operation};
ghost use Rattle.sb_snapshot.specs.Worked as worked;

/// The definitions give the bytes that were worked out by hand: for the empty state, for one with
/// something in each list, and for each kind of thing that stands in these lists.
pub fn worked_bases()
    ensures empty { (salt : ℕ) → base_of (empty_state salt) ≡ worked.empty_bytes }
    ensures small { base_of worked.small ≡ worked.small_bytes }
    ensures standings { map (λ row. standing.spell row.0) worked.standings ≡ map (λ row. row.1) worked.standings }
    ensures kinds { map (λ row. kind.spell row.0) worked.kinds ≡ map (λ row. row.1) worked.kinds }
    ensures rules { map (λ row. rule.spell row.0) worked.rules ≡ map (λ row. row.1) worked.rules }
    ensures operations { map (λ row. operation.spell row.0) worked.operations ≡ map (λ row. row.1) worked.operations }
    ensures replies { map (λ row. answer.spell row.0) worked.replies ≡ map (λ row. row.1) worked.replies }
    // They are read back, and bytes that stop early or go on are not read.
    ensures reads_empty { (salt : ℕ) → state_of salt worked.empty_bytes ≡ Some (empty_state salt) }
    ensures reads_small { state_of worked.small.space.salt worked.small_bytes ≡ Some worked.small }
    ensures short { (salt : ℕ) → state_of salt (take 79 worked.empty_bytes) ≡ None }
    ensures long { (salt : ℕ) → state_of salt (worked.empty_bytes ++ 0 ∷ []) ≡ None }
{}
