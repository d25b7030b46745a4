// Laws of the grammar: each a function without effect, whose contract is the statement.
ghost use Rattle.std.specs.Prelude.{ℕ};
ghost use Rattle.sb_model.specs.Language.{SpellsFilter, SpellsAction};
ghost use Rattle.sb_sqlgrammar.specs.Laws.{ReadsSpelled, ReadsEach, SpellsOne, FaultsExactly};
ghost use Rattle.sb_model.specs.Reading.{filter_of, action_of};
ghost use Rattle.sb_sqlgrammar.specs.Rows.{RowHalf, RowTwice, RowDeep, RowDeeper, RowLeft, RowOr, RowLike, RowIn, RowInOpen, RowExists, RowExistsCall, RowAction, RowSeparators, RowStatements};

/// Token lists and what they are read as, worked out by hand.
pub fn worked_readings()
    ensures half { RowHalf }
    ensures twice { RowTwice }
    ensures deep { RowDeep }
    ensures deeper { RowDeeper }
    ensures left { RowLeft }
    ensures or_and_not { RowOr }
    ensures like { RowLike }
    ensures in_items { RowIn }
    ensures in_open { RowInOpen }
    ensures exists { RowExists }
    ensures exists_call { RowExistsCall }
    ensures action { RowAction }
    ensures separators { RowSeparators }
    ensures statements { RowStatements }
{}

/// At each nesting limit: what is read as a filter is spelled so, what is spelled so is read, no
/// tokens spell two filters, and a fault is where no filter goes on.
pub fn reading_filters_is_exact()
    ensures spelled { (depth : ℕ) → ReadsSpelled (filter_of depth) (SpellsFilter depth) }
    ensures each { (depth : ℕ) → ReadsEach (filter_of depth) (SpellsFilter depth) }
    ensures one { (depth : ℕ) → SpellsOne (SpellsFilter depth) }
    ensures faults { (depth : ℕ) → FaultsExactly (filter_of depth) (SpellsFilter depth) }
{}

/// The same of actions, at each nesting limit and each limit on the statements.
pub fn reading_actions_is_exact()
    ensures spelled { (depth : ℕ) (count : ℕ) → ReadsSpelled (action_of depth count) (SpellsAction depth count) }
    ensures each { (depth : ℕ) (count : ℕ) → ReadsEach (action_of depth count) (SpellsAction depth count) }
    ensures one { (depth : ℕ) (count : ℕ) → SpellsOne (SpellsAction depth count) }
    ensures faults { (depth : ℕ) (count : ℕ) → FaultsExactly (action_of depth count) (SpellsAction depth count) }
{}
