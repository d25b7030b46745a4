// Laws of the machine: each a function without effect whose contract is a statement of specs/Laws.
ghost use Rattle.sb_machine.specs.Laws.{GoesOn};
ghost use Rattle.sb_laws.specs.AsFound.{TickAsFound};
ghost use Rattle.sb_laws.specs.Gathered.{GathersAsRead};
ghost use Rattle.sb_laws.specs.InTurn.{ActInTurn, EachAnswered};
ghost use Rattle.sb_laws.specs.Laws.{
  AnswersLegally,
  AnswersNoFault,
  ConsistentIsOrderly,
  IsDueExactly,
  KeepsTime,
  MovesChange,
  NothingDueAfter,
  OrderlyIsSweepable,
  SameActExactly,
  StartsConsistent,
  StaysOrderly,
  TicksOrderly,
};

/// A legal history goes on by entries that are legal behind it.
pub fn goes_on()
    ensures { GoesOn }
{}

/// The machine itself answers no fault of a disk and no want of memory.
pub fn answers_no_fault()
    ensures { AnswersNoFault }
{}

/// An empty namespace is consistent.
pub fn starts_consistent()
    ensures { StartsConsistent }
{}

/// A call never takes time back, nor past the last moment that counts.
pub fn keeps_time()
    ensures { KeepsTime }
{}

/// Behind a tick nothing is due at its moment: its sweeps took up all that was.
pub fn nothing_due_after()
    ensures { NothingDueAfter }
{}

/// A consistent state is orderly.
pub fn consistent_is_orderly()
    ensures { ConsistentIsOrderly }
{}

/// An orderly state has all that the sweeps of a tick need.
pub fn orderly_is_sweepable()
    ensures { OrderlyIsSweepable }
{}

/// A call keeps a state orderly.
pub fn stays_orderly()
    ensures { StaysOrderly }
{}

/// A tick keeps a state orderly.
pub fn ticks_orderly()
    ensures { TicksOrderly }
{}

/// Something is due exactly where a tick has changes.
pub fn is_due_exactly()
    ensures { IsDueExactly }
{}

/// Two acts are the same exactly where they are equal.
pub fn same_act_exactly()
    ensures { SameActExactly }
{}

/// An accepted act that has changes really changes the namespace, so that no event says nothing.
pub fn moves_change()
    ensures { MovesChange }
{}

/// Operations that act together leave the namespace that is left by the acts for which they stand, one
/// behind another: a transaction's begin, each operation in it, its commit.
pub fn act_in_turn()
    ensures { ActInTurn }
{}

/// Operations that act together are answered one by one: their transaction is never aborted.
pub fn each_answered()
    ensures { EachAnswered }
{}

/// Calls that the machine answers one after another are a legal history without faults.
pub fn answers_legally()
    ensures { AnswersLegally }
{}

/// A tick's changes are those of its sweeps over what is due as it begins, so that one look at the
/// namespace finds them.
pub fn tick_as_found()
    ensures { TickAsFound }
{}

/// Operations that act together may be judged in the namespace as it is read, without opening the
/// transaction that gathers them.
pub fn gathers_as_read()
    ensures { GathersAsRead }
{}
