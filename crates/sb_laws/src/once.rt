// Laws over all legal histories from a consistent state: each a function without effect whose contract is the law.
ghost use Rattle.sb_laws.specs.Accepted.{OnceIds, SentNotes};
ghost use Rattle.sb_laws.specs.Acted.{OnceNumbers};
ghost use Rattle.sb_laws.specs.Ended.{EndsOnce};
ghost use Rattle.sb_laws.specs.Handed.{InOrder};
ghost use Rattle.sb_laws.specs.Holders.{OneHolder};
ghost use Rattle.sb_laws.specs.Joined.{FrontsJoin, UndecidedJoins};
ghost use Rattle.sb_laws.specs.Spent.{DoneSettles, SpentLived, SpentOnce};
ghost use Rattle.sb_laws.specs.Thin.{ThinSame};

/// No number of a client acts twice before the client is forgotten; its numbers rise from above the one
/// that was kept, and from any number again once it is forgotten.
pub fn once_numbers()
    ensures { OnceNumbers }
{}

/// No copy number of a part ends twice, none that ended is live later, and what was made and isn't
/// live has grown by just what ended.
pub fn ends_once()
    ensures { EndsOnce }
{}

/// No lock is settled twice.
pub fn spent_once()
    ensures { SpentOnce }
{}

/// An id that is accepted under a window lies the whole window behind each earlier one of its entity,
/// those that were kept at the start among them.
pub fn once_ids()
    ensures { OnceIds }
{}

/// A receive under a session hands out the copy of least number among those of that session that may
/// be received there.
pub fn in_order()
    ensures { InOrder }
{}

/// Once a session is accepted, nobody accepts it until the lock has ended: by a close of its holder, at
/// a tick not before the lock's moment, or as the entity was deleted, by itself or with its topic.
pub fn one_holder()
    ensures { OneHolder }
{}

/// The events of a history, without the messages that were answered as duplicates, lead to the same
/// state, but for the acts and replies that are kept for clients.
pub fn thin_same()
    ensures { ThinSame }
{}

/// Each lock that is settled, at once or by a commit, lived at its entry's moment in the state before it.
pub fn spent_lived()
    ensures { SpentLived }
{}

/// A settlement under a lock that is answered Done, and isn't a repeat, settles that lock and no other.
/// Operations that act together, where they aren't a repeat, settle just the locks of those of them that
/// settle, in their order.
pub fn done_settles()
    ensures { DoneSettles }
{}

/// A send that is answered with receipts, and isn't a repeat, has its entity accept the ids of just those
/// messages that got a number, if it has a window: a duplicate gets its receipt, and notes nothing. So
/// does the entity of operations that act together, of those that they send to it; what they send elsewhere
/// notes nothing.
pub fn sent_notes()
    ensures { SentNotes }
{}

/// A front of a legal history, cut at an answer while it runs, is a legal history; so is it with what is
/// left of a call that is made behind it: nothing, its tick, or its whole step. What a crash leaves is the
/// state after one of these, and each legal history from there goes on behind it.
pub fn fronts_join()
    ensures { FrontsJoin }
{}

/// Whichever events are found of the calls that a disk failed together, what is found is the state after a
/// legal history: the one that it ended, each failed call with what is left of it.
pub fn undecided_joins()
    ensures { UndecidedJoins }
{}
