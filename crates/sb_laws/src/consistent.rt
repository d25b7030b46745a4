// Laws on consistent states: each a function without effect whose contract is a statement of specs/Staying.
ghost use Rattle.sb_laws.specs.Staying.{HistoriesConsistent, StaysConsistent, TicksConsistent};

/// A call keeps a state consistent, where the lists of its messages and filters are in order.
pub fn stays_consistent()
    ensures { StaysConsistent }
{}

/// A tick keeps a state consistent.
pub fn ticks_consistent()
    ensures { TicksConsistent }
{}

/// A legal history leads from a consistent state to a consistent state, where the lists of its calls are in order.
pub fn histories_consistent()
    ensures { HistoriesConsistent }
{}
