// Laws of delivery.
ghost use Rattle.sb_fanout.specs.Laws.{HopsStayWithin, NumbersStand, VisitsAreThere, VisitsCount};

/// A copy that stays was forwarded at most four times.
pub fn hops_stay_within()
    ensures { HopsStayWithin }
{}

/// A message visits entities alone that are there.
pub fn visits_are_there()
    ensures { VisitsAreThere }
{}

/// Each visit is given one number; where the message stays one copy more lives.
pub fn visits_count()
    ensures { VisitsCount }
{}

/// The numbers given in a plan stand for what it leads to also behind the changes that no delivery
/// makes: behind one that gives a number, once that is counted, and behind one that gives none and
/// where no entity comes or goes.
pub fn numbers_stand()
    ensures { NumbersStand }
{}
