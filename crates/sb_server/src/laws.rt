// What holds of all connections.
ghost use Rattle.sb_server.specs.Bodies.{LinesHaveNoFeed, LinesJoin};
ghost use Rattle.sb_server.specs.Responds.{GivesUpNone, MakesNone};

use sb_outside::Clock;

/// A request that is foreign, or doesn't show the key, makes no entry, also where it is given up.
pub fn unwelcome_makes_no_entry<C: Clock>(clock: &C)
    ensures answered { MakesNone (C.reads clock.now) }
    ensures given_up { GivesUpNone (C.reads clock.now) }
{
    let _ = clock;
}

/// The lines of a body have no line feed, and joined again by line feeds they are the body.
pub fn lines_are_the_body()
    ensures joined { LinesJoin }
    ensures no_feed { LinesHaveNoFeed }
{}
