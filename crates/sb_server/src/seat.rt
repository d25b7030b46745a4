// What a worker makes its calls with.
ghost use Rattle.std.specs.Prelude.{◌≡◌, Option, Some};
ghost use Rattle.sb_server.specs.declared.seat.Seat.TheVariants.{Free};
ghost use Rattle.sb_server.specs.Doings.{IsFree};

use crate::pending::Sent;
use sb_desk::Pass;
use std::mem;

/// What a worker makes its calls with: its pass, or a call that is posted with it. While one is posted, what the
/// worker's connection does next goes by what that is for.
#[derive(Drop)]
pub(crate) enum Seat {
    Free(Pass),
    Posts(Sent),
}

/// The pass of a worker that has posted nothing.
pub(crate) fn pass_of(seat: Seat) -> Pass
    requires { IsFree seat }
    ensures { seat ≡ Free result }
{
    let Seat::Free(pass) = seat else {
        unreachable!()
    };
    pass
}

/// Has a worker go on with this.
pub(crate) fn sit(place: &mut Option<Seat>, seat: Seat)
    ensures { place.new ≡ Some seat }
{
    drop(mem::replace(place, Some(seat)));
}
