// What a worker waits for, and what has come for others. No clause says anything of it.
use crate::doing::Doing;
use crate::stage::Stage;
use sb_desk::{Desk, Served};
use sb_machine::Act;
use sb_outside::Lobby;

// The kind of a receive under a session's lock is told apart by so much for each lock.
const LOCK_STEP: u64 = 0x9e37_79b9_7f4a_7c15;

// Who waits for a session is of a kind of its own, as though under a lock that is never given.
const NO_LOCK: u64 = u64::MAX;

/// What a call waits for: the mark of what it receives from, and its kind, which says the session too. Both
/// are 0 where none waits.
#[derive(Clone, Copy)]
struct Wish {
    mark: u64,
    kind: u64,
}

const NONE: Wish = Wish { mark: 0, kind: 0 };

/// Tells the lobby for what the worker of this number waits, and whom what has come is for. A call is
/// told of behind it, and the lobby calls it where something came in between; one that isn't called when
/// it should be finds what it waits for within a second, since it is asked again by then.
pub(crate) fn tell<V: Served, L: Lobby, N>(
    desk: &Desk<V>,
    lobby: &L,
    number: usize,
    stage: &Stage<N>,
) {
    let wish = wish_at(desk, stage);
    lobby.listen(number, wish.mark, wish.kind);
    let arrivals = desk.take_arrivals();
    if arrivals != 0 {
        lobby.ring(number, arrivals);
    }
}

fn wish_at<V: Served, N>(desk: &Desk<V>, stage: &Stage<N>) -> Wish {
    match stage {
        Stage::Serves(_, guest) => match &guest.doing {
            Doing::Asks(patience) => wish_of(desk, &patience.waiter.call().act),
            _ => NONE,
        },
        Stage::Wants(_) | Stage::Over(_) => NONE,
    }
}

fn wish_of<V: Served>(desk: &Desk<V>, act: &Act) -> Wish {
    match act {
        Act::Receive { from, session, .. } => {
            let lock = match session {
                Some(token) => token.lock,
                None => 0,
            };
            wish_under(desk.mark_of(from), lock)
        }
        Act::Accept { from, .. } => wish_under(desk.mark_of(from), NO_LOCK),
        _ => NONE,
    }
}

fn wish_under(mark: u64, lock: u64) -> Wish {
    Wish {
        mark,
        kind: mark.wrapping_add(lock.wrapping_mul(LOCK_STEP)),
    }
}
