// A door in memory.
ghost use Rattle.std.specs.Prelude.{◌≡◌, ◌≤◌, ◌+◌, ◌<◌, ◌++◌, [], ◌∷◌, true, Some, IfOk, vec_len, vec_capacity};

use crate::faults::CallFaults;
use crate::pace::Pace;
use crate::{Door, DoorFault, Given, MemConn};
use std::alloc::{AllocError, Global};

/// A door in memory: it gives the connections of a list, ends behind the last of them, and fails at the
/// calls of another list, which are numbered from 0. It keeps the connections that it takes back.
#[derive(Drop)]
pub struct MemDoor {
    conns: Vec<MemConn>,
    taken: Vec<MemConn>,
    out: u64,
    ended: bool,
    faults: CallFaults,
    pace: Pace,
    ghost over: { ended ≡ true → conns.items ≡ [] },
    ghost room: { vec_len taken + out + vec_len conns ≤ vec_capacity taken },
}

fn push_within<T: Drop>(items: &mut Vec<T>, item: T)
    requires { vec_len items.old < vec_capacity items.old }
    ensures items { items.new.items ≡ items.old.items ++ item ∷ [] }
    ensures len { vec_len items.new ≡ vec_len items.old + 1 }
    ensures capacity { vec_capacity items.old ≤ vec_capacity items.new }
{
    let _ = items.push(item);
}

impl MemDoor {
    /// A door that gives these connections, and fails at these calls.
    pub fn new(alloc: Global, conns: Vec<MemConn>, failing: Vec<u64>) -> Result<Self, AllocError>
        ensures left { IfOk result (λ d. ⟦<MemDoor as Door>⟧.left d ≡ Some conns.items) }
        ensures taken { IfOk result (λ d. ⟦<MemDoor as Door>⟧.taken d ≡ Some []) }
        ensures count { IfOk result (λ d. ⟦<MemDoor as Door>⟧.count d ≡ 0) }
    {
        let taken = Vec::with_capacity(alloc, conns.len())?;
        Ok(MemDoor {
            conns,
            taken,
            out: 0,
            ended: false,
            faults: CallFaults::new(failing),
            pace: Pace::even(),
        })
    }

    /// The same, but it answers "none yet" every other time that it has a connection.
    pub fn hesitant(
        alloc: Global,
        conns: Vec<MemConn>,
        failing: Vec<u64>,
    ) -> Result<Self, AllocError>
        ensures left { IfOk result (λ d. ⟦<MemDoor as Door>⟧.left d ≡ Some conns.items) }
        ensures taken { IfOk result (λ d. ⟦<MemDoor as Door>⟧.taken d ≡ Some []) }
        ensures count { IfOk result (λ d. ⟦<MemDoor as Door>⟧.count d ≡ 0) }
    {
        let mut door = MemDoor::new(alloc, conns, failing)?;
        door.pace = Pace::hesitant();
        Ok(door)
    }

    /// The connections that it took back, in order.
    pub fn taken(&self) -> &[MemConn]
        ensures { ⟦<MemDoor as Door>⟧.taken self.now ≡ Some result.now }
    {
        self.taken.as_slice()
    }
}

impl Door for MemDoor {
    type Conn = MemConn;

    ghost ended = { λ d. d.ended };

    ghost left = { λ d. Some d.conns.items };

    ghost taken = { λ d. Some d.taken.items };

    ghost out = { λ d. d.out };

    ghost count = { λ d. d.faults.count };

    fn accept(&mut self) -> Result<Given<MemConn>, DoorFault> {
        if self.faults.fails() {
            return Err(DoorFault);
        }
        if self.conns.is_empty() {
            self.ended = true;
            return Ok(Given::End);
        }
        if self.pace.holds() {
            return Ok(Given::NoneYet);
        }
        self.out += 1;
        Ok(Given::One(self.conns.remove(0)))
    }

    fn done(&mut self, conn: MemConn) {
        push_within(&mut self.taken, conn);
        self.out -= 1;
    }
}
