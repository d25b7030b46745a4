//! Where seats sleep until their turn comes: one word for all tickets of the same remainder. No clause
//! says that anybody is woken.
ghost use Rattle.std.specs.Prelude.{◌<◌, ◌≡◌};

use atomic_table::{Play, Shared, Table, TableRule};
use std::alloc::{AllocError, Global};

/// How many words there are: seats whose tickets are that far apart are woken together.
const WORDS: usize = 256;

/// The words of the bells may have any numbers.
pub(crate) struct Silent;

impl TableRule<(), (), ()> for Silent {
    ghost holds = { λ key s. Unit {0} };

    ghost first = { λ key. tt };
}

pub(crate) struct Ring;

impl Play<(), ()> for Ring {
    ghost then = { λ st m r m'. Unit {0} };
}

/// The words, each with the ticket for which it was rung last.
#[derive(Drop)]
pub(crate) struct Bells {
    table: Table<(), (), (), Silent, Global>,
    ghost words: { table.shared.table_id.words ≡ 256 },
}

impl Bells {
    pub(crate) fn new(alloc: Global) -> Result<Bells, AllocError> {
        let (table, seat) = Table::of_words(alloc, &[0; WORDS], &())?;
        drop(seat);
        Ok(Bells { table })
    }

    /// The words that have the bells, for those who sleep there.
    pub(crate) fn words(&self) -> &Shared<(), (), (), Silent>
        ensures { result.now.table_id.words ≡ 256 }
    {
        &self.table.shared
    }

    /// Wakes the seat that sleeps for this ticket; others that wake with it look, and sleep again.
    pub(crate) fn ring(&self, ticket: u64) {
        let bell = bell_of(ticket);
        let (_, seat) = self.table.shared.swap_new_seat::<Ring>(bell, ticket);
        drop(seat);
        self.table.shared.wake_all(bell);
    }
}

/// The word on which a seat with this ticket sleeps.
pub(crate) fn bell_of(ticket: u64) -> usize
    ensures { result < 256 }
{
    (ticket % WORDS as u64) as usize
}
