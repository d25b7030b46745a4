// What a list shows of an entity.
ghost use Rattle.std.specs.Prelude.{◌≡◌, ◌+◌, filter, length, is_some, IfOk};
ghost use Rattle.sb_machine.specs.Looks as looks;
ghost use Rattle.sb_machine.specs.Namespace.{leaf_of};
ghost use Rattle.sb_entities.specs.Stores.{entity_in, leaf_in};

use crate::entity::EntityStore;
use crate::part::PartStore;
use crate::session_list::only_signs;
use sb_machine::{EntityShown, Part, PartShown, Session};
use std::alloc::{AllocError, Global};

impl EntityStore {
    /// The entity as a list shows it.
    pub fn shown(&self, alloc: Global) -> Result<EntityShown, AllocError>
        ensures { IfOk result (λ x. x ≡ looks.entity_shown (entity_in self.now)) }
    {
        let about = self.about();
        Ok(EntityShown {
            kind: about.kind,
            path: about.path.clone()?,
            main: part_of(self, Part::Main),
            dead: part_of(self, Part::Dead),
            transfer: part_of(self, Part::Transfer),
            sessions: sessions_of(alloc, self)?,
            held_sessions: held_of(self),
        })
    }
}

fn part_of(entity: &EntityStore, part: Part) -> PartShown
    ensures { result ≡ looks.part_shown (leaf_of part (entity_in entity.now)).copies }
{
    entity.part(part).copies().shown()
}

// ---- sessions

fn sessions_of(alloc: Global, entity: &EntityStore) -> Result<u64, AllocError>
    ensures { IfOk result (λ n. n ≡ (let e = entity_in entity.now in looks.of_sessions e (length e.main.sessions + length (looks.only_signs e.main)))) }
{
    if entity.about().description.requires_session {
        sessions_in(alloc, entity.part(Part::Main))
    } else {
        Ok(0)
    }
}

fn sessions_in(alloc: Global, part: &PartStore) -> Result<u64, AllocError>
    ensures { IfOk result (λ n. n ≡ length (leaf_in part.now).sessions + length (looks.only_signs (leaf_in part.now))) }
{
    let signs = only_signs(alloc, part)?;
    Ok(part.sessions().size() as u64 + signs.len() as u64)
}

fn held_of(entity: &EntityStore) -> u64
    ensures { result ≡ (let e = entity_in entity.now in looks.of_sessions e (length (filter (λ x. is_some x.holder) e.main.sessions))) }
{
    if entity.about().description.requires_session {
        held_in(entity.part(Part::Main).sessions().as_slice())
    } else {
        0
    }
}

fn held_in(sessions: &[Session]) -> u64
    ensures { result ≡ length (filter (λ x. is_some x.holder) sessions.now) }
{
    let mut count = 0;
    for session in sessions {
        if session.holder.is_some() {
            count += 1;
        }
    }
    count
}
