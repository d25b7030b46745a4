// What the messages of a send would do, one after another.
ghost use Rattle.std.specs.Prelude.{◌≡◌, ◌++◌, ◌∷◌, [], false, IfOk, OnOk, option_map};
ghost use Rattle.sb_entities.specs.Stores.{entity_in, space_in};
ghost use Rattle.sb_fanout.specs.Lasts.{given_in, none_given, is_listed};
ghost use Rattle.sb_machine.specs.Messages as messages;
ghost use Rattle.sb_machine.specs.Namespace.{entity_of, key_of, listed};
ghost use Rattle.sb_machine.specs.Sending as spec;
ghost use Rattle.sb_machine.specs.declared.call.Part.TheVariants.{Main};
ghost use Rattle.sb_machine.specs.declared.change.Change.TheVariants.{Notes};
ghost use Rattle.sb_machine.specs.declared.state.Space.{Space as ASpace};
ghost use Rattle.sb_model.specs.declared.message.SystemName.TheVariants.{MessageId};
ghost use Rattle.sb_engine.specs.Sendings as sendings;
ghost use Rattle.sb_engine.specs.Sendings.{told, Comes, IsUnderWay, SendsAll, SendsOne};

use crate::deliver::release::in_part;
use sb_entities::{EntityStore, SpaceStore};
use sb_fanout::{Lasts, deliver};
use sb_machine::{Change, Changes, Fresh, LeafChange, LeafKey, Part, Receipt, Standing, text_of};
use sb_model::{Message, SystemName, Text};
use sb_repeats::Window;
use std::alloc::{AllocError, Global};

/// How far a send has been planned.
#[derive(Drop)]
pub struct Sending {
    /// The numbers that the plan has given.
    pub lasts: Lasts,
    /// The ids that its messages brought.
    pub noted: Vec<Text>,
    pub changes: Changes,
    pub receipts: Vec<Receipt>,
}

impl Sending {
    /// Nothing yet, behind these changes; takes no memory.
    pub fn behind(alloc: Global, changes: Changes) -> Sending
        ensures given { given_in result.lasts ≡ none_given }
        ensures fresh { result.noted.items ≡ [] }
        ensures changes { result.changes ≡ changes }
        ensures receipts { result.receipts.items ≡ [] }
    {
        Sending {
            lasts: Lasts::new(alloc),
            noted: Vec::new(alloc),
            changes,
            receipts: Vec::new(alloc),
        }
    }
}

// ---- ids

fn id_of(message: &Message) -> Option<&str>
    ensures { option_map (λ id. id.now) result ≡ messages.text_of MessageId message.now }
{
    match text_of(message, SystemName::MessageId) {
        Some(text) => Some(text.as_str()),
        None => None,
    }
}

fn is_noted(noted: &[Text], id: &str) -> bool
    ensures { result ≡ sendings.is_noted noted.now id.now }
{
    noted.iter().any(|x| x.as_str() == id)
}

fn is_known_with(seconds: u64, ids: &Window, noted: &[Text], moment: u64, id: &str) -> bool
    ensures { result ≡ sendings.is_known_with seconds ids.now.ids noted.now id.now moment }
{
    ids.is_known(seconds, id, moment) || (0 < seconds && is_noted(noted, id))
}

// Whether an equal id was accepted under the entity's window, or was brought by a message before.
fn knows(entity: Option<&EntityStore>, noted: &[Text], moment: u64, id: &str) -> bool
    ensures { result ≡ sendings.knows_so_far moment (option_map (λ e. entity_in e.now) entity.entry) noted.now id.now }
{
    let Some(entity) = entity else {
        return false;
    };
    match entity.about().description.window {
        Some(seconds) => is_known_with(seconds, entity.ids(), noted, moment, id),
        None => false,
    }
}

fn is_repeat(entity: Option<&EntityStore>, noted: &[Text], moment: u64, message: &Message) -> bool
    ensures { result ≡ sendings.is_repeat_so_far moment (option_map (λ e. entity_in e.now) entity.entry) noted.now message.now }
{
    match id_of(message) {
        Some(id) => knows(entity, noted, moment, id),
        None => false,
    }
}

fn note_id(
    alloc: Global,
    entity: u64,
    noted: &mut Vec<Text>,
    changes: &mut Changes,
    id: &str,
) -> Result<(), AllocError>
    ensures fresh { OnOk result (noted.new.items ≡ noted.old.items ++ id.now ∷ []) }
    ensures changes { OnOk result (changes.new ≡ changes.old ++ Notes entity id.now ∷ []) }
{
    changes.push(Change::Notes {
        entity,
        id: Text::of(alloc, id)?,
    })?;
    noted.push(Text::of(alloc, id)?)?;
    Ok(())
}

// Notes the id that a message brings where the entity has a window.
fn note(
    alloc: Global,
    entity: &EntityStore,
    noted: &mut Vec<Text>,
    changes: &mut Changes,
    message: &Message,
) -> Result<(), AllocError>
    ensures fresh { OnOk result (noted.new.items ≡ noted.old.items ++ sendings.noted_of (entity_in entity.now) message.now) }
    ensures changes { OnOk result (changes.new ≡ changes.old ++ spec.noting (entity_in entity.now) message.now) }
{
    let Some(_) = entity.about().description.window else {
        return Ok(());
    };
    let Some(id) = id_of(message) else {
        return Ok(());
    };
    note_id(alloc, entity.about().number, noted, changes, id)
}

// ---- one message

/// A message as it enters: it waits for no moment.
pub fn copy_of(message: &Message) -> Result<Message, AllocError>
    ensures { IfOk result (λ m. m ≡ spec.unscheduled message.now) }
{
    let mut copy = message.clone()?;
    copy.schedule = None;
    Ok(copy)
}

fn key_of_main(entity: &EntityStore) -> LeafKey
    ensures { result ≡ key_of Main (entity_in entity.now) }
{
    LeafKey {
        entity: entity.about().number,
        part: Part::Main,
    }
}

// It waits for its moment.
fn wait(
    lasts: &mut Lasts,
    changes: &mut Changes,
    entity: &EntityStore,
    moment: u64,
    message: &Message,
    at: u64,
) -> Result<(), AllocError>
    ensures { (read : ASpace) → OnOk result (Comes moment read (entity_in entity.now).about.number (λ s. spec.waiting (entity_in entity.now) message.now at) (given_in lasts.old) (given_in lasts.new) changes.old changes.new) }
{
    let fresh = Fresh {
        seq: None,
        hops: 0,
        standing: Standing::Scheduled(at),
        message: copy_of(message)?,
    };
    changes.push(in_part(entity, Part::Main, LeafChange::Enters(fresh)))?;
    lasts.raise(key_of_main(entity))
}

fn enter(
    alloc: Global,
    space: &SpaceStore,
    lasts: &mut Lasts,
    changes: &mut Changes,
    entity: &EntityStore,
    moment: u64,
    message: &Message,
) -> Result<(), AllocError>
    ensures { OnOk result (Comes moment (space_in space.now) (entity_in entity.now).about.number (spec.entering (entity_in entity.now) message.now) (given_in lasts.old) (given_in lasts.new) changes.old changes.new) }
{
    let copy = copy_of(message)?;
    deliver(alloc, space, lasts, changes, entity.about(), copy)
}

// The moment that it waits for, where that is still to come.
fn waits_for(message: &Message, moment: u64) -> Option<u64>
    ensures { result ≡ sendings.waits_for moment message.now }
{
    match message.schedule {
        Some(at) => { if moment < at { Some(at) } else { None } }
        None => None,
    }
}

fn come(
    alloc: Global,
    space: &SpaceStore,
    lasts: &mut Lasts,
    changes: &mut Changes,
    entity: &EntityStore,
    moment: u64,
    message: &Message,
) -> Result<(), AllocError>
    ensures { OnOk result (Comes moment (space_in space.now) (entity_in entity.now).about.number (spec.coming moment (entity_in entity.now) message.now) (given_in lasts.old) (given_in lasts.new) changes.old changes.new) }
{
    match waits_for(message, moment) {
        Some(at) => wait(lasts, changes, entity, moment, message, at),
        None => enter(alloc, space, lasts, changes, entity, moment, message),
    }
}

// A message that is no repeat gets its number, its id is noted, and it comes in.
fn accept(
    alloc: Global,
    space: &SpaceStore,
    sending: &mut Sending,
    entity: &EntityStore,
    moment: u64,
    message: &Message,
) -> Result<(), AllocError>
    requires under_way { IsUnderWay moment (space_in space.now) (entity_in entity.now).about.number (told sending.old) }
    requires new { spec.is_repeat moment (entity_in entity.now) message.now (sendings.space_at moment (space_in space.now) (told sending.old)) ≡ false }
    ensures { OnOk result (SendsOne moment (space_in space.now) (entity_in entity.now) message.now (told sending.old) (told sending.new)) }
{
    let number = sending.lasts.next(space, key_of_main(entity))?;
    sending.receipts.push(Receipt::Number(number))?;
    note(
        alloc,
        entity,
        &mut sending.noted,
        &mut sending.changes,
        message,
    )?;
    come(
        alloc,
        space,
        &mut sending.lasts,
        &mut sending.changes,
        entity,
        moment,
        message,
    )
}

fn send_one(
    alloc: Global,
    space: &SpaceStore,
    sending: &mut Sending,
    entity: &EntityStore,
    moment: u64,
    message: &Message,
) -> Result<(), AllocError>
    requires { IsUnderWay moment (space_in space.now) (entity_in entity.now).about.number (told sending.old) }
    ensures { OnOk result (SendsOne moment (space_in space.now) (entity_in entity.now) message.now (told sending.old) (told sending.new)) }
{
    let known = space.entity(entity.about().number);
    if is_repeat(known, sending.noted.as_slice(), moment, message) {
        sending.receipts.push(Receipt::Duplicate)?;
        return Ok(());
    }
    accept(alloc, space, sending, entity, moment, message)
}

// ---- all of them

/// Messages are sent to an entity at `moment`, in ms since 1970, one after another: changes and
/// receipts behind those of a plan. Where memory is wanting, the plan is lost.
pub fn send_all(
    alloc: Global,
    space: &SpaceStore,
    sending: &mut Sending,
    entity: &EntityStore,
    moment: u64,
    messages: &[Message],
) -> Result<(), AllocError>
    requires { IsUnderWay moment (space_in space.now) (entity_in entity.now).about.number (told sending.old) }
    ensures { OnOk result (SendsAll moment (space_in space.now) (entity_in entity.now) messages.now (told sending.old) (told sending.new)) }
{
    for message in messages {
        send_one(alloc, space, sending, entity, moment, message)?;
    }
    Ok(())
}
