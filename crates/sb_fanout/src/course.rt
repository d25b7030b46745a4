// The way of a message: through topics to subscriptions, and on from entity to entity.
ghost use Rattle.std.specs.Prelude.{◌≡◌, ◌-◌, map, IfOk};
ghost use Rattle.std.specs.List.{flat_map};
ghost use Rattle.sb_machine.specs.Visits as visits;
ghost use Rattle.sb_machine.specs.Visits.{transferred, entered_by};
ghost use Rattle.sb_fanout.specs.Tallies.{Visits};

use crate::messages::{cut_to, for_reason, has_session};
use crate::tally::{Course, Tally, end, stay};
use sb_machine::{Cause, DeadReason, Directory, EntityKind, Listed, Outcome, Part};
use sb_model::{Message, Rows};
use sb_rules::copies;
use std::alloc::AllocError;

/// A message is forwarded at most so often.
const MAX_HOPS: u8 = 4;

fn copy_of(message: &Message) -> Result<Message, AllocError>
    ensures { IfOk result (λ m. m ≡ message.now) }
{
    message.clone()
}

/// The message can't go on, and stays in the entity's transfer part.
fn fail<N: Directory>(
    course: &Course<N>,
    tally: Tally,
    hops: u8,
    entity: &Listed,
    reason: DeadReason,
    message: Message,
) -> Result<Tally, AllocError>
    ensures { Visits (N.last_of course.now.directory.now) tally (visits.failed hops entity.now reason message) result }
{
    let Ok(message) = for_reason(course.alloc, reason, message) else {
        drop(tally);
        return Err(AllocError);
    };
    stay(course, tally, entity, Part::Transfer, hops, message)
}

#[cycle(course)]
pub(crate) fn transfer<N: Directory>(
    course: &Course<N>,
    tally: Tally,
    hops: u8,
    entity: &Listed,
    message: Message,
    to: &str,
) -> Result<Tally, AllocError>
    ensures { Visits (N.last_of course.now.directory.now) tally (transferred (4 - hops) (N.listed course.now.directory.now) entity.now message to.now) result }
{
    if hops >= MAX_HOPS {
        return fail(
            course,
            tally,
            MAX_HOPS,
            entity,
            DeadReason::TooManyHops,
            message,
        );
    }
    let Some(target) = course.directory.destination(to) else {
        return fail(
            course,
            tally,
            hops,
            entity,
            DeadReason::NoDestination,
            message,
        );
    };
    enter(course, tally, hops + 1, target, message)
}

#[cycle(course)]
pub(crate) fn enter<N: Directory>(
    course: &Course<N>,
    tally: Tally,
    hops: u8,
    entity: &Listed,
    message: Message,
) -> Result<Tally, AllocError>
    ensures { Visits (N.last_of course.now.directory.now) tally (entered_by (transferred (4 - hops) (N.listed course.now.directory.now)) hops (N.listed course.now.directory.now) entity.now message) result }
{
    match entity.kind {
        EntityKind::Topic => fan(course, tally, hops, entity, cut_to(entity, message)),
        EntityKind::Queue | EntityKind::Subscription => come(course, tally, hops, entity, message),
    }
}

#[cycle(course)]
fn fan<N: Directory>(
    course: &Course<N>,
    tally: Tally,
    hops: u8,
    entity: &Listed,
    message: Message,
) -> Result<Tally, AllocError>
    ensures { Visits (N.last_of course.now.directory.now) tally (visits.fanned (transferred (4 - hops) (N.listed course.now.directory.now)) hops (N.listed course.now.directory.now) entity.now message) result }
{
    let Ok(tally) = end(course, tally, entity, Cause::Fanned) else {
        drop(message);
        return Err(AllocError);
    };
    let Ok(subscriptions) = course
        .directory
        .subscriptions_of(course.alloc, entity.path.name.as_str())
    else {
        drop(tally);
        drop(message);
        return Err(AllocError);
    };
    let result = offer_each(course, tally, hops, &subscriptions, &message);
    drop(message);
    result
}

#[cycle(course)]
fn offer_each<N: Directory>(
    course: &Course<N>,
    tally: Tally,
    hops: u8,
    subscriptions: &[&Listed],
    message: &Message,
) -> Result<Tally, AllocError>
    ensures { Visits (N.last_of course.now.directory.now) tally (flat_map (visits.offered (transferred (4 - hops) (N.listed course.now.directory.now)) hops message.now) (map (λ e. e.now) subscriptions.now)) result }
{
    let mut tally = tally;
    'subscriptions: for subscription in subscriptions {
        tally = offer(course, tally, hops, subscription, message)?;
    }
    Ok(tally)
}

#[cycle(course)]
fn offer<N: Directory>(
    course: &Course<N>,
    tally: Tally,
    hops: u8,
    entity: &Listed,
    message: &Message,
) -> Result<Tally, AllocError>
    ensures { Visits (N.last_of course.now.directory.now) tally (visits.offered (transferred (4 - hops) (N.listed course.now.directory.now)) hops message.now entity.now) result }
{
    let Ok(outcome) = copies(course.alloc, entity, message) else {
        drop(tally);
        return Err(AllocError);
    };
    match outcome {
        Outcome::Copies(messages) => come_each(course, tally, hops, entity, messages),
        Outcome::Dead => {
            let Ok(copy) = copy_of(message) else {
                drop(tally);
                return Err(AllocError);
            };
            let message = cut_to(entity, copy);
            dead_letter(course, tally, hops, entity, DeadReason::RuleFailed, message)
        }
        Outcome::Dropped => Ok(tally),
    }
}

#[cycle(course)]
fn come_each<N: Directory>(
    course: &Course<N>,
    tally: Tally,
    hops: u8,
    entity: &Listed,
    messages: Rows<Message>,
) -> Result<Tally, AllocError>
    ensures { Visits (N.last_of course.now.directory.now) tally (flat_map (visits.came_to (transferred (4 - hops) (N.listed course.now.directory.now)) hops entity.now) messages) result }
{
    let mut tally = tally;
    'messages: for message in messages.into_vec() {
        tally = come(course, tally, hops, entity, message)?;
    }
    Ok(tally)
}

#[cycle(course)]
fn come<N: Directory>(
    course: &Course<N>,
    tally: Tally,
    hops: u8,
    entity: &Listed,
    message: Message,
) -> Result<Tally, AllocError>
    ensures { Visits (N.last_of course.now.directory.now) tally (visits.came_to (transferred (4 - hops) (N.listed course.now.directory.now)) hops entity.now message) result }
{
    let message = cut_to(entity, message);
    if entity.description.requires_session && !has_session(&message) {
        return dead_letter(course, tally, hops, entity, DeadReason::NoSession, message);
    }
    settle(course, tally, hops, entity, message)
}

#[cycle(course)]
fn settle<N: Directory>(
    course: &Course<N>,
    tally: Tally,
    hops: u8,
    entity: &Listed,
    message: Message,
) -> Result<Tally, AllocError>
    ensures { Visits (N.last_of course.now.directory.now) tally (visits.settled_in (transferred (4 - hops) (N.listed course.now.directory.now)) hops entity.now message) result }
{
    let Some(to) = &entity.description.forward_to else {
        return stay(course, tally, entity, Part::Main, hops, message);
    };
    let Ok(tally) = end(course, tally, entity, Cause::Forwarded) else {
        drop(message);
        return Err(AllocError);
    };
    transfer(course, tally, hops, entity, message, to.as_str())
}

#[cycle(course)]
fn dead_letter<N: Directory>(
    course: &Course<N>,
    tally: Tally,
    hops: u8,
    entity: &Listed,
    reason: DeadReason,
    message: Message,
) -> Result<Tally, AllocError>
    ensures { Visits (N.last_of course.now.directory.now) tally (visits.dead_lettered (transferred (4 - hops) (N.listed course.now.directory.now)) hops entity.now reason message) result }
{
    let Ok(tally) = end(course, tally, entity, Cause::DeadLettered) else {
        drop(message);
        return Err(AllocError);
    };
    let Ok(message) = for_reason(course.alloc, reason, message) else {
        drop(tally);
        return Err(AllocError);
    };
    bury_in(course, tally, hops, entity, message)
}

#[cycle(course)]
pub(crate) fn bury_in<N: Directory>(
    course: &Course<N>,
    tally: Tally,
    hops: u8,
    entity: &Listed,
    message: Message,
) -> Result<Tally, AllocError>
    ensures { Visits (N.last_of course.now.directory.now) tally (visits.buried (transferred (4 - hops) (N.listed course.now.directory.now)) hops entity.now message) result }
{
    let Some(to) = &entity.description.forward_dead_to else {
        return stay(course, tally, entity, Part::Dead, hops, message);
    };
    transfer(course, tally, hops, entity, message, to.as_str())
}
