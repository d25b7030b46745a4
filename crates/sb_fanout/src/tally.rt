// What has come of a message under way.
ghost use Rattle.std.specs.Prelude.{◌≡◌, [], ◌∷◌, ◌++◌, ◌+◌, IfOk, Some};
ghost use Rattle.sb_machine.specs.Visits.{visit, ends, stays};
ghost use Rattle.sb_machine.specs.declared.call.Part.TheVariants.{Main};
ghost use Rattle.sb_machine.specs.Leaves.{seq_or};
ghost use Rattle.sb_machine.specs.declared.change.Change.TheVariants.{InLeaf};
ghost use Rattle.sb_fanout.specs.Lasts.{raised, given_in};
ghost use Rattle.sb_fanout.specs.Tallies.{Visits, told};

use crate::Lasts;
use sb_machine::{
    Cause, Change, Changes, Directory, Fresh, LeafChange, LeafKey, Listed, Part, Standing,
};
use sb_model::Message;
use std::alloc::{AllocError, Global};

/// What a message meets on its way.
#[derive(Drop)]
pub(crate) struct Course<'a, N> {
    pub alloc: Global,
    pub directory: &'a N,
}

/// What has come of a message so far.
#[derive(Drop)]
pub(crate) struct Tally {
    pub lasts: Lasts,
    /// EnqueuedSequenceNumber, once there is one.
    pub seq: Option<u64>,
    pub changes: Changes,
}

/// These with one more.
fn with_change(changes: Changes, change: Change) -> Result<Changes, AllocError>
    ensures { IfOk result (λ c. c ≡ changes ++ change ∷ []) }
{
    let mut changes = changes;
    let Ok(()) = changes.push(change) else {
        drop(changes);
        return Err(AllocError);
    };
    Ok(changes)
}

/// A number is given in a part.
fn given<N: Directory>(
    course: &Course<N>,
    tally: Tally,
    key: LeafKey,
    change: LeafChange,
) -> Result<Tally, AllocError>
    ensures { IfOk result (λ after. told after ≡ record {
      given = raised key (given_in tally.lasts);
      seq = Some (seq_or tally.seq (N.last_of course.now.directory.now key + given_in tally.lasts key + 1));
      changes = tally.changes ++ InLeaf key change ∷ [];
    }) }
{
    let Tally {
        lasts,
        seq,
        changes,
    } = tally;
    let mut lasts = lasts;
    let seq = match seq {
        Some(seq) => seq,
        None => match lasts.next(course.directory, key) {
            Ok(seq) => seq,
            Err(fault) => {
                drop(changes);
                drop(change);
                return Err(fault);
            }
        },
    };
    let Ok(()) = lasts.raise(key) else {
        drop(changes);
        drop(change);
        return Err(AllocError);
    };
    Ok(Tally {
        lasts,
        seq: Some(seq),
        changes: with_change(changes, Change::InLeaf { key, change })?,
    })
}

/// A number of a main part ends at once.
pub(crate) fn end<N: Directory>(
    course: &Course<N>,
    tally: Tally,
    entity: &Listed,
    cause: Cause,
) -> Result<Tally, AllocError>
    ensures { Visits (N.last_of course.now.directory.now) tally (visit entity.now Main (ends cause) ∷ []) result }
{
    let key = LeafKey {
        entity: entity.number,
        part: Part::Main,
    };
    given(course, tally, key, LeafChange::Passes(cause))
}

/// The message stays in a part.
pub(crate) fn stay<N: Directory>(
    course: &Course<N>,
    tally: Tally,
    entity: &Listed,
    part: Part,
    hops: u8,
    message: Message,
) -> Result<Tally, AllocError>
    ensures { Visits (N.last_of course.now.directory.now) tally (visit entity.now part (stays hops message) ∷ []) result }
{
    let key = LeafKey {
        entity: entity.number,
        part,
    };
    let fresh = Fresh {
        seq: tally.seq,
        hops,
        standing: Standing::Ready,
        message,
    };
    given(course, tally, key, LeafChange::Enters(fresh))
}
