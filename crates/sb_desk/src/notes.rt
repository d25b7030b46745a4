//! What one seat lets another know.
ghost use Rattle.std.specs.Prelude.{◌≡◌, List, [], None};
ghost use Rattle.sb_desk.specs.declared.view.Stage.TheVariants.{Idle};
ghost use Rattle.sb_desk.specs.declared.view.Stage.TheVariants as stages;
ghost use Rattle.sb_desk.specs.Lists.{IsFront, longer};
ghost use Rattle.sb_desk.specs.Steps.{IsSized, told, note_of};

use crate::Served;
use crate::plays::{Compare, Note, Tell};
use crate::turns::{COUNT, Place, Top};

/// What the seat has seen, in a seat without a number.
pub(crate) fn note<V: Served>(top: &Top<V>, place: &mut Place<V>) -> Place<V>
    requires table { (place.old.table_id ≡ top.now.table_id) × IsSized top.now.table_id }
    requires idle { place.old.me.0.stage ≡ Idle }
    ensures same { (place.new.table_id ≡ place.old.table_id) × (place.new.id ≡ place.old.id) × (place.new.me ≡ place.old.me) }
    ensures note { (result.table_id ≡ place.old.table_id) × (result.me ≡ (note_of place.old.me.0, [])) }
{
    top.split_seat::<Note>(place)
}

/// Takes in a note. Of the two lists one begins the other, and the seat has the longer one.
pub(crate) fn take_in<V: Served>(top: &Top<V>, place: &mut Place<V>, news: Place<V>)
    requires table { (place.old.table_id ≡ top.now.table_id) × IsSized top.now.table_id }
    requires news { (news.table_id ≡ top.now.table_id) × (news.me.0.stage ≡ stages.Note) × (news.me.0.parts ≡ 0) × (news.me.1 ≡ []) }
    requires idle { (place.old.me.0.stage ≡ Idle) × (place.old.me.0.post ≡ None) }
    ensures seat { (place.new.table_id ≡ place.old.table_id) × (place.new.id ≡ place.old.id) }
    ensures told { place.new.me ≡ (told place.old.me.0 news.me.0, place.old.me.1) }
    ensures longer { IsFront place.old.me.0.seen (longer place.old.me.0.seen news.me.0.seen) × IsFront news.me.0.seen (longer place.old.me.0.seen news.me.0.seen) }
{
    top.join_seat::<Tell>(place, news);
    top.load::<Compare>(place, COUNT);
}
