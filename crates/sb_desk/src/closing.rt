//! How passes are gathered again.
ghost use Rattle.std.specs.Prelude.{◌≡◌, ◌+◌, List, [], ◌++◌, None, length, map};
ghost use Rattle.sb_machine.specs.declared.history.Entry.{Entry};
ghost use Rattle.sb_desk.specs.declared.view.Stage.TheVariants.{Idle};
ghost use Rattle.sb_desk.specs.Desks.{claim_of};
ghost use Rattle.sb_desk.specs.Lists.{GoesOn, Each, HaveSeatsBelow};
ghost use Rattle.sb_desk.specs.Steps.{IsSized, gathered};

use crate::plays::Gather;
use crate::turns::{Place, Top, Whole};
use crate::view::Held;
use crate::{Pass, Served};

/// Takes in the seats of all these passes.
pub(crate) fn gather_all<V: Served>(top: &Top<V>, place: &mut Place<V>, passes: Vec<Pass>)
    requires table { (place.old.table_id ≡ top.now.table_id) × IsSized top.now.table_id }
    requires idle { place.old.me.0.stage ≡ Idle }
    requires passes { Each (λ p. p.desk ≡ top.now.table_id) passes.items }
    ensures seat { (place.new.table_id ≡ place.old.table_id) × (place.new.id ≡ place.old.id) }
    ensures all { place.new.me ≡ (record place.old.me.0 { parts = place.old.me.0.parts + length passes.items; claims = map claim_of passes.items ++ place.old.me.0.claims }, place.old.me.1) }
{
    let mut passes = passes;
    while let Some(pass) = passes.pop() {
        let Pass { badge, seat: _ } = pass;
        gather(top, place, badge.into_seat());
    }
}

// Takes in the seat of another pass.
fn gather<V: Served>(top: &Top<V>, place: &mut Place<V>, other: Place<V>)
    requires table { (place.old.table_id ≡ top.now.table_id) × IsSized top.now.table_id }
    requires idle { (place.old.me.0.stage ≡ Idle) × (other.table_id ≡ top.now.table_id) × (other.me.0.stage ≡ Idle) × (other.me.0.post ≡ None) × (other.me.1 ≡ []) }
    ensures seat { (place.new.table_id ≡ place.old.table_id) × (place.new.id ≡ place.old.id) }
    ensures both { place.new.me ≡ (gathered place.old.me.0 other.me.0, place.old.me.1) }
{
    top.join_seat::<Gather>(place, other);
}

/// The value, once a seat stands for all passes.
pub(crate) fn finish<V: Served>(table: Whole<V>, place: Place<V>) -> V
    requires table { (place.table_id ≡ table.shared.table_id) × IsSized table.shared.table_id }
    requires whole { (place.me.0.stage ≡ Idle) × (place.me.0.post ≡ None) × (place.me.0.parts ≡ table.shared.key.passes) }
    ensures { (log : List Entry) × V.stands result (V.state table.shared.key.value.value) log × (V.origin result ≡ V.origin table.shared.key.value.value)
        × GoesOn log place.me.0.seat place.me.0.seen × Each (λ c. GoesOn log c.seat c.seen) place.me.0.claims × HaveSeatsBelow table.shared.key.passes log }
{
    let mut closed = table.close_with(place);
    let slot = closed.take(0);
    closed.free();
    let Held {
        value,
        posts,
        answered: _,
    } = slot.unwrap();
    drop(posts);
    value
}
