//! The steps of a turn at the value.
ghost use Rattle.std.specs.Prelude.{◌≡◌, ℕ, ◌+◌, ◌<◌, List, [], ◌∷◌, ◌++◌, Option, Some, None, length};
ghost use Rattle.sb_machine.specs.declared.history.Entry.{Entry};
ghost use Rattle.sb_desk.specs.declared.post.Post.{Post};
ghost use Rattle.sb_desk.specs.declared.view.Ask as view_ask;
ghost use Rattle.sb_desk.specs.declared.view.Stage.TheVariants.{Idle, Waits, Turn, Out};
ghost use Rattle.sb_desk.specs.Entries.{entries_by};
ghost use Rattle.sb_desk.specs.Groups.{posts_by, asked_by, waiting_post, AreCarriedOut, IsTaken, posts_in, IsArranged};
ghost use Rattle.sb_desk.specs.Lists.{HaveSeatsBelow};
ghost use Rattle.sb_desk.specs.Posts.{asked_of, post_entries};
ghost use Rattle.sb_desk.specs.Rule.{word, ticket_of, log_of, posts_of};
ghost use Rattle.sb_desk.specs.Steps.{IsSized, Knows, placed, last_ask};

use crate::Served;
use crate::bells::{Bells, bell_of};
use crate::plays::{Ask, Collect, Draw, Give, Leave, Look, Record, Take};
use crate::view::{Held, Key, Turns, View};
use atomic_table::{Seat, Shared, Table};
use std::alloc::Global;
use std::sync::Wait;

pub(crate) type Top<V> = Shared<Option<Held<V>>, View, Key<V>, Turns<V>>;

pub(crate) type Place<V> = Seat<Option<Held<V>>, View>;

pub(crate) type Whole<V> = Table<Option<Held<V>>, View, Key<V>, Turns<V>, Global>;

/// The word that counts the entries.
pub(crate) const COUNT: usize = 0;

const TICKET: usize = 1;

const SERVING: usize = 2;

pub(crate) fn draw<V: Served>(top: &Top<V>, place: &mut Place<V>) -> u64
    requires table { (place.old.table_id ≡ top.now.table_id) × IsSized top.now.table_id }
    requires idle { (place.old.me.0.stage ≡ Idle) × (0 < place.old.me.0.parts) }
    ensures seat { (place.new.table_id ≡ place.old.table_id) × (place.new.id ≡ place.old.id) }
    ensures drawn { (k : ℕ) × (word k ≡ result) × (place.new.me ≡ (placed (Waits k) place.old.me.0, place.old.me.1)) }
{
    top.fetch_add::<Draw>(place, TICKET, 1)
}

// The bell is read before the turn is looked at: who is rung for in between doesn't sleep.
pub(crate) fn wait<V: Served, R: Wait>(
    rt: &R,
    top: &Top<V>,
    bells: &Bells,
    place: &mut Place<V>,
    ticket: u64,
)
    requires table { (place.old.table_id ≡ top.now.table_id) × IsSized top.now.table_id }
    requires waits { (place.old.me.0.stage ≡ Waits (ticket_of place.old.me.0.stage)) × (word (ticket_of place.old.me.0.stage) ≡ ticket) }
    ensures seat { (place.new.table_id ≡ place.old.table_id) × (place.new.id ≡ place.old.id) }
    ensures turn { place.new.me ≡ (placed (Turn (ticket_of place.old.me.0.stage)) place.old.me.0, place.old.me.1) }
{
    let bell = bell_of(ticket);
    for _ in rt.forever() {
        let rung = bells.words().peek(bell);
        let found = top.load::<Look>(place, SERVING);
        if found == ticket {
            return;
        }
        bells.words().park(rt, bell, (rung & 0xffff_ffff) as u32);
    }
    unreachable!()
}

// The value and the posts beside it.
pub(crate) fn take_out<V: Served>(top: &Top<V>, place: &mut Place<V>) -> Held<V>
    requires table { (place.old.table_id ≡ top.now.table_id) × IsSized top.now.table_id }
    requires turn { (place.old.me.0.stage ≡ Turn (ticket_of place.old.me.0.stage)) × (place.old.me.1 ≡ []) }
    ensures seat { (place.new.table_id ≡ place.old.table_id) × (place.new.id ≡ place.old.id) }
    ensures out { (log : List Entry) × (place.new.me ≡ (placed (Out (ticket_of place.old.me.0.stage) log (posts_in result)) place.old.me.0, (0, None) ∷ [])) × V.stands result.value place.old.me.0.start log × Knows log (posts_in result) place.old.me.0 }
    ensures value { (V.origin result.value ≡ place.old.me.0.origin) × IsArranged place.old.me.0.passes result }
{
    top.load::<Take>(place, COUNT);
    top.exchange(place, 0, None).unwrap()
}

/// The value goes home with one post more, which is this seat's.
pub(crate) fn give_post<V: Served>(top: &Top<V>, place: &mut Place<V>, held: Held<V>)
    requires table { (place.old.table_id ≡ top.now.table_id) × IsSized top.now.table_id }
    requires out { (place.old.me.0.stage ≡ Out (ticket_of place.old.me.0.stage) (log_of place.old.me.0.stage) (posts_of place.old.me.0.stage)) × (place.old.me.1 ≡ (0, None) ∷ []) × (place.old.me.0.post ≡ None) }
    requires value { V.stands held.value place.old.me.0.start (log_of place.old.me.0.stage) × (V.origin held.value ≡ place.old.me.0.origin) × IsArranged place.old.me.0.passes held }
    requires post { (ask : view_ask.Ask) × (posts_in held ≡ posts_of place.old.me.0.stage ++ waiting_post place.old.me.0.seat ask ∷ []) }
    ensures seat { (place.new.table_id ≡ place.old.table_id) × (place.new.id ≡ place.old.id) }
    ensures turn { place.new.me ≡ (record place.old.me.0 { post = last_ask (posts_in held); stage = Turn (ticket_of place.old.me.0.stage) }, []) }
{
    let old = top.exchange(place, 0, Some(held));
    let None = old else { unreachable!() };
    top.fetch_add::<Ask>(place, COUNT, 0);
    top.load::<Give>(place, COUNT);
}

/// What a group came to is in the history, and the value is still out.
pub(crate) fn record_group<V: Served>(
    top: &Top<V>,
    place: &mut Place<V>,
    held: Held<V>,
    count: u64,
) -> Held<V>
    requires table { (place.old.table_id ≡ top.now.table_id) × IsSized top.now.table_id }
    requires out { (place.old.me.0.stage ≡ Out (ticket_of place.old.me.0.stage) (log_of place.old.me.0.stage) (posts_of place.old.me.0.stage)) × (place.old.me.1 ≡ (0, None) ∷ []) }
    requires group { (made : List Entry) × (count ≡ length made) × AreCarriedOut (posts_of place.old.me.0.stage) (posts_in held) made × HaveSeatsBelow place.old.me.0.passes made × V.stands held.value place.old.me.0.start (log_of place.old.me.0.stage ++ made) }
    ensures seat { (place.new.table_id ≡ place.old.table_id) × (place.new.id ≡ place.old.id) }
    ensures held { result ≡ held }
    ensures out { (log : List Entry) × (place.new.me ≡ (placed (Out (ticket_of place.old.me.0.stage) log (posts_in held)) place.old.me.0, (0, None) ∷ [])) × V.stands held.value place.old.me.0.start log × Knows log (posts_in held) place.old.me.0 }
{
    let old = top.exchange(place, 0, Some(held));
    let None = old else { unreachable!() };
    top.fetch_add::<Record>(place, COUNT, count);
    top.exchange(place, 0, None).unwrap()
}

/// The value goes home without the post of this seat, which has seen the history up to what its call came to.
pub(crate) fn give_rest<V: Served>(top: &Top<V>, place: &mut Place<V>, held: Held<V>)
    requires table { (place.old.table_id ≡ top.now.table_id) × IsSized top.now.table_id }
    requires out { (place.old.me.0.stage ≡ Out (ticket_of place.old.me.0.stage) (log_of place.old.me.0.stage) (posts_of place.old.me.0.stage)) × (place.old.me.1 ≡ (0, None) ∷ []) }
    requires value { V.stands held.value place.old.me.0.start (log_of place.old.me.0.stage) × (V.origin held.value ≡ place.old.me.0.origin) × IsArranged place.old.me.0.passes held }
    requires post { (ask : view_ask.Ask) × (p : Post) × (place.old.me.0.post ≡ Some ask) × IsTaken place.old.me.0.seat (posts_of place.old.me.0.stage) p (posts_in held) }
    ensures seat { (place.new.table_id ≡ place.old.table_id) × (place.new.id ≡ place.old.id) }
    ensures turn { (p : Post) × (before : List Entry) × (after : List Entry) × (posts_by place.old.me.0.seat (posts_of place.old.me.0.stage) ≡ p ∷ [])
        × (log_of place.old.me.0.stage ≡ place.old.me.0.seen ++ ((before ++ post_entries p) ++ after)) × (entries_by place.old.me.0.seat before ≡ [])
        × (place.new.me ≡ (record place.old.me.0 { seen = place.old.me.0.seen ++ (before ++ post_entries p); post = None; stage = Turn (ticket_of place.old.me.0.stage) }, []))
        × ((ask : view_ask.Ask) → place.old.me.0.post ≡ Some ask → asked_of p ≡ asked_by place.old.me.0.seat ask) }
{
    let old = top.exchange(place, 0, Some(held));
    let None = old else { unreachable!() };
    top.fetch_add::<Collect>(place, COUNT, 0);
    top.load::<Give>(place, COUNT);
}

// The seat of the next ticket has the turn, and is woken.
pub(crate) fn leave<V: Served>(top: &Top<V>, bells: &Bells, place: &mut Place<V>)
    requires table { (place.old.table_id ≡ top.now.table_id) × IsSized top.now.table_id }
    requires turn { place.old.me.0.stage ≡ Turn (ticket_of place.old.me.0.stage) }
    ensures seat { (place.new.table_id ≡ place.old.table_id) × (place.new.id ≡ place.old.id) }
    ensures idle { place.new.me ≡ (placed Idle place.old.me.0, place.old.me.1) }
{
    let served = top.fetch_add::<Leave>(place, SERVING, 1);
    bells.ring(served.wrapping_add(1));
}
