//! What a pass does with its turn: it adds a call to the posts, or takes the answer to its own. Who finds no answer carries out all calls that
//! wait, one behind another, as one group.
ghost use Rattle.std.specs.Prelude.{◌≡◌, ℕ, ◌+◌, ◌≤◌, ◌<◌, ◌==◌, true, List, [], ◌∷◌, ◌++◌, map, take, drop, Option, Some, None, is_some, length, vec_capacity};
ghost use Rattle.std.specs.List.{All, position, position_or_len};
ghost use Rattle.sb_machine.specs.Consistent.{IsConsistent};
ghost use Rattle.sb_machine.specs.History.{IsLegal};
ghost use Rattle.sb_machine.specs.Ordered.{IsActInOrder};
ghost use Rattle.sb_machine.specs.declared.history.Entry.{Entry};
ghost use Rattle.sb_machine.specs.declared.state.State.{State};
ghost use Rattle.sb_desk.specs.declared.post.Post.{Post};
ghost use Rattle.sb_desk.specs.declared.view.Ask.{Ask};
ghost use Rattle.sb_desk.specs.declared.view.Stage.TheVariants.{Idle, Turn, Out};
ghost use Rattle.sb_desk.specs.Entries.{made_by, entries_by};
ghost use Rattle.sb_desk.specs.Groups.{posts_by, IsTaken, posts_in, IsArranged};
ghost use Rattle.sb_desk.specs.Lists.{HaveSeatsBelow, IsEnd};
ghost use Rattle.sb_desk.specs.Posts.{asked_of, post_entries, group_entries};
ghost use Rattle.sb_desk.specs.Rule.{ticket_of, log_of};
ghost use Rattle.sb_desk.specs.Spared.{Spares};
ghost use Rattle.sb_desk.specs.Steps.{IsSized, Knows, placed};

use crate::bells::Bells;
use crate::beside::Beside;
use crate::turns::{Place, Top, draw, give_post, give_rest, leave, record_group, take_out, wait};
use crate::view::Held;
use crate::{Post, Served, Stepped, Went};
use sb_machine::{Answer, Call};
use std::sync::Wait;

/// Adds a call to the posts. The seat waits for its turn, and has none when it returns.
pub(crate) fn post_one<V: Served, R: Wait>(
    rt: &R,
    top: &Top<V>,
    bells: &Bells,
    place: &mut Place<V>,
    seat: u64,
    reading: u64,
    call: Call,
)
    requires table { (place.old.table_id ≡ top.now.table_id) × IsSized top.now.table_id }
    requires idle { (place.old.me.0.stage ≡ Idle) × (place.old.me.1 ≡ []) × (0 < place.old.me.0.parts) × (place.old.me.0.post ≡ None) × (place.old.me.0.seat ≡ seat) }
    requires order { IsActInOrder call.act }
    ensures seat { (place.new.table_id ≡ place.old.table_id) × (place.new.id ≡ place.old.id) }
    ensures posted { place.new.me ≡ (record place.old.me.0 { post = Some (record { reading = reading; call = call }); stage = Idle }, []) }
{
    let ticket = draw(top, place);
    wait(rt, top, bells, place, ticket);
    let mut held = take_out(top, place);
    let post = Post {
        seat,
        reading,
        call,
        went: None,
    };
    add_post(&mut held.posts, post);
    give_post(top, place, held);
    leave(top, bells, place);
}

// One more post in a list that has room for it.
fn add_post(posts: &mut Vec<Post>, post: Post)
    requires room { length posts.old.items < vec_capacity posts.old }
    ensures items { posts.new.items ≡ posts.old.items ++ post ∷ [] }
    ensures room { vec_capacity posts.old ≤ vec_capacity posts.new }
{
    drop(posts.push(post));
}

/// Takes the answer to the call that this seat has posted, with the call. The seat waits for its turn, and has none when it returns.
pub(crate) fn collect_one<V: Served, R: Wait>(
    rt: &R,
    top: &Top<V>,
    beside: &Beside,
    place: &mut Place<V>,
    seat: u64,
) -> (Call, Answer)
    requires table { (place.old.table_id ≡ top.now.table_id) × IsSized top.now.table_id }
    requires idle { (place.old.me.0.stage ≡ Idle) × (place.old.me.1 ≡ []) × (0 < place.old.me.0.parts) × (place.old.me.0.seat ≡ seat) }
    requires posted { (ask : Ask) × (place.old.me.0.post ≡ Some ask) }
    ensures seat { (place.new.table_id ≡ place.old.table_id) × (place.new.id ≡ place.old.id) }
    ensures collected { (ask : Ask) × (tick : Option ℕ) × (between : List Entry) × (place.old.me.0.post ≡ Some ask) × (result.0 ≡ ask.call) × (entries_by place.old.me.0.seat between ≡ [])
        × (place.new.me ≡ (record place.old.me.0 { seen = place.old.me.0.seen ++ (between ++ made_by place.old.me.0.seat tick ask.reading ask.call result.1); post = None; stage = Idle }, [])) }
    ensures legal { IsConsistent place.new.me.0.start × IsLegal place.new.me.0.start place.new.me.0.seen }
    ensures spares { Spares V.spared place.new.me.0.start place.new.me.0.seen }
    ensures seats { HaveSeatsBelow place.new.me.0.passes place.new.me.0.seen }
{
    let ticket = draw(top, place);
    wait(rt, top, &beside.bells, place, ticket);
    let held = take_out(top, place);
    let held = answered(top, beside, place, held, seat);
    let answer = take_answer(top, place, held, seat);
    leave(top, &beside.bells, place);
    answer
}

// The call of this seat and its answer; the value goes home without its post.
fn take_answer<V: Served>(
    top: &Top<V>,
    place: &mut Place<V>,
    held: Held<V>,
    seat: u64,
) -> (Call, Answer)
    requires table { (place.old.table_id ≡ top.now.table_id) × IsSized top.now.table_id }
    requires out { (place.old.me.0.stage ≡ Out (ticket_of place.old.me.0.stage) (log_of place.old.me.0.stage) (posts_in held)) × (place.old.me.1 ≡ (0, None) ∷ []) }
    requires value { V.stands held.value place.old.me.0.start (log_of place.old.me.0.stage) × (V.origin held.value ≡ place.old.me.0.origin) × IsArranged place.old.me.0.passes held }
    requires numbered { HaveSeatsBelow place.old.me.0.passes (log_of place.old.me.0.stage) }
    requires mine { (place.old.me.0.seat ≡ seat) × ((ask : Ask) × (place.old.me.0.post ≡ Some ask)) }
    requires answered { position_or_len (λ p. p.seat == seat) (posts_in held) < held.answered }
    ensures seat { (place.new.table_id ≡ place.old.table_id) × (place.new.id ≡ place.old.id) }
    ensures collected { (ask : Ask) × (tick : Option ℕ) × (between : List Entry) × (place.old.me.0.post ≡ Some ask) × (result.0 ≡ ask.call) × (entries_by place.old.me.0.seat between ≡ [])
        × (place.new.me ≡ (record place.old.me.0 { seen = place.old.me.0.seen ++ (between ++ made_by place.old.me.0.seat tick ask.reading ask.call result.1); post = None; stage = Turn (ticket_of place.old.me.0.stage) }, [])) }
    ensures legal { IsConsistent place.new.me.0.start × IsLegal place.new.me.0.start place.new.me.0.seen }
    ensures spares { Spares V.spared place.new.me.0.start place.new.me.0.seen }
    ensures seats { HaveSeatsBelow place.new.me.0.passes place.new.me.0.seen }
{
    let mut held = held;
    let post = take_own(&mut held.posts, &mut held.answered, seat);
    give_rest(top, place, held);
    let Post { call, went, .. } = post;
    let Went { answer, tick: _ } = went.unwrap();
    (call, answer)
}

// The value once the post of this seat has its answer.
fn answered<V: Served>(
    top: &Top<V>,
    beside: &Beside,
    place: &mut Place<V>,
    held: Held<V>,
    seat: u64,
) -> Held<V>
    requires table { (place.old.table_id ≡ top.now.table_id) × IsSized top.now.table_id }
    requires out { (place.old.me.0.stage ≡ Out (ticket_of place.old.me.0.stage) (log_of place.old.me.0.stage) (posts_in held)) × (place.old.me.1 ≡ (0, None) ∷ []) }
    requires value { V.stands held.value place.old.me.0.start (log_of place.old.me.0.stage) × (V.origin held.value ≡ place.old.me.0.origin) × IsArranged place.old.me.0.passes held }
    requires knows { Knows (log_of place.old.me.0.stage) (posts_in held) place.old.me.0 }
    requires mine { (place.old.me.0.seat ≡ seat) × ((ask : Ask) × (place.old.me.0.post ≡ Some ask)) }
    ensures seat { (place.new.table_id ≡ place.old.table_id) × (place.new.id ≡ place.old.id) }
    ensures out { (log : List Entry) × (place.new.me ≡ (placed (Out (ticket_of place.old.me.0.stage) log (posts_in result)) place.old.me.0, (0, None) ∷ [])) × V.stands result.value place.old.me.0.start log × Knows log (posts_in result) place.old.me.0 }
    ensures value { (V.origin result.value ≡ place.old.me.0.origin) × IsArranged place.old.me.0.passes result }
    ensures answered { position_or_len (λ p. p.seat == seat) (posts_in result) < result.answered }
{
    let at = place_of(&held.posts, seat).unwrap();
    if at < held.answered {
        return held;
    }
    lead(top, beside, place, held)
}

// Carries out all calls that wait, and tells the history.
fn lead<V: Served>(top: &Top<V>, beside: &Beside, place: &mut Place<V>, held: Held<V>) -> Held<V>
    requires table { (place.old.table_id ≡ top.now.table_id) × IsSized top.now.table_id }
    requires out { (place.old.me.0.stage ≡ Out (ticket_of place.old.me.0.stage) (log_of place.old.me.0.stage) (posts_in held)) × (place.old.me.1 ≡ (0, None) ∷ []) }
    requires value { V.stands held.value place.old.me.0.start (log_of place.old.me.0.stage) × (V.origin held.value ≡ place.old.me.0.origin) × IsArranged place.old.me.0.passes held }
    ensures seat { (place.new.table_id ≡ place.old.table_id) × (place.new.id ≡ place.old.id) }
    ensures out { (log : List Entry) × (place.new.me ≡ (placed (Out (ticket_of place.old.me.0.stage) log (posts_in result)) place.old.me.0, (0, None) ∷ [])) × V.stands result.value place.old.me.0.start log × Knows log (posts_in result) place.old.me.0 }
    ensures value { (V.origin result.value ≡ place.old.me.0.origin) × IsArranged place.old.me.0.passes result }
    ensures all { result.answered ≡ length (posts_in result) }
{
    let mut held = held;
    let stepped = carry_out(&mut held.value, &mut held.posts, held.answered);
    let count = count_of(&held.posts[held.answered..]);
    held.answered = held.posts.len();
    beside.note(&stepped);
    record_group(top, place, held, count)
}

// Carries out the calls behind the first ones.
fn carry_out<V: Served>(value: &mut V, posts: &mut Vec<Post>, first: usize) -> Stepped
    requires first { first ≤ length posts.old.items }
    requires order { All (λ p. IsActInOrder p.call.act) posts.old.items }
    ensures posts { (new : List Post) × (posts.new.items ≡ take first posts.old.items ++ new) × (map asked_of new ≡ map asked_of (drop first posts.old.items)) × All (λ p. is_some p.went ≡ true) new
        × ((from : State) (h : List Entry) → V.stands value.old from h → V.stands value.new from (h ++ group_entries new)) }
    ensures room { vec_capacity posts.new ≡ vec_capacity posts.old }
    ensures origin { V.origin value.new ≡ V.origin value.old }
{
    value.step_group(&mut posts[first..])
}

// How many entries these calls came to.
fn count_of(posts: &[Post]) -> u64
    ensures { result ≡ length (group_entries posts.now) }
{
    let mut count = 0;
    for post in posts {
        count += entries_of(post);
    }
    count
}

// How many entries a call came to.
fn entries_of(post: &Post) -> u64
    ensures count { result ≡ length (post_entries post.now) }
    ensures few { result ≤ 2 }
{
    match &post.went {
        Some(Went { tick: Some(_), .. }) => 2,
        Some(Went { tick: None, .. }) => 1,
        None => 0,
    }
}

fn is_of(post: &Post, seat: u64) -> bool
    ensures { result ≡ (post.now.seat == seat) }
{
    post.seat == seat
}

// Where the post of this seat stands.
fn place_of(posts: &Vec<Post>, seat: u64) -> Option<usize>
    ensures { result ≡ position (λ p. p.seat == seat) posts.now.items }
{
    posts.iter().position(|post| is_of(post, seat))
}

// The post of this seat, out of the answered ones.
fn take_own(posts: &mut Vec<Post>, answered: &mut usize, seat: u64) -> Post
    requires within { answered.old ≤ length posts.old.items }
    requires went { All (λ p. is_some p.went ≡ true) (take answered.old posts.old.items) }
    requires mine { position_or_len (λ p. p.seat == seat) posts.old.items < answered.old }
    ensures taken { (at : ℕ) × (at < answered.old) × (position (λ p. p.seat == seat) posts.old.items ≡ Some at) × (posts.new.items ≡ take at posts.old.items ++ drop (at + 1) posts.old.items) × (answered.old ≡ answered.new + 1) }
    ensures own { IsTaken seat posts.old.items result posts.new.items }
    ensures went { is_some result.went ≡ true }
    ensures room { vec_capacity posts.new ≡ vec_capacity posts.old }
{
    let at = place_of(posts, seat).unwrap();
    *answered -= 1;
    posts.remove(at)
}
