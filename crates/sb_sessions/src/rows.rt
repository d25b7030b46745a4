// Sessions as rows: where one stands, and what changes there.
ghost use Rattle.std.specs.Prelude.{◌≡◌, ℕ, ◌==◌, ◌≤◌, ◌<◌, ◌+◌, [], ◌∷◌, length, find, position, IfSome, slice_set, vec_len, vec_capacity, None, Some, is_none, not};
ghost use Rattle.std.specs.List.{slice_get, prefix_len};
ghost use Rattle.std.specs.Option.{option_map};
ghost use Rattle.std.specs.Ordering.{nat_cmp, is_lt};
ghost use Rattle.std.specs.Cmp.Lexicographic.{slice_cmp};
ghost use Rattle.sb_machine.specs.Keyed.{changed, with_sorted};
ghost use Rattle.sb_machine.specs.Leases.{is_living_holder as is_living};
ghost use Rattle.sb_machine.specs.Leaves as leaf;
ghost use Rattle.sb_machine.specs.Names.{is_before};
ghost use Rattle.sb_machine.specs.Sessions.{holder_in};
ghost use Rattle.sb_sessions.specs.Sessions.{seating, AreSorted};

use sb_machine::{Holder, Session, is_living_holder};
use sb_model::{Rows, Text};

// ---- places

fn is_held_under(session: &Session, lock: u64) -> bool
    ensures { result ≡ leaf.is_held_under lock session.now }
{
    match session.holder {
        Some(holder) => holder.lock == lock,
        None => false,
    }
}

// How many stand before a session of this id.
fn entry_of(rows: &[Session], id: &str) -> usize
    requires { AreSorted rows.now }
    ensures place { result ≡ prefix_len (λ y. is_before y.id id.now) rows.now }
    ensures within { result ≤ length rows.now }
{
    rows.partition_point(|y| y.id.as_str() < id)
}

fn place_of(rows: &[Session], id: &str) -> Option<usize>
    requires { AreSorted rows.now }
    ensures { result ≡ position (leaf.has_id id.now) rows.now }
{
    let place = entry_of(rows, id);
    let Some(session) = rows.get(place) else {
        return None;
    };
    if session.id.as_str() == id {
        Some(place)
    } else {
        None
    }
}

fn place_held(rows: &[Session], lock: u64) -> Option<usize>
    ensures { result ≡ position (leaf.is_held_under lock) rows.now }
{
    rows.iter().position(|x| is_held_under(x, lock))
}

fn place_living(rows: &[Session], moment: u64, lock: u64) -> Option<usize>
    ensures { result ≡ position (is_living moment lock) rows.now }
{
    rows.iter().position(|x| is_living_holder(x, moment, lock))
}

// ---- searches

pub fn session_of<'a>(rows: &'a [Session], id: &str) -> Option<&'a Session>
    requires { AreSorted rows.now }
    ensures { option_map (λ x. x.now) result ≡ find (leaf.has_id id.now) rows.now }
{
    match place_of(rows, id) {
        Some(place) => Some(&rows[place]),
        None => None,
    }
}

/// Whether somebody holds the session of this id.
pub fn is_held(rows: &[Session], id: &str) -> bool
    requires { AreSorted rows.now }
    ensures { is_none (holder_in id.now (seating rows.now)) ≡ not result }
{
    match session_of(rows, id) {
        Some(session) => session.holder.is_some(),
        None => false,
    }
}

pub fn held_by(rows: &[Session], lock: u64) -> Option<&Session>
    ensures { option_map (λ x. x.now) result ≡ find (leaf.is_held_under lock) rows.now }
{
    match place_held(rows, lock) {
        Some(place) => Some(&rows[place]),
        None => None,
    }
}

pub fn living(rows: &[Session], moment: u64, lock: u64) -> Option<&Session>
    ensures { option_map (λ x. x.now) result ≡ find (is_living moment lock) rows.now }
{
    match place_living(rows, moment, lock) {
        Some(place) => Some(&rows[place]),
        None => None,
    }
}

// ---- opening

fn insert_row(rows: &mut Vec<Session>, id: Text, lock: u64, until: u64)
    requires room { vec_len rows.old < vec_capacity rows.old }
    requires sorted { AreSorted rows.old.items }
    ensures rows { rows.new.items ≡ with_sorted (λ y. is_before y.id id) (record { id = id; state = None; holder = Some (leaf.holder_new lock until) }) rows.old.items }
    ensures len { vec_len rows.new ≤ vec_len rows.old + 1 }
    ensures capacity { vec_capacity rows.new ≡ vec_capacity rows.old }
{
    let place = entry_of(rows, id.as_str());
    let session = Session {
        id,
        state: None,
        holder: Some(Holder { lock, until }),
    };
    let _ = rows.insert(place, session);
}

// A holder stays; where there is none, this one holds it.
fn holder_or(holder: Option<Holder>, lock: u64, until: u64) -> Option<Holder>
    ensures { result ≡ elim holder [ Some h ↦ Some h | None ↦ Some (leaf.holder_new lock until) ] }
{
    match holder {
        Some(holder) => Some(holder),
        None => Some(Holder { lock, until }),
    }
}

fn hold_at(rows: &mut Vec<Session>, place: usize, lock: u64, until: u64)
    requires { place < length rows.old.items }
    ensures rows { IfSome (slice_get rows.old.items place) (λ x. rows.new.items ≡ slice_set rows.old.items place (leaf.taken lock until x)) }
    ensures len { vec_len rows.new ≡ vec_len rows.old }
    ensures capacity { vec_capacity rows.new ≡ vec_capacity rows.old }
{
    let session = &mut rows[place];
    session.holder = holder_or(session.holder, lock, until);
}

pub fn open_row(rows: &mut Vec<Session>, id: Text, lock: u64, until: u64)
    requires room { vec_len rows.old < vec_capacity rows.old }
    requires sorted { AreSorted rows.old.items }
    ensures rows { rows.new.items ≡ leaf.opened lock id until (seating rows.old.items) }
    ensures len { vec_len rows.new ≤ vec_len rows.old + 1 }
    ensures capacity { vec_capacity rows.new ≡ vec_capacity rows.old }
{
    let Some(place) = place_of(rows, id.as_str()) else {
        insert_row(rows, id, lock, until);
        return;
    };
    hold_at(rows, place, lock, until);
}

// ---- by the lock of the holder

fn prolonged(holder: Option<Holder>, until: u64) -> Option<Holder>
    ensures { result ≡ leaf.prolonged_holder until holder }
{
    match holder {
        Some(holder) => Some(Holder {
            lock: holder.lock,
            until,
        }),
        None => None,
    }
}

fn prolong_at(rows: &mut Vec<Session>, place: usize, until: u64)
    requires { place < length rows.old.items }
    ensures rows { IfSome (slice_get rows.old.items place) (λ x. rows.new.items ≡ slice_set rows.old.items place (record x { holder = leaf.prolonged_holder until x.holder })) }
    ensures len { vec_len rows.new ≡ vec_len rows.old }
    ensures capacity { vec_capacity rows.new ≡ vec_capacity rows.old }
{
    let session = &mut rows[place];
    session.holder = prolonged(session.holder, until);
}

pub fn prolong_row(rows: &mut Vec<Session>, lock: u64, until: u64)
    ensures rows { rows.new.items ≡ changed (leaf.is_held_under lock) (λ x. record x { holder = leaf.prolonged_holder until x.holder } ∷ []) rows.old.items }
    ensures len { vec_len rows.new ≡ vec_len rows.old }
    ensures capacity { vec_capacity rows.new ≡ vec_capacity rows.old }
{
    if let Some(place) = place_held(rows, lock) {
        prolong_at(rows, place, until);
    }
}

fn write_at(rows: &mut Vec<Session>, place: usize, state: Option<Rows<u8>>)
    requires { place < length rows.old.items }
    ensures rows { IfSome (slice_get rows.old.items place) (λ x. rows.new.items ≡ slice_set rows.old.items place (record x { state = state })) }
    ensures len { vec_len rows.new ≡ vec_len rows.old }
    ensures capacity { vec_capacity rows.new ≡ vec_capacity rows.old }
{
    let session = &mut rows[place];
    session.state = state;
}

// It has a holder, so it is remembered whatever its state is.
pub fn write_row(rows: &mut Vec<Session>, lock: u64, state: Option<Rows<u8>>)
    ensures rows { rows.new.items ≡ changed (leaf.is_held_under lock) (λ x. leaf.remembered (record x { state = state })) rows.old.items }
    ensures len { vec_len rows.new ≡ vec_len rows.old }
    ensures capacity { vec_capacity rows.new ≡ vec_capacity rows.old }
{
    if let Some(place) = place_held(rows, lock) {
        write_at(rows, place, state);
    }
}

fn is_stateless(rows: &[Session], place: usize) -> bool
    requires { place < length rows.now }
    ensures { IfSome (slice_get rows.now place) (λ x. result ≡ is_none x.state) }
{
    rows[place].state.is_none()
}

fn leave_at(rows: &mut Vec<Session>, place: usize)
    requires { place < length rows.old.items }
    ensures rows { IfSome (slice_get rows.old.items place) (λ x. rows.new.items ≡ slice_set rows.old.items place (record x { holder = None })) }
    ensures len { vec_len rows.new ≡ vec_len rows.old }
    ensures capacity { vec_capacity rows.new ≡ vec_capacity rows.old }
{
    let session = &mut rows[place];
    session.holder = None;
}

// One with no state is forgotten.
pub fn close_row(rows: &mut Vec<Session>, lock: u64)
    ensures rows { rows.new.items ≡ changed (leaf.is_held_under lock) (λ x. leaf.remembered (record x { holder = None })) rows.old.items }
    ensures len { vec_len rows.new ≤ vec_len rows.old }
    ensures capacity { vec_capacity rows.new ≡ vec_capacity rows.old }
{
    let Some(place) = place_held(rows, lock) else {
        return;
    };
    if is_stateless(rows, place) {
        let _ = rows.remove(place);
        return;
    }
    leave_at(rows, place);
}
