// The sessions of a part, as a list shows them: those that are remembered, and those that are known by
// a copy that may be received alone.
ghost use Rattle.std.specs.Prelude.{◌≡◌, ◌≤◌, filter, length, map, take, IfOk};
ghost use Rattle.std.specs.List.{fold, prefix_len};
ghost use Rattle.std.specs.Option.{option_map};
ghost use Rattle.sb_machine.specs.Looks as looks;
ghost use Rattle.sb_machine.specs.Names.{is_before};
ghost use Rattle.sb_machine.specs.Sessions.{size_of as size_in};
ghost use Rattle.sb_sessions.specs.Sessions.{AreSorted};
ghost use Rattle.sb_entities.specs.SessionList as list;
ghost use Rattle.sb_entities.specs.Stores.{leaf_in};

use crate::heads::session_of;
use crate::part::PartStore;
use sb_machine::{Session, SessionShown, StoredCopy};
use sb_model::{Rows, Text};
use std::alloc::{AllocError, Global};

impl PartStore {
    /// The sessions of the part behind the id `after`, in order of their ids, up to `count`.
    pub fn sessions_shown(
        &self,
        alloc: Global,
        after: &Option<Text>,
        count: u64,
    ) -> Result<Rows<SessionShown>, AllocError>
        ensures { IfOk result (λ x. x ≡ looks.sessions_shown after.now count (leaf_in self.now)) }
    {
        self.sessions().rises();
        let ids = first_ids(alloc, self, after, count)?;
        all_shown(alloc, self, &ids)
    }
}

// ---- those known by a copy alone

/// The copies that are each the only sign of a session. None is looked at but the heads of sessions.
pub fn only_signs(alloc: Global, part: &PartStore) -> Result<Vec<&StoredCopy>, AllocError>
    ensures { IfOk result (λ v. map (λ c. c.now) v.items ≡ looks.only_signs (leaf_in part.now)) }
{
    let heads = part.heads()?;
    signs_among(alloc, part, &heads)
}

fn signs_among<'a>(
    alloc: Global,
    part: &PartStore,
    copies: &[&'a StoredCopy],
) -> Result<Vec<&'a StoredCopy>, AllocError>
    ensures { IfOk result (λ v. map (λ c. c.now) v.items ≡ filter (looks.is_only_sign (leaf_in part.now)) (map (λ c. c.now) copies.now)) }
{
    let mut signs = Vec::new(alloc);
    for copy in copies {
        if is_only_sign(part, copy) {
            signs.push(*copy)?;
        }
    }
    Ok(signs)
}

fn is_only_sign(part: &PartStore, copy: &StoredCopy) -> bool
    ensures { result ≡ looks.is_only_sign (leaf_in part.now) copy.now }
{
    match session_of(copy) {
        Some(id) => !is_remembered(part, id) && is_first_of(part, id, copy),
        None => false,
    }
}

fn is_remembered(part: &PartStore, id: &Text) -> bool
    ensures { result ≡ list.is_remembered id.now (leaf_in part.now) }
{
    part.sessions().get(id.as_str()).is_some()
}

fn is_first_of(part: &PartStore, id: &Text, copy: &StoredCopy) -> bool
    ensures { result ≡ looks.is_first_of id.now (leaf_in part.now).copies copy.now }
{
    match part.copies().first_ready_of(id.as_str()) {
        Some(first) => first.number == copy.number,
        None => false,
    }
}

// ---- ids in order

fn first_ids<'a>(
    alloc: Global,
    part: &'a PartStore,
    after: &Option<Text>,
    count: u64,
) -> Result<Vec<&'a Text>, AllocError>
    ensures { IfOk result (λ v. map (λ t. t.now) v.items ≡ list.first_ids after.now count (leaf_in part.now)) }
{
    let sessions = part.sessions();
    sessions.rises();
    let signs = only_signs(alloc, part)?;
    let remembered = first_remembered(alloc, sessions.as_slice(), after, count)?;
    with_signs(remembered, &signs, after, count)
}

fn first_remembered<'a>(
    alloc: Global,
    sessions: &'a [Session],
    after: &Option<Text>,
    count: u64,
) -> Result<Vec<&'a Text>, AllocError>
    requires { AreSorted sessions.now }
    ensures found { IfOk result (λ v. map (λ t. t.now) v.items ≡ list.first_remembered after.now count sessions.now) }
    ensures order { IfOk result (λ v. list.AreById (map (λ t. t.now) v.items)) }
{
    let mut ids = ids_behind(alloc, sessions, after)?;
    ids.truncate(count as usize);
    Ok(ids)
}

fn ids_behind<'a>(
    alloc: Global,
    sessions: &'a [Session],
    after: &Option<Text>,
) -> Result<Vec<&'a Text>, AllocError>
    ensures { IfOk result (λ v. map (λ t. t.now) v.items ≡ filter (looks.is_behind after.now) (map (λ x. x.id) sessions.now)) }
{
    let mut ids = Vec::new(alloc);
    for session in sessions {
        if is_behind(after, &session.id) {
            ids.push(&session.id)?;
        }
    }
    Ok(ids)
}

fn with_signs<'a>(
    remembered: Vec<&'a Text>,
    signs: &[&'a StoredCopy],
    after: &Option<Text>,
    count: u64,
) -> Result<Vec<&'a Text>, AllocError>
    requires { list.AreById (map (λ t. t.now) remembered.items) }
    ensures { IfOk result (λ v. map (λ t. t.now) v.items ≡ fold (list.sign_with after.now count) (map (λ t. t.now) remembered.entry.items) (map (λ c. c.now) signs.now)) }
{
    let mut ids = remembered;
    for sign in signs {
        ids = sign_with(ids, sign, after, count)?;
    }
    Ok(ids)
}

fn sign_with<'a>(
    ids: Vec<&'a Text>,
    sign: &'a StoredCopy,
    after: &Option<Text>,
    count: u64,
) -> Result<Vec<&'a Text>, AllocError>
    requires { list.AreById (map (λ t. t.now) ids.items) }
    ensures found { IfOk result (λ v. map (λ t. t.now) v.items ≡ list.sign_with after.now count (map (λ t. t.now) ids.entry.items) sign.now) }
    ensures order { IfOk result (λ v. list.AreById (map (λ t. t.now) v.items)) }
{
    match session_of(sign) {
        Some(id) => behind_with(ids, id, after, count),
        None => Ok(ids),
    }
}

fn behind_with<'a>(
    ids: Vec<&'a Text>,
    id: &'a Text,
    after: &Option<Text>,
    count: u64,
) -> Result<Vec<&'a Text>, AllocError>
    requires { list.AreById (map (λ t. t.now) ids.items) }
    ensures found { IfOk result (λ v. map (λ t. t.now) v.items ≡ list.behind_with after.now count (map (λ t. t.now) ids.entry.items) id.now) }
    ensures order { IfOk result (λ v. list.AreById (map (λ t. t.now) v.items)) }
{
    if is_behind(after, id) {
        with_id(ids, id, count)
    } else {
        Ok(ids)
    }
}

fn with_id<'a>(ids: Vec<&'a Text>, id: &'a Text, count: u64) -> Result<Vec<&'a Text>, AllocError>
    requires { list.AreById (map (λ t. t.now) ids.items) }
    ensures found { IfOk result (λ v. map (λ t. t.now) v.items ≡ take count (list.with_id (map (λ t. t.now) ids.entry.items) id.now)) }
    ensures order { IfOk result (λ v. list.AreById (map (λ t. t.now) v.items)) }
{
    let place = before_id(&ids, id.as_str());
    let mut ids = ids;
    ids.insert(place, id)?;
    ids.truncate(count as usize);
    Ok(ids)
}

// How many of them stand before an id.
fn before_id(ids: &[&Text], id: &str) -> usize
    requires { list.AreById (map (λ t. t.now) ids.now) }
    ensures value { result ≡ prefix_len (λ q. is_before q.now id.now) ids.now }
    ensures within { result ≤ length ids.now }
{
    ids.partition_point(|q| q.as_str() < id)
}

fn is_behind(after: &Option<Text>, id: &Text) -> bool
    ensures { result ≡ looks.is_behind after.now id.now }
{
    match after {
        None => true,
        Some(after) => after.as_str() < id.as_str(),
    }
}

// ---- what is shown

fn all_shown(
    alloc: Global,
    part: &PartStore,
    ids: &[&Text],
) -> Result<Rows<SessionShown>, AllocError>
    ensures { IfOk result (λ x. x ≡ map (list.shown_of (leaf_in part.now)) (map (λ t. t.now) ids.now)) }
{
    let mut shown = Rows::new(alloc);
    for id in ids {
        let one = shown_of(part, id)?;
        shown.push(one)?;
    }
    Ok(shown)
}

fn shown_of(part: &PartStore, id: &Text) -> Result<SessionShown, AllocError>
    ensures { IfOk result (λ x. x ≡ list.shown_of (leaf_in part.now) id.now) }
{
    let session = part.sessions().get(id.as_str());
    Ok(SessionShown {
        id: id.clone()?,
        until: until_of(session),
        state_bytes: bytes_of(session),
        ready: part.copies().ready_of(id.as_str())?,
    })
}

fn until_of(session: Option<&Session>) -> Option<u64>
    ensures { result ≡ list.until_of (option_map (λ x. x.now) session.entry) }
{
    match session {
        Some(session) => held_until(session),
        None => None,
    }
}

fn held_until(session: &Session) -> Option<u64>
    ensures { result ≡ option_map (λ h. h.until) session.now.holder }
{
    match session.holder {
        Some(holder) => Some(holder.until),
        None => None,
    }
}

fn bytes_of(session: Option<&Session>) -> u64
    ensures { result ≡ list.bytes_of (option_map (λ x. x.now) session.entry) }
{
    match session {
        Some(session) => size_of(&session.state),
        None => 0,
    }
}

fn size_of(state: &Option<Rows<u8>>) -> u64
    ensures { result ≡ size_in state.now }
{
    match state {
        Some(bytes) => bytes.len() as u64,
        None => 0,
    }
}
