// Parts of entities, and the sessions that lie in them.
ghost use Rattle.std.specs.Prelude.{◌≡◌, OnOk};
ghost use Rattle.std.specs.Option.{option_copied};
ghost use Rattle.sb_codec.specs.Forms.{Form, Puts};
ghost use Rattle.sb_codec.specs.Pieces.{part_code};
ghost use Rattle.sb_codec.specs.Readers.{Gives};
ghost use Rattle.sb_snapshot.specs.Sessions as sessions;

use crate::parts::PlacedSession;
use crate::texts::is_before;
use sb_codec::{
    Blob, Item, Number64, Opt, PartPiece, Piece, Unread, Words, put_fields, take_fields,
};
use sb_machine::{Holder, LeafKey, Part, Session};
use std::alloc::{AllocError, Global};

/// The address of a part.
pub struct KeyPiece;

impl Piece for KeyPiece {
    type Value = LeafKey;

    ghost form = { sessions.key };

    #[tactic(auto, unfolding(crate::specs::Sessions::key))]
    fn put(value: &LeafKey, out: &mut Vec<u8>) -> Result<(), AllocError> {
        put_fields!(out, &value.entity => Number64, &value.part => PartPiece)
    }

    #[tactic(auto, unfolding(crate::specs::Sessions::key))]
    fn take(alloc: Global, bytes: &[u8]) -> Result<(LeafKey, &[u8]), Unread> {
        take_fields!(
            alloc,
            bytes,
            LeafKey {
                entity: Number64,
                part: PartPiece
            }
        )
    }
}

/// Adds the address of a part: each has a spelling.
#[tactic(auto, unfolding(crate::specs::Sessions::key))]
pub(crate) fn put_key(key: &LeafKey, out: &mut Vec<u8>) -> Result<(), AllocError>
    ensures puts { Puts (sessions.key.spell key.now) out.old out.new result }
    ensures fits { OnOk result (sessions.key.Fits key.now) }
{
    KeyPiece::put(key, out)
}

// The place of a part among the three of an entity.
fn place_of(part: Part) -> u8
    ensures { result ≡ part_code part }
{
    match part {
        Part::Main => 0,
        Part::Dead => 1,
        Part::Transfer => 2,
    }
}

pub(crate) fn is_same_key(a: &LeafKey, b: &LeafKey) -> bool
    ensures { result ≡ sessions.is_same_key a.now b.now }
{
    place_of(a.part) == place_of(b.part) && a.entity == b.entity
}

fn is_before_key(a: &LeafKey, b: &LeafKey) -> bool
    ensures { result ≡ sessions.is_before_key a.now b.now }
{
    a.entity < b.entity || (a.entity == b.entity && place_of(a.part) < place_of(b.part))
}

/// Who holds a session.
pub(crate) struct HolderPiece;

impl Piece for HolderPiece {
    type Value = Holder;

    ghost form = { sessions.holder };

    #[tactic(auto, unfolding(crate::specs::Sessions::holder))]
    fn put(value: &Holder, out: &mut Vec<u8>) -> Result<(), AllocError> {
        put_fields!(out, &value.lock => Number64, &value.until => Number64)
    }

    #[tactic(auto, unfolding(crate::specs::Sessions::holder))]
    fn take(alloc: Global, bytes: &[u8]) -> Result<(Holder, &[u8]), Unread> {
        take_fields!(
            alloc,
            bytes,
            Holder {
                lock: Number64,
                until: Number64
            }
        )
    }
}

/// Adds a session that lies in this part.
#[tactic(auto, unfolding(crate::specs::Sessions::session))]
pub fn put_session(at: &LeafKey, session: &Session, out: &mut Vec<u8>) -> Result<(), AllocError>
    requires { sessions.session.Asks (sessions.in_part at.now session.now) }
    ensures puts { Puts (sessions.session.spell (sessions.in_part at.now session.now)) out.old out.new result }
    ensures fits { OnOk result (sessions.session.Fits (sessions.in_part at.now session.now)) }
{
    put_fields!(out, at => KeyPiece, &session.id => Words, &session.state => Opt<Blob>, &session.holder => Opt<HolderPiece>)
}

/// A session, behind the part in which it lies.
pub struct SessionPiece;

impl Piece for SessionPiece {
    type Value = PlacedSession;

    ghost form = { sessions.session };

    fn put(value: &PlacedSession, out: &mut Vec<u8>) -> Result<(), AllocError> {
        put_session(&value.key, &value.session, out)
    }

    #[tactic(auto, unfolding(crate::specs::Sessions::session))]
    fn take(alloc: Global, bytes: &[u8]) -> Result<(PlacedSession, &[u8]), Unread> {
        let (key, rest) = KeyPiece::take(alloc, bytes)?;
        let (id, rest) = Words::take(alloc, rest)?;
        let (state, rest) = Opt::<Blob>::take(alloc, rest)?;
        let (holder, rest) = Opt::<HolderPiece>::take(alloc, rest)?;
        let session = Session { id, state, holder };
        Ok((PlacedSession { key, session }, rest))
    }
}

impl Item for SessionPiece {
    ghost follows = { sessions.is_next_session };

    fn follows(last: Option<&PlacedSession>, next: &PlacedSession) -> bool {
        match last {
            None => true,
            Some(last) => {
                is_before_key(&last.key, &next.key)
                    || (is_same_key(&last.key, &next.key)
                        && is_before(&last.session.id, &next.session.id))
            }
        }
    }
}
