// Entities without their parts: what they are, their rules, and the ids that they have accepted.
ghost use Rattle.std.specs.Prelude.{◌≡◌, OnOk};
ghost use Rattle.std.specs.Option.{option_copied};
ghost use Rattle.sb_codec.specs.Forms.{Form, Puts};
ghost use Rattle.sb_codec.specs.Readers.{Gives};
ghost use Rattle.sb_snapshot.specs.Entities as entities;

use crate::counted::Listed64;
use crate::parts::EntityHead;
use crate::rules::RulePiece;
use crate::texts::is_before;
use sb_codec::{
    DescriptionPiece, Item, Number64, PathPiece, Piece, Unread, Words, put_fields, take_fields,
};
use sb_machine::{AcceptedId, EntityKind, Listed};
use sb_model::Rows;
use std::alloc::{AllocError, Global};

/// The kind of an entity, as one byte.
pub(crate) struct KindPiece;

impl Piece for KindPiece {
    type Value = EntityKind;

    ghost form = { entities.kind };

    fn put(value: &EntityKind, out: &mut Vec<u8>) -> Result<(), AllocError> {
        let code = match value {
            EntityKind::Queue => 0,
            EntityKind::Topic => 1,
            EntityKind::Subscription => 2,
        };
        out.push(code)?;
        Ok(())
    }

    #[tactic(auto, unfolding(sb_codec::specs::Forms::coded_at))]
    fn take(_alloc: Global, bytes: &[u8]) -> Result<(EntityKind, &[u8]), Unread> {
        match bytes {
            [0, rest @ ..] => Ok((EntityKind::Queue, rest)),
            [1, rest @ ..] => Ok((EntityKind::Topic, rest)),
            [2, rest @ ..] => Ok((EntityKind::Subscription, rest)),
            _ => Err(Unread::NoSpelling),
        }
    }
}

/// An id that an entity has accepted.
pub struct AcceptedPiece;

impl Piece for AcceptedPiece {
    type Value = AcceptedId;

    ghost form = { entities.accepted };

    #[tactic(auto, unfolding(crate::specs::Entities::accepted))]
    fn put(value: &AcceptedId, out: &mut Vec<u8>) -> Result<(), AllocError> {
        put_fields!(out, &value.moment => Number64, &value.id => Words)
    }

    #[tactic(auto, unfolding(crate::specs::Entities::accepted))]
    fn take(alloc: Global, bytes: &[u8]) -> Result<(AcceptedId, &[u8]), Unread> {
        take_fields!(
            alloc,
            bytes,
            AcceptedId {
                moment: Number64,
                id: Words
            }
        )
    }
}

impl Item for AcceptedPiece {
    ghost follows = { entities.is_next_id };

    fn follows(last: Option<&AcceptedId>, next: &AcceptedId) -> bool {
        match last {
            None => true,
            Some(last) => {
                last.moment < next.moment
                    || (last.moment == next.moment && is_before(&last.id, &next.id))
            }
        }
    }
}

/// What is listed of an entity.
pub struct AboutPiece;

impl Piece for AboutPiece {
    type Value = Listed;

    ghost form = { entities.about };

    #[tactic(auto, unfolding(crate::specs::Entities::about))]
    fn put(value: &Listed, out: &mut Vec<u8>) -> Result<(), AllocError> {
        put_fields!(out,
            &value.number => Number64,
            &value.kind => KindPiece,
            &value.path => PathPiece,
            &value.description => DescriptionPiece,
            &value.rules => Listed64<RulePiece>)
    }

    #[tactic(auto, unfolding(crate::specs::Entities::about))]
    fn take(alloc: Global, bytes: &[u8]) -> Result<(Listed, &[u8]), Unread> {
        take_fields!(alloc, bytes, Listed {
            number: Number64,
            kind: KindPiece,
            path: PathPiece,
            description: DescriptionPiece,
            rules: Listed64<RulePiece>
        })
    }
}

/// Adds an entity with the ids that it has accepted, without its parts.
#[tactic(auto, unfolding(crate::specs::Entities::head))]
pub(crate) fn put_head(
    about: &Listed,
    ids: &Rows<AcceptedId>,
    out: &mut Vec<u8>,
) -> Result<(), AllocError>
    requires { entities.head.Asks (record { about = about.now; ids = ids.now }) }
    ensures puts { Puts (entities.head.spell (record { about = about.now; ids = ids.now })) out.old out.new result }
    ensures fits { OnOk result (entities.head.Fits (record { about = about.now; ids = ids.now })) }
{
    put_fields!(out, about => AboutPiece, ids => Listed64<AcceptedPiece>)
}

/// An entity without its parts.
pub struct HeadPiece;

impl Piece for HeadPiece {
    type Value = EntityHead;

    ghost form = { entities.head };

    fn put(value: &EntityHead, out: &mut Vec<u8>) -> Result<(), AllocError> {
        put_head(&value.about, &value.ids, out)
    }

    #[tactic(auto, unfolding(crate::specs::Entities::head))]
    fn take(alloc: Global, bytes: &[u8]) -> Result<(EntityHead, &[u8]), Unread> {
        take_fields!(alloc, bytes, EntityHead { about: AboutPiece, ids: Listed64<AcceptedPiece> })
    }
}

impl Item for HeadPiece {
    ghost follows = { entities.is_next_head };

    fn follows(last: Option<&EntityHead>, next: &EntityHead) -> bool {
        match last {
            None => true,
            Some(last) => last.about.number < next.about.number,
        }
    }
}
