// Parts of entities.
ghost use Rattle.std.specs.Prelude.{◌≡◌, OnOk};
ghost use Rattle.std.specs.Option.{option_copied};
ghost use Rattle.sb_codec.specs.Forms.{Form, Puts, ◌then◌, number64};
ghost use Rattle.sb_codec.specs.Messages.{any_next};
ghost use Rattle.sb_codec.specs.Readers.{Gives};
ghost use Rattle.sb_snapshot.specs.Copies as copies;
ghost use Rattle.sb_snapshot.specs.Lists.{listed64};
ghost use Rattle.sb_snapshot.specs.Sessions as sessions;

use crate::copies::CopyPiece;
use crate::counted::Listed64;
use crate::parts::PlacedLeaf;
use crate::sessions::{KeyPiece, put_key};
use sb_codec::{Item, Number64, Piece, Unread, put_fields, take_fields};
use sb_machine::{LeafKey, StoredCopy};
use sb_model::Rows;
use std::alloc::{AllocError, Global};

/// Adds what stands before the copies of a part: its address, the last number given there, and how
/// many copies it has.
pub fn put_leaf_head(
    key: &LeafKey,
    last: &u64,
    count: &u64,
    out: &mut Vec<u8>,
) -> Result<(), AllocError>
    ensures puts { Puts ((sessions.key then number64 then number64).spell (key.now, (last.now, count.now))) out.old out.new result }
    ensures fits { OnOk result ((sessions.key then number64 then number64).Fits (key.now, (last.now, count.now))) }
{
    put_key(key, out)?;
    put_counts(last, count, out)?;
    Ok(())
}

fn put_counts(last: &u64, count: &u64, out: &mut Vec<u8>) -> Result<(), AllocError>
    ensures puts { Puts ((number64 then number64).spell (last.now, count.now)) out.old out.new result }
    ensures fits { OnOk result ((number64 then number64).Fits (last.now, count.now)) }
{
    put_fields!(out, last => Number64, count => Number64)
}

// What a part has behind its address.
fn put_content(last: &u64, stored: &Rows<StoredCopy>, out: &mut Vec<u8>) -> Result<(), AllocError>
    requires { (number64 then listed64 copies.is_next_copy copies.copy).Asks (last.now, stored.now) }
    ensures puts { Puts ((number64 then listed64 copies.is_next_copy copies.copy).spell (last.now, stored.now)) out.old out.new result }
    ensures fits { OnOk result ((number64 then listed64 copies.is_next_copy copies.copy).Fits (last.now, stored.now)) }
{
    put_fields!(out, last => Number64, stored => Listed64<CopyPiece>)
}

/// A part, without its sessions.
pub struct LeafPiece;

impl Piece for LeafPiece {
    type Value = PlacedLeaf;

    ghost form = { sessions.leaf };

    #[tactic(auto, unfolding(crate::specs::Sessions::leaf))]
    fn put(value: &PlacedLeaf, out: &mut Vec<u8>) -> Result<(), AllocError> {
        KeyPiece::put(&value.key, out)?;
        put_content(&value.last, &value.copies, out)?;
        Ok(())
    }

    #[tactic(auto, unfolding(crate::specs::Sessions::leaf))]
    fn take(alloc: Global, bytes: &[u8]) -> Result<(PlacedLeaf, &[u8]), Unread> {
        take_fields!(alloc, bytes, PlacedLeaf { key: KeyPiece, last: Number64, copies: Listed64<CopyPiece> })
    }
}

impl Item for LeafPiece {
    ghost follows = { any_next };

    fn follows(_last: Option<&PlacedLeaf>, _next: &PlacedLeaf) -> bool {
        true
    }
}
