// What a change does to the counts of a namespace.
ghost use Rattle.std.specs.Prelude.{◌≡◌, ◌+◌, ◌-◌, ◌≤◌, length};
ghost use Rattle.sb_machine.specs.Changes.{max_number};
ghost use Rattle.sb_machine.specs.Leaves as leaves;
ghost use Rattle.sb_entities.specs.Expiring.{expires_in};
ghost use Rattle.sb_entities.specs.Rooms.{part_used, HasPartRoom};
ghost use Rattle.sb_entities.specs.Stores.{leaf_in, part_room_in};
ghost use Rattle.sb_entities.specs.Tallies.{TellsOfLeaf};

use crate::part::PartStore;
use sb_machine::LeafChange;

/// So many copies entered and so many ended by a change, which gave so many numbers.
#[derive(Clone, Copy)]
pub struct Tally {
    pub entered: u64,
    pub ended: u64,
    pub given: u64,
}

/// Of a change that none of that comes of.
pub const NOTHING: Tally = Tally {
    entered: 0,
    ended: 0,
    given: 0,
};

/// Changes a part at `moment`, in ms since 1970; `lock` is the next lock number.
pub fn change_part(part: &mut PartStore, lock: u64, moment: u64, change: LeafChange) -> Tally
    requires room { HasPartRoom change (part_room_in part.old) }
    requires fits { (leaf_in part.old).last + leaves.copies_given change ≤ max_number }
    ensures leaf { leaf_in part.new ≡ leaves.leaf_after lock moment change (leaf_in part.old) }
    ensures room { part_room_in part.new ≡ part_used change (part_room_in part.old) }
    ensures expires { expires_in part.new ≡ expires_in part.old }
    ensures tally { TellsOfLeaf result (leaf_in part.old) (leaf_in part.new) }
    ensures given { result.given ≡ leaves.copies_given change }
{
    let copies = part.copies().size() as u64;
    let last = part.last();
    part.change(lock, moment, change);
    tally_of(copies, last, part)
}

// Of a part that had so many copies and gave this last number.
fn tally_of(copies: u64, last: u64, part: &PartStore) -> Tally
    requires { last ≤ (leaf_in part.now).last }
    ensures entered { result.entered ≡ length (leaf_in part.now).copies - copies }
    ensures ended { result.ended ≡ copies - length (leaf_in part.now).copies }
    ensures given { result.given ≡ (leaf_in part.now).last - last }
{
    let later = part.copies().size() as u64;
    Tally {
        entered: later.saturating_sub(copies),
        ended: copies.saturating_sub(later),
        given: part.last() - last,
    }
}
