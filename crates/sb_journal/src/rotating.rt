// Going on with a file on the other disk: its head and its base are written behind a closed gate, all of it is made
// safe, and the gate is opened.
ghost use Rattle.std.specs.Prelude.{◌≡◌, ◌≤◌, ◌<◌, ◌+◌, ◌++◌, [], ◌∷◌, ◌^◌, List, ℕ, IsTrue, length, true, false, OnOk};
ghost use Rattle.sb_outside.specs.Causes.{HasCause};
ghost use Rattle.sb_outside.specs.Held.{at_rest};
ghost use Rattle.sb_journal.specs.Text.{head, may_go_on};
ghost use Rattle.sb_journal.specs.Framing.{is_created};
ghost use Rattle.sb_journal.specs.Choosing.{is_unshut, turned};
ghost use Rattle.sb_journal.specs.Crashes.{IsAside, IsFilled, IsShutOrGated};
ghost use Rattle.sb_journal.specs.Moments.{EachMoment};

use crate::Side;
use crate::base::up_to;
use crate::creating::{close_file, head_bytes};
use crate::reading::MAX_COUNT;
use sb_outside::{Disk, DiskFault, LONGEST_DISK};

/// A file that a journal is to go on with, while its base is being written: see `Journal::start_base`.
#[derive(Drop)]
pub struct NextFile {
    pub(crate) generation: u64,
    // The number of its first record.
    pub(crate) first: u64,
    // How many bytes its base has.
    pub(crate) base_length: u64,
    // The place behind what is written of the base.
    pub(crate) end: u64,
    ghost generation_least: { 1 ≤ generation },
    ghost generation_greatest: { generation ≤ 2 ^ 62 },
    ghost first_least: { 1 ≤ first },
    ghost first_greatest: { first ≤ 2 ^ 62 },
    ghost fits: { 43 + base_length ≤ 2 ^ 62 },
    ghost end_least: { 42 ≤ end },
    ghost end_greatest: { end ≤ 42 + base_length },
}

// Whether a file of this generation and next number may go on with one of this first number and length of base.
pub(crate) fn is_next(generation: u64, next: u64, first: u64, base_length: u64) -> bool
    ensures value { result ≡ may_go_on generation next first base_length }
    ensures generation { result ≡ true → generation < 2 ^ 62 }
    ensures first { result ≡ true → (1 ≤ first) × (first ≤ 2 ^ 62) }
    ensures fits { result ≡ true → 43 + base_length ≤ 2 ^ 62 }
{
    generation < MAX_COUNT
        && next <= first
        && 1 <= first
        && first <= MAX_COUNT
        && base_length <= LONGEST_DISK - 43
}

// The other side.
pub(crate) fn facing(side: Side) -> Side
    ensures { result ≡ turned side }
{
    match side {
        Side::A => Side::B,
        Side::B => Side::A,
    }
}

// Leaves nothing on a disk but a closed gate.
fn clear<D: Disk>(disk: &mut D) -> Result<(), DiskFault>
    ensures honesty { D.honest disk.new ≡ D.honest disk.old }
    ensures ok { IsTrue (D.honest disk.old) → OnOk result (IsFilled (D.held disk.new) []) }
    ensures any_moment { IsTrue (D.honest disk.old) → IsAside (D.held disk.old) → EachMoment (D.past disk.old) (D.past disk.new) (D.held disk.new) (λ image. is_created image ≡ false) }
    ensures cause { HasCause (D.count disk.old) (D.count disk.new) result }
{
    disk.sync()?;
    close_file(disk)?;
    disk.cut(1)?;
    Ok(())
}

// Writes on behind the closed gate of a disk.
pub(crate) fn fill_on<D: Disk>(disk: &mut D, place: u64, bytes: &[u8]) -> Result<(), DiskFault>
    requires behind { 1 ≤ place }
    requires place { IsTrue (D.honest disk.old) → place ≤ length (D.held disk.old).seen }
    ensures honesty { D.honest disk.new ≡ D.honest disk.old }
    ensures place { IsTrue (D.honest disk.old) → OnOk result (place + length bytes.now ≤ length (D.held disk.new).seen) }
    ensures ok { (text : List ℕ) → IsTrue (D.honest disk.old) → IsFilled (D.held disk.old) text → place ≡ 1 + length text → OnOk result (IsFilled (D.held disk.new) (text ++ bytes.now)) }

    // A crash at any moment of the call leaves nothing that counts or is to be shut.
    ensures any_moment { (text : List ℕ) → IsTrue (D.honest disk.old) → IsFilled (D.held disk.old) text → EachMoment (D.past disk.old) (D.past disk.new) (D.held disk.new) (λ image. is_unshut image ≡ false) }
    ensures cause { HasCause (D.count disk.old) (D.count disk.new) result }
{
    disk.write_at(place, bytes)?;
    Ok(())
}

// Begins a file on a disk where nothing counts: its head behind a closed gate.
pub(crate) fn begin_file<D: Disk>(
    disk: &mut D,
    salt: u64,
    generation: u64,
    first: u64,
    base_length: u64,
) -> Result<(), DiskFault>
    ensures honesty { D.honest disk.new ≡ D.honest disk.old }
    ensures place { IsTrue (D.honest disk.old) → OnOk result (42 ≤ length (D.held disk.new).seen) }
    ensures ok { IsTrue (D.honest disk.old) → OnOk result (IsFilled (D.held disk.new) (head salt generation first base_length)) }
    ensures any_moment { IsTrue (D.honest disk.old) → IsAside (D.held disk.old) → EachMoment (D.past disk.old) (D.past disk.new) (D.held disk.new) (λ image. is_created image ≡ false) }
    ensures cause { HasCause (D.count disk.old) (D.count disk.new) result }
{
    let head = head_bytes(salt, generation, first, base_length);
    clear(disk)?;
    fill_on(disk, 1, up_to(&head, 41))?;
    Ok(())
}

// Closes the end of what was filled in up to this place, makes all of it safe, and opens the gate.
pub(crate) fn open_file<D: Disk>(disk: &mut D, place: u64) -> Result<(), DiskFault>
    requires behind { 1 ≤ place }
    requires place { IsTrue (D.honest disk.old) → place ≤ length (D.held disk.old).seen }
    ensures honesty { D.honest disk.new ≡ D.honest disk.old }
    ensures room { IsTrue (D.honest disk.old) → OnOk result (place + 1 ≤ (D.held disk.new).least) }
    ensures long { IsTrue (D.honest disk.old) → OnOk result (place + 1 ≤ length (D.held disk.new).seen) }
    ensures ok { (text : List ℕ) → IsTrue (D.honest disk.old) → IsFilled (D.held disk.old) text → place ≡ 1 + length text → OnOk result (D.held disk.new ≡ at_rest (1 ∷ (text ++ 0 ∷ []))) }

    // A crash at any moment of the call leaves nothing that counts or is to be shut, or all of it behind any gate.
    ensures any_moment { (text : List ℕ) → IsTrue (D.honest disk.old) → IsFilled (D.held disk.old) text → place ≡ 1 + length text
        → EachMoment (D.past disk.old) (D.past disk.new) (D.held disk.new) (IsShutOrGated (text ++ 0 ∷ [])) }
    ensures cause { HasCause (D.count disk.old) (D.count disk.new) result }
{
    disk.write_at(place, &[0])?;
    disk.sync()?;
    disk.write_at(0, &[1])?;
    disk.sync()?;
    Ok(())
}
