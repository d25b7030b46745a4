// Which of two disks' files counts, by their heads.
ghost use Rattle.std.specs.Prelude.{◌≡◌, ◌≢◌, ℕ, IfOk, IfErr};
ghost use Rattle.sb_journal.specs.Choosing.{headed, chosen, chosen_of, greater, sided, is_unshut};
ghost use Rattle.sb_journal.specs.Opened.{IsPicked};
ghost use Rattle.sb_journal.specs.declared.choosing.Choice.TheVariants.{Hurt};
ghost use Rattle.sb_journal.specs.declared.found.Side.{Side};

use crate::reading::{NEW_FILE_BYTES, damage_of_head, number_at};
use crate::{OpenWhy, Side};

// What a disk says of its file before the rest of it is read.
#[derive(Clone, Copy)]
pub(crate) enum Headed {
    // There is no file.
    Headless,
    // There is none, but more than a new one has.
    Taken,
    // The place where its head is damaged.
    Spoilt(u64),
    // Which file of its journal it is.
    Generation(u64),
}

// Whose file counts, disk a's where none was made; or why none can be chosen.
#[derive(Clone, Copy)]
pub(crate) enum Choice {
    Counts(Side),
    Hurt(Side, u64),
}

// Whose file counts, and whether what stands on the other disk isn't shut.
#[derive(Clone, Copy)]
pub(crate) struct Picked {
    pub(crate) side: Side,
    pub(crate) unshut: bool,
}

// What these bytes say, which begin a disk.
#[tactic(auto, unfolding(crate::specs::Choosing::headed))]
pub(crate) fn headed_in(bytes: &[u8]) -> Headed
    ensures { result ≡ headed bytes.now }
{
    if bytes.len() < NEW_FILE_BYTES || bytes[0] != 1 {
        if bytes.len() > NEW_FILE_BYTES {
            return Headed::Taken;
        }
        return Headed::Headless;
    }
    match damage_of_head(bytes) {
        Some(place) => Headed::Spoilt(place),
        None => Headed::Generation(number_at(bytes, 18)),
    }
}

fn choose_greater(g: u64, h: u64) -> Choice
    ensures { result ≡ greater g h }
{
    if g == h {
        return Choice::Hurt(Side::B, 18);
    }
    if g < h {
        Choice::Counts(Side::B)
    } else {
        Choice::Counts(Side::A)
    }
}

// Which file counts, by what disk a and disk b say.
pub(crate) fn choose(a: Headed, b: Headed) -> Choice
    ensures { result ≡ chosen_of a b }
{
    match a {
        Headed::Spoilt(place) => Choice::Hurt(Side::A, place),
        Headed::Headless => match b {
            Headed::Spoilt(place) => Choice::Hurt(Side::B, place),
            Headed::Headless => Choice::Counts(Side::A),
            Headed::Taken => Choice::Hurt(Side::B, 0),
            Headed::Generation(_) => Choice::Counts(Side::B),
        },
        Headed::Taken => match b {
            Headed::Spoilt(place) => Choice::Hurt(Side::B, place),
            Headed::Headless => Choice::Hurt(Side::A, 0),
            Headed::Taken => Choice::Hurt(Side::A, 0),
            Headed::Generation(_) => Choice::Counts(Side::B),
        },
        Headed::Generation(g) => match b {
            Headed::Spoilt(place) => Choice::Hurt(Side::B, place),
            Headed::Headless => Choice::Counts(Side::A),
            Headed::Taken => Choice::Counts(Side::A),
            Headed::Generation(h) => choose_greater(g, h),
        },
    }
}

// Whether what these bytes begin isn't shut, where it stands beside the file that counts.
fn is_left_open(bytes: &[u8]) -> bool
    ensures { result ≡ is_unshut bytes.now }
{
    !bytes.is_empty() && (bytes[0] > 1 || (bytes[0] == 1 && bytes.len() >= NEW_FILE_BYTES))
}

// The same of the disk beside that of this side.
fn is_beside_open(side: Side, a: &[u8], b: &[u8]) -> bool
    ensures { result ≡ is_unshut (sided side b.now a.now) }
{
    match side {
        Side::A => is_left_open(b),
        Side::B => is_left_open(a),
    }
}

// Whose file counts, by what stands at the begin of disk a and disk b.
pub(crate) fn picked_of(a: &[u8], b: &[u8]) -> Result<Picked, OpenWhy>
    ensures ok { IfOk result (λ p. IsPicked p a.now b.now) }
    ensures damaged { IfErr result (λ e. (side : Side) (place : ℕ) → e ≡ OpenWhy.Damaged side place → chosen a.now b.now ≡ Hurt side place) }
    ensures known { IfErr result (λ e. e ≢ OpenWhy.DiskFault) }
{
    match choose(headed_in(a), headed_in(b)) {
        Choice::Counts(side) => Ok(Picked {
            side,
            unshut: is_beside_open(side, a, b),
        }),
        Choice::Hurt(side, place) => Err(OpenWhy::Damaged(side, place)),
    }
}
