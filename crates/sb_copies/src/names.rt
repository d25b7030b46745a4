// Which copy is meant.
ghost use Rattle.std.specs.Prelude.{◌≡◌, ◌&&◌, ◌||◌, ◌==◌, bytes_eq, decimal, None};
ghost use Rattle.sb_machine.specs.Claims as claims;
ghost use Rattle.sb_machine.specs.Leases as spec;
ghost use Rattle.sb_machine.specs.Leaves as leaf;
ghost use Rattle.sb_machine.specs.Messages as messages;
ghost use Rattle.sb_model.specs.declared.message.SystemName.TheVariants.{SessionId};

use crate::standings::{is_deferred, is_living, is_ready, is_scheduled};
use itoa::Buffer;
use sb_machine::{Session, StoredCopy, Which, has_text_of};
use sb_model::SystemName;

/// Whether this text prints the number.
pub fn prints(number: u64, text: &str) -> bool
    ensures { result ≡ bytes_eq (decimal number) text.now }
{
    let mut buffer = Buffer::new();
    buffer.format(number) == text
}

pub fn is_named(copy: &StoredCopy, which: &Which) -> bool
    ensures { result ≡ spec.is_named which.now copy.now }
{
    match which {
        Which::Number(number) => copy.number == *number,
        Which::Id(id) => {
            has_text_of(&copy.message, SystemName::MessageId, id.as_str())
                || prints(copy.number, id.as_str())
        }
    }
}

pub fn is_of(copy: &StoredCopy, session: &str) -> bool
    ensures { result ≡ messages.has_text_of SessionId session.now copy.now.message }
{
    has_text_of(&copy.message, SystemName::SessionId, session)
}

pub fn is_ready_of(copy: &StoredCopy, session: &str) -> bool
    ensures { result ≡ (spec.is_ready copy.now.standing && messages.has_text_of SessionId session.now copy.now.message) }
{
    is_ready(copy.standing) && is_of(copy, session)
}

pub fn is_deferred_at(copy: &StoredCopy, number: u64) -> bool
    ensures { result ≡ (leaf.is_deferred copy.now.standing && (copy.now.number == number) && claims.is_of None copy.now) }
{
    is_deferred(copy.standing) && copy.number == number
}

pub fn is_deferred_of(copy: &StoredCopy, number: u64, session: &str) -> bool
    ensures { result ≡ (leaf.is_deferred copy.now.standing && (copy.now.number == number) && messages.has_text_of SessionId session.now copy.now.message) }
{
    is_deferred(copy.standing) && copy.number == number && is_of(copy, session)
}

pub fn is_scheduled_at(copy: &StoredCopy, number: u64) -> bool
    ensures { result ≡ (spec.is_scheduled copy.now.standing && (copy.now.number == number)) }
{
    is_scheduled(copy.standing) && copy.number == number
}

pub fn is_leased(
    copy: &StoredCopy,
    moment: u64,
    sessions: &[Session],
    lock: u64,
    which: &Which,
) -> bool
    ensures { result ≡ (spec.is_living moment sessions.now lock copy.now.standing && spec.is_named which.now copy.now) }
{
    is_living(copy.standing, lock, moment, sessions) && is_named(copy, which)
}
