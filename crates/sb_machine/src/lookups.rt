// Looking up a text of a message, and who holds a session.
ghost use Rattle.std.specs.Prelude.{◌≡◌, ◌==◌, find, position};
ghost use Rattle.std.specs.Option.{option_map};
ghost use Rattle.sb_machine.specs.Leases.{is_living_holder as is_held};
ghost use Rattle.sb_machine.specs.Messages.{text_of as text_in, has_text_of as has_text};
ghost use Rattle.sb_model.specs.SystemNames.{system_code};

use crate::Session;
use sb_model::{Message, SystemName, SystemText, Text};

fn place_of(sys: &[SystemText], code: u8) -> Option<usize>
    ensures { result ≡ position (λ x. system_code x.name == code) sys.now }
{
    sys.iter().position(|x| x.name.code() == code)
}

fn named(sys: &[SystemText], code: u8) -> Option<&SystemText>
    ensures { option_map (λ x. x.now) result ≡ find (λ x. system_code x.name == code) sys.now }
{
    match place_of(sys, code) {
        Some(place) => Some(&sys[place]),
        None => None,
    }
}

/// A system text of a message, where it has one.
pub fn text_of(message: &Message, name: SystemName) -> Option<&Text>
    ensures { option_map (λ x. x.now) result ≡ text_in name message.now }
{
    match named(message.sys.as_slice(), name.code()) {
        Some(found) => Some(&found.text),
        None => None,
    }
}

/// Whether a system text of a message is this one.
pub fn has_text_of(message: &Message, name: SystemName, text: &str) -> bool
    ensures { result ≡ has_text name text.now message.now }
{
    match text_of(message, name) {
        Some(own) => own.as_str() == text,
        None => false,
    }
}

/// Whether a session is held under the lock of this number, which lives at a moment, in ms since
/// 1970.
pub fn is_living_holder(session: &Session, moment: u64, lock: u64) -> bool
    ensures { result ≡ is_held moment lock session.now }
{
    match session.holder {
        Some(holder) => holder.lock == lock && moment < holder.until,
        None => false,
    }
}
