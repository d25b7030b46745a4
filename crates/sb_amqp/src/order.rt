// Whether bytes are sections in an order that they may have.
ghost use Rattle.std.specs.Prelude.{◌≡◌, ◌<◌, ◌&&◌, ◌==◌, IfSome, length, option_map};
ghost use Rattle.sb_amqp.specs.Reading as reading;
ghost use Rattle.sb_amqp.specs.Reads.{Checked};
ghost use Rattle.sb_amqp.specs.Sections as sections;

use crate::fields::{DATA, FOOTER};
use crate::taken::{Section, section_at};

/// What stands before the first section.
const BEFORE_ALL: u8 = 0x6f;

fn may_follow(last: u8, code: u8) -> bool
    ensures { result ≡ sections.may_follow last code }
{
    if last < DATA {
        last < code && code < FOOTER
    } else {
        (code == FOOTER && last < FOOTER) || (code == DATA && last == DATA)
    }
}

/// The section at the front, where it may stand behind the last one.
#[tactic(auto, unfolding(crate::specs::Reading::next_at))]
fn next_section(last: u8, bytes: &[u8]) -> Option<Section<'_>>
    ensures value { option_map (λ s. (s.code, (s.value.now, s.rest.now))) result ≡ reading.next_at last bytes.now }
    ensures shorter { IfSome result (λ s. length s.rest.now < length bytes.now) }
{
    let Some(section) = section_at(bytes) else {
        return None;
    };
    if !may_follow(last, section.code) {
        return None;
    }
    Some(section)
}

fn is_whole(last: u8, rest: &[u8]) -> bool
    ensures { result ≡ (sections.may_end last && (length rest.now == 0)) }
{
    last >= DATA && rest.is_empty()
}

/// Whether the bytes are the sections of a message, each well formed; else the place of the first
/// that begins none.
pub(crate) fn check_sections(bytes: &[u8]) -> Result<(), usize>
    ensures { Checked bytes.now result }
{
    let mut last = BEFORE_ALL;
    let mut rest = bytes;
    while let Some(section) = next_section(last, rest) {
        last = section.code;
        rest = section.rest;
    }
    if is_whole(last, rest) {
        return Ok(());
    }
    Err(bytes.len() - rest.len())
}
