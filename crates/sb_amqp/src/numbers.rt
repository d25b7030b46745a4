// Numbers of 1, 2, 4 and 8 bytes.
ghost use Rattle.std.specs.Prelude.{◌≡◌};
ghost use Rattle.sb_amqp.specs.Meaning as meaning;

/// A number of so many bytes; one of none is 0.
#[tactic(auto, unfolding(crate::specs::Meaning::unsigned_in))]
pub(crate) fn unsigned_in(content: &[u8]) -> u64
    ensures { result ≡ meaning.unsigned_in content.now }
{
    if content.len() == 8 {
        u64::from_be_bytes([
            content[0], content[1], content[2], content[3], content[4], content[5], content[6],
            content[7],
        ])
    } else if content.len() == 4 {
        u64::from(u32::from_be_bytes([content[0], content[1], content[2], content[3]]))
    } else if content.len() == 2 {
        u64::from(u16::from_be_bytes([content[0], content[1]]))
    } else if content.len() == 1 {
        u64::from(content[0])
    } else {
        0
    }
}

/// The same in two's complement.
#[tactic(auto, unfolding(crate::specs::Meaning::signed_in))]
pub(crate) fn signed_in(content: &[u8]) -> i64
    ensures { result ≡ meaning.signed_in content.now }
{
    if content.len() == 8 {
        i64::from_be_bytes([
            content[0], content[1], content[2], content[3], content[4], content[5], content[6],
            content[7],
        ])
    } else if content.len() == 4 {
        i64::from(i32::from_be_bytes([content[0], content[1], content[2], content[3]]))
    } else if content.len() == 2 {
        i64::from(i16::from_be_bytes([content[0], content[1]]))
    } else if content.len() == 1 {
        i64::from(content[0].cast_signed())
    } else {
        0
    }
}
