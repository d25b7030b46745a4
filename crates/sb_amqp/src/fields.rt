// Which field of a message's properties each system text is.
ghost use Rattle.std.specs.Prelude.{◌≡◌};
ghost use Rattle.sb_amqp.specs.Fields as fields;

use sb_model::SystemName;

/// The descriptors of the sections.
pub(crate) const HEADER: u8 = 0x70;

pub(crate) const ANNOTATIONS: u8 = 0x72;

pub(crate) const PROPERTIES: u8 = 0x73;

pub(crate) const APPLICATION: u8 = 0x74;

pub(crate) const DATA: u8 = 0x75;

pub(crate) const SEQUENCE: u8 = 0x76;

pub(crate) const VALUE: u8 = 0x77;

pub(crate) const FOOTER: u8 = 0x78;

/// The annotation that has the moment from which a message may be received.
pub(crate) const SCHEDULE_KEY: &str = "x-opt-scheduled-enqueue-time";

/// The number of the field that this text is, from 1.
pub(crate) fn field_number(name: SystemName) -> usize
    ensures { result ≡ fields.field_number name }
{
    match name {
        SystemName::MessageId => 1,
        SystemName::To => 3,
        SystemName::Label => 4,
        SystemName::ReplyTo => 5,
        SystemName::CorrelationId => 6,
        SystemName::ContentType => 7,
        SystemName::SessionId => 11,
        SystemName::ReplyToSessionId => 13,
    }
}

/// The text that the field of this number is, if it is one.
#[tactic(auto, unfolding(crate::specs::Fields::field_name))]
pub(crate) fn field_name(number: usize) -> Option<SystemName>
    ensures { result ≡ fields.field_name number }
{
    match number {
        1 => Some(SystemName::MessageId),
        3 => Some(SystemName::To),
        4 => Some(SystemName::Label),
        5 => Some(SystemName::ReplyTo),
        6 => Some(SystemName::CorrelationId),
        7 => Some(SystemName::ContentType),
        11 => Some(SystemName::SessionId),
        13 => Some(SystemName::ReplyToSessionId),
        _ => None,
    }
}

/// Whether the text is written as a symbol.
pub(crate) fn is_symbol(name: SystemName) -> bool
    ensures { result ≡ fields.is_symbol name }
{
    match name {
        SystemName::ContentType => true,
        SystemName::MessageId
        | SystemName::Label
        | SystemName::CorrelationId
        | SystemName::SessionId
        | SystemName::To
        | SystemName::ReplyTo
        | SystemName::ReplyToSessionId => false,
    }
}
