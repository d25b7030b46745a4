// Messages as they are sent, and their properties.
ghost use Rattle.std.specs.Prelude.{◌≡◌};
ghost use Rattle.std.specs.Str.{str_eq_ignore_ascii_case};
ghost use Rattle.sb_model.specs.SystemNames.{system_name, system_code, system_named};

use crate::{Body, Rows, Text};

/// A name of an entity, a subscription, a rule or a property. It is folded to ASCII lower case
/// when a call is made from text; any text may stand here, and the machine refuses a bad one.
pub type Name = Text;

/// The eight texts of a message that the service itself knows
/// (Microsoft Learn, Service Bus, "Messages, payloads, and serialization").
#[derive(Clone, Copy, PartialEq, Eq, Drop)]
pub enum SystemName {
    MessageId,
    Label,
    CorrelationId,
    SessionId,
    To,
    ReplyTo,
    ReplyToSessionId,
    ContentType,
}

impl SystemName {
    /// The name as the service writes it.
    pub fn name(self) -> &'static str
        ensures { result.now ≡ system_name self }
    {
        match self {
            SystemName::MessageId => "MessageId",
            SystemName::Label => "Label",
            SystemName::CorrelationId => "CorrelationId",
            SystemName::SessionId => "SessionId",
            SystemName::To => "To",
            SystemName::ReplyTo => "ReplyTo",
            SystemName::ReplyToSessionId => "ReplyToSessionId",
            SystemName::ContentType => "ContentType",
        }
    }

    /// Its place among the eight, from 1.
    pub fn code(self) -> u8
        ensures { result ≡ system_code self }
    {
        match self {
            SystemName::MessageId => 1,
            SystemName::Label => 2,
            SystemName::CorrelationId => 3,
            SystemName::SessionId => 4,
            SystemName::To => 5,
            SystemName::ReplyTo => 6,
            SystemName::ReplyToSessionId => 7,
            SystemName::ContentType => 8,
        }
    }

    /// The one that is named so, in any ASCII case.
    pub fn named(text: &str) -> Option<Self>
        ensures { result ≡ system_named text.now }
    {
        if is_same_word(text, "MessageId") {
            Some(SystemName::MessageId)
        } else if is_same_word(text, "Label") {
            Some(SystemName::Label)
        } else if is_same_word(text, "CorrelationId") {
            Some(SystemName::CorrelationId)
        } else if is_same_word(text, "SessionId") {
            Some(SystemName::SessionId)
        } else if is_same_word(text, "To") {
            Some(SystemName::To)
        } else if is_same_word(text, "ReplyTo") {
            Some(SystemName::ReplyTo)
        } else if is_same_word(text, "ReplyToSessionId") {
            Some(SystemName::ReplyToSessionId)
        } else if is_same_word(text, "ContentType") {
            Some(SystemName::ContentType)
        } else {
            None
        }
    }
}

/// Whether these differ in ASCII case alone.
pub fn is_same_word(text: &str, word: &str) -> bool
    ensures { result ≡ str_eq_ignore_ascii_case text.now word.now }
{
    text.eq_ignore_ascii_case(word)
}

/// One system text; an empty one counts as absent and never stands here.
#[derive(Clone, Drop)]
pub struct SystemText {
    pub name: SystemName,
    pub text: Text,
}

/// What a user property holds.
#[derive(Clone, Drop)]
pub enum PropertyValue {
    Int(i64),
    Text(Text),
    Bool(bool),
}

/// A user property: a folded name and its value.
#[derive(Clone, Drop)]
pub struct Property {
    pub name: Name,
    pub value: PropertyValue,
}

/// A message as it is sent.
#[derive(Clone, Drop)]
pub struct Message {
    /// At most 262,144 bytes where a send is accepted.
    pub body: Body,
    /// By code of the name, none twice.
    pub sys: Rows<SystemText>,
    /// By name in byte order, none twice.
    pub props: Rows<Property>,
    /// Time to live in seconds, from 1; none lives for ever.
    pub ttl: Option<u64>,
    /// The moment in ms since 1970 from which it may be received.
    pub schedule: Option<u64>,
}
