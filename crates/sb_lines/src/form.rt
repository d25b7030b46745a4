// The form in which a reply shows copies.

/// The form in which a reply shows copies.
#[derive(Clone, Copy, PartialEq, Eq, Drop)]
pub enum Form {
    /// Body, texts, properties and time to live each under a key.
    Plain,
    /// All of these in the bytes of AMQP 1.0, as hexadecimal digits under one key.
    Amqp,
}
