// What a request says of a message, beside its body.
ghost use Rattle.std.specs.Prelude.{◌≡◌, IfOk};
ghost use Rattle.sb_lines.specs.Messages.{with_text};
ghost use Rattle.sb_model.specs.declared.message.SystemName.TheVariants.{ContentType};
ghost use Rattle.sb_rest.specs.Brokers.{no_broker};
ghost use Rattle.sb_rest.specs.Headers.{no_draft, message_from};

use sb_amqp::Gathered;
use sb_model::{Body, Message, Rows, SystemName, SystemText, Text};
use std::alloc::{AllocError, Global};

/// What BrokerProperties say.
#[derive(Drop)]
pub struct Broker {
    /// By code of the name, none twice, without ContentType.
    pub texts: Rows<SystemText>,
    /// Time to live in s, from 1.
    pub ttl: Option<u64>,
    /// The moment in ms since 1970 from which the message may be received.
    pub schedule: Option<u64>,
}

/// What is said so far.
#[derive(Drop)]
pub struct Draft {
    pub broker: Broker,
    /// Empty where there is none.
    pub content_type: Text,
    /// The user properties.
    pub props: Gathered,
}

/// Where nothing is said.
pub(crate) fn no_broker(alloc: Global) -> Broker
    ensures { result ≡ no_broker }
{
    Broker {
        texts: Rows::new(alloc),
        ttl: None,
        schedule: None,
    }
}

/// Where nothing is said.
pub(crate) fn no_draft(alloc: Global) -> Draft
    ensures { result ≡ no_draft }
{
    Draft {
        broker: no_broker(alloc),
        content_type: Text::from_string(String::new(alloc)),
        props: Gathered::new(alloc),
    }
}

fn with_type(text: Text, texts: Rows<SystemText>) -> Result<Rows<SystemText>, AllocError>
    ensures { IfOk result (λ r. r ≡ with_text ContentType text texts) }
{
    if text.as_bytes().is_empty() {
        return Ok(texts);
    }
    let mut texts = texts;
    texts.push(SystemText {
        name: SystemName::ContentType,
        text,
    })?;
    Ok(texts)
}

/// The message with this body of which this is said.
pub(crate) fn message_from(alloc: Global, body: Body, draft: Draft) -> Result<Message, AllocError>
    ensures { IfOk result (λ m. m ≡ message_from body draft) }
{
    let Draft {
        broker,
        content_type,
        props,
    } = draft;
    let Broker {
        texts,
        ttl,
        schedule,
    } = broker;
    let sys = with_type(content_type, texts)?;
    let props = props.into_rows(alloc)?;
    Ok(Message {
        body,
        sys,
        props,
        ttl,
        schedule,
    })
}
