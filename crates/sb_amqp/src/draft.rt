// A message as it is read.
ghost use Rattle.std.specs.Prelude.{◌≡◌, ◌++◌, Some, IfOk};
ghost use Rattle.sb_amqp.specs.Meaning as meaning;

use crate::gathered::Gathered;
use crate::properties::with_text;
use sb_model::{Body, Message, PropertyValue, Rows, SystemName, SystemText, Text};
use std::alloc::{AllocError, Global};
use std::marker::Model;

/// A message of which more may be said. Contracts see that message; its properties stand in a map, and
/// its bytes are nobody else's, so that what is said costs no more where much was said before.
#[derive(Drop)]
pub(crate) struct Draft {
    body: Rows<u8>,
    sys: Rows<SystemText>,
    props: Gathered,
    ttl: Option<u64>,
    schedule: Option<u64>,
}

impl Model for Draft {
    ghost use Rattle.sb_model.specs.declared.message.Message.{Message};

    ghost Value = { Message };

    ghost view = { λ d. record { body = d.body; sys = d.sys; props = d.props; ttl = d.ttl; schedule = d.schedule } };
}

impl Draft {
    /// Where nothing was said.
    pub(crate) fn new(alloc: Global) -> Draft
        ensures { result ≡ meaning.no_message }
    {
        Draft {
            body: Rows::new(alloc),
            sys: Rows::new(alloc),
            props: Gathered::new(alloc),
            ttl: None,
            schedule: None,
        }
    }

    pub(crate) fn ttl(&self) -> Option<u64>
        ensures { result ≡ self.now.ttl }
    {
        self.ttl
    }

    pub(crate) fn with_ttl(self, ttl: Option<u64>) -> Draft
        ensures { result ≡ record self { ttl = ttl } }
    {
        let mut draft = self;
        draft.ttl = ttl;
        draft
    }

    pub(crate) fn with_schedule(self, moment: u64) -> Draft
        ensures { result ≡ record self { schedule = Some moment } }
    {
        let mut draft = self;
        draft.schedule = Some(moment);
        draft
    }

    /// With these bytes behind its body's others.
    pub(crate) fn with_body(self, more: &[u8]) -> Result<Draft, AllocError>
        ensures { IfOk result (λ d. d ≡ meaning.with_body more.now self) }
    {
        let Draft {
            body,
            sys,
            props,
            ttl,
            schedule,
        } = self;
        let body = with_bytes(body, more)?;
        Ok(Draft {
            body,
            sys,
            props,
            ttl,
            schedule,
        })
    }

    pub(crate) fn with_text(self, name: SystemName, text: Text) -> Result<Draft, AllocError>
        ensures { IfOk result (λ d. d ≡ record self { sys = meaning.with_text name text self.sys }) }
    {
        let Draft {
            body,
            sys,
            props,
            ttl,
            schedule,
        } = self;
        let sys = with_text(name, text, sys)?;
        Ok(Draft {
            body,
            sys,
            props,
            ttl,
            schedule,
        })
    }

    pub(crate) fn with_property(
        self,
        alloc: Global,
        name: &str,
        value: PropertyValue,
    ) -> Result<Draft, AllocError>
        ensures { IfOk result (λ d. d ≡ meaning.with_property name.now value self) }
    {
        let mut draft = self;
        match draft.props.put(alloc, name, value) {
            Ok(()) => Ok(draft),
            Err(e) => {
                drop(draft);
                Err(e)
            }
        }
    }

    /// Where no more is said.
    pub(crate) fn into_message(self, alloc: Global) -> Result<Message, AllocError>
        ensures { IfOk result (λ m. m ≡ self) }
    {
        let Draft {
            body,
            sys,
            props,
            ttl,
            schedule,
        } = self;
        let props = props.into_rows(alloc)?;
        Ok(Message {
            body: Body::from_vec(body.into_vec())?,
            sys,
            props,
            ttl,
            schedule,
        })
    }
}

fn with_bytes(body: Rows<u8>, more: &[u8]) -> Result<Rows<u8>, AllocError>
    ensures { IfOk result (λ r. r ≡ body ++ more.now) }
{
    let mut bytes = body.into_vec();
    bytes.extend_from_slice(more)?;
    Ok(Rows::from_vec(bytes))
}
