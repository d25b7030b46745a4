// A link in memory.
ghost use Rattle.std.specs.Prelude.{◌≡◌, [], ◌∷◌, ◌++◌, Some, IfOk, OnOk, OnErr};

use crate::faults::CallFaults;
use crate::{Bytes, Link, LinkFault};
use std::alloc::{AllocError, Global};

// A request and the reply to it.
#[derive(Drop)]
struct Exchanged {
    request: Bytes,
    reply: Bytes,
}

/// A link in memory: it gives the replies of a list, one an exchange, and fails at the calls of another
/// list, which are numbered from 0. Where no reply is left, that is a counted fault too.
#[derive(Drop)]
pub struct MemLink {
    alloc: Global,
    replies: Vec<Bytes>,
    at: usize,
    made: Vec<Exchanged>,
    faults: CallFaults,
}

fn keep_exchange(alloc: Global, request: &[u8], reply: &[u8]) -> Result<Exchanged, AllocError>
    ensures { IfOk result (λ e. (e.request ≡ request.now) × (e.reply ≡ reply.now)) }
{
    let request = Bytes::of(alloc, request)?;
    let reply = Bytes::of(alloc, reply)?;
    Ok(Exchanged { request, reply })
}

// Gives this reply, and keeps the exchange.
fn give(
    alloc: Global,
    request: &[u8],
    given: &[u8],
    reply: &mut Vec<u8>,
    made: &mut Vec<Exchanged>,
) -> Result<(), AllocError>
    ensures reply { OnOk result (reply.new.items ≡ given.now) }
    ensures made { OnOk result (made.new.items ≡ made.old.items ++ record { request = request.now; reply = given.now } ∷ []) }
    ensures err { OnErr result (made.new.items ≡ made.old.items) }
{
    let kept = keep_exchange(alloc, request, given)?;
    reply.clear();
    let Ok(()) = reply.extend_from_slice(given) else {
        drop(kept);
        return Err(AllocError);
    };
    made.push(kept)?;
    Ok(())
}

impl MemLink {
    /// A link that gives these replies, and fails at these calls.
    pub fn new(alloc: Global, replies: Vec<Bytes>, failing: Vec<u64>) -> Self
        ensures told { ⟦<MemLink as Link>⟧.told result ≡ Some [] }
        ensures count { ⟦<MemLink as Link>⟧.count result ≡ 0 }
    {
        MemLink {
            alloc,
            replies,
            at: 0,
            made: Vec::new(alloc),
            faults: CallFaults::new(failing),
        }
    }

    /// The request of the exchange with this number, counted from 0.
    pub fn request(&self, at: usize) -> Option<&[u8]> {
        match self.made.get(at) {
            Some(exchange) => Some(exchange.request.as_slice()),
            None => None,
        }
    }
}

impl Link for MemLink {
    ghost use Rattle.sb_outside.specs.Memory.{link_told, link_calls};

    ghost told = { λ l. Some (link_told l) };

    ghost count = { λ l. (link_calls l).count };

    fn exchange(&mut self, request: &[u8], reply: &mut Vec<u8>) -> Result<(), LinkFault> {
        if self.faults.fails() {
            return Err(LinkFault::Fault);
        }
        let Some(given) = self.replies.get(self.at) else {
            self.faults.rise();
            return Err(LinkFault::Fault);
        };
        let Ok(()) = give(self.alloc, request, given.as_slice(), reply, &mut self.made) else {
            return Err(LinkFault::OutOfMemory);
        };
        self.at += 1;
        Ok(())
    }
}
