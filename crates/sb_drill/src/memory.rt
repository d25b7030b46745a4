// What a drill remembers of the answers to its calls.
ghost use Rattle.std.specs.Prelude.{◌≡◌};
ghost use Rattle.sb_drill.specs.Memories as memories;

use crate::choice::Choice;
use crate::drawing::{choice_of, word_at};
use crate::setup::SETUP;
use sb_machine::{Answer, Answered, Reply, Showing, Token};

/// A message that was received under a lock: its number, and the lock's token.
#[derive(Clone, Copy, PartialEq, Eq)]
pub struct Received {
    pub number: u64,
    pub token: Token,
}

/// What a drill remembers.
#[derive(Clone, Copy, PartialEq, Eq)]
pub struct Memory {
    /// What was last received from `d0` under a lock, if anything was.
    pub received: Option<Received>,
    /// The session of `d1` that was last accepted, if one was.
    pub session: Option<Token>,
}

impl Memory {
    /// Before the first call.
    pub fn nothing() -> Memory
        ensures { result ≡ memories.no_memory }
    {
        Memory {
            received: None,
            session: None,
        }
    }
}

/// What is remembered behind the answer to the call of this number.
#[tactic(auto, unfolding(crate::specs::Memories::heard))]
pub fn heard(seed: u64, n: u64, memory: Memory, answer: &Answer) -> Memory
    ensures { result ≡ memories.heard seed n memory answer.now }
{
    if n < SETUP {
        return memory;
    }
    heard_as(choice_of(word_at(seed, n - SETUP)), memory, answer)
}

fn heard_as(choice: Choice, memory: Memory, answer: &Answer) -> Memory
    ensures { result ≡ memories.heard_as choice memory answer.now }
{
    match choice {
        Choice::LockPlain => with_message(memory, answer),
        Choice::AcceptSession => with_session(memory, answer),
        Choice::SendPlain
        | Choice::SendTopic
        | Choice::SendSession
        | Choice::TakeTopic
        | Choice::CompletePlain
        | Choice::LockSession
        | Choice::TakeDead => memory,
    }
}

fn with_message(memory: Memory, answer: &Answer) -> Memory
    ensures { result ≡ memories.with_message memory answer.now }
{
    match answer {
        Ok(Answered::New(Reply::Message(copy))) => with_copy(memory, copy.number, copy.showing),
        _ => memory,
    }
}

fn with_copy(memory: Memory, number: u64, showing: Showing) -> Memory
    ensures { result ≡ memories.with_copy memory number showing }
{
    match showing {
        Showing::Locked { token, .. } => Memory {
            received: Some(Received { number, token }),
            ..memory
        },
        Showing::Removed | Showing::Browsed(_) => memory,
    }
}

fn with_session(memory: Memory, answer: &Answer) -> Memory
    ensures { result ≡ memories.with_session memory answer.now }
{
    match answer {
        Ok(Answered::New(Reply::Session { session, .. })) => Memory {
            session: Some(*session),
            ..memory
        },
        _ => memory,
    }
}
