// What the words of a drill ask for, as acts.
ghost use Rattle.std.specs.Prelude.{◌≡◌, ◌∷◌, [], IfOk, None};
ghost use Rattle.sb_machine.specs.Namespace.{entity_path, part_path};
ghost use Rattle.sb_drill.specs.Calls as calls;

use crate::choice::Choice;
use crate::memory::{Memory, Received};
use crate::messages::{plain_message, session_message, topic_message};
use sb_machine::{Act, How, Mode, Part, Path, Token, Which};
use sb_model::{Message, Rows, Text};
use std::alloc::{AllocError, Global};

/// What a word of this choice and value asks for, as the call of this number behind the setup, from 1.
pub(crate) fn drawn_act(
    alloc: Global,
    choice: Choice,
    call: u64,
    value: u32,
    memory: Memory,
) -> Result<Act, AllocError>
    ensures { IfOk result (λ a. a ≡ calls.drawn_act choice call value memory) }
{
    match choice {
        Choice::SendPlain => send(alloc, "d0", plain_message(alloc, call, value)?),
        Choice::SendTopic => send(alloc, "dt", topic_message(alloc, call, value)?),
        Choice::SendSession => send(alloc, "d1", session_message(alloc, call, value)?),
        Choice::LockPlain => receive(alloc, "d0", Part::Main, Mode::Lock, None),
        Choice::TakeTopic => take_topic(alloc),
        Choice::CompletePlain => complete(alloc, memory.received),
        Choice::AcceptSession => accept(alloc),
        Choice::LockSession => lock_session(alloc, memory.session),
        Choice::TakeDead => receive(alloc, "d0", Part::Dead, Mode::Delete, None),
    }
}

fn path_to(alloc: Global, name: &str, part: Part) -> Result<Path, AllocError>
    ensures { IfOk result (λ p. p ≡ part_path part name.now) }
{
    Ok(Path {
        name: Text::of(alloc, name)?,
        subscription: None,
        part,
    })
}

fn send(alloc: Global, name: &str, message: Message) -> Result<Act, AllocError>
    ensures { IfOk result (λ a. a ≡ Act.Send (entity_path name.now) (message ∷ []) None) }
{
    let to = path_to(alloc, name, Part::Main)?;
    let mut messages = Rows::new(alloc);
    messages.push(message)?;
    Ok(Act::Send {
        to,
        messages,
        txn: None,
    })
}

fn receive(
    alloc: Global,
    name: &str,
    part: Part,
    mode: Mode,
    session: Option<Token>,
) -> Result<Act, AllocError>
    ensures { IfOk result (λ a. a ≡ Act.Receive (part_path part name.now) mode session) }
{
    Ok(Act::Receive {
        from: path_to(alloc, name, part)?,
        mode,
        session,
    })
}

fn take_topic(alloc: Global) -> Result<Act, AllocError>
    ensures { IfOk result (λ a. a ≡ calls.take_topic) }
{
    let name = Text::of(alloc, "dt")?;
    let subscription = Text::of(alloc, "s0")?;
    Ok(Act::Receive {
        from: Path {
            name,
            subscription: Some(subscription),
            part: Part::Main,
        },
        mode: Mode::Delete,
        session: None,
    })
}

// The completion of what was received, or a look at the first message where nothing was.
fn complete(alloc: Global, received: Option<Received>) -> Result<Act, AllocError>
    ensures { IfOk result (λ a. a ≡ calls.complete received) }
{
    let Some(Received { number, token }) = received else {
        return look(alloc, "d0");
    };
    Ok(Act::Settle {
        from: path_to(alloc, "d0", Part::Main)?,
        which: Which::Number(number),
        token,
        session: None,
        how: How::Complete,
        txn: None,
    })
}

fn accept(alloc: Global) -> Result<Act, AllocError>
    ensures { IfOk result (λ a. a ≡ calls.accept) }
{
    Ok(Act::Accept {
        from: path_to(alloc, "d1", Part::Main)?,
        id: None,
    })
}

// A receive in the session that was accepted, or a look at the first message where none was.
fn lock_session(alloc: Global, session: Option<Token>) -> Result<Act, AllocError>
    ensures { IfOk result (λ a. a ≡ calls.lock_session session) }
{
    match session {
        Some(token) => receive(alloc, "d1", Part::Main, Mode::Lock, Some(token)),
        None => look(alloc, "d1"),
    }
}

fn look(alloc: Global, name: &str) -> Result<Act, AllocError>
    ensures { IfOk result (λ a. a ≡ Act.Peek (entity_path name.now) 1 1) }
{
    Ok(Act::Peek {
        from: path_to(alloc, name, Part::Main)?,
        start: 1,
        count: 1,
    })
}
