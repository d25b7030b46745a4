// The acts that paths name.
ghost use Rattle.std.specs.Prelude.{◌≡◌, IfOk};
ghost use Rattle.sb_lines.specs.Faults.{Answers};
ghost use Rattle.sb_rest.specs.Calls as calls;
ghost use Rattle.sb_rest.specs.Dispositions.{unless_empty};

use crate::asked::{PathAct, Scope};
use crate::path::{
    address_in, held_in, id_place, message_place, number_at, scope_in, text_in, token_at,
};
use sb_lines::LineFault;
use sb_machine::{Act, How, Mode, Path, Token, Which};
use sb_model::{Rows, Text};
use sb_routes::Address;
use std::alloc::{AllocError, Global};

/// The act that path and method say whole.
pub(crate) fn act_in(alloc: Global, asked: PathAct, path: &[u8]) -> Result<Act, LineFault>
    ensures { Answers result (calls.act_in asked path.now) }
{
    match asked {
        PathAct::Take(address, scope, mode) => taken(alloc, address, scope, mode, path),
        PathAct::TakeDeferred(address, scope, mode) => {
            taken_deferred(alloc, address, scope, mode, path)
        }
        PathAct::Complete(address, scope) => completed(alloc, address, scope, path),
        PathAct::Renew(address) => renewed(alloc, address, path),
        PathAct::Cancel(address) => cancelled(alloc, address, path),
        PathAct::AcceptNext(address) => accepted_next(alloc, address, path),
        PathAct::AcceptNamed(address) => accepted_named(alloc, address, path),
        PathAct::RenewSession(address) => {
            let (from, session) = held_in(alloc, address, path)?;
            Ok(Act::SessionRenew { from, session })
        }
        PathAct::CloseSession(address) => {
            let (from, session) = held_in(alloc, address, path)?;
            Ok(Act::SessionClose { from, session })
        }
        PathAct::ReadState(address) => {
            let (from, session) = held_in(alloc, address, path)?;
            Ok(Act::SessionState { from, session })
        }
    }
}

// ---- messages

/// Whose a message under a lock is, the token of the session it is in, its id and its token.
pub(crate) fn locked_in(
    alloc: Global,
    address: Address,
    scope: Scope,
    path: &[u8],
) -> Result<(Path, Option<Token>, Text, Token), LineFault>
    ensures { Answers result (calls.locked_in address scope path.now) }
{
    let (from, session) = scope_in(alloc, address, scope, path)?;
    let place = message_place(address, scope);
    let id = text_in(alloc, path, place)?;
    let token = token_at(alloc, path, place + 1)?;
    Ok((from, session, id, token))
}

/// What becomes of a message under a lock.
pub(crate) fn settled(how: How, from: Path, session: Option<Token>, id: Text, token: Token) -> Act
    ensures { result ≡ calls.settled how (from, session, id, token) }
{
    Act::Settle {
        from,
        which: Which::Id(id),
        token,
        session,
        how,
        txn: None,
    }
}

// That a message under a lock is worked off.
fn completed(alloc: Global, address: Address, scope: Scope, path: &[u8]) -> Result<Act, LineFault>
    ensures { Answers result (calls.completed address scope path.now) }
{
    let (from, session, id, token) = locked_in(alloc, address, scope, path)?;
    Ok(settled(How::Complete, from, session, id, token))
}

// That the lock of a message lives longer.
fn renewed(alloc: Global, address: Address, path: &[u8]) -> Result<Act, LineFault>
    ensures { Answers result (calls.renewed address path.now) }
{
    let (from, _, id, token) = locked_in(alloc, address, Scope::Whole, path)?;
    Ok(Act::Renew {
        from,
        which: Which::Id(id),
        token,
    })
}

// That the first message is received.
fn taken(
    alloc: Global,
    address: Address,
    scope: Scope,
    mode: Mode,
    path: &[u8],
) -> Result<Act, LineFault>
    ensures { Answers result (calls.taken address scope mode path.now) }
{
    let (from, session) = scope_in(alloc, address, scope, path)?;
    Ok(Act::Receive {
        from,
        mode,
        session,
    })
}

// Whose a message that its number names is, the token of the session it is in, and the number.
fn numbered_in(
    alloc: Global,
    address: Address,
    scope: Scope,
    path: &[u8],
) -> Result<(Path, Option<Token>, u64), LineFault>
    ensures { Answers result (calls.numbered_in address scope path.now) }
{
    let (from, session) = scope_in(alloc, address, scope, path)?;
    let number = number_at(alloc, path, message_place(address, scope))?;
    Ok((from, session, number))
}

// That a deferred message is received.
fn taken_deferred(
    alloc: Global,
    address: Address,
    scope: Scope,
    mode: Mode,
    path: &[u8],
) -> Result<Act, LineFault>
    ensures { Answers result (calls.taken_deferred address scope mode path.now) }
{
    let (from, session, number) = numbered_in(alloc, address, scope, path)?;
    Ok(Act::ReceiveDeferred {
        from,
        number,
        mode,
        session,
    })
}

// That a scheduled message is taken back.
fn cancelled(alloc: Global, address: Address, path: &[u8]) -> Result<Act, LineFault>
    ensures { Answers result (calls.cancelled address path.now) }
{
    let (from, _, number) = numbered_in(alloc, address, Scope::Whole, path)?;
    Ok(Act::Cancel { from, number })
}

// ---- sessions

// That the next session is given to who asks.
fn accepted_next(alloc: Global, address: Address, path: &[u8]) -> Result<Act, LineFault>
    ensures { Answers result (calls.accepted_next address path.now) }
{
    let from = address_in(alloc, address, path)?;
    Ok(Act::Accept { from, id: None })
}

// That the session of an id is given to who asks.
fn accepted_named(alloc: Global, address: Address, path: &[u8]) -> Result<Act, LineFault>
    ensures { Answers result (calls.accepted_named address path.now) }
{
    let from = address_in(alloc, address, path)?;
    let id = text_in(alloc, path, id_place(address))?;
    Ok(Act::Accept { from, id: Some(id) })
}

// What a session is to remember; of no bytes nothing.
fn state_in(alloc: Global, body: &[u8]) -> Result<Option<Rows<u8>>, AllocError>
    ensures { IfOk result (λ state. state ≡ unless_empty body.now) }
{
    if body.is_empty() {
        return Ok(None);
    }
    Ok(Some(Rows::of(alloc, body)?))
}

/// That a session remembers a body.
pub(crate) fn remembered(
    alloc: Global,
    address: Address,
    path: &[u8],
    body: &[u8],
) -> Result<Act, LineFault>
    ensures { Answers result (calls.remembered address path.now body.now) }
{
    let (from, session) = held_in(alloc, address, path)?;
    let state = state_in(alloc, body)?;
    Ok(Act::SessionSet {
        from,
        session,
        state,
    })
}
