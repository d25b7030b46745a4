// What a method asks for on a route.
ghost use Rattle.std.specs.Prelude.{◌≡◌, bytes_eq};
ghost use Rattle.sb_rest.specs.Calls as calls;

use sb_machine::Mode;
use sb_routes::{Address, Route};

/// What is asked for.
#[derive(Clone, Copy, PartialEq, Eq, Drop)]
pub enum Asked {
    Send,
    /// To put a message where the query says.
    Put(Address, Scope),
    /// That a session remembers the body.
    Remember(Address),
    Do(PathAct),
    /// That the operations of the body act together.
    Together,
    /// Whether the namespace acts.
    Health,
    /// How many messages stand how, told so.
    List(Sight),
    /// Messages.
    Peek,
}

/// How the answer to a call is told.
#[derive(Clone, Copy, PartialEq, Eq, Drop)]
pub enum Sight {
    /// As its act says.
    Reply,
    /// That the namespace acts, or why it doesn't.
    Health,
    /// As the line of a script has it.
    Line,
    /// As that line, with the numbers of the server.
    Status,
    /// As numbers, for who gathers such.
    Metrics,
}

/// Whose messages are meant.
#[derive(Clone, Copy, PartialEq, Eq, Drop)]
pub enum Scope {
    /// Those of an address.
    Whole,
    /// Those of a session there, by the token of its holder.
    Session,
}

/// An act that path and method say whole.
#[derive(Clone, Copy, PartialEq, Eq, Drop)]
pub enum PathAct {
    /// To receive the first message, under a lock or with deletion.
    Take(Address, Scope, Mode),
    /// To receive a deferred message, likewise.
    TakeDeferred(Address, Scope, Mode),
    Complete(Address, Scope),
    Renew(Address),
    /// To take a scheduled message back.
    Cancel(Address),
    /// To be given the next session that nobody holds.
    AcceptNext(Address),
    /// To be given the session of an id.
    AcceptNamed(Address),
    RenewSession(Address),
    CloseSession(Address),
    /// To read what a session remembers.
    ReadState(Address),
}

/// Whether these are the same bytes.
pub(crate) fn is(bytes: &[u8], word: &[u8]) -> bool
    ensures { result ≡ bytes_eq bytes.now word.now }
{
    bytes == word
}

/// What a method asks for on a route of calls.
pub(crate) fn asked_at(route: Route, method: &[u8]) -> Option<Asked>
    ensures { result ≡ calls.asked_at route method.now }
{
    match route {
        Route::Messages => if_post(method, Asked::Send),
        Route::Head(address) => at_head(address, Scope::Whole, method),
        Route::Deferred(address) => at_deferred(address, Scope::Whole, method),
        Route::Locked(address) => at_locked(address, method),
        Route::Scheduled(address) => at_scheduled(address, method),
        Route::NextSession(address) => if_post(method, Asked::Do(PathAct::AcceptNext(address))),
        Route::NamedSession(address) => if_post(method, Asked::Do(PathAct::AcceptNamed(address))),
        Route::HeldSession(address) => at_held(address, method),
        Route::SessionState(address) => at_state(address, method),
        Route::SessionHead(address) => at_head(address, Scope::Session, method),
        Route::SessionDeferred(address) => at_deferred(address, Scope::Session, method),
        Route::SessionLocked(address) => at_session_locked(address, method),
        Route::Together => if_post(method, Asked::Together),
        Route::Health => if_get(method, Asked::Health),
        Route::Status => if_get(method, Asked::List(Sight::Status)),
        Route::Metrics => if_get(method, Asked::List(Sight::Metrics)),
        Route::Peek => if_get(method, Asked::Peek),
        Route::Script | Route::Page => None,
    }
}

// At GET, this.
fn if_get(method: &[u8], asked: Asked) -> Option<Asked>
    ensures { result ≡ calls.if_get method.now asked }
{
    if is(method, b"GET") {
        Some(asked)
    } else {
        None
    }
}

// At POST, this.
fn if_post(method: &[u8], asked: Asked) -> Option<Asked>
    ensures { result ≡ calls.if_post method.now asked }
{
    if is(method, b"POST") {
        Some(asked)
    } else {
        None
    }
}

// What a method asks for at the first message.
fn at_head(address: Address, scope: Scope, method: &[u8]) -> Option<Asked>
    ensures { result ≡ calls.at_head address scope method.now }
{
    if is(method, b"DELETE") {
        return Some(Asked::Do(PathAct::Take(address, scope, Mode::Delete)));
    }
    if_post(method, Asked::Do(PathAct::Take(address, scope, Mode::Lock)))
}

// What a method asks for at a deferred message.
fn at_deferred(address: Address, scope: Scope, method: &[u8]) -> Option<Asked>
    ensures { result ≡ calls.at_deferred address scope method.now }
{
    if is(method, b"DELETE") {
        return Some(Asked::Do(PathAct::TakeDeferred(address, scope, Mode::Delete)));
    }
    if_post(
        method,
        Asked::Do(PathAct::TakeDeferred(address, scope, Mode::Lock)),
    )
}

// What a method asks for at a message under a lock.
fn at_locked(address: Address, method: &[u8]) -> Option<Asked>
    ensures { result ≡ calls.at_locked address method.now }
{
    if is(method, b"PUT") {
        return Some(Asked::Put(address, Scope::Whole));
    }
    if is(method, b"DELETE") {
        return Some(Asked::Do(PathAct::Complete(address, Scope::Whole)));
    }
    if_post(method, Asked::Do(PathAct::Renew(address)))
}

// What a method asks for at a message under a lock, of a session that is held.
fn at_session_locked(address: Address, method: &[u8]) -> Option<Asked>
    ensures { result ≡ calls.at_session_locked address method.now }
{
    if is(method, b"PUT") {
        return Some(Asked::Put(address, Scope::Session));
    }
    if is(method, b"DELETE") {
        return Some(Asked::Do(PathAct::Complete(address, Scope::Session)));
    }
    None
}

// What a method asks for at a session that is held.
fn at_held(address: Address, method: &[u8]) -> Option<Asked>
    ensures { result ≡ calls.at_held address method.now }
{
    if is(method, b"DELETE") {
        return Some(Asked::Do(PathAct::CloseSession(address)));
    }
    if_post(method, Asked::Do(PathAct::RenewSession(address)))
}

// What a method asks for at what a session remembers.
fn at_state(address: Address, method: &[u8]) -> Option<Asked>
    ensures { result ≡ calls.at_state address method.now }
{
    if is(method, b"GET") {
        return Some(Asked::Do(PathAct::ReadState(address)));
    }
    if is(method, b"PUT") {
        return Some(Asked::Remember(address));
    }
    None
}

// What a method asks for at a scheduled message.
fn at_scheduled(address: Address, method: &[u8]) -> Option<Asked>
    ensures { result ≡ calls.at_scheduled address method.now }
{
    if is(method, b"DELETE") {
        Some(Asked::Do(PathAct::Cancel(address)))
    } else {
        None
    }
}
