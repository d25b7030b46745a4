// Requests as calls.
ghost use Rattle.std.specs.Prelude.{◌≡◌, All, length, map, IfOk, Ok, Some};
ghost use Rattle.httparse.specs.Spans.{IsHeaderWithin, header_bytes};
ghost use Rattle.sb_http.specs.Said.{said_by};
ghost use Rattle.sb_machine.specs.Ordered.{IsActInOrder};
ghost use Rattle.sb_lines.specs.Faults.{Answers, then_by};
ghost use Rattle.sb_routes.specs.Paths.{path_of, query_of};
ghost use Rattle.sb_rest.specs.Calls as calls;
ghost use Rattle.sb_rest.specs.Entities.{entities_in as entities_of};
ghost use Rattle.sb_rest.specs.Peeks.{peek_in as peek_of};

use crate::access::{Access, has_key, is_foreign};
use crate::act::{act_in, locked_in, remembered, settled};
use crate::asked::{Asked, PathAct, Scope, Sight, asked_at, is};
use crate::batch::{is_batch, messages_in as batch_in};
use crate::broker::object_in;
use crate::disposition::{disposition_in, how_of};
use crate::entities::entities_in;
use crate::header::message_in;
use crate::path::name_in;
use crate::peeks::peek_in;
use crate::repeat::by_in;
use crate::timeout::timeout_in;
use httparse::spans::HeaderSpan;
use sb_http::Request;
use sb_lines::{KeyFault, LineFault, bad, together_of};
use sb_machine::{Act, By, Call, Look, Part, Path};
use sb_model::{Message, Rows, Text};
use sb_routes::{Address, Route, Routes, cut};
use std::alloc::Global;

/// Why a request is no call.
#[derive(Drop)]
pub enum RestFault {
    /// A web page of another origin made the request, or it names a host that isn't known.
    Foreign,
    /// The request doesn't show the key that is asked for.
    NoKey,
    /// There is no such path.
    NoRoute,
    /// The path of this route isn't used with this method.
    BadMethod { route: Route },
    /// This key is the first at fault; the part is the place, from 0, of the operation that has it, where it is
    /// one of those that act together.
    Bad { part: Option<u64>, key: Text },
    /// The body is a script line, and the reply to it is the response.
    Script,
    /// The page for a browser is asked for.
    Page,
    /// Want of memory: the request may be a call.
    OutOfMemory,
}

/// A call, how long it may wait, and how its answer is told.
#[derive(Drop)]
pub struct Wanted {
    pub call: Call,
    /// For how long a receive may wait for a message, in s: 0 to 3,600.
    pub timeout: u64,
    pub sight: Sight,
}

fn messages_in(
    alloc: Global,
    text: &[u8],
    lines: &[HeaderSpan],
    body: &[u8],
) -> Result<Rows<Message>, LineFault>
    requires { All (IsHeaderWithin (length text.now)) lines.now }
    ensures { Answers result (calls.messages_in (map (header_bytes text.now) lines.now) body.now) }
{
    if is_batch(text, lines) {
        return batch_in(alloc, body);
    }
    message_in(alloc, text, lines, body)
}

fn in_time(by: Option<By>, act: Act, timeout: u64) -> Wanted
    ensures { result ≡ calls.in_time by act timeout }
{
    Wanted {
        call: Call { by, act },
        timeout,
        sight: Sight::Reply,
    }
}

fn told(sight: Sight, act: Act) -> Wanted
    ensures { result ≡ calls.told sight act }
{
    Wanted {
        call: Call { by: None, act },
        timeout: 0,
        sight,
    }
}

fn beside(
    alloc: Global,
    query: &[u8],
    text: &[u8],
    lines: &[HeaderSpan],
) -> Result<(u64, Option<By>), LineFault>
    requires { All (IsHeaderWithin (length text.now)) lines.now }
    ensures { Answers result (calls.beside query.now (map (header_bytes text.now) lines.now)) }
{
    let timeout = timeout_in(alloc, query)?;
    let by = by_in(alloc, text, lines)?;
    Ok((timeout, by))
}

#[tactic(auto, unfolding(crate::specs::Calls::sent))]
fn sent(
    alloc: Global,
    path: &[u8],
    query: &[u8],
    text: &[u8],
    lines: &[HeaderSpan],
    body: &[u8],
) -> Result<Wanted, LineFault>
    requires { All (IsHeaderWithin (length text.now)) lines.now }
    ensures { Answers result (calls.sent path.now query.now (map (header_bytes text.now) lines.now) body.now) }
{
    let name = name_in(alloc, path, 1)?;
    let (timeout, by) = beside(alloc, query, text, lines)?;
    let messages = messages_in(alloc, text, lines, body)?;
    let to = Path {
        name,
        subscription: None,
        part: Part::Main,
    };
    let act = Act::Send {
        to,
        messages,
        txn: None,
    };
    Ok(in_time(by, act, timeout))
}

// The operations that a body spells.
fn together_in(alloc: Global, body: &[u8]) -> Result<Act, LineFault>
    ensures { Answers result (calls.together_in body.now) }
{
    let Some(object) = object_in(alloc, body)? else {
        return bad(alloc, "Body");
    };
    together_of(alloc, &object)
}

#[tactic(auto, unfolding(crate::specs::Calls::together))]
fn together(
    alloc: Global,
    query: &[u8],
    text: &[u8],
    lines: &[HeaderSpan],
    body: &[u8],
) -> Result<Wanted, LineFault>
    requires { All (IsHeaderWithin (length text.now)) lines.now }
    ensures { Answers result (calls.together query.now (map (header_bytes text.now) lines.now) body.now) }
{
    let (timeout, by) = beside(alloc, query, text, lines)?;
    let act = together_in(alloc, body)?;
    Ok(in_time(by, act, timeout))
}

// A call of an act, or what is at fault beside it.
fn finish(
    alloc: Global,
    act: Act,
    query: &[u8],
    text: &[u8],
    lines: &[HeaderSpan],
) -> Result<Wanted, LineFault>
    requires { All (IsHeaderWithin (length text.now)) lines.now }
    ensures { Answers result (calls.asked_with query.now (map (header_bytes text.now) lines.now) (Ok act)) }
{
    match beside(alloc, query, text, lines) {
        Ok((timeout, by)) => Ok(in_time(by, act, timeout)),
        Err(fault) => {
            drop(act);
            Err(fault)
        }
    }
}

fn done(
    alloc: Global,
    asked: PathAct,
    path: &[u8],
    query: &[u8],
    text: &[u8],
    lines: &[HeaderSpan],
) -> Result<Wanted, LineFault>
    requires { All (IsHeaderWithin (length text.now)) lines.now }
    ensures { Answers result (calls.asked_with query.now (map (header_bytes text.now) lines.now) (calls.act_in asked path.now)) }
{
    let act = act_in(alloc, asked, path)?;
    finish(alloc, act, query, text, lines)
}

// A session remembers the body.
fn remember(
    alloc: Global,
    address: Address,
    path: &[u8],
    query: &[u8],
    text: &[u8],
    lines: &[HeaderSpan],
    body: &[u8],
) -> Result<Wanted, LineFault>
    requires { All (IsHeaderWithin (length text.now)) lines.now }
    ensures { Answers result (calls.asked_with query.now (map (header_bytes text.now) lines.now) (calls.remembered address path.now body.now)) }
{
    let act = remembered(alloc, address, path, body)?;
    finish(alloc, act, query, text, lines)
}

// A message under a lock goes where the query says.
#[tactic(auto, unfolding(crate::specs::Calls::put))]
fn put(
    alloc: Global,
    address: Address,
    scope: Scope,
    path: &[u8],
    query: &[u8],
    text: &[u8],
    lines: &[HeaderSpan],
) -> Result<Wanted, LineFault>
    requires { All (IsHeaderWithin (length text.now)) lines.now }
    ensures { Answers result (calls.put address scope path.now query.now (map (header_bytes text.now) lines.now)) }
{
    let (from, session, id, token) = locked_in(alloc, address, scope, path)?;
    let timeout = timeout_in(alloc, query)?;
    let disposition = disposition_in(alloc, query)?;
    let by = by_in(alloc, text, lines)?;
    let how = how_of(alloc, disposition, text, lines)?;
    let act = settled(how, from, session, id, token);
    Ok(in_time(by, act, timeout))
}

fn seen(sight: Sight, what: Look) -> Wanted
    ensures { result ≡ calls.seen sight what }
{
    told(sight, Act::Look { what })
}

// The entities that a query says, told so.
fn listed(alloc: Global, sight: Sight, query: &[u8]) -> Result<Wanted, LineFault>
    ensures { Answers result (then_by (entities_of query.now) (λ what. Ok (calls.seen sight what))) }
{
    let what = entities_in(alloc, query)?;
    Ok(seen(sight, what))
}

// The messages that a query says.
fn peeked(alloc: Global, query: &[u8]) -> Result<Wanted, LineFault>
    ensures { Answers result (then_by (peek_of query.now) (λ x. Ok (calls.peeked x))) }
{
    let (from, start, count) = peek_in(alloc, query)?;
    Ok(told(Sight::Line, Act::Peek { from, start, count }))
}

// A method and a path that go together, before the query, the headers and the body.
#[tactic(auto, unfolding(crate::specs::Calls::wanted_by))]
fn wanted_by(
    alloc: Global,
    asked: Asked,
    path: &[u8],
    query: &[u8],
    request: &Request,
) -> Result<Wanted, LineFault>
    ensures { Answers result (calls.wanted_by asked path.now query.now (said_by request.now).head.fields request.now.body.now) }
{
    let (text, lines) = (request.text, request.lines);
    match asked {
        Asked::Send => sent(alloc, path, query, text, lines, request.body),
        Asked::Put(address, scope) => put(alloc, address, scope, path, query, text, lines),
        Asked::Remember(address) => {
            remember(alloc, address, path, query, text, lines, request.body)
        }
        Asked::Do(act) => done(alloc, act, path, query, text, lines),
        Asked::Together => together(alloc, query, text, lines, request.body),
        Asked::Health => Ok(seen(Sight::Health, Look::Transactions)),
        Asked::List(sight) => listed(alloc, sight, query),
        Asked::Peek => peeked(alloc, query),
    }
}

fn on_asked(
    alloc: Global,
    route: Route,
    asked: Option<Asked>,
    path: &[u8],
    query: &[u8],
    request: &Request,
) -> Result<Wanted, RestFault>
    requires path { path.now ≡ path_of request.now.target.now }
    requires query { query.now ≡ query_of request.now.target.now }
    ensures { calls.Answers result (calls.on_asked route asked (said_by request.now)) }
{
    let Some(asked) = asked else {
        return Err(RestFault::BadMethod { route });
    };
    match wanted_by(alloc, asked, path, query, request) {
        Ok(wanted) => Ok(wanted),
        Err(LineFault::BadKey(KeyFault { part, key })) => Err(RestFault::Bad { part, key }),
        Err(LineFault::OutOfMemory) => Err(RestFault::OutOfMemory),
    }
}

fn on_script(method: &[u8]) -> Result<Wanted, RestFault>
    ensures { result ≡ calls.on_script method.now }
{
    if is(method, b"POST") {
        Err(RestFault::Script)
    } else {
        Err(RestFault::BadMethod {
            route: Route::Script,
        })
    }
}

fn on_page(method: &[u8]) -> Result<Wanted, RestFault>
    ensures { result ≡ calls.on_page method.now }
{
    if is(method, b"GET") {
        Err(RestFault::Page)
    } else {
        Err(RestFault::BadMethod { route: Route::Page })
    }
}

fn on_route(
    alloc: Global,
    route: Route,
    path: &[u8],
    query: &[u8],
    request: &Request,
) -> Result<Wanted, RestFault>
    requires path { path.now ≡ path_of request.now.target.now }
    requires query { query.now ≡ query_of request.now.target.now }
    ensures { calls.Answers result (calls.on_route (Some route) (said_by request.now)) }
{
    match route {
        Route::Script => on_script(request.method),
        Route::Page => on_page(request.method),
        _ => {
            let asked = asked_at(route, request.method);
            on_asked(alloc, route, asked, path, query, request)
        }
    }
}

// Whether a path is for all.
fn is_open(route: Option<Route>) -> bool
    ensures { result ≡ calls.is_open route }
{
    matches!(route, Some(Route::Health) | Some(Route::Page))
}

// The call of a path that was looked up.
fn routed(
    alloc: Global,
    route: Option<Route>,
    path: &[u8],
    query: &[u8],
    request: &Request,
) -> Result<Wanted, RestFault>
    requires path { path.now ≡ path_of request.now.target.now }
    requires query { query.now ≡ query_of request.now.target.now }
    ensures { calls.Answers result (calls.on_route route (said_by request.now)) }
{
    let Some(route) = route else {
        return Err(RestFault::NoRoute);
    };
    on_route(alloc, route, path, query, request)
}

// The call of a request that no page of another origin made.
fn admitted(
    alloc: Global,
    routes: &Routes,
    access: &Access,
    request: &Request,
) -> Result<Wanted, RestFault>
    ensures { calls.Answers result (calls.admitted access.now (said_by request.now)) }
{
    let (path, query) = cut(request.target, b'?');
    let Ok(route) = routes.of(alloc, path) else {
        return Err(RestFault::OutOfMemory);
    };
    if !has_key(access, request.text, request.lines) && !is_open(route) {
        return Err(RestFault::NoKey);
    }
    routed(alloc, route, path, query, request)
}

fn wanted_of(
    alloc: Global,
    routes: &Routes,
    access: &Access,
    request: &Request,
) -> Result<Wanted, RestFault>
    ensures { calls.Answers result (calls.call_of access.now (said_by request.now)) }
{
    if is_foreign(access, request.text, request.lines) {
        return Err(RestFault::Foreign);
    }
    admitted(alloc, routes, access, request)
}

/// The call of a request, or why it is none: first that a page of another origin made it, then that it
/// doesn't show the key, where its path needs one, then that there is no such path, then that its method isn't one of it, then
/// the first key at fault, by its place: the path (`path`, `token`, `seq`), the query (`timeout`,
/// `disposition`, `after`, `count`, `from`, `start`), the number of the call (`Repeat-Client`, `Repeat-Number`), the headers as they stand,
/// the body. A key of one of the operations that act together comes with that operation's place.
pub fn call_of(
    alloc: Global,
    routes: &Routes,
    access: &Access,
    request: &Request,
) -> Result<Wanted, RestFault>
    ensures call { calls.Answers result (calls.call_of access.now (said_by request.now)) }
    ensures in_order { IfOk result (λ wanted. IsActInOrder wanted.call.act) }
{
    wanted_of(alloc, routes, access, request)
}
