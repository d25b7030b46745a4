// The routes, and the one that a path has.
ghost use Rattle.std.specs.Prelude.{◌≡◌, [], ◌++◌, fold, OnOk, IfOk, option_map};
ghost use Rattle.matchit.specs.Seek.{first};
ghost use Rattle.sb_routes.specs.Routes.{with_route, with_rows, with_address, of_messages, of_sessions, of_address, addresses, sights, others, table, route_at, route_of};

use crate::path::{looked, text_of};
use matchit::Router;
use sb_machine::Part;
use std::alloc::{AllocError, Global};

/// Whose messages a path names.
#[derive(Clone, Copy, PartialEq, Eq, Drop)]
pub enum Address {
    /// A part of a queue or topic.
    Entity(Part),
    /// A part of a subscription.
    Subscription(Part),
}

/// What a path names.
#[derive(Clone, Copy, PartialEq, Eq, Drop)]
pub enum Route {
    /// The messages of a queue or topic, to which one is sent.
    Messages,
    /// The first message.
    Head(Address),
    /// A deferred message, by its number.
    Deferred(Address),
    /// A message under a lock.
    Locked(Address),
    /// A scheduled message, by its number.
    Scheduled(Address),
    /// The next session that nobody holds.
    NextSession(Address),
    /// A session, by its id.
    NamedSession(Address),
    /// A session that is held.
    HeldSession(Address),
    /// What a session remembers that is held.
    SessionState(Address),
    /// The first message of a session that is held.
    SessionHead(Address),
    /// A deferred message of a session that is held, by its number.
    SessionDeferred(Address),
    /// A message under a lock, of a session that is held.
    SessionLocked(Address),
    /// Where script lines go.
    Script,
    /// Where operations go that act together.
    Together,
    /// Whether the namespace acts.
    Health,
    /// How many messages stand how, as a reply has it.
    Status,
    /// The same, for who gathers such numbers.
    Metrics,
    /// Messages, as a reply has them.
    Peek,
    /// A page for a browser.
    Page,
}

/// All routes.
#[derive(Drop)]
pub struct Routes {
    router: Router<Route>,
    ghost whole: { router ≡ table },
}

#[tactic(auto, using(crate::proofs::Inserting::inserts), unfolding(crate::specs::Routes::with_route))]
fn add(router: &mut Router<Route>, text: &str, route: Route) -> Result<(), AllocError>
    ensures { OnOk result (router.new ≡ with_route text.now route router.old) }
{
    match router.insert(text, route) {
        Ok(()) => Ok(()),
        Err(_) => Err(AllocError),
    }
}

fn found(router: &Router<Route>, path: &str) -> Option<Route>
    ensures { result ≡ option_map (λ e. e.value) (first router.now path.now) }
{
    match router.at(path) {
        Ok(found) => Some(*found.value),
        Err(_) => None,
    }
}

// A route of an address, whose paths begin so.
fn add_at(
    alloc: Global,
    router: &mut Router<Route>,
    front: &str,
    end: &str,
    route: Route,
) -> Result<(), AllocError>
    ensures { OnOk result (router.new ≡ with_route (front.now ++ end.now) route router.old) }
{
    let mut text = String::from_str(alloc, front)?;
    text.push_str(end)?;
    add(router, text.as_str(), route)
}

// The routes of the messages of an address, whose paths begin so.
#[tactic(auto, unfolding(crate::specs::Routes::of_messages))]
fn add_messages(
    alloc: Global,
    router: &mut Router<Route>,
    front: &str,
    address: Address,
) -> Result<(), AllocError>
    ensures { OnOk result (router.new ≡ with_rows (of_messages front.now address) router.old) }
{
    add_at(alloc, router, front, "/messages/head", Route::Head(address))?;
    add_at(
        alloc,
        router,
        front,
        "/messages/{seq}",
        Route::Deferred(address),
    )?;
    add_at(
        alloc,
        router,
        front,
        "/messages/{id}/{token}",
        Route::Locked(address),
    )?;
    add_at(
        alloc,
        router,
        front,
        "/scheduled/{seq}",
        Route::Scheduled(address),
    )?;
    Ok(())
}

// The routes of its sessions.
#[tactic(auto, unfolding(crate::specs::Routes::of_sessions))]
fn add_sessions(
    alloc: Global,
    router: &mut Router<Route>,
    front: &str,
    address: Address,
) -> Result<(), AllocError>
    ensures { OnOk result (router.new ≡ with_rows (of_sessions front.now address) router.old) }
{
    let next = "/sessions/head";
    let named = "/sessions/{session}";
    let held = "/sessions/{session}/{held}";
    let state = "/sessions/{session}/{held}/state";
    let head = "/sessions/{session}/{held}/messages/head";
    let deferred = "/sessions/{session}/{held}/messages/{seq}";
    let locked = "/sessions/{session}/{held}/messages/{id}/{token}";
    add_at(alloc, router, front, next, Route::NextSession(address))?;
    add_at(alloc, router, front, named, Route::NamedSession(address))?;
    add_at(alloc, router, front, held, Route::HeldSession(address))?;
    add_at(alloc, router, front, state, Route::SessionState(address))?;
    add_at(alloc, router, front, head, Route::SessionHead(address))?;
    add_at(
        alloc,
        router,
        front,
        deferred,
        Route::SessionDeferred(address),
    )?;
    add_at(alloc, router, front, locked, Route::SessionLocked(address))?;
    Ok(())
}

// The routes of an address, whose paths begin so.
#[tactic(auto, unfolding(crate::specs::Routes::of_address))]
fn add_address(
    alloc: Global,
    router: &mut Router<Route>,
    front: &str,
    address: Address,
) -> Result<(), AllocError>
    ensures { OnOk result (router.new ≡ with_rows (of_address front.now address) router.old) }
{
    add_messages(alloc, router, front, address)?;
    add_sessions(alloc, router, front, address)?;
    Ok(())
}

// The routes of queues, topics and subscriptions.
#[tactic(auto, unfolding(crate::specs::Routes::addresses))]
fn add_addresses(alloc: Global, router: &mut Router<Route>) -> Result<(), AllocError>
    ensures { OnOk result (router.new ≡ fold with_address router.old addresses) }
{
    let queue = "/{name}";
    let dead = "/{name}/$deadletterqueue";
    let transfer = "/{name}/$transfer/$deadletterqueue";
    add_address(alloc, router, queue, Address::Entity(Part::Main))?;
    add_address(alloc, router, dead, Address::Entity(Part::Dead))?;
    add_address(alloc, router, transfer, Address::Entity(Part::Transfer))?;
    let queue = "/{topic}/subscriptions/{name}";
    let dead = "/{topic}/subscriptions/{name}/$deadletterqueue";
    let transfer = "/{topic}/subscriptions/{name}/$transfer/$deadletterqueue";
    add_address(alloc, router, queue, Address::Subscription(Part::Main))?;
    add_address(alloc, router, dead, Address::Subscription(Part::Dead))?;
    add_address(
        alloc,
        router,
        transfer,
        Address::Subscription(Part::Transfer),
    )?;
    Ok(())
}

// The routes of what an operator asks for.
#[tactic(auto, unfolding(crate::specs::Routes::sights))]
fn add_sights(router: &mut Router<Route>) -> Result<(), AllocError>
    ensures { OnOk result (router.new ≡ with_rows sights router.old) }
{
    add(router, "/$health", Route::Health)?;
    add(router, "/$status", Route::Status)?;
    add(router, "/$metrics", Route::Metrics)?;
    add(router, "/$peek", Route::Peek)?;
    add(router, "/$page", Route::Page)?;
    Ok(())
}

// The routes of sends, of script lines, of operations that act together, and of what an operator asks for.
#[tactic(auto, unfolding(crate::specs::Routes::others))]
fn add_others(router: &mut Router<Route>) -> Result<(), AllocError>
    ensures { OnOk result (router.new ≡ with_rows others router.old) }
{
    add(router, "/{name}/messages", Route::Messages)?;
    add(router, "/$script", Route::Script)?;
    add(router, "/script", Route::Script)?;
    add(router, "/$together", Route::Together)?;
    add_sights(router)?;
    Ok(())
}

impl Routes {
    /// The table of all routes. It fails for want of memory alone.
    #[tactic(auto, unfolding(crate::specs::Routes::table))]
    pub fn new(alloc: Global) -> Result<Self, AllocError> {
        let mut router = Router::new(alloc);
        add_addresses(alloc, &mut router)?;
        add_others(&mut router)?;
        Ok(Routes { router })
    }

    // The route that a text has.
    fn at(&self, path: &str) -> Option<Route>
        ensures { result ≡ route_at path.now }
    {
        found(&self.router, path)
    }

    /// The route of a path as it was sent, without its query.
    pub fn of(&self, alloc: Global, path: &[u8]) -> Result<Option<Route>, AllocError>
        ensures { IfOk result (λ route. route ≡ route_of path.now) }
    {
        let path = looked(alloc, path)?;
        let Some(path) = text_of(&path) else {
            return Ok(None);
        };
        Ok(self.at(path))
    }
}
