// The hall of one thread: the seats of its workers, and their wait.
use crate::arrivals::{Arrivals, Kinds};
use crate::queue::Queue;
use crate::rounds::Rounds;
use crate::seat::Seat;
use mio::{Events, Poll, Registry, Token, Waker};
use sb_outside::Clock;
use std::alloc::Global;
use std::io;
use std::net::Net;
use std::sync::Mutex;
use std::sync::atomic::{AtomicBool, AtomicU64, AtomicUsize, Ordering};
use std::time::{Duration, Instant};

// How many events one wait takes.
const EVENTS: usize = 1024;

// The longest wait: the seats are looked at so often, in milliseconds.
const LOOKS_EACH_MS: u64 = 1000;

// After how many milliseconds the listener is looked at again where a connection could not be had.
const TRIES_AGAIN_MS: u64 = 100;

// So many connections are taken between two looks at who may go on, so that a flood of callers keeps those
// who are served waiting for a short time.
const GREETS_EACH: u64 = 16;

// So often those who have come are looked at anew at most, while they wait for others.
const LOOKS_AT_ONCE: u64 = 1000;

/// The token of the listener; a seat's is one more than its place.
pub(crate) const LISTENER: Token = Token(0);

// The token of the waker, which no seat has.
const WAKER: Token = Token(usize::MAX);

/// A hall, with a clock of its own for its looks.
#[derive(Drop)]
pub(crate) struct Hall<R: std::rt::Clock + Drop> {
    system: R,
    start: Instant,
    registry: Registry,
    seats: Vec<Seat>,
    // The places for which something has come.
    called: Queue,
    // The places that want a connection, the last one first.
    wanting: Queue,
    // Those of them that are to take one.
    greeters: Queue,
    // The last place that was given was of those for which something has come.
    served: AtomicBool,
    arrivals: Arrivals,
    rounds: Rounds,
    // Behind the place that was rung for last.
    next_rung: AtomicUsize,
    // Ends the wait from another thread.
    waker: Waker,
    // Somebody may stand at the listener.
    callers: AtomicBool,
    // Callers are left for the next look.
    more: AtomicBool,
    // How many connections were taken since the last look.
    greets: AtomicU64,
    // When the listener is looked at again, if nothing comes.
    again_ms: AtomicU64,
    // When the seats are looked at again.
    looks_ms: AtomicU64,
    // They were looked at.
    looked: AtomicBool,
    // Connections that rest are to end.
    crowded: AtomicBool,
    // Its own thread alone takes it.
    watch: Mutex<Watch>,
}

#[derive(Drop)]
struct Watch {
    poll: Poll,
    events: Events<Global>,
}

impl<R: std::rt::Clock + Drop> Hall<R> {
    /// A hall with so many seats.
    pub(crate) fn new<N: Net>(
        net: &N,
        alloc: Global,
        system: R,
        places: usize,
    ) -> io::Result<Hall<R>> {
        let start = Instant::now(&system)?;
        let seats = seats(alloc, places)?;
        let (called, wanting, greeters) = queues(alloc, places)?;
        let (registry, waker, watch) = watched(net, alloc)?;
        Ok(Hall {
            system,
            start,
            registry,
            seats,
            called,
            wanting,
            greeters,
            served: AtomicBool::new(false),
            arrivals: Arrivals::new(),
            rounds: Rounds::new(),
            next_rung: AtomicUsize::new(0),
            waker,
            callers: AtomicBool::new(true),
            more: AtomicBool::new(false),
            greets: AtomicU64::new(0),
            again_ms: AtomicU64::new(u64::MAX),
            looks_ms: AtomicU64::new(0),
            looked: AtomicBool::new(false),
            crowded: AtomicBool::new(false),
            watch: Mutex::new(watch),
        })
    }

    /// What is watched.
    pub(crate) fn registry(&self) -> &Registry {
        &self.registry
    }

    /// The seat at this place.
    pub(crate) fn seat(&self, place: usize) -> Option<&Seat> {
        self.seats.get(place)
    }

    /// The milliseconds since the hall was made.
    pub(crate) fn now_ms(&self) -> u64 {
        self.now_us() / 1000
    }

    // The microseconds since the hall was made.
    fn now_us(&self) -> u64 {
        let passed = self.start.elapsed(&self.system).unwrap_or(Duration::ZERO);
        let whole_us = passed.as_secs().saturating_mul(1_000_000);
        whole_us.saturating_add(u64::from(passed.subsec_micros()))
    }

    /// Whether a connection may be taken before the next look.
    pub(crate) fn may_greet(&self) -> bool {
        if !self.callers.load(Ordering::SeqCst) {
            return false;
        }
        if self.greets.load(Ordering::SeqCst) < GREETS_EACH {
            return true;
        }
        self.more.store(true, Ordering::SeqCst);
        self.is_left();
        false
    }

    /// A connection was taken: another caller may stand behind it.
    pub(crate) fn greeted(&self, place: usize) {
        self.want(place, false);
        self.greets.fetch_add(1, Ordering::SeqCst);
        self.call_wanting();
    }

    /// The worker at this place wants a connection, and there is none for it yet.
    pub(crate) fn waits_for_one(&self, place: usize) {
        self.want(place, true);
        self.wanting.put_first(place);
    }

    /// The worker at this place is over, for its door failed.
    pub(crate) fn fails(&self, place: usize) {
        self.want(place, false);
        self.call_wanting();
    }

    // The worker at this place wants a connection, or wants none.
    fn want(&self, place: usize, wants: bool) {
        if let Some(seat) = self.seats.get(place) {
            seat.want(wants);
        }
    }

    /// Whether the seats were looked at since this was last asked.
    pub(crate) fn take_looked(&self) -> bool {
        self.looked.load(Ordering::SeqCst) && self.looked.swap(false, Ordering::SeqCst)
    }

    /// All places are taken, and somebody waits for one, or not: whether connections that rest are to end.
    pub(crate) fn crowd(&self, crowded: bool) {
        self.crowded.store(crowded, Ordering::SeqCst);
    }

    /// Nobody stands at the listener.
    pub(crate) fn is_left(&self) {
        self.callers.store(false, Ordering::SeqCst);
    }

    /// A connection could not be had: the listener is looked at again in a while.
    pub(crate) fn tries_again(&self) {
        let again = self.now_ms().saturating_add(TRIES_AGAIN_MS);
        self.again_ms.store(again, Ordering::SeqCst);
        self.is_left();
    }

    /// The next place whose worker may be able to go on. Who is to take a connection and who is called
    /// otherwise take turns, so that callers and those who are served wait for each other a short time.
    pub(crate) fn called(&self) -> Option<usize> {
        if self.arrivals.take_rung() {
            self.call_rung();
        }
        if self.served.swap(false, Ordering::SeqCst) {
            if let Some(place) = self.greeters.take() {
                return Some(place);
            }
        }
        match self.called.take() {
            Some(place) => {
                self.served.store(true, Ordering::SeqCst);
                self.leaves(place);
                Some(place)
            }
            None => self.greeters.take(),
        }
    }

    // The worker at this place is called in this round.
    fn leaves(&self, place: usize) {
        let round = self.rounds.number();
        if self
            .seats
            .get(place)
            .is_some_and(|seat| seat.call_in(round))
        {
            self.rounds.leave();
        }
    }

    // Calls those for whom something came.
    fn call_rung(&self) {
        for place in 0..self.seats.len() {
            if self.seats.get(place).is_some_and(|seat| seat.take_rung()) {
                self.called.put_last(place);
            }
        }
    }

    /// The worker at this place waits for arrivals with this mark, of this kind, or for none where the mark
    /// is 0. Its call may have been made before some that came since the last wait: it makes it once more
    /// then. The mark for which it waits no more, or 0.
    pub(crate) fn listen(&self, place: usize, mark: u64, kind: u64) -> u64 {
        let Some(seat) = self.seats.get(place) else {
            return 0;
        };
        let before = seat.mark();
        if !seat.wait_for(mark, kind) {
            return 0;
        }
        if mark != 0 && self.arrivals.listen(mark) {
            self.called.put_last(place);
        }
        before
    }

    /// Arrivals with these bits came: of each kind that waits for some of them, but of those that were called
    /// already, one worker is called, and the thread is woken, unless it is the calling one.
    pub(crate) fn ring(&self, arrivals: u64, kinds: &mut Kinds, own: bool) {
        if !self.arrivals.come(arrivals) || !self.ring_seats(arrivals, kinds) {
            return;
        }
        if self.arrivals.ring() && !own {
            let _ = self.waker.wake();
        }
    }

    // Rings for the first of each kind that waits for some of these arrivals, from behind the one of last time
    // on, and says whether there is one.
    fn ring_seats(&self, arrivals: u64, kinds: &mut Kinds) -> bool {
        let start = self.next_rung.load(Ordering::SeqCst);
        let mut any = false;
        for i in 0..self.seats.len() {
            let place = start.wrapping_add(i) % self.seats.len().max(1);
            if self.ring_seat(place, arrivals, kinds) {
                let behind = place.wrapping_add(1);
                self.next_rung.store(behind, Ordering::SeqCst);
                any = true;
            }
        }
        any
    }

    // Rings for the worker at this place, where it waits for some of these arrivals as the first of its kind.
    fn ring_seat(&self, place: usize, arrivals: u64, kinds: &mut Kinds) -> bool {
        match self.seats.get(place) {
            Some(seat) => seat.ring(arrivals, kinds),
            None => false,
        }
    }

    /// Calls the worker at this place behind all for whom something has come by now, so that who always
    /// finds something keeps nobody waiting.
    pub(crate) fn call(&self, place: usize) {
        self.watch_for(0);
        self.called.put_last(place);
    }

    /// Waits until something comes, or this reading does, or a second has gone; not at all where somebody
    /// is called. Who comes right behind a round waits for the others of it, for a short time: calls that are
    /// made together share their syncs. Whether the hall doesn't say who may go on.
    pub(crate) fn wait<C: Clock>(&self, clock: &C, until_ms: u64) -> bool {
        let ended_us = self.now_us();
        if self.watch_for(self.longest_ms(clock, until_ms)) {
            self.gather(self.rounds.until_us(ended_us));
            return false;
        }
        clock.pause();
        true
    }

    // Waits for those of the last round for whom nothing has come yet, until so many microseconds since the
    // hall was made. Then the next round begins.
    fn gather(&self, until_us: u64) {
        for _ in 0..LOOKS_AT_ONCE {
            if self.rounds.is_whole() || self.now_us() >= until_us {
                break;
            }
            self.watch_for(0);
        }
        self.rounds.next(self.now_us());
    }

    // Whether callers are left, or a place is called.
    fn is_more(&self) -> bool {
        self.more.load(Ordering::SeqCst) || !self.called.is_empty() || !self.greeters.is_empty()
    }

    // For how long it may be waited until this reading.
    fn longest_ms<C: Clock>(&self, clock: &C, until_ms: u64) -> u64 {
        if self.is_more() || self.arrivals.is_rung() {
            return 0;
        }
        let most_ms = if until_ms == u64::MAX {
            LOOKS_EACH_MS
        } else {
            until_ms.saturating_sub(clock.now()).min(LOOKS_EACH_MS)
        };
        most_ms.min(self.tries_ms())
    }

    // For how long the listener needn't be looked at, if nothing comes.
    fn tries_ms(&self) -> u64 {
        let again_ms = self.again_ms.load(Ordering::SeqCst);
        if again_ms == u64::MAX {
            return again_ms;
        }
        again_ms.saturating_sub(self.now_ms())
    }

    // Waits at most for so long, and calls whom something has come for. False where another thread waits
    // here.
    fn watch_for(&self, most_ms: u64) -> bool {
        let Some(mut watch) = self.watch.try_lock() else {
            return false;
        };
        let Watch { poll, events } = &mut *watch;
        let _ = poll.poll(events, Some(Duration::from_millis(most_ms)));
        self.take(events);
        self.look(self.now_ms());
        true
    }

    // Calls whom these events are for.
    fn take(&self, events: &Events<Global>) {
        for event in events.iter() {
            let Token(number) = event.token();
            if number == 0 {
                self.callers_come();
            } else if let Some(seat) = self.seats.get(number - 1) {
                let has_ended = event.is_read_closed() || event.is_error();
                seat.come(event.is_readable(), has_ended);
                if seat.comes_again(self.rounds.number()) {
                    self.rounds.come();
                }
                self.called.put_last(number - 1);
            }
        }
    }

    /// Somebody may stand at the listener from now on.
    pub(crate) fn callers_come(&self) {
        self.callers.store(true, Ordering::SeqCst);
        self.call_wanting();
    }

    // Calls the next worker that wants a connection, where one may stand at the listener. Who takes a
    // connection calls the next one.
    fn call_wanting(&self) {
        if !self.may_greet() {
            return;
        }
        for _ in 0..self.seats.len() {
            let Some(place) = self.wanting.take() else {
                return;
            };
            if self.seats.get(place).is_some_and(|seat| seat.wants()) {
                self.greeters.put_last(place);
                return;
            }
        }
    }

    // Looks at the listener and at the seats at this reading, where their time has come.
    fn look(&self, now_ms: u64) {
        self.arrivals.forget();
        self.greets.store(0, Ordering::SeqCst);
        if self.more.swap(false, Ordering::SeqCst) {
            self.callers_come();
        }
        if now_ms >= self.again_ms.load(Ordering::SeqCst) {
            self.again_ms.store(u64::MAX, Ordering::SeqCst);
            self.callers_come();
        }
        if now_ms >= self.looks_ms.load(Ordering::SeqCst) {
            let next = now_ms.saturating_add(LOOKS_EACH_MS);
            self.looks_ms.store(next, Ordering::SeqCst);
            self.look_at_seats(now_ms);
        }
    }

    // All marks for which somebody waits here.
    fn marks(&self) -> u64 {
        let mut marks = 0;
        for seat in &self.seats {
            marks |= seat.mark();
        }
        marks
    }

    // Looks at each seat at this reading.
    fn look_at_seats(&self, now_ms: u64) {
        self.arrivals.listen_anew(self.marks());
        self.looked.store(true, Ordering::SeqCst);
        let wanted = self.crowded.load(Ordering::SeqCst);
        for place in 0..self.seats.len() {
            let calls = |seat: &Seat| seat.look(now_ms, wanted);
            if self.seats.get(place).is_some_and(calls) {
                self.called.put_last(place);
            }
        }
    }
}

// So many seats.
fn seats(alloc: Global, places: usize) -> io::Result<Vec<Seat>> {
    let mut seats = Vec::new(alloc);
    for _ in 0..places {
        seats.push(Seat::new())?;
    }
    Ok(seats)
}

// The queues of those who are called, who want a connection, and who are to take one, for so many seats.
fn queues(alloc: Global, places: usize) -> io::Result<(Queue, Queue, Queue)> {
    let called = Queue::new(alloc, places)?;
    let wanting = Queue::new(alloc, places)?;
    let greeters = Queue::new(alloc, places)?;
    Ok((called, wanting, greeters))
}

// What is watched, what ends the wait from another thread, and the wait itself.
fn watched<N: Net>(net: &N, alloc: Global) -> io::Result<(Registry, Waker, Watch)> {
    let events = Events::with_capacity(alloc, EVENTS)?;
    let poll = Poll::new(net)?;
    let registry = poll.registry().try_clone()?;
    let waker = Waker::new(&registry, WAKER)?;
    Ok((registry, waker, Watch { poll, events }))
}
