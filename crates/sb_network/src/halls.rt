// The halls of a server, one for each thread.
use crate::Place;
use crate::arrivals::Kinds;
use crate::entrance::Entrance;
use crate::hall::{Hall, LISTENER};
use mio::Interest;
use mio::net::TcpListener;
use sb_outside::{Clock, Lobby, PauseLobby};
use std::alloc::Global;
use std::io;
use std::io::Eprint;
use std::net::{Ipv4Addr, Net, SocketAddr};
use std::sync::Arc;

/// Where the workers of a server wait: those of each thread in a hall of their own.
#[derive(Drop)]
pub struct Halls<R: Eprint + std::rt::Clock + Drop> {
    entrance: Arc<Entrance<R>>,
    halls: Vec<Arc<Hall<R>>>,
    // How many workers each has; the last may have fewer.
    stretch: usize,
}

/// Listens at a port of this machine (127.0.0.1): so many places, all over one listener, and the halls in
/// which the workers of so many threads wait.
pub fn open_halls<R: Net + Eprint + std::rt::Clock + Copy + Drop>(
    system: R,
    alloc: Global,
    port: u16,
    places: usize,
    threads: usize,
) -> io::Result<(Vec<Place<R>>, Halls<R>)> {
    let mut listener = TcpListener::bind(&system, SocketAddr::from((Ipv4Addr::LOCALHOST, port)))?;
    let stretch = places.div_ceil(threads.max(1)).max(1);
    let halls = halls_of(system, alloc, places, stretch)?;
    for hall in &halls {
        hall.registry()
            .register(&mut listener, LISTENER, Interest::READABLE)?;
    }
    let entrance = Arc::new(alloc, Entrance::new(listener, system, places))?;
    let places = places_of(alloc, &entrance, &halls, places, stretch)?;
    let halls = Halls {
        entrance,
        halls,
        stretch,
    };
    Ok((places, halls))
}

// Halls for so many places, each with a stretch of them.
fn halls_of<R: Net + std::rt::Clock + Copy + Drop>(
    system: R,
    alloc: Global,
    places: usize,
    stretch: usize,
) -> io::Result<Vec<Arc<Hall<R>>>> {
    let mut halls = Vec::new(alloc);
    let mut left = places;
    for _ in 0..places {
        if left == 0 {
            break;
        }
        let here = left.min(stretch);
        halls.push(Arc::new(alloc, Hall::new(&system, alloc, system, here)?)?)?;
        left -= here;
    }
    Ok(halls)
}

// The doors of these halls, that of the last worker first.
fn places_of<R: Eprint + std::rt::Clock + Drop>(
    alloc: Global,
    entrance: &Arc<Entrance<R>>,
    halls: &[Arc<Hall<R>>],
    places: usize,
    stretch: usize,
) -> io::Result<Vec<Place<R>>> {
    let mut doors = Vec::new(alloc);
    for k in 0..places {
        let worker = places - 1 - k;
        let Some(hall) = halls.get(worker / stretch.max(1)) else {
            break;
        };
        let place = worker % stretch.max(1);
        doors.push(Place::new(entrance.clone()?, hall.clone()?, place))?;
    }
    Ok(doors)
}

impl<R: Eprint + std::rt::Clock + Drop> Halls<R> {
    // The hall of a worker, and its place there.
    fn of(&self, worker: usize) -> Option<(&Arc<Hall<R>>, usize)> {
        let stretch = self.stretch.max(1);
        match self.halls.get(worker / stretch) {
            Some(hall) => Some((hall, worker % stretch)),
            None => None,
        }
    }

    // Tells a hall that has looked at its seats whether somebody waits for whom there is no place.
    fn look_out(&self, hall: &Hall<R>) {
        if !hall.take_looked() {
            return;
        }
        let crowded = self.entrance.is_crowded();
        hall.crowd(crowded);
        if !crowded && self.entrance.has_waiting() {
            hall.callers_come();
        }
    }

    // The first worker of the hall that this one is in.
    fn first_of(&self, worker: usize) -> usize {
        worker - worker % self.stretch.max(1)
    }
}

impl<R: Eprint + std::rt::Clock + Drop> Lobby for Halls<R> {
    fn share(&self) -> usize {
        self.stretch
    }

    fn wait<C: Clock>(&self, clock: &C, first: usize, until: u64) -> bool {
        match self.of(first) {
            Some((hall, _)) => {
                self.look_out(hall);
                hall.wait(clock, until)
            }
            None => PauseLobby.wait(clock, first, until),
        }
    }

    fn called(&self, first: usize) -> Option<usize> {
        match self.of(first) {
            Some((hall, _)) => match hall.called() {
                Some(place) => Some(self.first_of(first).saturating_add(place)),
                None => None,
            },
            None => None,
        }
    }

    fn call(&self, worker: usize) -> bool {
        match self.of(worker) {
            Some((hall, place)) => {
                hall.call(place);
                self.look_out(hall);
                true
            }
            None => false,
        }
    }

    // Who leaves may have taken one of several things that came: another looks for what is left.
    fn listen(&self, worker: usize, mark: u64, kind: u64) {
        let left = match self.of(worker) {
            Some((hall, place)) => hall.listen(place, mark, kind),
            None => 0,
        };
        if left != 0 {
            self.ring(worker, left);
        }
    }

    // The calling thread's own workers come first, since no thread has to be woken for them.
    fn ring(&self, worker: usize, arrivals: u64) {
        let own = worker / self.stretch.max(1);
        let mut kinds = Kinds::new();
        if let Some(hall) = self.halls.get(own) {
            hall.ring(arrivals, &mut kinds, true);
        }
        for i in 0..self.halls.len() {
            if i != own {
                if let Some(hall) = self.halls.get(i) {
                    hall.ring(arrivals, &mut kinds, false);
                }
            }
        }
    }
}
