// What has the numbers of a server while it runs.
use crate::{Bucket, Counted, JournalSizes, Kind, Numbers, Outcome};
use std::alloc::{AllocError, Global};
use std::sync::atomic::{AtomicU64, Ordering};

// Each kind of call, in the order of their counts.
const KINDS: [Kind; 32] = [
    Kind::CreateQueue,
    Kind::CreateTopic,
    Kind::CreateSubscription,
    Kind::CreateRule,
    Kind::Delete,
    Kind::DeleteRule,
    Kind::Send,
    Kind::Cancel,
    Kind::Receive,
    Kind::ReceiveDeferred,
    Kind::Complete,
    Kind::Abandon,
    Kind::Defer,
    Kind::DeadLetter,
    Kind::Renew,
    Kind::Accept,
    Kind::SessionRenew,
    Kind::SessionClose,
    Kind::SessionSet,
    Kind::SessionState,
    Kind::Begin,
    Kind::Commit,
    Kind::Rollback,
    Kind::Together,
    Kind::ForgetClient,
    Kind::Peek,
    Kind::Counts,
    Kind::List,
    Kind::Describe,
    Kind::Sessions,
    Kind::Transactions,
    Kind::Clients,
];

// Each outcome, in the order of the counts of a kind.
const OUTCOMES: [Outcome; 4] = [
    Outcome::Done,
    Outcome::Empty,
    Outcome::Kept,
    Outcome::Refused,
];

// Up to how many microseconds calls are counted together.
const BOUNDS: [u64; 15] = [
    10, 25, 50, 100, 250, 500, 1_000, 2_500, 5_000, 10_000, 25_000, 50_000, 100_000, 250_000,
    1_000_000,
];

/// The numbers of a server while it runs. Threads share it.
#[derive(Drop)]
pub struct Board {
    began_ms: AtomicU64,
    threads: AtomicU64,
    workers: AtomicU64,
    opened: AtomicU64,
    ended: AtomicU64,
    waits: AtomicU64,
    goes_on: AtomicU64,
    records: AtomicU64,
    bytes: AtomicU64,
    syncs: AtomicU64,
    // Of each kind those of each outcome.
    calls: Vec<AtomicU64>,
    // Of each bound those that took at most so long and longer than the one before, and of those that took longer than all.
    spent: Vec<AtomicU64>,
    spent_micros: AtomicU64,
}

impl Board {
    /// All numbers are 0.
    pub fn new(alloc: Global) -> Result<Board, AllocError> {
        let calls = zeros(alloc, KINDS.len() * OUTCOMES.len())?;
        let spent = zeros(alloc, BOUNDS.len() + 1)?;
        Ok(Board {
            began_ms: AtomicU64::new(0),
            threads: AtomicU64::new(0),
            workers: AtomicU64::new(0),
            opened: AtomicU64::new(0),
            ended: AtomicU64::new(0),
            waits: AtomicU64::new(0),
            goes_on: AtomicU64::new(0),
            records: AtomicU64::new(0),
            bytes: AtomicU64::new(0),
            syncs: AtomicU64::new(0),
            calls,
            spent,
            spent_micros: AtomicU64::new(0),
        })
    }

    /// The server begins at this moment, in ms since 1970, with so many threads and workers.
    pub fn begins(&self, now_ms: u64, threads: u64, workers: u64) {
        self.began_ms.store(now_ms, Ordering::SeqCst);
        self.threads.store(threads, Ordering::SeqCst);
        self.workers.store(workers, Ordering::SeqCst);
    }

    /// A connection begins.
    pub fn opened(&self) {
        self.opened.fetch_add(1, Ordering::SeqCst);
    }

    /// A connection has ended.
    pub fn ended(&self) {
        self.ended.fetch_add(1, Ordering::SeqCst);
    }

    /// A call waits from now on.
    pub fn waits(&self) {
        self.waits.fetch_add(1, Ordering::SeqCst);
    }

    /// A call waits no longer.
    pub fn goes_on(&self) {
        self.goes_on.fetch_add(1, Ordering::SeqCst);
    }

    /// The journal has these sizes now.
    pub fn grew(&self, journal: JournalSizes) {
        self.records.store(journal.records, Ordering::SeqCst);
        self.bytes.store(journal.bytes, Ordering::SeqCst);
        self.syncs.store(journal.syncs, Ordering::SeqCst);
    }

    /// A call of this kind was answered so, behind so many microseconds.
    pub fn called(&self, kind: Kind, outcome: Outcome, micros: u64) {
        add_one(self.calls.as_slice(), place_of(kind, outcome));
        add_one(self.spent.as_slice(), bucket_of(micros));
        self.spent_micros.fetch_add(micros, Ordering::SeqCst);
    }

    /// What the numbers are at this moment, in ms since 1970.
    pub fn numbers(&self, alloc: Global, now_ms: u64) -> Result<Numbers, AllocError> {
        let calls = counted(alloc, self.calls.as_slice())?;
        let (spent, called) = buckets(alloc, self.spent.as_slice())?;
        Ok(Numbers {
            uptime_ms: now_ms.saturating_sub(self.began_ms.load(Ordering::SeqCst)),
            threads: self.threads.load(Ordering::SeqCst),
            workers: self.workers.load(Ordering::SeqCst),
            connections: between(&self.ended, &self.opened),
            waiting: between(&self.goes_on, &self.waits),
            journal: JournalSizes {
                records: self.records.load(Ordering::SeqCst),
                bytes: self.bytes.load(Ordering::SeqCst),
                syncs: self.syncs.load(Ordering::SeqCst),
            },
            calls,
            spent,
            spent_micros: self.spent_micros.load(Ordering::SeqCst),
            called,
        })
    }
}

// How much the second is ahead of the first, which is read before.
fn between(behind: &AtomicU64, ahead: &AtomicU64) -> u64 {
    let behind = behind.load(Ordering::SeqCst);
    ahead.load(Ordering::SeqCst).saturating_sub(behind)
}

fn zeros(alloc: Global, count: usize) -> Result<Vec<AtomicU64>, AllocError> {
    let mut zeros = Vec::with_capacity(alloc, count)?;
    for _ in 0..count {
        zeros.push(AtomicU64::new(0))?;
    }
    Ok(zeros)
}

fn add_one(counts: &[AtomicU64], place: usize) {
    if let Some(count) = counts.get(place) {
        count.fetch_add(1, Ordering::SeqCst);
    }
}

// Where among the counts those of this kind and outcome stand.
fn place_of(kind: Kind, outcome: Outcome) -> usize {
    let row = KINDS.iter().position(|k| *k == kind).unwrap_or(0);
    let column = OUTCOMES.iter().position(|o| *o == outcome).unwrap_or(0);
    row.saturating_mul(OUTCOMES.len()).saturating_add(column)
}

// Where among the counts those of this length stand.
fn bucket_of(micros: u64) -> usize {
    BOUNDS
        .iter()
        .position(|most| micros <= *most)
        .unwrap_or(BOUNDS.len())
}

// The kinds and outcomes of which there were calls.
fn counted(alloc: Global, counts: &[AtomicU64]) -> Result<Vec<Counted>, AllocError> {
    let mut rows = Vec::new(alloc);
    for kind in KINDS {
        for outcome in OUTCOMES {
            let count = count_at(counts, place_of(kind, outcome));
            if count > 0 {
                rows.push(Counted {
                    kind,
                    outcome,
                    count,
                })?;
            }
        }
    }
    Ok(rows)
}

// How many calls took at most so long each, and how many there were.
fn buckets(alloc: Global, counts: &[AtomicU64]) -> Result<(Vec<Bucket>, u64), AllocError> {
    let mut rows = Vec::new(alloc);
    let mut count: u64 = 0;
    for most in BOUNDS {
        count = count.saturating_add(count_at(counts, bucket_of(most)));
        rows.push(Bucket { most, count })?;
    }
    let longer = count_at(counts, BOUNDS.len());
    Ok((rows, count.saturating_add(longer)))
}

fn count_at(counts: &[AtomicU64], place: usize) -> u64 {
    match counts.get(place) {
        Some(count) => count.load(Ordering::SeqCst),
        None => 0,
    }
}
