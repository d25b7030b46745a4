// The last numbered call of each client.
ghost use Rattle.std.specs.Prelude.{◌≡◌, ◌+◌, ◌-◌, ◌≤◌, ◌<◌, max, [], length, IfOk, OnOk, OnErr, IsTrue, is_some, slice_set, vec_len, vec_capacity};
ghost use Rattle.std.specs.List.{insert, prefix_len, remove, slice_get};
ghost use Rattle.std.specs.Option.{option_map};
ghost use Rattle.std.specs.Ordering.{nat_cmp, is_lt};
ghost use Rattle.std.specs.Cmp.Lexicographic.{slice_cmp};
ghost use Rattle.sb_machine.specs.Answers.{with_kept, without_client};
ghost use Rattle.sb_machine.specs.Each.{IsSorted};
ghost use Rattle.sb_machine.specs.Names.{is_before};
ghost use Rattle.sb_machine.specs.Repeats.{clients_shown, kept_for};
ghost use Rattle.sb_repeats.specs.Clients.{is_first, of_client};

use crate::shown::first_shown;
use sb_machine::{ClientShown, Kept};
use sb_model::{Rows, Text};
use std::alloc::{AllocError, Global};
use std::marker::Model;
use std::mem;

/// What is kept of each client of a namespace.
#[derive(Drop)]
pub struct Clients {
    clients: Vec<Kept>,
    spare: usize,
}

impl Model for Clients {
    ghost use Rattle.std.specs.Prelude.{◌+◌, ◌≤◌, vec_len, vec_capacity};
    ghost use Rattle.sb_machine.specs.Each.{IsSorted};
    ghost use Rattle.sb_repeats.specs.Clients.{is_first, Known};

    ghost Value = { Known };

    ghost view = { λ s. record { clients = s.clients.items; spare = s.spare } };

    ghost invariant = { λ s. IsSorted is_first s.clients.items × (vec_len s.clients + s.spare ≤ vec_capacity s.clients) };
}

impl Clients {
    /// None yet; takes no memory.
    pub fn new(alloc: Global) -> Clients
        ensures clients { result.clients ≡ [] }
        ensures spare { result.spare ≡ 0 }
    {
        Clients {
            clients: Vec::new(alloc),
            spare: 0,
        }
    }

    /// These, in the order of their names; takes no memory.
    pub fn from_rows(clients: Rows<Kept>) -> Clients
        requires { IsSorted is_first clients }
        ensures clients { result.clients ≡ clients }
        ensures spare { result.spare ≡ 0 }
    {
        Clients {
            clients: clients.into_vec(),
            spare: 0,
        }
    }

    /// How many slots are promised.
    pub fn spare(&self) -> usize
        ensures { result ≡ self.now.spare }
    {
        self.spare
    }

    /// Promises at least so many slots; where memory is wanting, all stays.
    pub fn reserve(&mut self, count: usize) -> Result<(), AllocError>
        ensures clients { self.new.clients ≡ self.old.clients }
        ensures spare { OnOk result (self.new.spare ≡ max self.old.spare count) }
        ensures err { OnErr result (self.new.spare ≡ self.old.spare) }
    {
        self.clients.reserve(count)?;
        if self.spare < count {
            self.spare = count;
        }
        Ok(())
    }

    pub fn as_slice(&self) -> &[Kept]
        ensures { result.now ≡ self.now.clients }
    {
        self.clients.as_slice()
    }

    pub fn size(&self) -> usize
        ensures { result ≡ length self.now.clients }
    {
        self.clients.len()
    }

    /// What is kept for a client.
    pub fn get<'a>(&'a self, client: &str) -> Option<&'a Kept>
        ensures { option_map (λ k. k.now) result ≡ kept_for client.now self.now.clients }
    {
        kept_of(&self.clients, client)
    }

    /// The clients behind the name `after`, in order of their names, up to `count`: nothing else is
    /// looked at but for the place of the first.
    pub fn shown(
        &self,
        alloc: Global,
        after: &Option<Text>,
        count: u64,
    ) -> Result<Rows<ClientShown>, AllocError>
        ensures { IfOk result (λ rows. rows ≡ clients_shown after.now count self.now.clients) }
    {
        first_shown(alloc, &self.clients, after, count)
    }

    /// Keeps a call and its reply in the place of the client's last. A slot that was promised is
    /// taken, whether or not the client is new.
    pub fn keep(&mut self, kept: Kept)
        requires room { 1 ≤ self.old.spare }
        ensures clients { self.new.clients ≡ with_kept kept self.old.clients }
        ensures spare { self.new.spare ≡ self.old.spare - 1 }
    {
        keep_row(&mut self.clients, kept);
        self.spare -= 1;
    }

    /// Forgets what is kept of a client, if anything is; as many slots stay promised.
    pub fn forget(&mut self, client: &str)
        ensures clients { self.new.clients ≡ without_client client.now self.old.clients }
        ensures spare { self.new.spare ≡ self.old.spare }
    {
        forget_row(&mut self.clients, client);
    }
}

// How many stand before this client.
fn entry_of(rows: &[Kept], client: &str) -> usize
    requires order { IsSorted is_first rows.now }
    ensures place { result ≡ prefix_len (λ x. is_before x.client client.now) rows.now }
    ensures within { result ≤ length rows.now }
{
    rows.partition_point(|x| x.client.as_str() < client)
}

fn kept_there<'a>(rows: &'a [Kept], place: usize, client: &str) -> Option<&'a Kept>
    ensures { option_map (λ k. k.now) result ≡ of_client client.now (slice_get rows.now place) }
{
    let kept = rows.get(place)?;
    if kept.client.as_str() == client {
        Some(kept)
    } else {
        None
    }
}

#[tactic(auto, using(crate::proofs::Keeping::place_within))]
fn is_there(rows: &[Kept], place: usize, client: &str) -> bool
    ensures is { result ≡ is_some (of_client client.now (slice_get rows.now place)) }
    ensures within { IsTrue result → place < length rows.now }
{
    kept_there(rows, place, client).is_some()
}

#[tactic(auto, using(crate::proofs::Keeping::kept_at))]
fn kept_of<'a>(rows: &'a [Kept], client: &str) -> Option<&'a Kept>
    requires order { IsSorted is_first rows.now }
    ensures { option_map (λ k. k.now) result ≡ kept_for client.now rows.now }
{
    kept_there(rows, entry_of(rows, client), client)
}

fn insert_at(rows: &mut Vec<Kept>, place: usize, kept: Kept)
    requires within { place ≤ length rows.old.items }
    requires room { vec_len rows.old < vec_capacity rows.old }
    ensures rows { rows.new.items ≡ insert rows.old.items place kept }
    ensures len { vec_len rows.new ≤ vec_len rows.old + 1 }
    ensures capacity { vec_capacity rows.new ≡ vec_capacity rows.old }
{
    drop(rows.insert(place, kept));
}

fn replace_at(rows: &mut Vec<Kept>, place: usize, kept: Kept)
    requires { place < length rows.old.items }
    ensures rows { rows.new.items ≡ slice_set rows.old.items place kept }
    ensures len { vec_len rows.new ≡ vec_len rows.old }
    ensures capacity { vec_capacity rows.new ≡ vec_capacity rows.old }
{
    let old = mem::replace(&mut rows[place], kept);
    drop(old);
}

#[tactic(auto, using(crate::proofs::Keeping::keep_known, crate::proofs::Keeping::keep_new, crate::proofs::Keeping::sorted_known))]
fn keep_row(rows: &mut Vec<Kept>, kept: Kept)
    requires order { IsSorted is_first rows.old.items }
    requires room { vec_len rows.old < vec_capacity rows.old }
    ensures rows { rows.new.items ≡ with_kept kept rows.old.items }
    ensures order { IsSorted is_first rows.new.items }
    ensures len { vec_len rows.new ≤ vec_len rows.old + 1 }
    ensures capacity { vec_capacity rows.new ≡ vec_capacity rows.old }
{
    let place = entry_of(rows, kept.client.as_str());
    if is_there(rows, place, kept.client.as_str()) {
        replace_at(rows, place, kept);
    } else {
        insert_at(rows, place, kept);
    }
}

fn remove_at(rows: &mut Vec<Kept>, place: usize)
    requires { place < length rows.old.items }
    ensures rows { rows.new.items ≡ remove rows.old.items place }
    ensures len { vec_len rows.new ≤ vec_len rows.old }
    ensures capacity { vec_capacity rows.new ≡ vec_capacity rows.old }
{
    let old = rows.remove(place);
    drop(old);
}

#[tactic(auto, using(crate::proofs::Keeping::forget_known, crate::proofs::Keeping::forget_none, crate::proofs::Keeping::sorted_forgotten))]
fn forget_row(rows: &mut Vec<Kept>, client: &str)
    requires order { IsSorted is_first rows.old.items }
    ensures rows { rows.new.items ≡ without_client client.now rows.old.items }
    ensures order { IsSorted is_first rows.new.items }
    ensures len { vec_len rows.new ≤ vec_len rows.old }
    ensures capacity { vec_capacity rows.new ≡ vec_capacity rows.old }
{
    let place = entry_of(rows, client);
    if is_there(rows, place, client) {
        remove_at(rows, place);
    }
}
