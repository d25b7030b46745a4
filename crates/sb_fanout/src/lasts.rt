// The numbers given in one plan.
ghost use Rattle.std.specs.Prelude.{◌≡◌, ◌+◌, ◌==◌, ℕ, if◌then◌else◌, IfOk, OnOk, OnErr};
ghost use Rattle.sb_fanout.specs.Lasts.{none_given, raised, counted, given_in};

use sb_machine::{Directory, LeafKey, Part};
use std::alloc::{AllocError, Global};
use std::collections::BTreeMap;

/// How many numbers one plan has given in each part so far: behind the last numbers of a
/// directory, they are those of the namespace that the plan leads to.
#[derive(Drop)]
pub struct Lasts {
    main: BTreeMap<u64, u64>,
    dead: BTreeMap<u64, u64>,
    transfer: BTreeMap<u64, u64>,
}

/// How many numbers this has for an entity.
fn count_of(map: &BTreeMap<u64, u64>, entity: u64) -> u64
    ensures { result ≡ counted map.now entity }
{
    match map.get(&entity) {
        Some(count) => *count,
        None => 0,
    }
}

/// One number more for an entity.
fn raise_in(map: &mut BTreeMap<u64, u64>, entity: u64) -> Result<(), AllocError>
    ensures ok { OnOk result ((n : ℕ) → counted map.new n ≡ (if entity == n then counted map.old n + 1 else counted map.old n)) }
    ensures err { OnErr result ((n : ℕ) → counted map.new n ≡ counted map.old n) }
{
    let Some(count) = count_of(map, entity).checked_add(1) else {
        return Err(AllocError);
    };
    map.insert(entity, count)?;
    Ok(())
}

impl Lasts {
    /// None given yet; takes no memory.
    pub fn new(alloc: Global) -> Self
        ensures { given_in result ≡ none_given }
    {
        Lasts {
            main: BTreeMap::new(alloc),
            dead: BTreeMap::new(alloc),
            transfer: BTreeMap::new(alloc),
        }
    }

    /// How many numbers were given in a part.
    pub fn given(&self, key: LeafKey) -> u64
        ensures { result ≡ given_in self.now key }
    {
        match key.part {
            Part::Main => count_of(&self.main, key.entity),
            Part::Dead => count_of(&self.dead, key.entity),
            Part::Transfer => count_of(&self.transfer, key.entity),
        }
    }

    /// One number more was given in a part.
    pub fn raise(&mut self, key: LeafKey) -> Result<(), AllocError>
        ensures { OnOk result (given_in self.new ≡ raised key (given_in self.old)) }
    {
        match key.part {
            Part::Main => raise_in(&mut self.main, key.entity),
            Part::Dead => raise_in(&mut self.dead, key.entity),
            Part::Transfer => raise_in(&mut self.transfer, key.entity),
        }
    }

    /// The next number of a part; memory is wanting where it passes 2^64 - 1, which no plan in
    /// memory can lead to.
    pub fn next<N: Directory>(&self, directory: &N, key: LeafKey) -> Result<u64, AllocError>
        ensures { IfOk result (λ n. n ≡ N.last_of directory.now key + given_in self.now key + 1) }
    {
        let last = directory.last(key).checked_add(self.given(key));
        let Some(number) = last.and_then(|n| n.checked_add(1)) else {
            return Err(AllocError);
        };
        Ok(number)
    }
}
