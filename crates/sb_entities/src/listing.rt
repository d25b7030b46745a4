// What is listed of an entity, with room for further rules.
ghost use Rattle.std.specs.Prelude.{◌≡◌, ◌+◌, ◌-◌, ◌≤◌, ◌<◌, [], length, OnOk, OnErr, IfOk, vec_capacity};
ghost use Rattle.std.specs.List.{prefix_len};
ghost use Rattle.sb_machine.specs.Changes.{rule_added, rule_dropped};
ghost use Rattle.sb_machine.specs.Names.{is_before};

use crate::slots::one_more;
use sb_machine::{Listed, Rule};
use sb_model::{Name, Rows};
use std::alloc::{AllocError, Global};
use std::collections::VecDeque;
use std::marker::Model;
use std::mem;

/// What is listed of an entity. Its rules are a list that a caller reads as it stands, so each
/// rule that may be added has a list of its own promised, into which they all move.
#[derive(Drop)]
pub struct Listing {
    alloc: Global,
    about: Listed,
    lists: VecDeque<Vec<Rule>>,
}

impl Model for Listing {
    ghost use Rattle.std.specs.Prelude.{length};
    ghost use Rattle.sb_entities.specs.Listings.{Described, AreRoomy};

    ghost Value = { Described };

    ghost view = { λ s. record { about = s.about; spare = length s.lists.items } };

    ghost invariant = { λ s. AreRoomy (length s.about.rules) s.lists.items };
}

impl Listing {
    /// No further rule may be added yet; takes no memory.
    pub fn new(alloc: Global, about: Listed) -> Listing
        ensures about { result.about ≡ about }
        ensures spare { result.spare ≡ 0 }
    {
        Listing {
            alloc,
            about,
            lists: VecDeque::new(alloc),
        }
    }

    pub fn about(&self) -> &Listed
        ensures { result.now ≡ self.now.about }
    {
        &self.about
    }

    /// Promises one rule more; where memory is wanting, all stays.
    pub fn reserve(&mut self) -> Result<(), AllocError>
        ensures about { self.new.about ≡ self.old.about }
        ensures ok { OnOk result (self.new.spare ≡ self.old.spare + 1) }
        ensures err { OnErr result (self.new.spare ≡ self.old.spare) }
    {
        let size = size_of_all(self.about.rules.len(), self.lists.len())?;
        let list = Vec::with_capacity(self.alloc, size)?;
        self.lists.push_back(list)?;
        Ok(())
    }

    /// Gives one promised rule back, with its list; where none is promised, nothing.
    pub fn release(&mut self)
        ensures about { self.new.about ≡ self.old.about }
        ensures spare { self.new.spare ≡ self.old.spare - 1 }
    {
        drop(self.lists.pop_back());
    }

    /// Adds a rule by name, in a list that was promised.
    pub fn add(&mut self, rule: Rule)
        requires room { 1 ≤ self.old.spare }
        ensures about { self.new.about ≡ record self.old.about { rules = rule_added rule self.old.about.rules } }
        ensures spare { self.new.spare ≡ self.old.spare - 1 }
    {
        let Some(list) = self.lists.pop_front() else {
            return;
        };
        add_rule(&mut self.about, self.alloc, list, rule);
    }

    /// Drops the rule of this name.
    pub fn drop_rule(&mut self, name: &Name)
        ensures about { self.new.about ≡ record self.old.about { rules = rule_dropped name.now self.old.about.rules } }
        ensures spare { self.new.spare ≡ self.old.spare }
    {
        drop_rule(&mut self.about, self.alloc, name.as_str());
    }
}

// The size of a list for these rules, for those that may be added, and for one more.
fn size_of_all(rules: usize, promised: usize) -> Result<usize, AllocError>
    ensures { IfOk result (λ size. size ≡ rules + promised + 1) }
{
    match rules.checked_add(promised) {
        Some(most) => one_more(most),
        None => Err(AllocError),
    }
}

// How many stand before a rule of this name.
fn entry_of(rules: &[Rule], name: &str) -> usize
    ensures place { result ≡ prefix_len (λ x. is_before x.name name.now) rules.now }
    ensures within { result ≤ length rules.now }
{
    rules.iter().take_while(|x| x.name.as_str() < name).count()
}

// All rules, and one more, in a list that is empty and has the room.
fn with_rule(list: Vec<Rule>, rules: Rows<Rule>, rule: Rule) -> Rows<Rule>
    requires empty { list.items ≡ [] }
    requires room { length rules < vec_capacity list }
    ensures { result ≡ rule_added rule rules }
{
    let mut list = list;
    let mut rules = rules.into_vec();
    let _ = list.append(&mut rules);
    let place = entry_of(&list, rule.name.as_str());
    let _ = list.insert(place, rule);
    Rows::from_vec(list)
}

fn without_rule(rules: Rows<Rule>, name: &str) -> Rows<Rule>
    ensures { result ≡ rule_dropped name.now rules }
{
    let mut rules = rules.into_vec();
    rules.retain(|x| x.name.as_str() != name);
    Rows::from_vec(rules)
}

fn add_rule(about: &mut Listed, alloc: Global, list: Vec<Rule>, rule: Rule)
    requires empty { list.items ≡ [] }
    requires room { length about.old.rules < vec_capacity list }
    ensures { about.new ≡ record about.old { rules = rule_added rule about.old.rules } }
{
    let rules = mem::replace(&mut about.rules, Rows::new(alloc));
    about.rules = with_rule(list, rules, rule);
}

fn drop_rule(about: &mut Listed, alloc: Global, name: &str)
    ensures { about.new ≡ record about.old { rules = rule_dropped name.now about.old.rules } }
{
    let rules = mem::replace(&mut about.rules, Rows::new(alloc));
    about.rules = without_rule(rules, name);
}
