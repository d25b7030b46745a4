// Adding a rule to a subscription, and taking one away.
ghost use Rattle.std.specs.Prelude.{◌≡◌, ◌∷◌, [], bytes_eq, position};
ghost use Rattle.std.specs.Option.{option_map};
ghost use Rattle.sb_entities.specs.Stores.{space_in};
ghost use Rattle.sb_machine.specs.Administration as administration;
ghost use Rattle.sb_machine.specs.Rows as rows;
ghost use Rattle.sb_machine.specs.declared.change.Change.TheVariants.{AddsRule, DropsRule};
ghost use Rattle.sb_machine.specs.declared.reply.Reply.TheVariants.{Done};
ghost use Rattle.sb_engine.specs.Plans.{PlansRow, Passes};
ghost use Rattle.sb_engine.specs.Readings.{refusal_in};
ghost use Rattle.sb_engine.specs.Rules.{rule_of, read_in, created_in, deleted_in};

use crate::Draft;
use crate::acts::create::subscription_path;
use crate::find::reading::{read_action, read_filter};
use sb_entities::SpaceStore;
use sb_machine::{Change, Effect, FilterText, Listed, Refusal, Reply, Rule, RuleFilter};
use sb_model::{Name, Text};
use sb_names::limits::MAX_PROPERTY_BYTES;
use sb_names::{NameKind, check_name, conditions_size};
use sb_sqltext::ParseFault;
use std::alloc::Global;

// ---- names

fn are_rule_names(topic: &Name, subscription: &Name, name: &Name) -> bool
    ensures { result ≡ administration.are_rule_names topic.now subscription.now name.now }
{
    check_name(NameKind::Entity, topic.as_str()).is_ok()
        && check_name(NameKind::Subscription, subscription.as_str()).is_ok()
        && check_name(NameKind::Rule, name.as_str()).is_ok()
}

fn place_of(rules: &[Rule], name: &str) -> Option<usize>
    ensures { result ≡ position (λ r. bytes_eq r.name name.now) rules.now }
{
    rules.iter().position(|r| r.name.as_str() == name)
}

fn rule_named<'a>(rules: &'a [Rule], name: &str) -> Option<&'a Rule>
    ensures { option_map (λ r. r.now) result ≡ rule_of name.now rules.now }
{
    match place_of(rules, name) {
        Some(place) => Some(&rules[place]),
        None => None,
    }
}

// ---- adding one

fn judge_size(asked: &FilterText) -> Result<(), Refusal>
    ensures { Passes result (administration.large_filter asked.now) }
{
    let Ok(size) = conditions_size(asked) else {
        return Err(Refusal::OutOfMemory);
    };
    if size <= MAX_PROPERTY_BYTES {
        Ok(())
    } else {
        Err(Refusal::TooLarge { size })
    }
}

fn refusal_of(fault: ParseFault) -> Refusal
    ensures { result ≡ refusal_in fault }
{
    match fault {
        ParseFault::At(at) => Refusal::BadFilter { at },
        ParseFault::OutOfMemory => Refusal::OutOfMemory,
    }
}

// The rule of this name, filter and action is added to a subscription.
fn add_rule(
    alloc: Global,
    entity: u64,
    name: &Name,
    asked: &FilterText,
    filter: RuleFilter,
    action: Option<Effect>,
) -> Result<Draft, Refusal>
    ensures { PlansRow result (rows.refused_by (administration.large_filter asked.now) (rows.answers Done (AddsRule entity (record { name = name.now; filter = filter; action = action }) ∷ []))) }
{
    judge_size(asked)?;
    let Ok(name) = name.clone() else {
        return Err(Refusal::OutOfMemory);
    };
    let rule = Rule {
        name,
        filter,
        action,
    };
    Ok(Draft::changing(alloc, Reply::Done, Change::AddsRule { entity, rule }))
}

// What is asked for is read, the filter first, and added.
fn read_rule(
    alloc: Global,
    entity: u64,
    name: &Name,
    asked: &FilterText,
    action: &Option<Text>,
) -> Result<Draft, Refusal>
    ensures { PlansRow result (read_in entity name.now asked.now action.now) }
{
    let filter = match read_filter(alloc, asked) {
        Ok(filter) => filter,
        Err(fault) => return Err(refusal_of(fault)),
    };
    let effect = match read_action(alloc, action) {
        Ok(effect) => effect,
        Err(fault) => return Err(refusal_of(fault)),
    };
    add_rule(alloc, entity, name, asked, filter, effect)
}

// A rule is added to a subscription that is there.
fn create_in(
    alloc: Global,
    about: &Listed,
    name: &Name,
    asked: &FilterText,
    action: &Option<Text>,
) -> Result<Draft, Refusal>
    ensures { PlansRow result (created_in about.now name.now asked.now action.now) }
{
    match rule_named(about.rules.as_slice(), name.as_str()) {
        Some(_) => Err(Refusal::EntityExists),
        None => read_rule(alloc, about.number, name, asked, action),
    }
}

/// A rule is added to a subscription.
pub fn plan_create_rule(
    alloc: Global,
    space: &SpaceStore,
    topic: &Name,
    subscription: &Name,
    name: &Name,
    asked: &FilterText,
    action: &Option<Text>,
) -> Result<Draft, Refusal>
    ensures { PlansRow result (administration.create_rule_row (space_in space.now) topic.now subscription.now name.now asked.now action.now) }
{
    if !are_rule_names(topic, subscription, name) {
        return Err(Refusal::BadName);
    }
    let Ok(path) = subscription_path(topic, subscription) else {
        return Err(Refusal::OutOfMemory);
    };
    let Some(entity) = space.at(&path) else {
        return Err(Refusal::EntityNotFound);
    };
    create_in(alloc, entity.about(), name, asked, action)
}

// ---- taking one away

fn drop_rule(alloc: Global, entity: u64, name: &Name) -> Result<Draft, Refusal>
    ensures { PlansRow result (rows.answers Done (DropsRule entity name.now ∷ [])) }
{
    let Ok(name) = name.clone() else {
        return Err(Refusal::OutOfMemory);
    };
    Ok(Draft::changing(alloc, Reply::Done, Change::DropsRule { entity, name }))
}

// A rule is taken away from a subscription that is there.
fn delete_in(alloc: Global, about: &Listed, name: &Name) -> Result<Draft, Refusal>
    ensures { PlansRow result (deleted_in about.now name.now) }
{
    match rule_named(about.rules.as_slice(), name.as_str()) {
        Some(_) => drop_rule(alloc, about.number, name),
        None => Err(Refusal::EntityNotFound),
    }
}

/// A rule is taken away from a subscription.
pub fn plan_delete_rule(
    alloc: Global,
    space: &SpaceStore,
    topic: &Name,
    subscription: &Name,
    name: &Name,
) -> Result<Draft, Refusal>
    ensures { PlansRow result (administration.delete_rule_row (space_in space.now) topic.now subscription.now name.now) }
{
    if !are_rule_names(topic, subscription, name) {
        return Err(Refusal::BadName);
    }
    let Ok(path) = subscription_path(topic, subscription) else {
        return Err(Refusal::OutOfMemory);
    };
    let Some(entity) = space.at(&path) else {
        return Err(Refusal::EntityNotFound);
    };
    delete_in(alloc, entity.about(), name)
}
