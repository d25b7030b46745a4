// What an operator looks at: entities, one of them, its sessions, the open transactions.
ghost use Rattle.std.specs.Prelude.{◌≡◌, [], map, IfOk};
ghost use Rattle.sb_entities.specs.Stores.{space_in, entity_in};
ghost use Rattle.sb_machine.specs.Looks as looks;
ghost use Rattle.sb_machine.specs.declared.look.View.TheVariants as view_of;
ghost use Rattle.sb_machine.specs.declared.reply.Reply.TheVariants.{Seen};
ghost use Rattle.sb_engine.specs.Plans.{PlansRow};

use crate::Draft;
use crate::find::claims::has_sessions;
use sb_entities::{EntityStore, SpaceStore};
use sb_machine::{
    Described, Directory, Effect, EntityShown, FilterText, Look, Part, Path, Refusal, Reply, Rule,
    RuleFilter, RuleShown, View,
};
use sb_model::{Name, Rows, Text};
use sb_names::is_address;
use std::alloc::{AllocError, Global};

/// What a look shows.
pub fn plan_look(alloc: Global, space: &SpaceStore, what: &Look) -> Result<Draft, Refusal>
    ensures { PlansRow result (looks.look_row (space_in space.now) what.now) }
{
    match what {
        Look::Entities {
            prefix,
            after,
            count,
        } => plan_entities(alloc, space, prefix, after, *count),
        Look::Entity { path } => plan_entity(alloc, space, path),
        Look::Sessions { path, after, count } => plan_sessions(alloc, space, path, after, *count),
        Look::Transactions => plan_transactions(alloc, space),
        Look::Clients { .. } => Ok(none_shown(alloc)),
    }
}

// ---- entities

fn all_shown(alloc: Global, entities: &[&EntityStore]) -> Result<Rows<EntityShown>, AllocError>
    ensures { IfOk result (λ rows. rows ≡ map looks.entity_shown (map (λ e. entity_in e.now) entities.now)) }
{
    let mut shown = Rows::new(alloc);
    for entity in entities {
        shown.push(entity.shown(alloc)?)?;
    }
    Ok(shown)
}

fn entities_shown(
    alloc: Global,
    space: &SpaceStore,
    prefix: &Option<Name>,
    after: &Option<Path>,
    count: u64,
) -> Result<Rows<EntityShown>, AllocError>
    ensures { IfOk result (λ rows. rows ≡ map looks.entity_shown (looks.entities_asked (space_in space.now) prefix.now after.now count)) }
{
    let found = space.entities_asked(alloc, prefix, after, count)?;
    all_shown(alloc, &found)
}

fn plan_entities(
    alloc: Global,
    space: &SpaceStore,
    prefix: &Option<Name>,
    after: &Option<Path>,
    count: u64,
) -> Result<Draft, Refusal>
    ensures { PlansRow result (looks.entities_row (space_in space.now) prefix.now after.now count) }
{
    match entities_shown(alloc, space, prefix, after, count) {
        Ok(shown) => Ok(Draft::unchanging(alloc, Reply::Seen(View::Entities(shown)))),
        Err(_) => Err(Refusal::OutOfMemory),
    }
}

// ---- one entity

fn is_there(space: &SpaceStore, name: &Option<Name>) -> bool
    ensures { result ≡ looks.is_there (space_in space.now) name.now }
{
    match name {
        Some(name) => space.destination(name.as_str()).is_some(),
        None => false,
    }
}

fn filter_shown(filter: &RuleFilter) -> Result<FilterText, AllocError>
    ensures { IfOk result (λ shown. shown ≡ looks.filter_shown filter.now) }
{
    match filter {
        RuleFilter::Sql(condition) => Ok(FilterText::Sql(condition.text().clone()?)),
        RuleFilter::Correlation(conditions) => Ok(FilterText::Correlation(conditions.clone()?)),
    }
}

fn action_shown(action: &Option<Effect>) -> Result<Option<Text>, AllocError>
    ensures { IfOk result (λ shown. shown ≡ action.now) }
{
    match action {
        Some(effect) => Ok(Some(effect.text().clone()?)),
        None => Ok(None),
    }
}

fn rule_shown(rule: &Rule) -> Result<RuleShown, AllocError>
    ensures { IfOk result (λ shown. shown ≡ looks.rule_shown rule.now) }
{
    Ok(RuleShown {
        name: rule.name.clone()?,
        filter: filter_shown(&rule.filter)?,
        action: action_shown(&rule.action)?,
    })
}

fn rules_shown(alloc: Global, rules: &[Rule]) -> Result<Rows<RuleShown>, AllocError>
    ensures { IfOk result (λ shown. shown ≡ map looks.rule_shown rules.now) }
{
    let mut shown = Rows::new(alloc);
    for rule in rules {
        shown.push(rule_shown(rule)?)?;
    }
    Ok(shown)
}

fn described(
    alloc: Global,
    space: &SpaceStore,
    entity: &EntityStore,
) -> Result<Described, AllocError>
    ensures { IfOk result (λ one. one ≡ looks.described (space_in space.now) (entity_in entity.now)) }
{
    let about = entity.about();
    Ok(Described {
        kind: about.kind,
        description: about.description.clone()?,
        forward_there: is_there(space, &about.description.forward_to),
        forward_dead_there: is_there(space, &about.description.forward_dead_to),
        rules: rules_shown(alloc, about.rules.as_slice())?,
    })
}

fn plan_entity(alloc: Global, space: &SpaceStore, path: &Path) -> Result<Draft, Refusal>
    ensures { PlansRow result (looks.entity_row (space_in space.now) path.now) }
{
    if !is_address(path) {
        return Err(Refusal::BadName);
    }
    let Some(entity) = space.at(path) else {
        return Err(Refusal::EntityNotFound);
    };
    match described(alloc, space, entity) {
        Ok(one) => Ok(Draft::unchanging(alloc, Reply::Seen(View::Entity(one)))),
        Err(_) => Err(Refusal::OutOfMemory),
    }
}

// ---- sessions

fn plan_sessions(
    alloc: Global,
    space: &SpaceStore,
    path: &Path,
    after: &Option<Text>,
    count: u64,
) -> Result<Draft, Refusal>
    ensures { PlansRow result (looks.sessions_row (space_in space.now) path.now after.now count) }
{
    if !is_address(path) {
        return Err(Refusal::BadName);
    }
    let Some(entity) = space.at(path) else {
        return Err(Refusal::EntityNotFound);
    };
    if !has_sessions(entity, Part::Main) {
        return Err(Refusal::SessionNotAllowed);
    }
    match entity.part(Part::Main).sessions_shown(alloc, after, count) {
        Ok(shown) => Ok(Draft::unchanging(alloc, Reply::Seen(View::Sessions(shown)))),
        Err(_) => Err(Refusal::OutOfMemory),
    }
}

// ---- transactions

fn plan_transactions(alloc: Global, space: &SpaceStore) -> Result<Draft, Refusal>
    ensures { PlansRow result (looks.transactions_row (space_in space.now)) }
{
    match space.transactions_shown(alloc) {
        Ok(shown) => Ok(Draft::unchanging(alloc, Reply::Seen(View::Transactions(shown)))),
        Err(_) => Err(Refusal::OutOfMemory),
    }
}

// ---- clients

// They are remembered beside the namespace: `plan::clients` shows them.
fn none_shown(alloc: Global) -> Draft
    ensures reply { result.reply ≡ Seen (view_of.Clients []) }
    ensures changes { result.changes ≡ [] }
{
    Draft::unchanging(alloc, Reply::Seen(View::Clients(Rows::new(alloc))))
}
