// Making queues, topics and subscriptions.
ghost use Rattle.std.specs.Prelude.{◌≡◌, ◌&&◌, [], ◌∷◌, IfOk};
ghost use Rattle.sb_entities.specs.Stores.{space_in};
ghost use Rattle.sb_machine.specs.Administration as administration;
ghost use Rattle.sb_machine.specs.Names as names;
ghost use Rattle.sb_machine.specs.Namespace as namespace;
ghost use Rattle.sb_machine.specs.Rows as rows;
ghost use Rattle.sb_machine.specs.declared.change.Change.TheVariants.{Makes};
ghost use Rattle.sb_machine.specs.declared.reply.Refusal.TheVariants.{WrongKind};
ghost use Rattle.sb_machine.specs.declared.reply.Reply.TheVariants.{Done};
ghost use Rattle.sb_machine.specs.declared.state.EntityKind.TheVariants.{Subscription};
ghost use Rattle.sb_engine.specs.Plans.{PlansRow, Passes};

use crate::Draft;
use crate::acts::kinds::is_topic;
use crate::find::reading::read_condition;
use sb_entities::SpaceStore;
use sb_machine::{
    Change, Description, EntityKind, Listed, Part, Path, Refusal, Reply, Rule, RuleFilter,
};
use sb_model::{Name, Rows, Text};
use sb_names::{NameKind, check_desc, check_name};
use std::alloc::{AllocError, Global};

// ---- addresses

/// The address of a queue or topic.
pub fn entity_path(name: &Name) -> Result<Path, AllocError>
    ensures { IfOk result (λ path. path ≡ namespace.entity_path name.now) }
{
    Ok(Path {
        name: name.clone()?,
        subscription: None,
        part: Part::Main,
    })
}

/// The address of a subscription.
pub fn subscription_path(topic: &Name, name: &Name) -> Result<Path, AllocError>
    ensures { IfOk result (λ path. path ≡ namespace.subscription_path topic.now name.now) }
{
    Ok(Path {
        name: topic.clone()?,
        subscription: Some(name.clone()?),
        part: Part::Main,
    })
}

// ---- descriptions and rules

// Refuses a description that doesn't go with this kind of entity.
fn judge_description(
    alloc: Global,
    kind: EntityKind,
    description: &Description,
) -> Result<(), Refusal>
    ensures { Passes result (administration.bad_description kind description.now) }
{
    let Err(field) = check_desc(kind, description) else {
        return Ok(());
    };
    match Text::of(alloc, field) {
        Ok(field) => Err(Refusal::BadDescription { field }),
        Err(_) => Err(Refusal::OutOfMemory),
    }
}

// The rule of a new subscription, which takes all messages. Its text can be read, so that only
// memory may be wanting.
fn default_rule(alloc: Global) -> Result<Rule, AllocError>
    ensures { IfOk result (λ r. r ≡ administration.default_rule) }
{
    let name = Text::of(alloc, "$default")?;
    let text = Text::of(alloc, "1=1")?;
    match read_condition(alloc, text) {
        Ok(condition) => Ok(Rule {
            name,
            filter: RuleFilter::Sql(condition),
            action: None,
        }),
        Err(_) => Err(AllocError),
    }
}

fn default_rules(alloc: Global) -> Result<Rows<Rule>, AllocError>
    ensures { IfOk result (λ rules. rules ≡ administration.default_rule ∷ []) }
{
    let mut rules = Rows::new(alloc);
    rules.push(default_rule(alloc)?)?;
    Ok(rules)
}

// ---- making

fn makes(
    kind: EntityKind,
    path: Path,
    description: &Description,
    rules: Rows<Rule>,
) -> Result<Change, AllocError>
    ensures { IfOk result (λ change. change ≡ Makes kind path description.now rules) }
{
    Ok(Change::Makes {
        kind,
        path,
        description: description.clone()?,
        rules,
    })
}

/// A queue or a topic is made.
pub fn plan_create(
    alloc: Global,
    space: &SpaceStore,
    kind: EntityKind,
    name: &Name,
    description: &Description,
) -> Result<Draft, Refusal>
    ensures { PlansRow result (administration.create_row (space_in space.now) kind name.now description.now) }
{
    if check_name(NameKind::Entity, name.as_str()).is_err() {
        return Err(Refusal::BadName);
    }
    let Ok(path) = entity_path(name) else {
        return Err(Refusal::OutOfMemory);
    };
    if space.at(&path).is_some() {
        return Err(Refusal::EntityExists);
    }
    judge_description(alloc, kind, description)?;
    match makes(kind, path, description, Rows::new(alloc)) {
        Ok(change) => Ok(Draft::changing(alloc, Reply::Done, change)),
        Err(_) => Err(Refusal::OutOfMemory),
    }
}

// A subscription is made under a topic that is there.
fn create_under(
    alloc: Global,
    path: Path,
    topic: &Listed,
    description: &Description,
) -> Result<Draft, Refusal>
    ensures { PlansRow result (rows.refused_by (administration.bad_description Subscription description.now) (rows.asks (rows.is_topic topic.now.kind) WrongKind (rows.answers Done (Makes Subscription path description.now (administration.default_rule ∷ []) ∷ [])))) }
{
    judge_description(alloc, EntityKind::Subscription, description)?;
    if !is_topic(topic.kind) {
        return Err(Refusal::WrongKind);
    }
    let Ok(rules) = default_rules(alloc) else {
        return Err(Refusal::OutOfMemory);
    };
    match makes(EntityKind::Subscription, path, description, rules) {
        Ok(change) => Ok(Draft::changing(alloc, Reply::Done, change)),
        Err(_) => Err(Refusal::OutOfMemory),
    }
}

fn are_names(topic: &Name, name: &Name) -> bool
    ensures { result ≡ (names.is_name topic.now && names.is_short_name name.now) }
{
    check_name(NameKind::Entity, topic.as_str()).is_ok()
        && check_name(NameKind::Subscription, name.as_str()).is_ok()
}

/// A subscription is made, with the rule that takes all messages.
pub fn plan_create_subscription(
    alloc: Global,
    space: &SpaceStore,
    topic: &Name,
    name: &Name,
    description: &Description,
) -> Result<Draft, Refusal>
    ensures { PlansRow result (administration.create_subscription_row (space_in space.now) topic.now name.now description.now) }
{
    if !are_names(topic, name) {
        return Err(Refusal::BadName);
    }
    let (Ok(under), Ok(path)) = (entity_path(topic), subscription_path(topic, name)) else {
        return Err(Refusal::OutOfMemory);
    };
    let Some(entity) = space.at(&under) else {
        return Err(Refusal::EntityNotFound);
    };
    if space.at(&path).is_some() {
        return Err(Refusal::EntityExists);
    }
    create_under(alloc, path, entity.about(), description)
}
