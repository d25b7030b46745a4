// Entities.
ghost use Rattle.std.specs.Prelude.{◌≡◌, ◌||◌, ◌==◌, length, is_none};
ghost use Rattle.sb_machine.specs.Descriptions as descriptions;
ghost use Rattle.sb_machine.specs.Fit as fit;
ghost use Rattle.sb_judge.specs.Entities as spec;

use crate::copies::is_leaf;
use crate::ids::{are_ids, are_ids_short};
use crate::rules::{are_rules, are_rules_in_order};
use crate::sorted::Numbered;
use sb_machine::{Description, Entity, EntityKind, Listed, Path};
use sb_names::{check_desc, is_address, is_main};

impl Numbered for Entity {
    ghost number_of = { λ e. e.about.number };

    fn number(&self) -> u64 {
        self.about.number
    }
}

/// Whether an entity may be so at a moment.
#[tactic(auto, unfolding(crate::specs::Entities::entity_verdict))]
pub(crate) fn is_entity(moment: u64, entity: &Entity) -> bool
    ensures { result ≡ (spec.entity_verdict moment entity.now).0 }
{
    is_listed(&entity.about)
        && are_ids(
            moment,
            entity.about.description.window,
            entity.ids.as_slice(),
        )
        && are_ids_short(entity.ids.as_slice())
        && is_leaf(moment, &entity.main)
        && is_leaf(moment, &entity.dead)
        && is_leaf(moment, &entity.transfer)
}

fn is_kind(kind: EntityKind, path: &Path) -> bool
    ensures { result ≡ fit.is_kind kind path.now }
{
    match kind {
        EntityKind::Queue | EntityKind::Topic => path.subscription.is_none(),
        EntityKind::Subscription => path.subscription.is_some(),
    }
}

/// Whether an entity of this kind may be described so.
pub(crate) fn is_described(kind: EntityKind, description: &Description) -> bool
    ensures { result ≡ is_none (descriptions.bad_in_description kind description.now) }
{
    match check_desc(kind, description) {
        Ok(()) => true,
        Err(_) => false,
    }
}

fn has_rules(kind: EntityKind) -> bool
    ensures { result ≡ descriptions.has_rules kind }
{
    match kind {
        EntityKind::Subscription => true,
        EntityKind::Queue | EntityKind::Topic => false,
    }
}

#[tactic(auto, unfolding(crate::specs::Entities::listed_verdict))]
fn is_listed(about: &Listed) -> bool
    ensures { result ≡ (spec.listed_verdict about.now).0 }
{
    let rules = about.rules.as_slice();
    is_address(&about.path)
        && is_main(about.path.part)
        && is_kind(about.kind, &about.path)
        && is_described(about.kind, &about.description)
        && are_rules_in_order(rules)
        && are_rules(rules)
        && (has_rules(about.kind) || rules.is_empty())
}
