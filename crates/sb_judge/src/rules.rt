// Rules of subscriptions.
ghost use Rattle.std.specs.Prelude.{◌≡◌, ◌+◌, ◌==◌, not, length, true};
ghost use Rattle.std.specs.List.{list_all};
ghost use Rattle.sb_machine.specs.Names as names;
ghost use Rattle.sb_judge.specs.Entities as spec;

use crate::messages::are_kept_parts;
use crate::sorted::{Ordered, is_on};
use sb_machine::{Conditions, Effect, Rule, RuleFilter};
use sb_model::Rows;
use sb_names::is_rule_name;

impl Ordered for Rule {
    ghost before = { λ a b. names.is_before a.name b.name };

    fn is_before(&self, other: &Rule) -> bool {
        self.name.as_str() < other.name.as_str()
    }
}

/// Whether rules stand by name.
#[tactic(auto, using(crate::proofs::InOrder::rules_by_name), unfolding(crate::specs::Entities::rules_order))]
pub(crate) fn are_rules_in_order(rules: &[Rule]) -> bool
    ensures { result ≡ (spec.rules_order rules.now).0 }
{
    is_on(rules)
}

/// Whether an entity may have each of these rules.
pub(crate) fn are_rules(rules: &[Rule]) -> bool
    ensures { result ≡ list_all (λ r. (spec.rule_verdict r).0) rules.now }
{
    rules.iter().all(|rule| is_rule(rule))
}

fn asks(conditions: &Conditions) -> bool
    ensures { result ≡ not (length conditions.now.sys + length conditions.now.props == 0) }
{
    !(conditions.sys.is_empty() && conditions.props.is_empty())
}

// That a condition can be read is known of its tree.
#[tactic(auto, unfolding(crate::specs::Entities::filter_verdict, crate::specs::Messages::message_verdict))]
fn is_filter(filter: &RuleFilter) -> bool
    ensures { result ≡ (spec.filter_verdict filter.now).0 }
{
    match filter {
        RuleFilter::Sql(condition) => {
            let _tree = condition.tree();
            true
        }
        RuleFilter::Correlation(conditions) => {
            asks(conditions)
                && are_kept_parts(conditions.sys.as_slice(), conditions.props.as_slice())
        }
    }
}

// That an effect can be read is known of its statements.
#[tactic(auto, unfolding(crate::specs::Entities::action_verdict))]
fn is_action(action: &Option<Effect>) -> bool
    ensures { result ≡ (spec.action_verdict action.now).0 }
{
    match action {
        Some(effect) => {
            let _statements = effect.statements();
            true
        }
        None => true,
    }
}

#[tactic(auto, unfolding(crate::specs::Entities::rule_verdict))]
fn is_rule(rule: &Rule) -> bool
    ensures { result ≡ (spec.rule_verdict rule.now).0 }
{
    is_rule_name(rule.name.as_str()) && is_filter(&rule.filter) && is_action(&rule.action)
}
