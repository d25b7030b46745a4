// Rules of subscriptions. A filter and an action stand as the texts that spell them.
ghost use Rattle.std.specs.Prelude.{◌≡◌, OnOk, Some, None, if◌then◌else◌};
ghost use Rattle.std.specs.Option.{option_copied};
ghost use Rattle.sb_model.specs.Texts.{filter_in, action_in};
ghost use Rattle.sb_machine.specs.Each.{is_read};
ghost use Rattle.sb_codec.specs.Forms.{Form, Puts};
ghost use Rattle.sb_codec.specs.Readers.{Gives};
ghost use Rattle.sb_snapshot.specs.Entities as entities;

use crate::coded::{put_coded, split_code};
use crate::texts::is_before;
use sb_codec::{ConditionsPiece, Item, Opt, Piece, Unread, Words, put_fields, take_fields};
use sb_machine::{Condition, Effect, Rule, RuleFilter};
use sb_model::Text;
use sb_sqltext::{ParseFault, parse_action, parse_filter, texts_are_read_exactly};
use std::alloc::{AllocError, Global};

// The filter that a text spells.
fn condition_of(alloc: Global, text: Text) -> Result<Condition, Unread>
    ensures { Gives (λ c. c) result (if is_read (filter_in text) then Some text else None) }
{
    texts_are_read_exactly();
    match parse_filter(alloc, text.as_str()) {
        Ok(tree) => Ok(Condition::new(text, tree)),
        Err(ParseFault::At(_)) => Err(Unread::NoSpelling),
        Err(ParseFault::OutOfMemory) => Err(Unread::Memory),
    }
}

// The action that a text spells.
fn effect_of(alloc: Global, text: Text) -> Result<Effect, Unread>
    ensures { Gives (λ e. e) result (if is_read (action_in text) then Some text else None) }
{
    texts_are_read_exactly();
    match parse_action(alloc, text.as_str()) {
        Ok(statements) => Ok(Effect::new(text, statements)),
        Err(ParseFault::At(_)) => Err(Unread::NoSpelling),
        Err(ParseFault::OutOfMemory) => Err(Unread::Memory),
    }
}

/// A filter's text.
pub(crate) struct ConditionPiece;

impl Piece for ConditionPiece {
    type Value = Condition;

    ghost form = { entities.filter_words };

    // That the text can be read is known of its tree.
    fn put(value: &Condition, out: &mut Vec<u8>) -> Result<(), AllocError> {
        let _tree = value.tree();
        Words::put(value.text(), out)
    }

    fn take(alloc: Global, bytes: &[u8]) -> Result<(Condition, &[u8]), Unread> {
        let (text, rest) = Words::take(alloc, bytes)?;
        Ok((condition_of(alloc, text)?, rest))
    }
}

/// An action's text.
pub(crate) struct EffectPiece;

impl Piece for EffectPiece {
    type Value = Effect;

    ghost form = { entities.action_words };

    // That the text can be read is known of its statements.
    fn put(value: &Effect, out: &mut Vec<u8>) -> Result<(), AllocError> {
        let _statements = value.statements();
        Words::put(value.text(), out)
    }

    fn take(alloc: Global, bytes: &[u8]) -> Result<(Effect, &[u8]), Unread> {
        let (text, rest) = Words::take(alloc, bytes)?;
        Ok((effect_of(alloc, text)?, rest))
    }
}

/// Which messages a rule is for.
pub(crate) struct FilterPiece;

impl Piece for FilterPiece {
    type Value = RuleFilter;

    ghost form = { entities.filter };

    #[tactic(auto, unfolding(crate::specs::Entities::filter))]
    fn put(value: &RuleFilter, out: &mut Vec<u8>) -> Result<(), AllocError> {
        match value {
            RuleFilter::Sql(condition) => put_coded::<ConditionPiece>(0, condition, out),
            RuleFilter::Correlation(conditions) => {
                put_coded::<ConditionsPiece>(1, conditions, out)
            }
        }
    }

    #[tactic(auto, unfolding(crate::specs::Entities::filter, sb_codec::specs::Forms::chosen_at))]
    fn take(alloc: Global, bytes: &[u8]) -> Result<(RuleFilter, &[u8]), Unread> {
        let Some((code, rest)) = split_code(bytes) else {
            return Err(Unread::NoSpelling);
        };
        match code {
            0 => {
                let (condition, rest) = ConditionPiece::take(alloc, rest)?;
                Ok((RuleFilter::Sql(condition), rest))
            }
            1 => {
                let (conditions, rest) = ConditionsPiece::take(alloc, rest)?;
                Ok((RuleFilter::Correlation(conditions), rest))
            }
            _ => Err(Unread::NoSpelling),
        }
    }
}

/// A rule.
pub struct RulePiece;

impl Piece for RulePiece {
    type Value = Rule;

    ghost form = { entities.rule };

    #[tactic(auto, unfolding(crate::specs::Entities::rule))]
    fn put(value: &Rule, out: &mut Vec<u8>) -> Result<(), AllocError> {
        put_fields!(out, &value.name => Words, &value.filter => FilterPiece, &value.action => Opt<EffectPiece>)
    }

    #[tactic(auto, unfolding(crate::specs::Entities::rule))]
    fn take(alloc: Global, bytes: &[u8]) -> Result<(Rule, &[u8]), Unread> {
        take_fields!(alloc, bytes, Rule { name: Words, filter: FilterPiece, action: Opt<EffectPiece> })
    }
}

impl Item for RulePiece {
    ghost follows = { entities.is_next_rule };

    fn follows(last: Option<&Rule>, next: &Rule) -> bool {
        match last {
            None => true,
            Some(last) => is_before(&last.name, &next.name),
        }
    }
}
