// What a subscription's rules make of a message.
ghost use Rattle.std.specs.Prelude.{◌≡◌, [], ◌∷◌, ◌++◌, if◌then◌else◌, IfOk};
ghost use Rattle.sb_model.specs.Meaning as meaning;
ghost use Rattle.sb_machine.specs.declared.rule.Outcome.TheVariants as outcome;
ghost use Rattle.sb_machine.specs.Selection as selection;
ghost use Rattle.sb_rules.specs.Taking.{IsTried, MatchesOr, ActsOr};

use crate::conditions::meets;
use sb_machine::{Effect, Listed, Outcome, Rule, RuleFilter};
use sb_model::{EvalFault, Message, PropertyValue, Rows, Text, Truth};
use sb_sqleval::{eval, run_action, with_property};
use std::alloc::{AllocError, Global};

/// What one rule makes of a message.
#[derive(Drop)]
enum Taking {
    /// Its filter isn't true.
    Nothing,
    /// Its filter is true, and it has no action.
    Plain,
    /// The message as its action leaves it.
    Changed(Message),
}

fn is_true(truth: Truth) -> bool
    ensures { result ≡ meaning.is_true truth }
{
    match truth {
        Truth::True => true,
        Truth::False | Truth::Unknown => false,
    }
}

/// Whether a filter is true of a message.
fn matched(alloc: Global, filter: &RuleFilter, message: &Message) -> Result<bool, EvalFault>
    ensures { MatchesOr message.now filter.now result }
{
    match filter {
        RuleFilter::Sql(condition) => Ok(is_true(eval(alloc, condition.tree(), message)?)),
        RuleFilter::Correlation(conditions) => Ok(meets(message, conditions)),
    }
}

fn copy_of(message: &Message) -> Result<Message, AllocError>
    ensures { IfOk result (λ m. m ≡ message.now) }
{
    message.clone()
}

fn tagged(alloc: Global, name: &str, message: Message) -> Result<Message, AllocError>
    ensures { IfOk result (λ m. m ≡ selection.tagged name.now message) }
{
    let name = Text::of(alloc, name)?;
    with_property(alloc, "rulename", PropertyValue::Text(name), message)
}

fn acted_on(alloc: Global, action: &Effect, message: &Message) -> Result<Message, EvalFault>
    ensures { ActsOr message.now action.now result }
{
    let copy = copy_of(message)?;
    run_action(alloc, action.statements(), copy)
}

fn tried(alloc: Global, rule: &Rule, message: &Message) -> Result<Taking, EvalFault>
    ensures { IsTried message.now rule.now result }
{
    if !matched(alloc, &rule.filter, message)? {
        return Ok(Taking::Nothing);
    }
    let Some(action) = &rule.action else {
        return Ok(Taking::Plain);
    };
    let changed = acted_on(alloc, action, message)?;
    Ok(Taking::Changed(tagged(alloc, rule.name.as_str(), changed)?))
}

fn failed(dead_on_fault: bool) -> Outcome
    ensures { result ≡ (if dead_on_fault then outcome.Dead else outcome.Dropped) }
{
    if dead_on_fault {
        Outcome::Dead
    } else {
        Outcome::Dropped
    }
}

/// The plain copy before the changed ones.
fn with_plain(
    message: &Message,
    plain: bool,
    changed: Vec<Message>,
) -> Result<Rows<Message>, AllocError>
    ensures { IfOk result (λ r. r ≡ (if plain then message.now ∷ [] else []) ++ changed.items) }
{
    let mut messages = changed;
    if plain {
        messages.insert(0, copy_of(message)?)?;
    }
    Ok(Rows::from_vec(messages))
}

fn copies_by(
    alloc: Global,
    dead_on_fault: bool,
    rules: &[Rule],
    message: &Message,
) -> Result<Outcome, AllocError>
    ensures { IfOk result (λ o. o ≡ selection.selected dead_on_fault rules.now message.now) }
{
    let mut plain = false;
    let mut changed = Vec::new(alloc);
    'rules: for rule in rules {
        match tried(alloc, rule, message) {
            Ok(Taking::Nothing) => {}
            Ok(Taking::Plain) => plain = true,
            Ok(Taking::Changed(copy)) => changed.push(copy)?,
            Err(EvalFault::OutOfMemory) => return Err(AllocError),
            Err(_) => return Ok(failed(dead_on_fault)),
        }
    }
    Ok(Outcome::Copies(with_plain(message, plain, changed)?))
}

/// What a subscription takes of a message. Where a filter, or the action of a rule whose filter is
/// true, fails, that is one dead copy, or nothing where the subscription isn't to keep such ones.
/// Else it is one copy for all true rules without action, and behind it one for each true rule
/// with an action, in order of name, as the action leaves it and with the property `rulename`.
pub fn copies(
    alloc: Global,
    subscription: &Listed,
    message: &Message,
) -> Result<Outcome, AllocError>
    ensures { IfOk result (λ o. o ≡ selection.selected subscription.now.description.dead_on_fault subscription.now.rules message.now) }
{
    copies_by(
        alloc,
        subscription.description.dead_on_fault,
        subscription.rules.as_slice(),
        message,
    )
}
