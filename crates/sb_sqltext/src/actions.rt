// Reading of actions.
ghost use Rattle.std.specs.Prelude.{◌≡◌, ◌≤◌, ◌<◌, ◌∷◌, [], length, nat_lt, IfOk, IfSome, IfNone, Ok, if◌then◌else◌};
ghost use Rattle.sb_model.specs.Expressions.{change_of, changes_of};
ghost use Rattle.sb_model.specs.declared.token.Kind.TheVariants.{Set, Remove};
ghost use Rattle.sb_model.specs.Reading as reading;
ghost use Rattle.sb_sqltext.specs.Answers.{Reads, IsOver};
ghost use Rattle.sb_sqltext.specs.Verbs.{verb_for};

use crate::Missed;
use crate::expressions::disjunction;
use crate::names::property;
use sb_model::{Action, BinaryOperator, Kind, Rows, Statement};
use std::alloc::Global;

/// Whether `SET` is next, and not `REMOVE`, and what stands behind it; none where neither is.
fn after_set_or_remove<'a>(tokens: &'a [Kind]) -> Option<(bool, &'a [Kind])>
    ensures some { IfSome result (λ x. tokens.now ≡ (if x.0 then Set else Remove) ∷ x.1.now) }
    ensures shorter { IfSome result (λ x. length x.1.now < length tokens.now) }
    ensures none { IfNone result (IsOver reading.verb tokens.now) }
{
    match tokens {
        [Kind::Set, rest @ ..] => Some((true, rest)),
        [Kind::Remove, rest @ ..] => Some((false, rest)),
        _ => None,
    }
}

/// This statement, past one separator if one is next.
fn separated<'a>(statement: Statement, tokens: &'a [Kind]) -> (Statement, &'a [Kind])
    ensures reads { reading.separated (change_of statement) tokens.now ≡ Ok (change_of result.0, result.1.now) }
    ensures shorter { length result.1.now ≤ length tokens.now }
{
    match tokens {
        [Kind::Semicolon, rest @ ..] => (statement, rest),
        [Kind::Comma, rest @ ..] => (statement, rest),
        _ => (statement, tokens),
    }
}

/// What stands behind `SET` or `REMOVE`, up to the end of the statement.
#[tactic(auto, unfolding(sb_model::specs::Reading::after_verb))]
fn statement<'a>(
    alloc: Global,
    depth: usize,
    sets: bool,
    tokens: &'a [Kind],
) -> Result<(Statement, &'a [Kind]), Missed<'a>>
    ensures reads { Reads (λ x. (change_of x.0, x.1.now)) result (reading.after_verb depth (verb_for sets) tokens.now) }
    ensures shorter { IfOk result (λ x. length x.1.now ≤ length tokens.now) }
{
    let (name, rest) = property(alloc, tokens)?;
    if !sets {
        return Ok(separated(Statement::Remove(name), rest));
    }
    let [Kind::Binary(BinaryOperator::Equal), rest @ ..] = rest else {
        return Err(Missed::Here(rest));
    };
    let (value, rest) = disjunction(alloc, depth, rest)?;
    Ok(separated(Statement::Set(name, value), rest))
}

/// The action that the tokens spell, nested at most so deep, with at most so many statements
/// behind the first.
#[tactic(auto, using(crate::proofs::Statements::statement_steps), unfolding(sb_model::specs::Reading::action_of))]
pub(crate) fn action_of<'a>(
    alloc: Global,
    depth: usize,
    count: usize,
    tokens: &'a [Kind],
) -> Result<Action, Missed<'a>>
    ensures { Reads (λ x. (changes_of x, [])) result (reading.action_of depth count tokens.now) }
{
    let Some((sets, rest)) = after_set_or_remove(tokens) else {
        return Err(Missed::Here(tokens));
    };
    let (first, mut rest) = statement(alloc, depth, sets, rest)?;
    let mut statements = Rows::new(alloc);
    statements.push(first)?;
    let mut left = count;
    'statements: while let Some((sets, onward)) = after_set_or_remove(rest) {
        if left == 0 {
            return Err(Missed::Here(rest));
        }
        let (next, behind) = statement(alloc, depth, sets, onward)?;
        statements.push(next)?;
        rest = behind;
        left -= 1;
    }
    match rest {
        [] => Ok(statements),
        _ => Err(Missed::Here(rest)),
    }
}
