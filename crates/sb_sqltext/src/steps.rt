// The next token, where it is one of a class.
ghost use Rattle.std.specs.Prelude.{◌≡◌, ◌==◌, ◌≤◌, ◌<◌, ◌∷◌, length, IfOk, IfSome, IfNone, Some};
ghost use Rattle.sb_model.specs.Expressions.{term_of};
ghost use Rattle.sb_model.specs.declared.token.Kind.TheVariants.{Binary, Comma};
ghost use Rattle.sb_model.specs.Language.{binding, operator_at, is_comma};
ghost use Rattle.sb_sqltext.specs.Answers.{Reads, IsOver};
ghost use Rattle.sb_model.specs.Reading as reading;
ghost use Rattle.sb_model.specs.Readers as readers;

use crate::Missed;
use sb_model::{BinaryOperator, Expression, Kind};

/// How tight an operator binds its operands; at 3 stand the comparisons.
pub(crate) fn level_of(operator: BinaryOperator) -> u8
    ensures { result ≡ binding operator }
{
    match operator {
        BinaryOperator::Or => 1,
        BinaryOperator::And => 2,
        BinaryOperator::Add | BinaryOperator::Subtract => 4,
        BinaryOperator::Multiply | BinaryOperator::Divide | BinaryOperator::Remainder => 5,
        BinaryOperator::Equal
        | BinaryOperator::NotEqual
        | BinaryOperator::Greater
        | BinaryOperator::AtLeast
        | BinaryOperator::Less
        | BinaryOperator::AtMost => 3,
    }
}

/// An operator of this level and what stands behind it, if one is next.
pub(crate) fn after_operator<'a>(
    level: u8,
    tokens: &'a [Kind],
) -> Option<(BinaryOperator, &'a [Kind])>
    ensures some { IfSome result (λ x. tokens.now ≡ Binary x.0 ∷ x.1.now) }
    ensures at_level { IfSome result (λ x. operator_at level (Binary x.0) ≡ Some x.0) }
    ensures shorter { IfSome result (λ x. length x.1.now < length tokens.now) }
    ensures none { IfNone result (IsOver (operator_at level) tokens.now) }
{
    match tokens {
        [Kind::Binary(operator), rest @ ..] if level_of(*operator) == level => {
            Some((*operator, rest))
        }
        _ => None,
    }
}

/// What stands behind a comma, if one is next.
pub(crate) fn after_comma<'a>(tokens: &'a [Kind]) -> Option<&'a [Kind]>
    ensures some { IfSome result (λ x. tokens.now ≡ Comma ∷ x.now) }
    ensures shorter { IfSome result (λ x. length x.now < length tokens.now) }
    ensures none { IfNone result (IsOver is_comma tokens.now) }
{
    match tokens {
        [Kind::Comma, rest @ ..] => Some(rest),
        _ => None,
    }
}

/// This tree, where a closing parenthesis is next.
pub(crate) fn closed<'a>(
    tree: Expression,
    tokens: &'a [Kind],
) -> Result<(Expression, &'a [Kind]), Missed<'a>>
    ensures reads { Reads (λ x. (term_of x.0, x.1.now)) result (readers.one (reading.closing (term_of tree)) tokens.now) }
    ensures shorter { IfOk result (λ x. length x.1.now ≤ length tokens.now) }
{
    match tokens {
        [Kind::Close, rest @ ..] => Ok((tree, rest)),
        _ => Err(Missed::Here(tokens)),
    }
}

/// `NULL` behind `IS` or `IS NOT`.
pub(crate) fn null<'a>(
    tree: Expression,
    tokens: &'a [Kind],
) -> Result<(Expression, &'a [Kind]), Missed<'a>>
    ensures reads { Reads (λ x. (term_of x.0, x.1.now)) result (readers.one (reading.null_as (term_of tree)) tokens.now) }
    ensures shorter { IfOk result (λ x. length x.1.now ≤ length tokens.now) }
{
    match tokens {
        [Kind::Null, rest @ ..] => Ok((tree, rest)),
        _ => Err(Missed::Here(tokens)),
    }
}
