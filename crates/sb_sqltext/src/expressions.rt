// Reading of expressions: one function for each production, and one that goes deeper for each
// part that may nest.
ghost use Rattle.std.specs.Prelude.{◌≡◌, ◌≤◌, ◌<◌, length, nat_lt, IfOk, []};
ghost use Rattle.sb_model.specs.Expressions.{term_of, terms_of};
ghost use Rattle.sb_model.specs.Expressions as terms;
ghost use Rattle.sb_model.specs.declared.expression.UnaryOperator.TheVariants as unary_operator;
ghost use Rattle.sb_model.specs.Language.{or_part, not_part, sum_part, sign_part};
ghost use Rattle.sb_model.specs.Reading as reading;
ghost use Rattle.sb_model.specs.Readers as readers;
ghost use Rattle.sb_sqltext.specs.Answers.{Reads};

use crate::Missed;
use crate::names::{property, property_of, user_property, value_of};
use crate::steps::{after_comma, after_operator, closed, level_of, null};
use sb_model::{BinaryOperator, Expression, Items, Kind, Role, Text, UnaryOperator};
use std::alloc::Global;

/// A property by its name, with what stands behind it.
fn property_tree<'a>(
    alloc: Global,
    role: Role,
    name: &Text,
    tokens: &'a [Kind],
) -> Result<(Expression, &'a [Kind]), Missed<'a>>
    ensures reads { Reads (λ x. (term_of x.0, x.1.now)) result (readers.next (reading.after_name role name.now) (λ n. readers.pure (terms.property n)) tokens.now) }
    ensures shorter { IfOk result (λ x. length x.1.now ≤ length tokens.now) }
{
    let (name, rest) = property_of(alloc, role, name, tokens)?;
    Ok((Expression::Property(name), rest))
}

/// What stands behind `EXISTS`.
fn existing<'a>(alloc: Global, tokens: &'a [Kind]) -> Result<(Expression, &'a [Kind]), Missed<'a>>
    ensures reads { Reads (λ x. (term_of x.0, x.1.now)) result (readers.next (readers.one reading.is_open) (λ o. readers.next reading.name (λ n. readers.one (reading.closing (terms.existing n)))) tokens.now) }
    ensures shorter { IfOk result (λ x. length x.1.now ≤ length tokens.now) }
{
    let [Kind::Open, rest @ ..] = tokens else {
        return Err(Missed::Here(tokens));
    };
    let (name, rest) = property(alloc, rest)?;
    closed(Expression::Exists(name), rest)
}

#[cycle(parser)]
#[tactic(auto, using(crate::proofs::Onward::steps), unfolding(sb_model::specs::Reading::basic))]
fn basic<'a>(
    alloc: Global,
    depth: usize,
    tokens: &'a [Kind],
) -> Result<(Expression, &'a [Kind]), Missed<'a>>
    ensures reads { Reads (λ x. (term_of x.0, x.1.now)) result (reading.basic (nat_lt 0 depth) (reading.lower depth) tokens.now) }
    ensures shorter { IfOk result (λ x. length x.1.now ≤ length tokens.now) }
{
    match tokens {
        [Kind::Constant(value), rest @ ..] => {
            let value = value_of(alloc, value)?;
            Ok((Expression::Constant(value), rest))
        }
        [Kind::Name(Role::Function, _), Kind::Open, rest @ ..] if depth > 0 => {
            let (inner, rest) = nested_sum(alloc, depth, rest)?;
            let tree = Expression::unary(alloc, UnaryOperator::PropertyNamed, inner)?;
            closed(tree, rest)
        }
        [Kind::Name(Role::Function, name), rest @ ..] => {
            let name = user_property(alloc, name)?;
            Ok((Expression::Property(name), rest))
        }
        [Kind::Name(Role::Plain, name), rest @ ..] => property_tree(alloc, Role::Plain, name, rest),
        [Kind::Name(Role::SystemScope, name), rest @ ..] => {
            property_tree(alloc, Role::SystemScope, name, rest)
        }
        [Kind::Name(Role::UserScope, name), rest @ ..] => {
            property_tree(alloc, Role::UserScope, name, rest)
        }
        [Kind::Exists, rest @ ..] if depth > 0 => existing(alloc, rest),
        [Kind::Open, rest @ ..] if depth > 0 => {
            let (inner, rest) = nested_or(alloc, depth, rest)?;
            closed(inner, rest)
        }
        _ => Err(Missed::Here(tokens)),
    }
}

#[cycle(parser)]
#[tactic(auto, using(crate::proofs::Onward::steps))]
fn signed<'a>(
    alloc: Global,
    depth: usize,
    operator: UnaryOperator,
    tokens: &'a [Kind],
) -> Result<(Expression, &'a [Kind]), Missed<'a>>
    requires { 0 < depth }
    ensures reads { Reads (λ x. (term_of x.0, x.1.now)) result (readers.next (reading.lower depth sign_part) (λ t. readers.pure (terms.unary operator t)) tokens.now) }
    ensures shorter { IfOk result (λ x. length x.1.now ≤ length tokens.now) }
{
    let (inner, rest) = nested_sign(alloc, depth, tokens)?;
    let tree = Expression::unary(alloc, operator, inner)?;
    Ok((tree, rest))
}

#[cycle(parser)]
#[tactic(auto, using(crate::proofs::Onward::steps), unfolding(sb_model::specs::Reading::sign))]
fn sign<'a>(
    alloc: Global,
    depth: usize,
    tokens: &'a [Kind],
) -> Result<(Expression, &'a [Kind]), Missed<'a>>
    ensures reads { Reads (λ x. (term_of x.0, x.1.now)) result (reading.sign (nat_lt 0 depth) (reading.lower depth) tokens.now) }
    ensures shorter { IfOk result (λ x. length x.1.now ≤ length tokens.now) }
{
    match tokens {
        [Kind::Binary(BinaryOperator::Add), rest @ ..] if depth > 0 => {
            signed(alloc, depth, UnaryOperator::Plus, rest)
        }
        [Kind::Binary(BinaryOperator::Subtract), rest @ ..] if depth > 0 => {
            signed(alloc, depth, UnaryOperator::Minus, rest)
        }
        _ => basic(alloc, depth, tokens),
    }
}

#[cycle(parser)]
#[tactic(auto, using(crate::proofs::Onward::steps), unfolding(sb_model::specs::Reading::product))]
fn product<'a>(
    alloc: Global,
    depth: usize,
    tokens: &'a [Kind],
) -> Result<(Expression, &'a [Kind]), Missed<'a>>
    ensures reads { Reads (λ x. (term_of x.0, x.1.now)) result (reading.product (nat_lt 0 depth) (reading.lower depth) tokens.now) }
    ensures shorter { IfOk result (λ x. length x.1.now ≤ length tokens.now) }
{
    let (mut left, mut rest) = sign(alloc, depth, tokens)?;
    'operands: while let Some((operator, onward)) = after_operator(5, rest) {
        let (right, next) = sign(alloc, depth, onward)?;
        left = Expression::binary(alloc, operator, left, right)?;
        rest = next;
    }
    Ok((left, rest))
}

#[cycle(parser)]
#[tactic(auto, using(crate::proofs::Onward::steps), unfolding(sb_model::specs::Reading::sum))]
fn sum<'a>(
    alloc: Global,
    depth: usize,
    tokens: &'a [Kind],
) -> Result<(Expression, &'a [Kind]), Missed<'a>>
    ensures reads { Reads (λ x. (term_of x.0, x.1.now)) result (reading.sum (nat_lt 0 depth) (reading.lower depth) tokens.now) }
    ensures shorter { IfOk result (λ x. length x.1.now ≤ length tokens.now) }
{
    let (mut left, mut rest) = product(alloc, depth, tokens)?;
    'operands: while let Some((operator, onward)) = after_operator(4, rest) {
        let (right, next) = product(alloc, depth, onward)?;
        left = Expression::binary(alloc, operator, left, right)?;
        rest = next;
    }
    Ok((left, rest))
}

#[cycle(parser)]
#[tactic(auto, using(crate::proofs::Onward::steps), unfolding(sb_model::specs::Reading::listed))]
fn listed<'a>(
    alloc: Global,
    depth: usize,
    tokens: &'a [Kind],
) -> Result<(Items, &'a [Kind]), Missed<'a>>
    requires { 0 < depth }
    ensures reads { Reads (λ x. (terms_of x.0, x.1.now)) result (reading.listed (reading.lower depth) tokens.now) }
    ensures shorter { IfOk result (λ x. length x.1.now ≤ length tokens.now) }
{
    let (item, mut rest) = nested_sum(alloc, depth, tokens)?;
    let mut items = Items::first(alloc, item)?;
    'operands: while let Some(onward) = after_comma(rest) {
        let (item, next) = nested_sum(alloc, depth, onward)?;
        items = Items::later(alloc, items, item)?;
        rest = next;
    }
    Ok((items, rest))
}

#[cycle(parser)]
#[tactic(auto, using(crate::proofs::Onward::steps))]
fn in_list<'a>(
    alloc: Global,
    depth: usize,
    tokens: &'a [Kind],
    affirmed: bool,
    left: Expression,
) -> Result<(Expression, &'a [Kind]), Missed<'a>>
    requires { 0 < depth }
    ensures reads { Reads (λ x. (term_of x.0, x.1.now)) result (reading.after_choosing (nat_lt 0 depth) (reading.lower depth) affirmed (term_of left) reading.in_items tokens.now) }
    ensures shorter { IfOk result (λ x. length x.1.now ≤ length tokens.now) }
{
    let [Kind::Open, rest @ ..] = tokens else {
        return Err(Missed::Here(tokens));
    };
    let (items, rest) = listed(alloc, depth, rest)?;
    let tree = Expression::within(alloc, affirmed, left, items)?;
    closed(tree, rest)
}

#[cycle(parser)]
#[tactic(auto, using(crate::proofs::Onward::steps))]
fn pattern<'a>(
    alloc: Global,
    depth: usize,
    tokens: &'a [Kind],
    affirmed: bool,
    left: Expression,
) -> Result<(Expression, &'a [Kind]), Missed<'a>>
    ensures reads { Reads (λ x. (term_of x.0, x.1.now)) result (reading.after_choosing (nat_lt 0 depth) (reading.lower depth) affirmed (term_of left) reading.like_pattern tokens.now) }
    ensures shorter { IfOk result (λ x. length x.1.now ≤ length tokens.now) }
{
    let (pattern, rest) = sum(alloc, depth, tokens)?;
    match rest {
        [Kind::Escape, onward @ ..] => {
            let (escape, rest) = sum(alloc, depth, onward)?;
            let tree = Expression::like_escape(alloc, affirmed, left, pattern, escape)?;
            Ok((tree, rest))
        }
        _ => {
            let tree = Expression::like(alloc, affirmed, left, pattern)?;
            Ok((tree, rest))
        }
    }
}

#[cycle(parser)]
#[tactic(auto, using(crate::proofs::Onward::steps))]
fn denied<'a>(
    alloc: Global,
    depth: usize,
    tokens: &'a [Kind],
    left: Expression,
) -> Result<(Expression, &'a [Kind]), Missed<'a>>
    ensures reads { Reads (λ x. (term_of x.0, x.1.now)) result (reading.after_asked (nat_lt 0 depth) (reading.lower depth) (term_of left) reading.denies tokens.now) }
    ensures shorter { IfOk result (λ x. length x.1.now ≤ length tokens.now) }
{
    match tokens {
        [Kind::In, rest @ ..] if depth > 0 => in_list(alloc, depth, rest, false, left),
        [Kind::Like, rest @ ..] => pattern(alloc, depth, rest, false, left),
        _ => Err(Missed::Here(tokens)),
    }
}

/// What stands behind `IS`.
#[tactic(auto)]
fn nullness<'a>(
    alloc: Global,
    tokens: &'a [Kind],
    left: Expression,
) -> Result<(Expression, &'a [Kind]), Missed<'a>>
    ensures reads { Reads (λ x. (term_of x.0, x.1.now)) result (readers.either reading.is_not (λ o. readers.one (reading.null_as (terms.unary unary_operator.IsNotNull (term_of left)))) (readers.one (reading.null_as (terms.unary unary_operator.IsNull (term_of left)))) tokens.now) }
    ensures shorter { IfOk result (λ x. length x.1.now ≤ length tokens.now) }
{
    match tokens {
        [Kind::Not, rest @ ..] => {
            let tree = Expression::unary(alloc, UnaryOperator::IsNotNull, left)?;
            null(tree, rest)
        }
        _ => {
            let tree = Expression::unary(alloc, UnaryOperator::IsNull, left)?;
            null(tree, tokens)
        }
    }
}

#[cycle(parser)]
#[tactic(auto, using(crate::proofs::Onward::steps), unfolding(sb_model::specs::Reading::condition))]
fn condition<'a>(
    alloc: Global,
    depth: usize,
    tokens: &'a [Kind],
) -> Result<(Expression, &'a [Kind]), Missed<'a>>
    ensures reads { Reads (λ x. (term_of x.0, x.1.now)) result (reading.condition (nat_lt 0 depth) (reading.lower depth) tokens.now) }
    ensures shorter { IfOk result (λ x. length x.1.now ≤ length tokens.now) }
{
    let (left, rest) = sum(alloc, depth, tokens)?;
    match rest {
        [Kind::Binary(operator), onward @ ..] if level_of(*operator) == 3 => {
            let (right, rest) = sum(alloc, depth, onward)?;
            let tree = Expression::binary(alloc, *operator, left, right)?;
            Ok((tree, rest))
        }
        [Kind::Is, onward @ ..] => nullness(alloc, onward, left),
        [Kind::Not, onward @ ..] => denied(alloc, depth, onward, left),
        [Kind::In, onward @ ..] if depth > 0 => in_list(alloc, depth, onward, true, left),
        [Kind::Like, onward @ ..] => pattern(alloc, depth, onward, true, left),
        _ => Ok((left, rest)),
    }
}

#[cycle(parser)]
#[tactic(auto, using(crate::proofs::Onward::steps), unfolding(sb_model::specs::Reading::negation))]
fn negation<'a>(
    alloc: Global,
    depth: usize,
    tokens: &'a [Kind],
) -> Result<(Expression, &'a [Kind]), Missed<'a>>
    ensures reads { Reads (λ x. (term_of x.0, x.1.now)) result (reading.negation (nat_lt 0 depth) (reading.lower depth) tokens.now) }
    ensures shorter { IfOk result (λ x. length x.1.now ≤ length tokens.now) }
{
    match tokens {
        [Kind::Not, rest @ ..] if depth > 0 => {
            let (inner, rest) = nested_not(alloc, depth, rest)?;
            let tree = Expression::unary(alloc, UnaryOperator::Not, inner)?;
            Ok((tree, rest))
        }
        _ => condition(alloc, depth, tokens),
    }
}

#[cycle(parser)]
#[tactic(auto, using(crate::proofs::Onward::steps), unfolding(sb_model::specs::Reading::conjunction))]
fn conjunction<'a>(
    alloc: Global,
    depth: usize,
    tokens: &'a [Kind],
) -> Result<(Expression, &'a [Kind]), Missed<'a>>
    ensures reads { Reads (λ x. (term_of x.0, x.1.now)) result (reading.conjunction (nat_lt 0 depth) (reading.lower depth) tokens.now) }
    ensures shorter { IfOk result (λ x. length x.1.now ≤ length tokens.now) }
{
    let (mut left, mut rest) = negation(alloc, depth, tokens)?;
    'operands: while let Some((operator, onward)) = after_operator(2, rest) {
        let (right, next) = negation(alloc, depth, onward)?;
        left = Expression::binary(alloc, operator, left, right)?;
        rest = next;
    }
    Ok((left, rest))
}

/// A whole filter, and what stands behind it.
#[cycle(parser)]
#[tactic(auto, using(crate::proofs::Onward::steps), unfolding(sb_model::specs::Reading::disjunction))]
pub(crate) fn disjunction<'a>(
    alloc: Global,
    depth: usize,
    tokens: &'a [Kind],
) -> Result<(Expression, &'a [Kind]), Missed<'a>>
    ensures reads { Reads (λ x. (term_of x.0, x.1.now)) result (reading.disjunction (nat_lt 0 depth) (reading.lower depth) tokens.now) }
    ensures shorter { IfOk result (λ x. length x.1.now ≤ length tokens.now) }
{
    let (mut left, mut rest) = conjunction(alloc, depth, tokens)?;
    'operands: while let Some((operator, onward)) = after_operator(1, rest) {
        let (right, next) = conjunction(alloc, depth, onward)?;
        left = Expression::binary(alloc, operator, left, right)?;
        rest = next;
    }
    Ok((left, rest))
}

#[cycle(parser)]
fn nested_or<'a>(
    alloc: Global,
    depth: usize,
    tokens: &'a [Kind],
) -> Result<(Expression, &'a [Kind]), Missed<'a>>
    requires { 0 < depth }
    ensures reads { Reads (λ x. (term_of x.0, x.1.now)) result (reading.lower depth or_part tokens.now) }
    ensures shorter { IfOk result (λ x. length x.1.now ≤ length tokens.now) }
{
    disjunction(alloc, depth - 1, tokens)
}

#[cycle(parser)]
fn nested_not<'a>(
    alloc: Global,
    depth: usize,
    tokens: &'a [Kind],
) -> Result<(Expression, &'a [Kind]), Missed<'a>>
    requires { 0 < depth }
    ensures reads { Reads (λ x. (term_of x.0, x.1.now)) result (reading.lower depth not_part tokens.now) }
    ensures shorter { IfOk result (λ x. length x.1.now ≤ length tokens.now) }
{
    negation(alloc, depth - 1, tokens)
}

#[cycle(parser)]
fn nested_sum<'a>(
    alloc: Global,
    depth: usize,
    tokens: &'a [Kind],
) -> Result<(Expression, &'a [Kind]), Missed<'a>>
    requires { 0 < depth }
    ensures reads { Reads (λ x. (term_of x.0, x.1.now)) result (reading.lower depth sum_part tokens.now) }
    ensures shorter { IfOk result (λ x. length x.1.now ≤ length tokens.now) }
{
    sum(alloc, depth - 1, tokens)
}

#[cycle(parser)]
fn nested_sign<'a>(
    alloc: Global,
    depth: usize,
    tokens: &'a [Kind],
) -> Result<(Expression, &'a [Kind]), Missed<'a>>
    requires { 0 < depth }
    ensures reads { Reads (λ x. (term_of x.0, x.1.now)) result (reading.lower depth sign_part tokens.now) }
    ensures shorter { IfOk result (λ x. length x.1.now ≤ length tokens.now) }
{
    sign(alloc, depth - 1, tokens)
}

/// The filter that the tokens spell, nested at most so deep.
#[tactic(auto, using(crate::proofs::Onward::steps), unfolding(sb_model::specs::Reading::filter_of))]
pub(crate) fn filter_of<'a>(
    alloc: Global,
    depth: usize,
    tokens: &'a [Kind],
) -> Result<Expression, Missed<'a>>
    ensures { Reads (λ x. (term_of x, [])) result (reading.filter_of depth tokens.now) }
{
    let (tree, rest) = disjunction(alloc, depth, tokens)?;
    match rest {
        [] => Ok(tree),
        _ => Err(Missed::Here(rest)),
    }
}
