// Values of expressions, and what a filter comes to.
ghost use Rattle.std.specs.Prelude.{◌≡◌, Ok};
ghost use Rattle.sb_model.specs.Expressions.{term_of, terms_of};
ghost use Rattle.sb_model.specs.Meaning as meaning;
ghost use Rattle.sb_sqleval.specs.Values.{value_in, Is, Gives};
ghost use Rattle.sb_sqleval.specs.Memory.{TakesNoMemory, NoneTakesMemory};

use crate::compare::equality;
use crate::operators::{likeness, likeness_by, of_one, of_two};
use crate::properties::property_value;
use crate::{Evaluated, Value};
use sb_model::{EvalFault, Expression, Filter, Items, Message, Truth};
use std::alloc::Global;

/// As it stands, or negated by a NOT before IN or LIKE.
fn affirmed_or_denied<'a>(affirmed: bool, truth: Truth) -> Value<'a>
    ensures { value_in result ≡ meaning.as_value (meaning.affirmed_or_denied affirmed truth) }
{
    let truth = if affirmed { truth } else { truth.not() };
    Value::of_truth(truth)
}

#[cycle(evaluate)]
pub(crate) fn value_of<'a>(
    alloc: Global,
    message: &'a Message,
    expression: &'a Expression,
) -> Evaluated<'a>
    ensures gives { Gives value_in result (meaning.value_of message.now (term_of expression.now)) }
    ensures without_memory { TakesNoMemory (term_of expression.now) → Is value_in result (meaning.value_of message.now (term_of expression.now)) }
{
    match expression {
        Expression::Constant(value) => Ok(Value::of(value)),
        Expression::Property(name) => property_value(message, name),
        Expression::Exists(name) => {
            let value = property_value(message, name)?;
            Ok(Value::Bool(!value.is_unknown()))
        }
        Expression::Unary(operator, operand) => {
            let operand = value_of(alloc, message, operand)?;
            of_one(alloc, message, *operator, &operand)
        }
        Expression::Binary(operator, left, right) => {
            let left = value_of(alloc, message, left)?;
            let right = value_of(alloc, message, right)?;
            of_two(alloc, *operator, left, &right)
        }
        Expression::In(affirmed, left, items) => {
            let left = value_of(alloc, message, left)?;
            let truth = among(alloc, message, &left, items)?;
            Ok(affirmed_or_denied(*affirmed, truth))
        }
        Expression::Like(affirmed, left, pattern) => {
            let left = value_of(alloc, message, left)?;
            let pattern = value_of(alloc, message, pattern)?;
            Ok(affirmed_or_denied(*affirmed, likeness(&left, &pattern)))
        }
        Expression::LikeEscape(affirmed, left, pattern, escape) => {
            let left = value_of(alloc, message, left)?;
            let pattern = value_of(alloc, message, pattern)?;
            let escape = value_of(alloc, message, escape)?;
            let truth = likeness_by(&left, &pattern, &escape);
            Ok(affirmed_or_denied(*affirmed, truth))
        }
    }
}

/// Whether a value is one of those behind IN.
#[cycle(evaluate)]
fn among<'a>(
    alloc: Global,
    message: &'a Message,
    value: &Value<'a>,
    items: &'a Items,
) -> Result<Truth, EvalFault>
    ensures gives { Gives (λ truth. truth) result (meaning.and_then (meaning.values_of message.now (terms_of items.now)) (λ xs. Ok (meaning.among (value_in value.now) xs))) }
    ensures without_memory { NoneTakesMemory (terms_of items.now) → Is (λ truth. truth) result (meaning.and_then (meaning.values_of message.now (terms_of items.now)) (λ xs. Ok (meaning.among (value_in value.now) xs))) }
{
    match items {
        Items::First(item) => {
            let item = value_of(alloc, message, item)?;
            Ok(equality(value, &item))
        }
        Items::Later(before, item) => {
            let found = among(alloc, message, value, before)?;
            let item = value_of(alloc, message, item)?;
            Ok(found.or(equality(value, &item)))
        }
    }
}

/// What a filter comes to on a message; the message matches where that is true. All parts are
/// evaluated, left before right, and the first fault is answered: `Overflow`, `DivideByZero` or
/// `NoSystemProperty`. `OutOfMemory` comes where a text that is joined or folded finds no memory.
pub fn eval(alloc: Global, filter: &Filter, message: &Message) -> Result<Truth, EvalFault>
    ensures gives { Gives (λ truth. truth) result (meaning.truth_on message.now (term_of filter.now)) }
    ensures without_memory { TakesNoMemory (term_of filter.now) → Is (λ truth. truth) result (meaning.truth_on message.now (term_of filter.now)) }
{
    let value = value_of(alloc, message, filter)?;
    Ok(value.truth())
}
