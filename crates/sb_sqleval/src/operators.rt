// What operators make of the values of their operands.
ghost use Rattle.std.specs.Prelude.{◌≡◌, ◌++◌, IfOk, string_bytes, false};
ghost use Rattle.std.specs.Cow.{cow_str_bytes};
ghost use Rattle.sb_model.specs.declared.expression.BinaryOperator.TheVariants as operator;
ghost use Rattle.sb_model.specs.Meaning as meaning;
ghost use Rattle.sb_sqleval.specs.Values.{value_in, Is, Gives};
ghost use Rattle.sb_sqleval.specs.Memory.{may_fold, may_join};

use crate::compare::{at_least, at_most, equality, greater, less};
use crate::likes::{is_like, is_one_character};
use crate::numbers::{difference, negative, product, quotient, remainder, sum};
use crate::properties::user_value;
use crate::{Evaluated, Value};
use sb_model::{BinaryOperator, Message, Truth, UnaryOperator};
use std::alloc::{AllocError, Global};
use std::borrow::CowStr;

fn minus<'a>(operand: &Value) -> Evaluated<'a>
    ensures { Is value_in result (meaning.negative (value_in operand.now)) }
{
    match operand {
        Value::Int(number) => negative(*number),
        _ => Ok(Value::Unknown),
    }
}

fn plus<'a>(operand: &Value) -> Value<'a>
    ensures { value_in result ≡ meaning.positive (value_in operand.now) }
{
    match operand {
        Value::Int(number) => Value::Int(*number),
        _ => Value::Unknown,
    }
}

/// The user property that a text names.
fn value_named<'a>(
    alloc: Global,
    message: &'a Message,
    name: &Value,
) -> Result<Value<'a>, AllocError>
    ensures { IfOk result (λ v. value_in v ≡ meaning.value_named message.now (value_in name.now)) }
{
    match name {
        Value::Text(name) => {
            let folded = name.as_str().to_ascii_lowercase(alloc)?;
            Ok(user_value(message, folded.as_str()))
        }
        _ => Ok(Value::Unknown),
    }
}

pub(crate) fn of_one<'a>(
    alloc: Global,
    message: &'a Message,
    operator: UnaryOperator,
    operand: &Value,
) -> Evaluated<'a>
    ensures gives { Gives value_in result (meaning.of_one message.now operator (value_in operand.now)) }
    ensures without_memory { may_fold operator ≡ false → Is value_in result (meaning.of_one message.now operator (value_in operand.now)) }
{
    match operator {
        UnaryOperator::Plus => Ok(plus(operand)),
        UnaryOperator::Minus => minus(operand),
        UnaryOperator::Not => Ok(Value::of_truth(operand.truth().not())),
        UnaryOperator::IsNull => Ok(Value::Bool(operand.is_unknown())),
        UnaryOperator::IsNotNull => Ok(Value::Bool(!operand.is_unknown())),
        UnaryOperator::PropertyNamed => Ok(value_named(alloc, message, operand)?),
    }
}

/// The most bytes of a text that `+` joins: sixteen times what all properties of a message may have
/// behind an action. A text can be doubled by one statement, and its size is judged behind the last
/// of 32; with this limit an action, whose 1,024 characters have room for some 250 joined texts,
/// holds a few hundred MiB at the very most.
const MAX_JOINED_BYTES: usize = 1_048_576;

/// Two texts as one. Above the limit it is want of memory.
fn joined(alloc: Global, front: CowStr<Global>, back: &CowStr<Global>) -> Result<String, AllocError>
    ensures { IfOk result (λ s. string_bytes s ≡ cow_str_bytes front.entry ++ cow_str_bytes back.now) }
{
    if front.as_str().len() > MAX_JOINED_BYTES.saturating_sub(back.as_str().len()) {
        return Err(AllocError);
    }
    let mut whole = front.into_owned(alloc)?;
    whole.push_str(back.as_str())?;
    Ok(whole)
}

fn added<'a>(alloc: Global, left: Value<'a>, right: &Value) -> Evaluated<'a>
    ensures { Gives value_in result (meaning.sum_of (value_in left.entry) (value_in right.now)) }
{
    match (left, right) {
        (Value::Text(front), Value::Text(back)) => {
            Ok(Value::Text(CowStr::Owned(joined(alloc, front, back)?)))
        }
        (Value::Int(a), Value::Int(b)) => sum(a, *b),
        _ => Ok(Value::Unknown),
    }
}

fn subtracted<'a>(left: &Value, right: &Value) -> Evaluated<'a>
    ensures { Is value_in result (meaning.of_two operator.Subtract (value_in left.now) (value_in right.now)) }
{
    match (left, right) {
        (Value::Int(a), Value::Int(b)) => difference(*a, *b),
        _ => Ok(Value::Unknown),
    }
}

fn multiplied<'a>(left: &Value, right: &Value) -> Evaluated<'a>
    ensures { Is value_in result (meaning.of_two operator.Multiply (value_in left.now) (value_in right.now)) }
{
    match (left, right) {
        (Value::Int(a), Value::Int(b)) => product(*a, *b),
        _ => Ok(Value::Unknown),
    }
}

fn divided<'a>(left: &Value, right: &Value) -> Evaluated<'a>
    ensures { Is value_in result (meaning.of_two operator.Divide (value_in left.now) (value_in right.now)) }
{
    match (left, right) {
        (Value::Int(a), Value::Int(b)) => quotient(*a, *b),
        _ => Ok(Value::Unknown),
    }
}

fn left_over<'a>(left: &Value, right: &Value) -> Evaluated<'a>
    ensures { Is value_in result (meaning.of_two operator.Remainder (value_in left.now) (value_in right.now)) }
{
    match (left, right) {
        (Value::Int(a), Value::Int(b)) => remainder(*a, *b),
        _ => Ok(Value::Unknown),
    }
}

pub(crate) fn of_two<'a>(
    alloc: Global,
    operator: BinaryOperator,
    left: Value<'a>,
    right: &Value,
) -> Evaluated<'a>
    ensures gives { Gives value_in result (meaning.of_two operator (value_in left.entry) (value_in right.now)) }
    ensures without_memory { may_join operator ≡ false → Is value_in result (meaning.of_two operator (value_in left.entry) (value_in right.now)) }
{
    match operator {
        BinaryOperator::Or => Ok(Value::of_truth(left.truth().or(right.truth()))),
        BinaryOperator::And => Ok(Value::of_truth(left.truth().and(right.truth()))),
        BinaryOperator::Equal => Ok(Value::of_truth(equality(&left, right))),
        BinaryOperator::NotEqual => Ok(Value::of_truth(equality(&left, right).not())),
        BinaryOperator::Greater => Ok(Value::of_truth(greater(&left, right))),
        BinaryOperator::AtLeast => Ok(Value::of_truth(at_least(&left, right))),
        BinaryOperator::Less => Ok(Value::of_truth(less(&left, right))),
        BinaryOperator::AtMost => Ok(Value::of_truth(at_most(&left, right))),
        BinaryOperator::Add => added(alloc, left, right),
        BinaryOperator::Subtract => subtracted(&left, right),
        BinaryOperator::Multiply => multiplied(&left, right),
        BinaryOperator::Divide => divided(&left, right),
        BinaryOperator::Remainder => left_over(&left, right),
    }
}

pub(crate) fn likeness(text: &Value, pattern: &Value) -> Truth
    ensures { result ≡ meaning.likeness (value_in text.now) (value_in pattern.now) }
{
    match (text, pattern) {
        (Value::Text(text), Value::Text(pattern)) => {
            Truth::known(is_like(text.as_str(), pattern.as_str(), None))
        }
        _ => Truth::Unknown,
    }
}

/// Unknown where the escape isn't one character.
#[tactic(auto, unfolding(sb_model::specs::Meaning::like_by))]
fn like_by(text: &str, pattern: &str, escape: &str) -> Truth
    ensures { result ≡ meaning.like_by text.now pattern.now escape.now }
{
    if is_one_character(escape) {
        Truth::known(is_like(text, pattern, Some(escape)))
    } else {
        Truth::Unknown
    }
}

/// Unknown also where the escape isn't a text.
pub(crate) fn likeness_by(text: &Value, pattern: &Value, escape: &Value) -> Truth
    ensures { result ≡ meaning.likeness_by (value_in text.now) (value_in pattern.now) (value_in escape.now) }
{
    match (text, pattern, escape) {
        (Value::Text(text), Value::Text(pattern), Value::Text(escape)) => {
            like_by(text.as_str(), pattern.as_str(), escape.as_str())
        }
        _ => Truth::Unknown,
    }
}
