// Comparisons of values.
ghost use Rattle.std.specs.Prelude.{◌≡◌};
ghost use Rattle.std.specs.Ordering.{is_eq, is_lt, is_le, is_gt, is_ge};
ghost use Rattle.sb_model.specs.Meaning as meaning;
ghost use Rattle.sb_sqleval.specs.Values.{value_in};

use crate::Value;
use sb_model::Truth;
use std::cmp::Ordering;

/// How two whole numbers, or two texts by their bytes, stand to each other.
pub(crate) fn order(left: &Value, right: &Value) -> Option<Ordering>
    ensures { result ≡ meaning.order_of (value_in left.now) (value_in right.now) }
{
    match (left, right) {
        (Value::Int(a), Value::Int(b)) => Some(a.cmp(b)),
        (Value::Text(a), Value::Text(b)) => Some(a.as_str().cmp(b.as_str())),
        _ => None,
    }
}

pub(crate) fn equality(left: &Value, right: &Value) -> Truth
    ensures { result ≡ meaning.equality (value_in left.now) (value_in right.now) }
{
    match (left, right) {
        (Value::Bool(a), Value::Bool(b)) => Truth::known(*a == *b),
        _ => match order(left, right) {
            Some(order) => Truth::known(order.is_eq()),
            None => Truth::Unknown,
        },
    }
}

pub(crate) fn less(left: &Value, right: &Value) -> Truth
    ensures { result ≡ meaning.comparison is_lt (value_in left.now) (value_in right.now) }
{
    match order(left, right) {
        Some(order) => Truth::known(order.is_lt()),
        None => Truth::Unknown,
    }
}

pub(crate) fn at_most(left: &Value, right: &Value) -> Truth
    ensures { result ≡ meaning.comparison is_le (value_in left.now) (value_in right.now) }
{
    match order(left, right) {
        Some(order) => Truth::known(order.is_le()),
        None => Truth::Unknown,
    }
}

pub(crate) fn greater(left: &Value, right: &Value) -> Truth
    ensures { result ≡ meaning.comparison is_gt (value_in left.now) (value_in right.now) }
{
    match order(left, right) {
        Some(order) => Truth::known(order.is_gt()),
        None => Truth::Unknown,
    }
}

pub(crate) fn at_least(left: &Value, right: &Value) -> Truth
    ensures { result ≡ meaning.comparison is_ge (value_in left.now) (value_in right.now) }
{
    match order(left, right) {
        Some(order) => Truth::known(order.is_ge()),
        None => Truth::Unknown,
    }
}
