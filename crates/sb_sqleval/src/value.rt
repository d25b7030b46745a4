// Values of expressions while a filter is carried out.
ghost use Rattle.std.specs.Prelude.{◌≡◌, Some, is_none};
ghost use Rattle.sb_model.specs.Meaning.{truth_of, as_value};
ghost use Rattle.sb_sqleval.specs.Values.{value_in};

use sb_model::{EvalFault, PropertyValue, Truth};
use std::alloc::Global;
use std::borrow::CowStr;

/// A value: a text is borrowed from the filter or the message, unless it was joined.
#[derive(Drop)]
pub(crate) enum Value<'a> {
    /// Nothing is known: what a missing property gives, and an operator on the wrong kinds.
    Unknown,
    Int(i64),
    Text(CowStr<'a, Global>),
    Bool(bool),
}

/// A value, or why there is none.
pub(crate) type Evaluated<'a> = Result<Value<'a>, EvalFault>;

impl<'a> Value<'a> {
    pub(crate) fn of(value: &'a PropertyValue) -> Self
        ensures { value_in result ≡ Some value.now }
    {
        match value {
            PropertyValue::Int(number) => Value::Int(*number),
            PropertyValue::Text(text) => Value::Text(CowStr::Borrowed(text.as_str())),
            PropertyValue::Bool(is) => Value::Bool(*is),
        }
    }

    pub(crate) fn of_truth(truth: Truth) -> Self
        ensures { value_in result ≡ as_value truth }
    {
        match truth {
            Truth::True => Value::Bool(true),
            Truth::False => Value::Bool(false),
            Truth::Unknown => Value::Unknown,
        }
    }

    /// What this stands for under AND, OR and NOT.
    pub(crate) fn truth(&self) -> Truth
        ensures { result ≡ truth_of (value_in self.now) }
    {
        match self {
            Value::Bool(is) => Truth::known(*is),
            Value::Int(_) | Value::Text(_) | Value::Unknown => Truth::Unknown,
        }
    }

    pub(crate) fn is_unknown(&self) -> bool
        ensures { result ≡ is_none (value_in self.now) }
    {
        matches!(self, Value::Unknown)
    }
}
