// Values and names as the tree has them.
ghost use Rattle.std.specs.Prelude.{◌≡◌, ◌≤◌, length, IfOk};
ghost use Rattle.std.specs.Str.{str_to_ascii_lowercase};
ghost use Rattle.sb_model.specs.declared.expression.PropertyName.TheVariants.{User};
ghost use Rattle.sb_sqltext.specs.Answers.{Reads};
ghost use Rattle.sb_model.specs.Reading as reading;

use crate::Missed;
use sb_model::{Kind, PropertyName, PropertyValue, Role, Text};
use std::alloc::{AllocError, Global};

/// The same value once more.
pub(crate) fn value_of(alloc: Global, value: &PropertyValue) -> Result<PropertyValue, AllocError>
    ensures { IfOk result (λ v. v ≡ value.now) }
{
    match value {
        PropertyValue::Int(n) => Ok(PropertyValue::Int(*n)),
        PropertyValue::Text(text) => Ok(PropertyValue::Text(Text::of(alloc, text.as_str())?)),
        PropertyValue::Bool(is) => Ok(PropertyValue::Bool(*is)),
    }
}

/// The user property of this name, in any case.
pub(crate) fn user_property(alloc: Global, name: &Text) -> Result<PropertyName, AllocError>
    ensures { IfOk result (λ n. n ≡ User (str_to_ascii_lowercase name.now)) }
{
    let folded = name.as_str().to_ascii_lowercase(alloc)?;
    Ok(PropertyName::User(Text::from_string(folded)))
}

/// The property that a name, with what stands behind it, means.
pub(crate) fn property_of<'a>(
    alloc: Global,
    role: Role,
    name: &Text,
    tokens: &'a [Kind],
) -> Result<(PropertyName, &'a [Kind]), Missed<'a>>
    ensures reads { Reads (λ x. (x.0, x.1.now)) result (reading.after_name role name.now tokens.now) }
    ensures shorter { IfOk result (λ x. length x.1.now ≤ length tokens.now) }
{
    match (role, tokens) {
        (Role::UserScope, [Kind::Dot, Kind::Name(_, inner), rest @ ..]) => {
            Ok((user_property(alloc, inner)?, rest))
        }
        (Role::SystemScope, [Kind::Dot, Kind::Name(_, inner), rest @ ..]) => {
            let inner = Text::of(alloc, inner.as_str())?;
            Ok((PropertyName::System(inner), rest))
        }
        (Role::UserScope | Role::SystemScope, [Kind::Dot, rest @ ..]) => Err(Missed::Here(rest)),
        _ => Ok((user_property(alloc, name)?, tokens)),
    }
}

/// A property, as it stands in `EXISTS`, `SET` and `REMOVE`.
#[tactic(auto, unfolding(sb_model::specs::Reading::name))]
pub(crate) fn property<'a>(
    alloc: Global,
    tokens: &'a [Kind],
) -> Result<(PropertyName, &'a [Kind]), Missed<'a>>
    ensures reads { Reads (λ x. (x.0, x.1.now)) result (reading.name tokens.now) }
    ensures shorter { IfOk result (λ x. length x.1.now ≤ length tokens.now) }
{
    match tokens {
        [Kind::Name(role, name), rest @ ..] => property_of(alloc, *role, name, rest),
        _ => Err(Missed::Here(tokens)),
    }
}
