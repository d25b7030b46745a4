// Fields of an object: which keys they take, and what stands there.
ghost use Rattle.std.specs.Prelude.{◌≡◌, Bool, List, ℕ, find, not, option_map, string_bytes};
ghost use Rattle.std.specs.BTreeMap.{keys};
ghost use Rattle.serde_json.specs.View.{view, members_view};
ghost use Rattle.sb_lines.specs.Faults.{Answers};
ghost use Rattle.sb_lines.specs.Fields as fields;
ghost use Rattle.sb_lines.specs.Tables as tables;
ghost use Rattle.sb_lines.specs.Tables.{Field as FieldOf, ◌and◌};

use crate::fault::{LineFault, bad};
use serde_json::{Map, Value};
use std::alloc::Global;

/// One of two.
#[derive(Drop)]
pub enum Either<A, B> {
    First(A),
    Second(B),
}

/// A field, or fields one behind the other.
pub(crate) trait Field {
    type Value: Drop;

    ghost field: { Self → FieldOf Self.Value };

    fn knows(&self, key: &str) -> bool
        ensures { result ≡ (field self.now).knows key.now };

    fn read(&self, alloc: Global, value: &Value) -> Result<Self::Value, LineFault>
        ensures { Answers result ((field self.now).reads (view value.now)) };
}

/// No fields.
pub(crate) struct Nothing;

impl Field for Nothing {
    type Value = ();

    ghost field = { λ _. tables.nothing };

    fn knows(&self, _key: &str) -> bool {
        false
    }

    fn read(&self, _alloc: Global, _value: &Value) -> Result<(), LineFault> {
        Ok(())
    }
}

/// These, the first one's faults before the second's.
pub(crate) struct Both<F, G>(pub F, pub G);

impl<F: Field, G: Field> Field for Both<F, G> {
    type Value = (F::Value, G::Value);

    ghost field = { λ f. (F.field f.0) and (G.field f.1) };

    fn knows(&self, key: &str) -> bool {
        self.0.knows(key) || self.1.knows(key)
    }

    fn read(&self, alloc: Global, value: &Value) -> Result<(F::Value, G::Value), LineFault> {
        let first = self.0.read(alloc, value)?;
        let second = self.1.read(alloc, value)?;
        Ok((first, second))
    }
}

/// None where this key isn't there.
pub(crate) struct Optional<F>(pub &'static str, pub F);

impl<F: Field> Field for Optional<F> {
    type Value = Option<F::Value>;

    ghost field = { λ f. tables.optional f.0.now (F.field f.1) };

    fn knows(&self, key: &str) -> bool {
        self.1.knows(key)
    }

    fn read(&self, alloc: Global, value: &Value) -> Result<Option<F::Value>, LineFault> {
        if value.get(self.0).is_none() {
            return Ok(None);
        }
        let there = self.1.read(alloc, value)?;
        Ok(Some(there))
    }
}

/// At most one of two keys.
#[derive(Drop)]
pub(crate) struct AtMostOne<F, G>(pub &'static str, pub F, pub &'static str, pub G);

impl<F: Field, G: Field> Field for AtMostOne<F, G> {
    type Value = Option<Either<F::Value, G::Value>>;

    ghost field = { λ f. tables.at_most_one f.0.now (F.field f.1) f.2.now (G.field f.3) };

    fn knows(&self, key: &str) -> bool {
        self.1.knows(key) || self.3.knows(key)
    }

    fn read(
        &self,
        alloc: Global,
        value: &Value,
    ) -> Result<Option<Either<F::Value, G::Value>>, LineFault> {
        if value.get(self.0).is_some() {
            let first = self.1.read(alloc, value)?;
            if value.get(self.2).is_some() {
                return bad(alloc, self.2);
            }
            return Ok(Some(Either::First(first)));
        }
        if value.get(self.2).is_some() {
            let second = self.3.read(alloc, value)?;
            return Ok(Some(Either::Second(second)));
        }
        Ok(None)
    }
}

/// Exactly one of two keys.
pub(crate) struct OneOf<F, G>(pub AtMostOne<F, G>);

impl<F: Field, G: Field> Field for OneOf<F, G> {
    type Value = Either<F::Value, G::Value>;

    ghost field = { λ f. tables.one_of f.0.0.now (F.field f.0.1) f.0.2.now (G.field f.0.3) };

    fn knows(&self, key: &str) -> bool {
        self.0.knows(key)
    }

    fn read(&self, alloc: Global, value: &Value) -> Result<Either<F::Value, G::Value>, LineFault> {
        match self.0.read(alloc, value)? {
            Some(one) => Ok(one),
            None => bad(alloc, (self.0).0),
        }
    }
}

fn first_unknown<'a, F: Field>(members: &'a Map<String, Value>, field: &F) -> Option<&'a String>
    ensures { option_map (λ k. k.now) result
        ≡ find (λ k. not ((F.field field.now).knows (string_bytes k))) (keys members.now) }
{
    members.keys().find(|k| !field.knows(k.as_str()))
}

fn unknown_in<'a, F: Field>(members: &'a Map<String, Value>, field: &F) -> Option<&'a String>
    ensures { option_map (λ k. string_bytes k.now) result
        ≡ fields.unknown_in (F.field field.now).knows (members_view members.now.entries) }
{
    first_unknown::<F>(members, field)
}

fn unknown_key<'a, F: Field>(value: &'a Value, field: &F) -> Option<&'a str>
    ensures { option_map (λ k. k.now) result
        ≡ fields.unknown_key (F.field field.now).knows (view value.now) }
{
    let members = value.as_object()?;
    let key = unknown_in::<F>(members, field)?;
    Some(key.as_str())
}

/// What stands in an object with these fields and no other keys.
pub(crate) fn object_of<F: Field>(
    alloc: Global,
    value: &Value,
    field: &F,
) -> Result<F::Value, LineFault>
    ensures { Answers result (tables.object_of (F.field field.now) (view value.now)) }
{
    if let Some(key) = unknown_key::<F>(value, field) {
        return bad(alloc, key);
    }
    field.read(alloc, value)
}
