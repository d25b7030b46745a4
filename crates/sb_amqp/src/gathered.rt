// User properties that are gathered by their names.
ghost use Rattle.std.specs.Prelude.{◌≡◌, ◌++◌, [], Some, map, IfOk, OnOk};
ghost use Rattle.std.specs.Str.{str_to_ascii_lowercase};
ghost use Rattle.sb_model.specs.Effects.{with_user};
ghost use Rattle.sb_amqp.specs.Gathering.{property_at};

use sb_model::{Property, PropertyValue, Rows, Text};
use std::alloc::{AllocError, Global};
use std::collections::BTreeMap;
use std::marker::Model;

/// User properties that come one after the other, each at its name folded to ASCII lower case; of
/// equal names the last stands. Putting one in takes the logarithm of how many there are.
#[derive(Drop)]
pub struct Gathered {
    by_name: BTreeMap<String, PropertyValue>,
}

impl Model for Gathered {
    ghost use Rattle.std.specs.Prelude.{List, map};
    ghost use Rattle.sb_model.specs.declared.message.Property.{Property};

    ghost Value = { List Property };

    ghost use Rattle.sb_amqp.specs.Gathering.{property_at};

    ghost view = { λ g. map property_at g.by_name.entries };
}

impl Gathered {
    /// None yet.
    pub fn new(alloc: Global) -> Gathered
        ensures { result ≡ [] }
    {
        Gathered {
            by_name: BTreeMap::new(alloc),
        }
    }

    /// Sets one, in its place by name.
    #[tactic(auto, using(crate::proofs::Gathering::entry_put))]
    pub fn put(&mut self, alloc: Global, name: &str, value: PropertyValue) -> Result<(), AllocError>
        ensures { OnOk result (self.new ≡ with_user (str_to_ascii_lowercase name.now) (Some value) self.old) }
    {
        let Ok(folded) = name.to_ascii_lowercase(alloc) else {
            drop(value);
            return Err(AllocError);
        };
        drop(self.by_name.insert(folded, value)?);
        Ok(())
    }

    /// All of them, in byte order of their names.
    pub fn into_rows(self, alloc: Global) -> Result<Rows<Property>, AllocError>
        ensures { IfOk result (λ r. r ≡ self) }
    {
        let Gathered { mut by_name } = self;
        let mut rows = Vec::new(alloc);
        let moved = move_all(&mut by_name, &mut rows);
        drop(by_name);
        let Ok(()) = moved else {
            drop(rows);
            return Err(AllocError);
        };
        Ok(Rows::from_vec(rows))
    }
}

/// Moves each behind those that are there.
fn move_all(
    by_name: &mut BTreeMap<String, PropertyValue>,
    rows: &mut Vec<Property>,
) -> Result<(), AllocError>
    ensures { OnOk result (rows.new.items ≡ rows.old.items ++ map property_at by_name.old.entries) }
{
    'moving: while let Some((name, value)) = by_name.pop_first() {
        rows.push(Property {
            name: Text::from_string(name),
            value,
        })?;
    }
    Ok(())
}
