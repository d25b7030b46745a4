// Kinds of entities.
ghost use Rattle.std.specs.Prelude.{◌≡◌};
ghost use Rattle.sb_machine.specs.Rows as rows;

use sb_machine::EntityKind;

pub fn is_topic(kind: EntityKind) -> bool
    ensures { result ≡ rows.is_topic kind }
{
    match kind {
        EntityKind::Topic => true,
        EntityKind::Queue | EntityKind::Subscription => false,
    }
}
