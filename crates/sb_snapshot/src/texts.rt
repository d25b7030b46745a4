// The order of texts.
ghost use Rattle.std.specs.Prelude.{◌≡◌};
ghost use Rattle.sb_machine.specs.Names as names;

use sb_model::Text;

/// Whether one text stands before another in byte order.
pub(crate) fn is_before(first: &Text, second: &Text) -> bool
    ensures { result ≡ names.is_before first.now second.now }
{
    first.as_str() < second.as_str()
}
