// What a name may be.
ghost use Rattle.std.specs.Prelude.{◌≡◌, true, false, IsOk, ◌↔◌};
ghost use Rattle.std.specs.List.{list_all};
ghost use Rattle.std.specs.Str.{str_to_ascii_lowercase};
ghost use Rattle.sb_machine.specs.Names as names;
ghost use Rattle.sb_names.specs.Kinds.{is_name_of};

use crate::limits::MAX_NAME;
use sb_model::Name;

/// What is named: the lengths differ.
#[derive(Clone, Copy, PartialEq, Eq)]
pub enum NameKind {
    /// A queue or a topic: 1 to 260 bytes.
    Entity,
    /// A subscription: 1 to 50 bytes.
    Subscription,
    /// A rule: 1 to 50 bytes, or `$default`.
    Rule,
}

/// The name has another length, or another byte than `a` to `z`, `0` to `9`, `.`, `-` and `_`.
#[derive(Clone, Copy, PartialEq, Eq)]
pub struct BadName;

fn is_name_byte(b: u8) -> bool
    ensures { result ≡ names.is_name_byte b }
{
    (97 <= b && b <= 122) || (48 <= b && b <= 57) || b == 46 || b == 45 || b == 95
}

pub(crate) fn are_name_bytes(name: &[u8]) -> bool
    ensures { result ≡ list_all names.is_name_byte name.now }
{
    name.iter().all(|b| is_name_byte(*b))
}

fn is_name_within(most: usize, name: &[u8]) -> bool
    ensures { result ≡ names.is_name_within most name.now }
{
    1 <= name.len() && name.len() <= most && are_name_bytes(name)
}

/// Whether a queue or a topic may be named so.
pub fn is_name(name: &str) -> bool
    ensures { result ≡ names.is_name name.now }
{
    is_name_within(MAX_NAME, name.as_bytes())
}

/// Whether a subscription may be named so.
pub fn is_short_name(name: &str) -> bool
    ensures { result ≡ names.is_short_name name.now }
{
    is_name_within(50, name.as_bytes())
}

/// Whether a rule may be named so.
pub fn is_rule_name(name: &str) -> bool
    ensures { result ≡ names.is_rule_name name.now }
{
    name == "$default" || is_short_name(name)
}

/// Whether this may name what it shall name (Microsoft Learn, "Azure Resource Manager naming rules",
/// Microsoft.ServiceBus; here in small letters alone).
pub fn check_name(kind: NameKind, name: &str) -> Result<(), BadName>
    ensures { IsOk result ↔ (is_name_of kind name.now ≡ true) }
{
    let is_good = match kind {
        NameKind::Entity => is_name(name),
        NameKind::Subscription => is_short_name(name),
        NameKind::Rule => is_rule_name(name),
    };
    if is_good { Ok(()) } else { Err(BadName) }
}

/// Folds a name that was read from text to ASCII lower case, where it lies.
pub fn fold_name(name: &mut Name)
    ensures { name.new ≡ str_to_ascii_lowercase name.old }
{
    name.fold();
}
