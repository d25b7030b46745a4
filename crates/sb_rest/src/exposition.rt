// The pieces of the text that who gathers numbers reads.
ghost use Rattle.std.specs.Prelude.{◌≡◌, ◌++◌, OnOk, string_bytes};
ghost use Rattle.std.specs.Fmt.{decimal};
ghost use Rattle.sb_rest.specs.Expositions as expositions;

use std::alloc::{AllocError, Global};

/// What a metric is, and of which type.
#[tactic(auto, unfolding(crate::specs::Expositions::about))]
pub(crate) fn push_about(
    out: &mut String,
    name: &str,
    kind: &str,
    help: &str,
) -> Result<(), AllocError>
    ensures { OnOk result (string_bytes out.new ≡ string_bytes out.old ++ expositions.about name.now kind.now help.now) }
{
    push_help_line(out, name, help)?;
    push_type_line(out, name, kind)?;
    Ok(())
}

#[tactic(auto, unfolding(crate::specs::Expositions::help_line))]
fn push_help_line(out: &mut String, name: &str, help: &str) -> Result<(), AllocError>
    ensures { OnOk result (string_bytes out.new ≡ string_bytes out.old ++ expositions.help_line name.now help.now) }
{
    out.push_str("# HELP ")?;
    out.push_str(name)?;
    out.push_str(" ")?;
    out.push_str(help)?;
    out.push_str("\n")
}

#[tactic(auto, unfolding(crate::specs::Expositions::type_line))]
fn push_type_line(out: &mut String, name: &str, kind: &str) -> Result<(), AllocError>
    ensures { OnOk result (string_bytes out.new ≡ string_bytes out.old ++ expositions.type_line name.now kind.now) }
{
    out.push_str("# TYPE ")?;
    out.push_str(name)?;
    out.push_str(" ")?;
    out.push_str(kind)?;
    out.push_str("\n")
}

/// The first label of a line.
#[tactic(auto, unfolding(crate::specs::Expositions::first_label))]
pub(crate) fn push_first_label(
    out: &mut String,
    name: &str,
    key: &str,
    value: &str,
) -> Result<(), AllocError>
    ensures { OnOk result (string_bytes out.new ≡ string_bytes out.old ++ expositions.first_label name.now key.now value.now) }
{
    out.push_str(name)?;
    out.push_str("{")?;
    out.push_str(key)?;
    out.push_str("=\"")?;
    out.push_str(value)?;
    out.push_str("\"")
}

/// One more.
#[tactic(auto, unfolding(crate::specs::Expositions::label))]
pub(crate) fn push_label(out: &mut String, name: &str, value: &str) -> Result<(), AllocError>
    ensures { OnOk result (string_bytes out.new ≡ string_bytes out.old ++ expositions.label name.now value.now) }
{
    out.push_str(",")?;
    out.push_str(name)?;
    out.push_str("=\"")?;
    out.push_str(value)?;
    out.push_str("\"")
}

/// Its value, which ends the line.
#[tactic(auto, unfolding(crate::specs::Expositions::value_text))]
pub(crate) fn push_value(out: &mut String, value: &str) -> Result<(), AllocError>
    ensures { OnOk result (string_bytes out.new ≡ string_bytes out.old ++ expositions.value_text value.now) }
{
    out.push_str("} ")?;
    out.push_str(value)?;
    out.push_str("\n")
}

pub(crate) fn push_number(alloc: Global, out: &mut String, n: u64) -> Result<(), AllocError>
    ensures { OnOk result (string_bytes out.new ≡ string_bytes out.old ++ decimal n) }
{
    let digits = n.to_string(alloc)?;
    out.push_str(digits.as_str())
}

/// A line with one label.
#[tactic(auto, unfolding(crate::specs::Expositions::labelled_line))]
pub(crate) fn push_labelled_line(
    alloc: Global,
    out: &mut String,
    name: &str,
    key: &str,
    value: &str,
    n: u64,
) -> Result<(), AllocError>
    ensures { OnOk result (string_bytes out.new ≡ string_bytes out.old ++ expositions.labelled_line name.now key.now value.now n) }
{
    let digits = n.to_string(alloc)?;
    push_first_label(out, name, key, value)?;
    push_value(out, digits.as_str())?;
    Ok(())
}

/// A line without labels.
#[tactic(auto, unfolding(crate::specs::Expositions::bare_line))]
pub(crate) fn push_bare_line(
    alloc: Global,
    out: &mut String,
    name: &str,
    n: u64,
) -> Result<(), AllocError>
    ensures { OnOk result (string_bytes out.new ≡ string_bytes out.old ++ expositions.bare_line name.now n) }
{
    out.push_str(name)?;
    out.push_str(" ")?;
    push_number(alloc, out, n)?;
    out.push_str("\n")
}

/// A metric that has that line alone.
#[tactic(auto, unfolding(crate::specs::Expositions::lone_text))]
pub(crate) fn push_lone(
    alloc: Global,
    out: &mut String,
    name: &str,
    kind: &str,
    help: &str,
    n: u64,
) -> Result<(), AllocError>
    ensures { OnOk result (string_bytes out.new ≡ string_bytes out.old ++ expositions.lone_text name.now kind.now help.now n) }
{
    push_about(out, name, kind, help)?;
    push_bare_line(alloc, out, name, n)?;
    Ok(())
}
