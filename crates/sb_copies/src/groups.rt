// Rows of copies in an index by group, then by number.
ghost use Rattle.std.specs.Prelude.{◌≡◌, ℕ, ◌+◌, ◌-◌, ◌*◌, ◌≤◌, ◌&&◌, ◌++◌, find, nat_le, IfOk, IfSome};
ghost use Rattle.sb_index.specs.Rows.{is_from, Lacks};
ghost use Rattle.sb_copies.specs.Grouped as spec;

use sb_index::{Index, Row};
use std::alloc::AllocError;

/// How many keys a group has.
pub const SPAN: u128 = 1 << 64;

/// The key in a group of the copy of this number.
pub fn key_of(group: u64, number: u64) -> u128
    ensures { result ≡ spec.group_key group number }
{
    u128::from(group) * SPAN + u128::from(number)
}

fn row_of(group: u64, number: u64, marked: bool) -> Row
    ensures { result ≡ spec.group_row group number marked }
{
    Row {
        key: key_of(group, number),
        value: number,
        marked,
        due: u64::MAX,
    }
}

/// Puts the row of a copy there, marked or not, where there is a group.
pub fn put(index: &mut Index, group: Option<u64>, number: u64, marked: bool)
    requires room { spec.rows_taken group ≤ index.old.spare }
    requires apart { (h : ℕ) → Lacks (spec.group_key h number) index.old.rows }
    ensures rows { index.new.rows ≡ spec.with_grouped group number marked index.old.rows }
    ensures spare { index.new.spare ≡ index.old.spare - spec.rows_taken group }
{
    if let Some(group) = group {
        index.insert(row_of(group, number, marked));
    }
}

/// Takes the row of the copy of this number out, where there is a group.
pub fn take(index: &mut Index, group: Option<u64>, number: u64)
    ensures rows { index.new.rows ≡ spec.without_grouped group number index.old.rows }
    ensures spare { index.new.spare ≡ index.old.spare }
{
    if let Some(group) = group {
        let _ = index.remove(key_of(group, number));
    }
}

/// Has that row in another group, unmarked, where the copy is there: it was in the one, and will be
/// in the other.
pub fn regroup(index: &mut Index, was: Option<Option<u64>>, number: u64, group: Option<u64>)
    requires room { spec.rows_taken group ≤ index.old.spare }
    requires apart { IfSome was (λ old. (h : ℕ) → Lacks (spec.group_key h number) (spec.without_grouped old number index.old.rows)) }
    ensures rows { index.new.rows ≡ spec.moved_grouped was number group index.old.rows }
    ensures spare { index.old.spare ≤ index.new.spare + spec.rows_taken group }
{
    if let Some(old) = was {
        take(index, old, number);
        put(index, group, number, false);
    }
}

/// Marks that row or not.
pub fn mark(index: &mut Index, group: Option<u64>, number: u64, marked: bool)
    ensures rows { index.new.rows ≡ spec.told_grouped group number marked index.old.rows }
    ensures spare { index.new.spare ≡ index.old.spare }
{
    if let Some(group) = group {
        index.change(key_of(group, number), marked, u64::MAX);
    }
}

// ---- the numbers of a group

/// And the numbers of the rows of a group, in rising keys: no row of another is looked at but one.
pub fn with_numbers(found: Vec<u64>, index: &Index, group: u64) -> Result<Vec<u64>, AllocError>
    ensures { IfOk result (λ v. v.items ≡ found.items ++ spec.numbers_under group index.now.rows) }
{
    index.rises();
    let mut found = found;
    let mut from = key_of(group, 0);
    'rows: while let Some(row) = first_in(index, group, from) {
        found.push(row.value)?;
        let Some(next) = row.key.checked_add(1) else {
            return Ok(found);
        };
        from = next;
    }
    Ok(found)
}

// The first row of a group whose key is at least `from`.
fn first_in(index: &Index, group: u64, from: u128) -> Option<Row>
    requires { group * spec.span ≤ from }
    ensures { result ≡ find (λ x. is_from from x && spec.is_under group x) index.now.rows }
{
    index.rises();
    let Some(row) = index.first_from(from) else {
        return None;
    };
    if is_within(row, group) {
        Some(row)
    } else {
        None
    }
}

/// Whether a row is none behind those of this group.
pub fn is_within(row: Row, group: u64) -> bool
    ensures { result ≡ nat_le row.key (group * spec.span + (spec.span - 1)) }
{
    row.key <= u128::from(group) * SPAN + (SPAN - 1)
}
