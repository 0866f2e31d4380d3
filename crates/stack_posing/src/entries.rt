//! Columns of entries, and right sides, three rows for each free block.

ghost use Rattle.std.specs.Prelude.{◌≡◌, ◌<◌, ◌++◌, ◌∷◌, [], neg_ℤ, IfOk};
ghost use Rattle.stack_whole.specs.Limits.{most_free, IsBelowBound};
ghost use Rattle.stack_whole.specs.Whole.{whole};
ghost use Rattle.stack_equilibrium.specs.LoadSizes.{IsSmall};
ghost use Rattle.stack_posing.specs.Entries.{with_value, with_wrench as with_wrench_of, opposites};

use stack_equilibrium::Wrench;
use stack_table::Entry;
use stack_whole::Whole;
use std::alloc::AllocError;

/// The entries with one more, unless its value is 0.
fn with_entry(mut entries: Vec<Entry>, entry: Entry) -> Result<Vec<Entry>, AllocError>
    ensures { IfOk result (λ v. v.items ≡ with_value entries.items entry.row entry.value) }
{
    if entry.value != 0 {
        entries.push(entry)?;
    }
    Ok(entries)
}

/// The entries with those of a wrench on free block `b`: at most three, since those that are 0 are left out.
pub fn with_wrench(entries: Vec<Entry>, b: usize, wrench: Wrench) -> Result<Vec<Entry>, AllocError>
    requires { b < most_free }
    ensures { IfOk result (λ v. v.items ≡ with_wrench_of entries.items b wrench) }
{
    let entries = with_entry(
        entries,
        Entry {
            row: 3 * b,
            value: wrench.fx,
        },
    )?;
    let entries = with_entry(
        entries,
        Entry {
            row: 3 * b + 1,
            value: wrench.fy,
        },
    )?;
    with_entry(
        entries,
        Entry {
            row: 3 * b + 2,
            value: wrench.m,
        },
    )
}

/// A number with the other sign.
fn opposite(value: i128) -> Whole
    requires { IsBelowBound value }
    ensures { result ≡ whole (neg_ℤ value) }
{
    Whole { value: -value }
}

/// The right sides with one more.
fn with_right_side(mut right: Vec<i128>, value: Whole) -> Result<Vec<i128>, AllocError>
    ensures { IfOk result (λ v. v.items ≡ right.items ++ value.value ∷ []) }
{
    right.push(value.value)?;
    Ok(right)
}

/// The right sides with those of one more free block, on which this wrench acts.
pub fn with_right_sides(right: Vec<i128>, wrench: Wrench) -> Result<Vec<i128>, AllocError>
    requires { IsSmall wrench }
    ensures { IfOk result (λ v. v.items ≡ right.items ++ opposites wrench) }
{
    let right = with_right_side(right, opposite(wrench.fx))?;
    let right = with_right_side(right, opposite(wrench.fy))?;
    with_right_side(right, opposite(wrench.m))
}
