//! Sizes of values in whole words.

ghost use Rattle.std.specs.Prelude.{◌≡◌, map};
ghost use Rattle.odc_limits.specs.Sized.{capped, table};
ghost use Rattle.odc_program.specs.States.State.{size_of};
ghost use Rattle.odc_program.specs.Typing.Frames.{rounded, rounded_sum, value_bytes};

use odc_program::program::{TypeKind, TypeRow};
use odc_types::TyId;

/// The size of a type, rounded up to whole words. A type that isn't in the table has size 0.
pub fn rounded_size(rows: &[TypeRow], ty: TyId) -> u64
    ensures { result ≡ capped (rounded (size_of (table rows.now) ty.index)) }
{
    match rows.get(ty.index as usize) {
        None => 0,
        Some(row) => row.size.saturating_add((8 - row.size % 8) % 8),
    }
}

/// The size of values one behind another, each in whole words.
fn rounded_sizes(rows: &[TypeRow], list: &[TyId]) -> u64
    ensures { result ≡ capped (rounded_sum (table rows.now) (map (λ t. t.index) list.now)) }
{
    let mut total: u64 = 0;
    for ty in list {
        total = total.saturating_add(rounded_size(rows, *ty));
    }
    total
}

/// The size of what an expression of this type gives: none, one or several values, each in whole words.
pub fn value_size(rows: &[TypeRow], ty: TyId) -> u64
    ensures { result ≡ capped (value_bytes (table rows.now) ty.index) }
{
    match rows.get(ty.index as usize) {
        None => 0,
        Some(row) => match &row.kind {
            TypeKind::Several(parts) => rounded_sizes(rows, parts.as_slice()),
            _ => rounded_size(rows, ty),
        },
    }
}
