//! Where variables lie: one behind another, eight bytes apart, the first one 128 bytes from the low end of the frame.

ghost use Rattle.std.specs.Prelude.{◌≡◌, ◌+◌, ◌<◌, ◌^◌, ◌++◌, ◌&&◌, true, List, ℕ, map, IfOk};
ghost use Rattle.odc_limits.specs.Sized.{capped, table};
ghost use Rattle.odc_limits.specs.Placed.{behind, types_of_locals};
ghost use Rattle.odc_program.specs.Trees.Program.{Local as CleanLocal};
ghost use Rattle.odc_program.specs.States.State.{Env, size_of};
ghost use Rattle.odc_program.specs.Typing.Frames.{rounded, placed};
ghost use Rattle.odc_program.specs.Views.Instances.{local};
ghost use Rattle.odc_program.specs.Views.ProgramView.{ty as row};

use crate::sizes::rounded_size;
use odc_program::program::{Local, TypeRow};
use odc_types::TyId;
use std::alloc::{AllocError, Global};

/// Where the first variable of a frame lies.
pub const FIRST_PLACE: u64 = 128;

/// Variables with their places, and the place behind them.
#[derive(Drop)]
pub struct Places {
    pub locals: Vec<Local>,
    pub end: u64,
}

/// The place behind a variable of this type that lies at `at`.
pub fn next_place(rows: &[TypeRow], at: u64, ty: TyId) -> u64
    ensures { result ≡ capped (at + rounded (size_of (table rows.now) ty.index) + 8) }
{
    at.saturating_add(rounded_size(rows, ty)).saturating_add(8)
}

/// Variables of these types, the first of which lies at `at`. Where the end is within 64 bits, each place is that of the
/// definition. Fails only where memory is out.
pub fn place_variables(
    alloc: Global,
    rows: &[TypeRow],
    at: u64,
    types: &[TyId],
) -> Result<Places, AllocError>
    ensures types { IfOk result (λ r. map (λ l. l.ty) r.locals.items ≡ types.now) }
    ensures end { IfOk result (λ r. (env : Env) → env.tables.types ≡ map row rows.now → r.end ≡ capped (behind env at (map (λ t. t.index) types.now))) }
    ensures places { IfOk result (λ r. (env : Env) → env.tables.types ≡ map row rows.now → behind env at (map (λ t. t.index) types.now) < 2 ^ 64 → placed env at (map local r.locals.items) ≡ true) }
{
    let mut locals = Vec::with_capacity(alloc, types.len())?;
    let mut end = at;
    for ty in types {
        locals.push(Local {
            ty: *ty,
            place: end,
        })?;
        end = next_place(rows, end, *ty);
    }
    Ok(Places { locals, end })
}

/// Variables lie in place where the first ones do, and the others from the place behind them on.
pub fn places_follow()
    ensures { (env : Env) (at : ℕ) (xs ys : List CleanLocal) → placed env at (xs ++ ys) ≡ (placed env at xs && placed env (behind env at (types_of_locals xs)) ys) }
{}
