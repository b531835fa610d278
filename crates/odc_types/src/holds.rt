// Which types are held by others, at any depth.
ghost use Rattle.std.specs.Prelude.{◌≡◌, ◌↔◌, ℕ, ◌<◌, [], ◌∷◌, All, Some, IfOk, OnOk, length, map, slice_get};
ghost use Rattle.odc_types.specs.Nodes.{Node, node, nodes};
ghost use Rattle.odc_types.specs.Parts.{HasPartsBelow};
ghost use Rattle.odc_types.specs.Holds.{HasMarked, IsHeldBy, IsMarked, parts_in};

use crate::key::signature;
use crate::measure::type_at;
use crate::ty::{Field, Ty, TyId};
use std::alloc::{AllocError, Global};

/// The types of fields.
fn types_of(alloc: Global, fields: &[Field]) -> Result<Vec<TyId>, AllocError>
    ensures { IfOk result (λ v. v.items ≡ map (λ f. f.ty) fields.now) }
{
    fields.iter().map(|f| f.ty).collect(alloc)
}

/// The parts that a type names itself.
fn parts_of(alloc: Global, ty: &Ty) -> Result<Vec<TyId>, AllocError>
    ensures { IfOk result (λ v. v.items ≡ parts_in (node ty.now)) }
{
    match ty {
        Ty::Ptr { to } => Vec::from_slice(alloc, &[*to]),
        Ty::Array { of, .. } => Vec::from_slice(alloc, &[*of]),
        Ty::Slice { of } => Vec::from_slice(alloc, &[*of]),
        Ty::Dyn { of } => Vec::from_slice(alloc, &[*of]),
        Ty::Soa { of, .. } => Vec::from_slice(alloc, &[*of]),
        Ty::Struct {
            fields: Some(fields),
            ..
        } => types_of(alloc, fields.as_slice()),
        Ty::Union {
            variants: Some(variants),
            ..
        } => Vec::from_slice(alloc, variants.as_slice()),
        Ty::Distinct {
            base: Some(base),
            ..
        } => Vec::from_slice(alloc, &[*base]),
        Ty::Proc {
            params,
            results,
            ..
        } => signature(alloc, params.as_slice(), results.as_slice()),
        _ => Ok(Vec::new(alloc)),
    }
}

/// Marks a type, and puts it on the list unless it was marked before.
fn mark(marks: &mut Vec<bool>, todo: &mut Vec<TyId>, t: TyId) -> Result<(), AllocError>
    requires { t.index < length marks.old.items }
    ensures { OnOk result (HasMarked (t ∷ []) marks.old.items marks.new.items todo.old.items todo.new.items) }
{
    let at = t.index as usize;
    if marks[at] {
        return Ok(());
    }
    todo.push(t)?;
    marks[at] = true;
    Ok(())
}

/// Marks each of these types, and puts those on the list that weren't marked before.
fn mark_all(marks: &mut Vec<bool>, todo: &mut Vec<TyId>, types: &[TyId]) -> Result<(), AllocError>
    requires { All (λ t. t.index < length marks.old.items) types.now }
    ensures { OnOk result (HasMarked types.now marks.old.items marks.new.items todo.old.items todo.new.items) }
{
    for t in types {
        mark(marks, todo, *t)?;
    }
    Ok(())
}

/// Marks the types that one of `roots` is or holds.
pub(crate) fn held(alloc: Global, types: &[Ty], roots: &[TyId]) -> Result<Vec<bool>, AllocError>
    requires roots { All (λ t. t.index < length types.now) roots.now }
    requires parts { (i : ℕ) (n : Node) → slice_get (nodes types.now) i ≡ Some n → HasPartsBelow (length types.now) n }
    ensures len { IfOk result (λ marks. length marks.items ≡ length types.now) }
    ensures held { IfOk result (λ marks. (u : TyId) → IsMarked marks.items u ↔ IsHeldBy (nodes types.now) roots.now u) }
{
    let mut marks = vec![in alloc; false; types.len()]?;
    let mut todo = Vec::new(alloc);
    mark_all(&mut marks, &mut todo, roots)?;
    while let Some(t) = todo.pop() {
        if let Some(ty) = type_at(types, t) {
            let parts = parts_of(alloc, ty)?;
            mark_all(&mut marks, &mut todo, parts.as_slice())?;
        }
    }
    Ok(marks)
}
