// The keys by which the table finds a type again.
ghost use Rattle.std.specs.Prelude.{◌≡◌, ◌++◌, [], ◌∷◌, pos, map, length, IfOk};
ghost use Rattle.odc_types.specs.Nodes.{node, soa};
ghost use Rattle.odc_types.specs.Keys.{IsKeyOf, width_number, kind_of_proc};

use crate::ty::{Convention, Param, SoaForm, Ty, TyId, TypeName};
use crate::width::Width;
use std::alloc::{AllocError, Global};

/// What kind of type a key is that of. Structs, unions, enums and distinct types are told by their names alone.
#[derive(Clone, Copy, PartialEq, Eq, Hash)]
pub(crate) enum Kind {
    Bool,
    Int,
    Rune,
    Text,
    RawPtr,
    Ptr,
    Array,
    Slice,
    Dyn,
    SoaFixed,
    SoaSlice,
    SoaDyn,
    Named,
    Proc,
    Contextless,
}

/// All that tells a type from others: its kind, the numbers that it says itself, and the parts that count.
#[derive(PartialEq, Eq, Hash, Drop)]
pub(crate) struct Key {
    pub(crate) kind: Kind,
    pub(crate) numbers: Vec<i128>,
    pub(crate) parts: Vec<TyId>,
}

/// A key of these parts.
fn made(alloc: Global, kind: Kind, numbers: &[i128], parts: &[TyId]) -> Result<Key, AllocError>
    ensures kind { IfOk result (λ k. k.kind ≡ kind) }
    ensures numbers { IfOk result (λ k. k.numbers.items ≡ numbers.now) }
    ensures parts { IfOk result (λ k. k.parts.items ≡ parts.now) }
{
    let numbers = Vec::from_slice(alloc, numbers)?;
    let parts = Vec::from_slice(alloc, parts)?;
    Ok(Key {
        kind,
        numbers,
        parts,
    })
}

/// The number that stands for a width.
fn number(width: Width) -> i128
    ensures { result ≡ width_number width }
{
    match width {
        Width::Int => 0,
        Width::Uint => 1,
        Width::I8 => 2,
        Width::I16 => 3,
        Width::I32 => 4,
        Width::I64 => 5,
        Width::U8 => 6,
        Width::U16 => 7,
        Width::U32 => 8,
        Width::U64 => 9,
    }
}

/// The key of a struct, union, enum or distinct type.
fn named(alloc: Global, name: &TypeName) -> Result<Key, AllocError>
    ensures kind { IfOk result (λ k. k.kind ≡ Kind.Named) }
    ensures numbers { IfOk result (λ k. k.numbers.items ≡ pos name.now.at.file ∷ (pos name.now.at.line ∷ (pos name.now.at.column ∷ name.now.numbers.items))) }
    ensures parts { IfOk result (λ k. k.parts.items ≡ name.now.types.items) }
{
    let place = [
        i128::from(name.at.file),
        i128::from(name.at.line),
        i128::from(name.at.column),
    ];
    let mut numbers = Vec::from_slice(alloc, &place)?;
    numbers.extend_from_slice(name.numbers.as_slice())?;
    let parts = Vec::from_slice(alloc, name.types.as_slice())?;
    Ok(Key {
        kind: Kind::Named,
        numbers,
        parts,
    })
}

/// The types of parameters.
fn types_of(alloc: Global, params: &[Param]) -> Result<Vec<TyId>, AllocError>
    ensures { IfOk result (λ v. v.items ≡ map (λ p. p.ty) params.now) }
{
    params.iter().map(|p| p.ty).collect(alloc)
}

/// The types of parameters and then of results.
pub(crate) fn signature(
    alloc: Global,
    params: &[Param],
    results: &[TyId],
) -> Result<Vec<TyId>, AllocError>
    ensures { IfOk result (λ v. v.items ≡ map (λ p. p.ty) params.now ++ results.now) }
{
    let mut types = types_of(alloc, params)?;
    types.extend_from_slice(results)?;
    Ok(types)
}

/// The kind of a procedure type.
fn kind_of(convention: Convention) -> Kind
    ensures { result ≡ kind_of_proc convention }
{
    match convention {
        Convention::Odin => Kind::Proc,
        Convention::Contextless => Kind::Contextless,
    }
}

/// The key of a procedure type.
fn procedure(
    alloc: Global,
    convention: Convention,
    params: &[Param],
    results: &[TyId],
) -> Result<Key, AllocError>
    ensures kind { IfOk result (λ k. k.kind ≡ kind_of_proc convention) }
    ensures numbers { IfOk result (λ k. k.numbers.items ≡ pos (length params.now) ∷ []) }
    ensures parts { IfOk result (λ k. k.parts.items ≡ map (λ p. p.ty) params.now ++ results.now) }
{
    let parts = signature(alloc, params, results)?;
    let numbers = Vec::from_slice(alloc, &[params.len() as i128])?;
    Ok(Key {
        kind: kind_of(convention),
        numbers,
        parts,
    })
}

/// The key of a `#soa` container.
fn container(alloc: Global, form: SoaForm, of: TyId) -> Result<Key, AllocError>
    ensures { IfOk result (λ k. IsKeyOf k (soa form of)) }
{
    match form {
        SoaForm::Fixed { count } => made(alloc, Kind::SoaFixed, &[i128::from(count)], &[of]),
        SoaForm::Slice => made(alloc, Kind::SoaSlice, &[], &[of]),
        SoaForm::Dyn => made(alloc, Kind::SoaDyn, &[], &[of]),
    }
}

/// The key of a type.
pub(crate) fn key_of(alloc: Global, ty: &Ty) -> Result<Key, AllocError>
    ensures { IfOk result (λ k. IsKeyOf k (node ty.now)) }
{
    match ty {
        Ty::Bool => made(alloc, Kind::Bool, &[], &[]),
        Ty::Int { width } => made(alloc, Kind::Int, &[number(*width)], &[]),
        Ty::Rune => made(alloc, Kind::Rune, &[], &[]),
        Ty::Text => made(alloc, Kind::Text, &[], &[]),
        Ty::RawPtr => made(alloc, Kind::RawPtr, &[], &[]),
        Ty::Ptr { to } => made(alloc, Kind::Ptr, &[], &[*to]),
        Ty::Array { count, of } => made(alloc, Kind::Array, &[i128::from(*count)], &[*of]),
        Ty::Slice { of } => made(alloc, Kind::Slice, &[], &[*of]),
        Ty::Dyn { of } => made(alloc, Kind::Dyn, &[], &[*of]),
        Ty::Soa { form, of } => container(alloc, *form, *of),
        Ty::Struct { name, .. } => named(alloc, name),
        Ty::Union { name, .. } => named(alloc, name),
        Ty::Enum { name, .. } => named(alloc, name),
        Ty::Distinct { name, .. } => named(alloc, name),
        Ty::Proc {
            convention,
            params,
            results,
        } => procedure(alloc, *convention, params.as_slice(), results.as_slice()),
    }
}
