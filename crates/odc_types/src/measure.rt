// The extents of types, measured over the extents of their parts by value.
ghost use Rattle.std.specs.Prelude.{◌≡◌, ℕ, ◌+◌, ◌*◌, ◌<◌, ◌⊎◌, max, Option, Some, None, IfSome, IfNone, IfOk, IfErr, List, Contains, slice_get, get_or, map, ◌≤◌, ◌-◌};
ghost use Rattle.std.specs.Option.{option_copied, option_map};
ghost use Rattle.odc_types.specs.Nodes.{Node, node, nodes, soa};
ghost use Rattle.odc_types.specs.Heights.{clipped, height_of_node};
ghost use Rattle.odc_types.specs.Layout.{Layout, layout_of_node, struct_fields, fields_of as struct_under, under_of, all_of, column as column_of, columns as columns_of, wide, begin_of, count_of, fields_in, layout_of, IsPlain, round_up, scalar, words, array, struct, union, distinct};
ghost use Rattle.odc_types.specs.Clipped.{IsHeld, IsExtent, IsMeasured, kept_at, AreKept};
ghost use Rattle.odc_types.specs.Measured.{IsBlocked, IsFieldless, IsBase, types_of};

use crate::extent::Extent;
use crate::ty::{Field, SoaForm, Ty, TyId};
use crate::width::{Width, bytes};

/// Why a type can't be measured: a part without an extent or without its own parts, and how many parts before it have
/// extents.
#[derive(Clone, Copy)]
pub(crate) struct Missing {
    pub(crate) part: TyId,
    pub(crate) known: usize,
}

/// One level more, of levels that are counted up to 201.
pub(crate) fn deeper(levels: u8) -> u8
    ensures { (n : ℕ) → levels ≡ clipped n → result ≡ clipped (n + 1) }
{
    if levels < 201 { levels + 1 } else { 201 }
}

/// The next multiple of an alignment.
fn rounded(size: Option<u64>, align: u64) -> Option<u64>
    requires { 0 < align }
    ensures { (n : ℕ) → IsHeld size n → IsHeld result (round_up n align) }
{
    match size {
        Some(size) => {
            let rest = size % align;
            if rest == 0 {
                Some(size)
            } else {
                size.checked_add(align - rest)
            }
        }
        None => None,
    }
}

/// Two sizes after one another.
fn sum(a: Option<u64>, b: Option<u64>) -> Option<u64>
    ensures { (m n : ℕ) → IsHeld a m → IsHeld b n → IsHeld result (m + n) }
{
    match (a, b) {
        (Some(a), Some(b)) => a.checked_add(b),
        _ => None,
    }
}

/// A size so many times.
fn product(count: u64, size: Option<u64>) -> Option<u64>
    ensures { (n : ℕ) → IsHeld size n → IsHeld result (count * n) }
{
    if count == 0 {
        return Some(0);
    }
    match size {
        Some(size) => count.checked_mul(size),
        None => None,
    }
}

/// The greater of two sizes.
fn greater(a: Option<u64>, b: Option<u64>) -> Option<u64>
    ensures { (m n : ℕ) → IsHeld a m → IsHeld b n → IsHeld result (max m n) }
{
    match (a, b) {
        (Some(a), Some(b)) => Some(a.max(b)),
        _ => None,
    }
}

/// One value, aligned to its own size.
fn one(size: u64, depth: u8) -> Extent
    requires { 0 < size }
    ensures { (levels : ℕ) → depth ≡ clipped levels → IsExtent result (scalar size levels) }
{
    Extent {
        size: Some(size),
        align: size,
        depth,
    }
}

/// So many words of 8 bytes.
fn some_words(count: usize, depth: u8) -> Extent
    ensures { (levels : ℕ) → depth ≡ clipped levels → IsExtent result (words count levels) }
{
    Extent {
        size: product(8, Some(count as u64)),
        align: 8,
        depth,
    }
}

/// So many values after one another.
fn repeated(count: u64, element: Extent) -> Extent
    ensures { (l : _) → IsExtent element l → IsExtent result (array count l) }
{
    Extent {
        size: product(count, element.size),
        align: element.align,
        depth: deeper(element.depth),
    }
}

/// The same values under another name.
fn renamed(base: Extent) -> Extent
    ensures { (l : _) → IsExtent base l → IsExtent result (distinct l) }
{
    Extent {
        size: base.size,
        align: base.align,
        depth: deeper(base.depth),
    }
}

/// The type of a number.
pub(crate) fn type_at(types: &[Ty], t: TyId) -> Option<&Ty>
    ensures { option_copied result ≡ slice_get types.now t.index }
{
    types.get(t.index as usize)
}

/// What is kept of a type.
pub(crate) fn kept(extents: &[Option<Extent>], t: TyId) -> Option<Extent>
    ensures { result ≡ kept_at extents.now t.index }
{
    match extents.get(t.index as usize) {
        Some(extent) => *extent,
        None => None,
    }
}

/// What is kept of the only part of a type.
fn known(extents: &[Option<Extent>], part: TyId) -> Result<Extent, Missing>
    ensures ok { IfOk result (λ e. kept_at extents.now part.index ≡ Some e) }
    ensures err { IfErr result (λ m. (m.part ≡ part) × (kept_at extents.now part.index ≡ None)) }
{
    match kept(extents, part) {
        Some(extent) => Ok(extent),
        None => Err(Missing { part, known: 0 }),
    }
}

/// The base of a distinct type.
fn base_of(ty: &Ty) -> Option<TyId>
    ensures some { IfSome result (λ b. IsBase (node ty.now) b) }
    ensures none { IfNone result (IsPlain (node ty.now)) }
{
    match ty {
        Ty::Distinct { base, .. } => *base,
        _ => None,
    }
}

/// The type under distinct types.
pub(crate) fn under(types: &[Ty], t: TyId) -> Option<TyId>
    ensures is { option_map (λ p. p.index) result ≡ under_of (nodes types.now) t.index }
    ensures plain { IfSome result (λ p. (n : Node) → slice_get (nodes types.now) p.index ≡ Some n → IsPlain n) }
{
    let mut t = t;
    for _ in 0..types.len() {
        let Some(ty) = type_at(types, t) else {
            return None;
        };
        match base_of(ty) {
            Some(base) => t = base,
            None => return Some(t),
        }
    }
    None
}

/// The fields of a struct type.
fn fields_at(types: &[Ty], t: TyId) -> Option<&[Field]>
    ensures { option_copied result ≡ struct_fields (slice_get (nodes types.now) t.index) }
{
    match type_at(types, t) {
        Some(
            Ty::Struct {
                fields: Some(fields),
                ..
            },
        ) => Some(fields.as_slice()),
        _ => None,
    }
}

/// The fields of a struct, also of a distinct one; or the type whose parts are missing.
pub(crate) fn fields_of(types: &[Ty], t: TyId) -> Result<&[Field], Missing>
    ensures ok { IfOk result (λ fs. struct_under (nodes types.now) t.index ≡ Some fs.now) }
    ensures err { IfErr result (λ m. IsFieldless (nodes types.now) t.index m.part.index) }
{
    match under(types, t) {
        Some(part) => match fields_at(types, part) {
            Some(fields) => Ok(fields),
            None => Err(Missing { part, known: 0 }),
        },
        None => Err(Missing { part: t, known: 0 }),
    }
}

/// The first field from `from` on whose type has no extent.
fn unknown_field(extents: &[Option<Extent>], fields: &[Field], from: usize) -> Option<Missing>
    ensures { IfSome result (λ m. Contains (types_of fields.now) m.part × (kept_at extents.now m.part.index ≡ None)) }
{
    for at in from..fields.len() {
        let part = fields[at].ty;
        if kept(extents, part).is_none() {
            return Some(Missing { part, known: at });
        }
    }
    None
}

/// The first variant from `from` on that has no extent.
fn unknown_variant(extents: &[Option<Extent>], variants: &[TyId], from: usize) -> Option<Missing>
    ensures { IfSome result (λ m. Contains variants.now m.part × (kept_at extents.now m.part.index ≡ None)) }
{
    for at in from..variants.len() {
        let part = variants[at];
        if kept(extents, part).is_none() {
            return Some(Missing { part, known: at });
        }
    }
    None
}

/// One value of a type, or an array of so many.
fn column(count: Option<u64>, part: Extent) -> Extent
    ensures { (l : _) → IsExtent part l → IsMeasured (Some result) (wide count l) }
{
    match count {
        Some(count) => repeated(count, part),
        None => part,
    }
}

/// A struct of these fields, or a struct of arrays, each over one of them. The first `from` are known to have extents.
fn columns(
    extents: &[Option<Extent>],
    count: Option<u64>,
    fields: &[Field],
    from: usize,
) -> Result<Extent, Missing>
    ensures ok { IfOk result (λ e. (part : ℕ → Option Layout) → AreKept extents.now part → IsMeasured (Some e) (columns_of part count fields.now)) }
    ensures err { IfErr result (λ m. Contains (types_of fields.now) m.part × (kept_at extents.now m.part.index ≡ None)) }
{
    if let Some(missing) = unknown_field(extents, fields, from) {
        return Err(missing);
    }
    let mut end = Some(0);
    let mut align = 1;
    let mut depth = 0;
    for field in fields {
        let Some(part) = kept(extents, field.ty) else {
            return Err(Missing {
                part: field.ty,
                known: 0,
            });
        };
        let wide = column(count, part);
        end = sum(rounded(end, wide.align), wide.size);
        align = align.max(wide.align);
        depth = depth.max(wide.depth);
    }
    Ok(Extent {
        size: rounded(end, align),
        align,
        depth: deeper(depth),
    })
}

/// A union of these variants: the widest, and behind it a tag of 8 bytes. The first `from` are known to have extents.
fn union_extent(
    extents: &[Option<Extent>],
    variants: &[TyId],
    from: usize,
) -> Result<Extent, Missing>
    ensures ok { IfOk result (λ e. (part : ℕ → Option Layout) → AreKept extents.now part → IsMeasured (Some e) (option_map union (all_of (map (λ v. part v.index) variants.now)))) }
    ensures err { IfErr result (λ m. Contains variants.now m.part × (kept_at extents.now m.part.index ≡ None)) }
{
    if let Some(missing) = unknown_variant(extents, variants, from) {
        return Err(missing);
    }
    let mut widest = Some(0);
    let mut depth = 0;
    for variant in variants {
        let Some(part) = kept(extents, *variant) else {
            return Err(Missing {
                part: *variant,
                known: 0,
            });
        };
        widest = greater(widest, part.size);
        depth = depth.max(part.depth);
    }
    Ok(Extent {
        size: sum(rounded(widest, 8), Some(8)),
        align: 8,
        depth: deeper(depth),
    })
}

/// A `#soa` container over a struct.
fn container_extent(
    types: &[Ty],
    extents: &[Option<Extent>],
    height: u8,
    form: SoaForm,
    of: TyId,
    from: usize,
) -> Result<Extent, Missing>
    requires { height ≡ clipped (height_of_node (nodes types.now) (soa form of)) }
    ensures ok { IfOk result (λ e. (part : ℕ → Option Layout) → AreKept extents.now part → IsMeasured (Some e) (layout_of_node (nodes types.now) part (soa form of))) }
    ensures err { IfErr result (λ m. (t : ℕ) → IsBlocked (nodes types.now) extents.now t (soa form of) m.part.index) }
{
    match fields_of(types, of) {
        Ok(fields) => match form {
            SoaForm::Fixed { count } => columns(extents, Some(count), fields, from),
            SoaForm::Slice => Ok(some_words(fields.len() + 1, height)),
            SoaForm::Dyn => Ok(some_words(fields.len() + 4, height)),
        },
        Err(missing) => Err(missing),
    }
}

/// An array of so many elements.
fn array_extent(extents: &[Option<Extent>], count: u64, of: TyId) -> Result<Extent, Missing>
    ensures ok { IfOk result (λ e. (part : ℕ → Option Layout) → AreKept extents.now part → IsMeasured (Some e) (option_map (array count) (part of.index))) }
    ensures err { IfErr result (λ m. (m.part ≡ of) × (kept_at extents.now of.index ≡ None)) }
{
    match known(extents, of) {
        Ok(element) => Ok(repeated(count, element)),
        Err(missing) => Err(missing),
    }
}

/// A distinct type over a base.
fn distinct_extent(extents: &[Option<Extent>], base: TyId) -> Result<Extent, Missing>
    ensures ok { IfOk result (λ e. (part : ℕ → Option Layout) → AreKept extents.now part → IsMeasured (Some e) (option_map distinct (part base.index))) }
    ensures err { IfErr result (λ m. (m.part ≡ base) × (kept_at extents.now base.index ≡ None)) }
{
    match known(extents, base) {
        Ok(base) => Ok(renamed(base)),
        Err(missing) => Err(missing),
    }
}

/// The extent of a type over the extents of its parts by value, of which the first `from` are known to have theirs; or the
/// type that it has to wait for. `height` is how high the type is behind a pointer.
pub(crate) fn measured(
    types: &[Ty],
    extents: &[Option<Extent>],
    height: u8,
    t: TyId,
    ty: &Ty,
    from: usize,
) -> Result<Extent, Missing>
    requires { height ≡ clipped (height_of_node (nodes types.now) (node ty.now)) }
    ensures ok { IfOk result (λ e. (part : ℕ → Option Layout) → AreKept extents.now part → IsMeasured (Some e) (layout_of_node (nodes types.now) part (node ty.now))) }
    ensures err { IfErr result (λ m. IsBlocked (nodes types.now) extents.now t.index (node ty.now) m.part.index) }
{
    match ty {
        Ty::Bool => Ok(one(1, 1)),
        Ty::Int { width } => Ok(one(bytes(*width), 1)),
        Ty::Rune => Ok(one(4, 1)),
        Ty::RawPtr => Ok(one(8, 1)),
        Ty::Ptr { .. } => Ok(one(8, height)),
        Ty::Proc { .. } => Ok(one(8, height)),
        Ty::Text => Ok(some_words(2, 1)),
        Ty::Slice { .. } => Ok(some_words(2, height)),
        Ty::Dyn { .. } => Ok(some_words(5, height)),
        Ty::Array { count, of } => array_extent(extents, *count, *of),
        Ty::Soa { form, of } => container_extent(types, extents, height, *form, *of, from),
        Ty::Struct { fields, .. } => match fields {
            Some(fields) => columns(extents, None, fields.as_slice(), from),
            None => Err(Missing { part: t, known: 0 }),
        },
        Ty::Union { variants, .. } => match variants {
            Some(variants) => union_extent(extents, variants.as_slice(), from),
            None => Err(Missing { part: t, known: 0 }),
        },
        Ty::Enum {
            base,
            enumerators,
            ..
        } => match enumerators {
            Some(_) => Ok(one(bytes(base.unwrap_or(Width::Int)), 1)),
            None => Err(Missing { part: t, known: 0 }),
        },
        Ty::Distinct { base, .. } => match base {
            Some(base) => distinct_extent(extents, *base),
            None => Err(Missing { part: t, known: 0 }),
        },
    }
}

/// Where a column begins in a struct of columns.
fn column_offset(
    extents: &[Option<Extent>],
    count: Option<u64>,
    fields: &[Field],
    at: usize,
) -> Option<u64>
    ensures { (part : ℕ → Option Layout) (ls : _) → AreKept extents.now part → all_of (map (λ f. column_of part count f.ty.index) fields.now) ≡ Some ls → at < count_of ls → IsHeld result (begin_of 0 ls at) }
{
    let mut end = Some(0);
    for (index, field) in fields.iter().enumerate() {
        let Some(part) = kept(extents, field.ty) else {
            return None;
        };
        let wide = column(count, part);
        let begin = rounded(end, wide.align);
        if index == at {
            return begin;
        }
        end = sum(begin, wide.size);
    }
    None
}

/// Where a field of a type begins that isn't distinct.
fn offset_in(types: &[Ty], extents: &[Option<Extent>], ty: &Ty, field: usize) -> Option<u64>
    requires { IsPlain (node ty.now) }
    ensures { (part : ℕ → Option Layout) (l : _) → AreKept extents.now part → layout_of_node (nodes types.now) part (node ty.now) ≡ Some l → field < count_of (fields_in l) → IsHeld result (begin_of 0 (fields_in l) field) }
{
    match ty {
        Ty::Struct { fields, .. } => match fields {
            Some(fields) => column_offset(extents, None, fields.as_slice(), field),
            None => None,
        },
        Ty::Soa {
            form: SoaForm::Fixed { count },
            of,
        } => match fields_of(types, *of) {
            Ok(fields) => column_offset(extents, Some(*count), fields, field),
            Err(_) => None,
        },
        _ => None,
    }
}

/// Where a field of a type begins.
pub(crate) fn field_offset(
    types: &[Ty],
    extents: &[Option<Extent>],
    t: TyId,
    field: usize,
) -> Option<u64>
    requires { AreKept extents.now (layout_of (nodes types.now)) }
    ensures { (l : _) → layout_of (nodes types.now) t.index ≡ Some l → field < count_of (fields_in l) → IsHeld result (begin_of 0 (fields_in l) field) }
{
    let Some(plain) = under(types, t) else {
        return None;
    };
    match type_at(types, plain) {
        Some(ty) => offset_in(types, extents, ty, field),
        None => None,
    }
}
