ghost use Rattle.std.specs.Prelude.{◌≡◌, ◌<◌, ◌≤◌, [], ◌∷◌, ◌++◌, length, slice_get, Some, None, IfOk, OnOk};
ghost use Rattle.odc_types.specs.Nodes.{Node, node, integer, pointer, struct};
ghost use Rattle.odc_types.specs.declared.width.Width.TheVariants as width;
ghost use Rattle.odc_types.specs.Parts.{HasPartsBelow};

use odc_types::{
    Field, LayoutError, SizeAlign, SoaForm, Ty, TyId, TypeName, TypePlace, TypeTable, Width,
    divide, wrap,
};
use std::alloc::{AllocError, Global};

const MIN_64: i128 = -0x8000_0000_0000_0000;

#[test]
fn numbers_wrap_to_their_width(rt: HostRuntime) {
    for (w, v, want) in [
        (Width::I8, 128, -128),
        (Width::I8, -129, 127),
        (Width::I8, 255, -1),
        (Width::U8, 256, 0),
        (Width::U8, -1, 255),
        (Width::I16, 0x1_8000, -0x8000),
        (Width::U16, -1, 0xffff),
        (Width::I32, 0x8000_0000, -0x8000_0000),
        (Width::U32, -1, 0xffff_ffff),
        (Width::I64, 0x8000_0000_0000_0000, MIN_64),
        (Width::Int, 0x8000_0000_0000_0000, MIN_64),
        (Width::U64, -1, 0xffff_ffff_ffff_ffff),
        (Width::Uint, i128::MIN, 0),
        (Width::Uint, i128::MAX, 0xffff_ffff_ffff_ffff),
        (Width::Int, i128::MIN, 0),
        (Width::Int, i128::MAX, -1),
    ] {
        assert_eq!(rt; wrap(w, v), want);
    }
}

#[test]
fn quotients_are_truncated(rt: HostRuntime) {
    assert_eq!(rt; divide(Width::Int, -7, 3), Some(-2));
    assert_eq!(rt; divide(Width::Int, 7, -3), Some(-2));
    assert_eq!(rt; divide(Width::Int, MIN_64, -1), Some(MIN_64));
    assert_eq!(rt; divide(Width::I8, -128, -1), Some(-128));
    assert_eq!(rt;
        divide(Width::U64, 0xffff_ffff_ffff_ffff, 2),
        Some(0x7fff_ffff_ffff_ffff)
    );
    assert_eq!(rt; divide(Width::U8, 5, 0), None);
}

/// A name whose text stands in this line, outside all instances.
fn named(alloc: Global, line: u32) -> TypeName
    ensures at { result.at.line ≡ line }
    ensures place { (result.at.file ≡ 0) × (result.at.column ≡ 1) }
    ensures types { result.types.items ≡ [] }
    ensures numbers { result.numbers.items ≡ [] }
{
    TypeName {
        at: TypePlace {
            file: 0,
            line,
            column: 1,
        },
        types: Vec::new(alloc),
        numbers: Vec::new(alloc),
    }
}

/// Size and alignment, where the size is known.
fn extent(table: &TypeTable, t: TyId) -> Option<(u64, u64)> {
    if table.checked_size(t).is_some() {
        Some((table.size(t), table.align(t)))
    } else {
        None
    }
}

#[test]
fn basic_types_have_their_sizes(rt: HostRuntime) -> Result<(), AllocError> {
    let mut table = TypeTable::new(rt.alloc())?;
    for (w, size) in [
        (Width::Int, 8),
        (Width::Uint, 8),
        (Width::I8, 1),
        (Width::I16, 2),
        (Width::I32, 4),
        (Width::I64, 8),
        (Width::U8, 1),
        (Width::U16, 2),
        (Width::U32, 4),
        (Width::U64, 8),
    ] {
        let t = table.add(Ty::Int { width: w })?;
        assert!(rt; extent(&table, t) == Some((size, size)));
    }
    let truth = table.add(Ty::Bool)?;
    assert!(rt; extent(&table, truth) == Some((1, 1)));
    let rune = table.add(Ty::Rune)?;
    assert!(rt; extent(&table, rune) == Some((4, 4)));
    let text = table.add(Ty::Text)?;
    assert!(rt; extent(&table, text) == Some((16, 8)));
    let rawptr = table.add(Ty::RawPtr)?;
    assert!(rt; extent(&table, rawptr) == Some((8, 8)));
    let pointer = table.add(Ty::Ptr { to: rune })?;
    assert!(rt; extent(&table, pointer) == Some((8, 8)));
    let slice = table.add(Ty::Slice { of: rune })?;
    assert!(rt; extent(&table, slice) == Some((16, 8)));
    let dynamic = table.add(Ty::Dyn { of: rune })?;
    assert!(rt; extent(&table, dynamic) == Some((40, 8)));
    let array = table.add(Ty::Array { count: 5, of: rune })?;
    assert!(rt; extent(&table, array) == Some((20, 4)));
    Ok(())
}

#[test]
fn a_slice_added_twice_is_one_type(rt: HostRuntime) -> Result<(), AllocError> {
    let alloc = rt.alloc();
    let mut table = TypeTable::new(alloc)?;
    let int = table.add(Ty::Int { width: Width::Int })?;
    let byte = table.add(Ty::Int { width: Width::U8 })?;
    let first = table.add(Ty::Slice { of: int })?;
    let other = table.add(Ty::Slice { of: byte })?;
    let again = table.add(Ty::Slice { of: int })?;
    assert!(rt; table.same(first, again));
    assert!(rt; !table.same(first, other));
    assert_eq!(rt; first.index, again.index);
    assert_eq!(rt; table.len(), 4);
    let here = table.add(Ty::Distinct {
        name: named(alloc, 3),
        base: Some(int),
    })?;
    let there = table.add(Ty::Distinct {
        name: named(alloc, 4),
        base: Some(int),
    })?;
    assert!(rt; !table.same(here, there));
    assert!(rt; !table.same(here, int));
    assert!(rt; extent(&table, here) == Some((8, 8)));
    Ok(())
}

#[test]
fn structs_and_unions_are_padded(rt: HostRuntime) -> Result<(), AllocError> {
    let alloc = rt.alloc();
    let mut table = TypeTable::new(alloc)?;
    let byte = table.add(Ty::Int { width: Width::U8 })?;
    let long = table.add(Ty::Int { width: Width::I64 })?;
    let word = table.add(Ty::Int { width: Width::I32 })?;
    // struct {a: u8, b: i64, c: u8}
    let fields = vec![in alloc;
        Field { name: 1, ty: byte },
        Field { name: 2, ty: long },
        Field { name: 3, ty: byte },
    ]?;
    let padded = table.add(Ty::Struct {
        name: named(alloc, 1),
        fields: Some(fields),
    })?;
    assert!(rt; extent(&table, padded) == Some((24, 8)));
    // union {u8, i32}
    let variants = vec![in alloc; byte, word]?;
    let either = table.add(Ty::Union {
        name: named(alloc, 2),
        variants: Some(variants),
    })?;
    assert!(rt; extent(&table, either) == Some((16, 8)));
    // enum u8 {..} and enum {..}
    let small = table.add(Ty::Enum {
        name: named(alloc, 3),
        base: Some(Width::U8),
        enumerators: Some(Vec::new(alloc)),
    })?;
    assert!(rt; extent(&table, small) == Some((1, 1)));
    let plain = table.add(Ty::Enum {
        name: named(alloc, 4),
        base: None,
        enumerators: Some(Vec::new(alloc)),
    })?;
    assert!(rt; extent(&table, plain) == Some((8, 8)));
    Ok(())
}

#[test]
fn records_lie_in_columns(rt: HostRuntime) -> Result<(), AllocError> {
    let alloc = rt.alloc();
    let mut table = TypeTable::new(alloc)?;
    let byte = table.add(Ty::Int { width: Width::U8 })?;
    let long = table.add(Ty::Int { width: Width::I64 })?;
    // R :: struct {a: u8, b: i64}
    let fields = vec![in alloc; Field { name: 1, ty: byte }, Field { name: 2, ty: long }]?;
    let of = table.add(Ty::Struct {
        name: named(alloc, 1),
        fields: Some(fields),
    })?;
    let fixed = table.add(Ty::Soa {
        form: SoaForm::Fixed { count: 3 },
        of,
    })?;
    assert!(rt; extent(&table, fixed) == Some((32, 8)));
    let slice = table.add(Ty::Soa {
        form: SoaForm::Slice,
        of,
    })?;
    assert!(rt; extent(&table, slice) == Some((24, 8)));
    let dynamic = table.add(Ty::Soa {
        form: SoaForm::Dyn,
        of,
    })?;
    assert!(rt; extent(&table, dynamic) == Some((48, 8)));
    Ok(())
}

/// Fills a table: `u8`, `Node :: struct` without its fields, and `^Node`.
fn linked(table: &mut TypeTable, alloc: Global) -> Result<(), AllocError>
    requires empty { table.old ≡ [] }
    ensures { OnOk result (table.new ≡ integer width.U8 ∷ (struct (record { at = record { file = 0; line = 1; column = 1 }; types = []; numbers = [] }) None ∷ (pointer (record { index = 1 }) ∷ []))) }
{
    table.add(Ty::Int { width: Width::U8 })?;
    let node = table.add(Ty::Struct {
        name: named(alloc, 1),
        fields: None,
    })?;
    table.add(Ty::Ptr { to: node })?;
    Ok(())
}

#[test]
fn a_node_names_itself(rt: HostRuntime) -> Result<(), AllocError> {
    let alloc = rt.alloc();
    let mut table = TypeTable::new(alloc)?;
    linked(&mut table, alloc)?;
    let byte = TyId { index: 0 };
    let node = TyId { index: 1 };
    let next = TyId { index: 2 };
    assert!(rt; extent(&table, node) == None);
    // Node :: struct {next: ^Node, v: u8}
    let fields = vec![in alloc; Field { name: 1, ty: next }, Field { name: 2, ty: byte }]?;
    table.define(
        node,
        Ty::Struct {
            name: named(alloc, 1),
            fields: Some(fields),
        },
    )?;
    assert!(rt; extent(&table, node) == Some((16, 8)));
    assert_eq!(rt; table.offset(node, 0), 0);
    assert_eq!(rt; table.offset(node, 1), 8);
    Ok(())
}

#[test]
fn what_is_behind_a_pointer_is_held(rt: HostRuntime) -> Result<(), AllocError> {
    let alloc = rt.alloc();
    let mut table = TypeTable::new(alloc)?;
    linked(&mut table, alloc)?;
    let pointer = table.held(alloc, &[TyId { index: 2 }])?;
    assert!(rt; !pointer[0] && pointer[1] && pointer[2]);
    let both = table.held(alloc, &[TyId { index: 0 }, TyId { index: 1 }])?;
    assert!(rt; both[0] && both[1] && !both[2]);
    Ok(())
}

/// The type at a level of `E0 :: u8` and `Ek+1 :: struct {a, b: Ek}`.
fn doubled(table: &mut TypeTable, alloc: Global, levels: u32) -> Result<TyId, AllocError> {
    let mut ty = table.add(Ty::Int { width: Width::U8 })?;
    for level in 0..levels {
        let fields = vec![in alloc; Field { name: 1, ty }, Field { name: 2, ty }]?;
        ty = table.add(Ty::Struct {
            name: named(alloc, level),
            fields: Some(fields),
        })?;
    }
    Ok(ty)
}

#[test]
fn shared_parts_are_measured_once(rt: HostRuntime) -> Result<(), AllocError> {
    let alloc = rt.alloc();
    let mut table = TypeTable::new(alloc)?;
    for (levels, size) in [
        (0, Some(1)),
        (1, Some(2)),
        (10, Some(0x400)),
        (40, Some(0x100_0000_0000)),
        (62, Some(0x4000_0000_0000_0000)),
        (63, Some(0x8000_0000_0000_0000)),
        (64, None),
        (65, None),
        (200, None),
    ] {
        let ty = doubled(&mut table, alloc, levels)?;
        assert_eq!(rt; table.checked_size(ty), size);
    }
    assert_eq!(rt; table.len(), 201);
    Ok(())
}

/// `u8` in so many arrays of one element, and under as many distinct types.
fn wrapped(table: &mut TypeTable, alloc: Global, levels: u32) -> Result<TyId, AllocError> {
    let mut ty = table.add(Ty::Int { width: Width::U8 })?;
    for level in 0..levels {
        let of = table.add(Ty::Array { count: 1, of: ty })?;
        ty = table.add(Ty::Distinct {
            name: named(alloc, level),
            base: Some(of),
        })?;
    }
    Ok(ty)
}

#[test]
fn deep_types_take_no_stack(rt: HostRuntime) -> Result<(), AllocError> {
    let alloc = rt.alloc();
    let mut table = TypeTable::new(alloc)?;
    let ty = wrapped(&mut table, alloc, 50_000)?;
    assert!(rt; extent(&table, ty) == Some((1, 1)));
    assert_eq!(rt; table.len(), 100_001);
    Ok(())
}

/// Adds a type to a table that has one.
fn add_on(table: &mut TypeTable, t: Ty) -> Result<TyId, AllocError>
    requires { HasPartsBelow (length table.old) (node t) }
    ensures within { IfOk result (λ id. id.index < length table.new) }
    ensures longer { length table.old ≤ length table.new }
    ensures first { (n : Node) → slice_get table.old 0 ≡ Some n → slice_get table.new 0 ≡ Some n }
{
    table.add(t)
}

/// Types of a table whose first one lacks its parts.
struct Waiting {
    byte: TyId,
    row: TyId,
    outer: TyId,
}

/// Fills a table: `Inner :: struct` without its fields, `u8`, `[3]Inner` and `Outer :: struct {flag: u8, row: [3]Inner}`.
fn declared(table: &mut TypeTable, alloc: Global) -> Result<Waiting, AllocError>
    requires empty { table.old ≡ [] }
    ensures first { OnOk result (slice_get table.new 0 ≡ Some (struct (record { at = record { file = 0; line = 1; column = 1 }; types = []; numbers = [] }) None)) }
    ensures byte { IfOk result (λ w. w.byte.index < length table.new) }
{
    let inner = table.add(Ty::Struct {
        name: named(alloc, 1),
        fields: None,
    })?;
    let byte = add_on(table, Ty::Int { width: Width::U8 })?;
    let row = add_on(
        table,
        Ty::Array {
            count: 3,
            of: inner,
        },
    )?;
    let fields = vec![in alloc; Field { name: 1, ty: byte }, Field { name: 2, ty: row }]?;
    let outer = add_on(
        table,
        Ty::Struct {
            name: named(alloc, 2),
            fields: Some(fields),
        },
    )?;
    Ok(Waiting { byte, row, outer })
}

#[test]
fn a_type_waits_for_its_parts(rt: HostRuntime) -> Result<(), AllocError> {
    let alloc = rt.alloc();
    let mut table = TypeTable::new(alloc)?;
    let Waiting { byte, row, outer } = declared(&mut table, alloc)?;
    let inner = TyId { index: 0 };
    assert!(rt; table.layout(inner) == Err(LayoutError::NoSize));
    assert!(rt; table.layout(row) == Err(LayoutError::NoSize));
    assert!(rt; table.layout(outer) == Err(LayoutError::NoSize));
    // Inner :: struct {a: u8}
    let fields = vec![in alloc; Field { name: 3, ty: byte }]?;
    table.define(
        inner,
        Ty::Struct {
            name: named(alloc, 1),
            fields: Some(fields),
        },
    )?;
    assert!(rt; extent(&table, inner) == Some((1, 1)));
    assert!(rt; extent(&table, row) == Some((3, 1)));
    assert!(rt; extent(&table, outer) == Some((4, 1)));
    Ok(())
}

#[test]
fn a_type_in_itself_has_no_size(rt: HostRuntime) -> Result<(), AllocError> {
    let alloc = rt.alloc();
    let mut table = TypeTable::new(alloc)?;
    let node = table.add(Ty::Struct {
        name: named(alloc, 1),
        fields: None,
    })?;
    let pair = add_on(&mut table, Ty::Array { count: 2, of: node })?;
    // Node :: struct {pair: [2]Node}
    let fields = vec![in alloc; Field { name: 1, ty: pair }]?;
    table.define(
        node,
        Ty::Struct {
            name: named(alloc, 1),
            fields: Some(fields),
        },
    )?;
    assert!(rt; table.layout(node) == Err(LayoutError::NoSize));
    assert!(rt; table.layout(pair) == Err(LayoutError::NoSize));
    Ok(())
}

/// What `layout` tells of a type within the limits.
fn fits(size: u64, align: u64) -> Result<SizeAlign, LayoutError> {
    Ok(SizeAlign { size, align })
}

#[test]
fn limits_of_size_are_told(rt: HostRuntime) -> Result<(), AllocError> {
    let alloc = rt.alloc();
    let mut table = TypeTable::new(alloc)?;
    for (count, width, want) in [
        (0, Width::U8, fits(0, 1)),
        (0x10_0000, Width::U8, fits(0x10_0000, 1)),
        (
            0x10_0001,
            Width::U8,
            Err(LayoutError::TooLarge { size: 0x10_0001 }),
        ),
        (0x2_0000, Width::I64, fits(0x10_0000, 8)),
        (
            0x2_0001,
            Width::I64,
            Err(LayoutError::TooLarge { size: 0x10_0008 }),
        ),
        (
            0x1fff_ffff_ffff_ffff,
            Width::I64,
            Err(LayoutError::TooLarge {
                size: 0xffff_ffff_ffff_fff8,
            }),
        ),
        (
            0x2000_0000_0000_0000,
            Width::I64,
            Err(LayoutError::Overflow),
        ),
    ] {
        let of = table.add(Ty::Int { width })?;
        let array = table.add(Ty::Array { count, of })?;
        assert!(rt; table.layout(array) == want);
    }
    Ok(())
}

/// A pointer to a pointer, and so on, so many levels over `u8`.
fn pointers(table: &mut TypeTable, levels: u32) -> Result<TyId, AllocError> {
    let mut to = table.add(Ty::Int { width: Width::U8 })?;
    for _ in 0..levels {
        to = table.add(Ty::Ptr { to })?;
    }
    Ok(to)
}

#[test]
fn two_hundred_levels_are_allowed(rt: HostRuntime) -> Result<(), AllocError> {
    let alloc = rt.alloc();
    let mut table = TypeTable::new(alloc)?;
    let pointer = pointers(&mut table, 199)?;
    assert!(rt; table.layout(pointer) == fits(8, 8));
    let pointer = pointers(&mut table, 200)?;
    assert!(rt; table.layout(pointer) == Err(LayoutError::TooDeep));
    let nested = wrapped(&mut table, alloc, 99)?;
    assert!(rt; table.layout(nested) == fits(1, 1));
    let nested = wrapped(&mut table, alloc, 100)?;
    assert!(rt; table.layout(nested) == Err(LayoutError::TooDeep));
    Ok(())
}

/// `u8` in so many arrays of one element, and under as many distinct types, behind a pointer.
fn pointed(table: &mut TypeTable, alloc: Global, levels: u32) -> Result<TyId, AllocError> {
    let mut ty = table.add(Ty::Int { width: Width::U8 })?;
    for level in 0..levels {
        let of = table.add(Ty::Array { count: 1, of: ty })?;
        ty = table.add(Ty::Distinct {
            name: named(alloc, level),
            base: Some(of),
        })?;
    }
    table.add(Ty::Ptr { to: ty })
}

#[test]
fn a_named_type_behind_a_pointer_counts_one(rt: HostRuntime) -> Result<(), AllocError> {
    let alloc = rt.alloc();
    let mut table = TypeTable::new(alloc)?;
    let pointer = pointed(&mut table, alloc, 300)?;
    assert!(rt; table.layout(pointer) == fits(8, 8));
    Ok(())
}

#[test]
fn records_of_a_distinct_struct_lie_in_columns(rt: HostRuntime) -> Result<(), AllocError> {
    let alloc = rt.alloc();
    let mut table = TypeTable::new(alloc)?;
    let byte = table.add(Ty::Int { width: Width::U8 })?;
    let long = table.add(Ty::Int { width: Width::I64 })?;
    // R :: struct {a: u8, b: i64} and D :: distinct R
    let fields = vec![in alloc; Field { name: 1, ty: byte }, Field { name: 2, ty: long }]?;
    let record = table.add(Ty::Struct {
        name: named(alloc, 1),
        fields: Some(fields),
    })?;
    let of = table.add(Ty::Distinct {
        name: named(alloc, 2),
        base: Some(record),
    })?;
    let fixed = table.add(Ty::Soa {
        form: SoaForm::Fixed { count: 3 },
        of,
    })?;
    assert!(rt; table.layout(fixed) == fits(32, 8));
    let slice = table.add(Ty::Soa {
        form: SoaForm::Slice,
        of,
    })?;
    assert!(rt; table.layout(slice) == fits(24, 8));
    let over = table.add(Ty::Soa {
        form: SoaForm::Slice,
        of: record,
    })?;
    assert!(rt; !table.same(slice, over));
    let none = table.add(Ty::Soa {
        form: SoaForm::Slice,
        of: byte,
    })?;
    assert!(rt; table.layout(none) == Err(LayoutError::NoSize));
    Ok(())
}
