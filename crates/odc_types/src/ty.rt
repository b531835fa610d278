use crate::width::Width;

/// The number of a type in a `TypeTable`.
#[derive(Clone, Copy, PartialEq, Eq, Hash)]
pub struct TyId {
    pub index: u32,
}

/// Where the text of a named type stands.
#[derive(Clone, Copy)]
pub struct TypePlace {
    pub file: u32,
    pub line: u32,
    pub column: u32,
}

/// What tells a struct, union, enum or distinct type from every other: the place of its text, and the instance around
/// it, which is the types and numbers that the parameters of the procedures around it have there.
#[derive(Drop)]
pub struct TypeName {
    pub at: TypePlace,
    pub types: Vec<TyId>,
    pub numbers: Vec<i128>,
}

/// A field of a struct.
#[derive(Clone, Copy)]
pub struct Field {
    pub name: u32,
    pub ty: TyId,
}

/// A name of an enum, and its value.
#[derive(Clone, Copy)]
pub struct Enumerator {
    pub name: u32,
    pub value: i128,
}

/// A parameter of a procedure type, and whether an argument for it may be left out.
#[derive(Clone, Copy)]
pub struct Param {
    pub name: u32,
    pub ty: TyId,
    pub optional: bool,
}

/// Whether a procedure is passed a context.
#[derive(Clone, Copy, PartialEq, Eq)]
pub enum Convention {
    Odin,
    Contextless,
}

/// The list that a `#soa` container stands for.
#[derive(Clone, Copy)]
pub enum SoaForm {
    /// `#soa[count]T`
    Fixed { count: u64 },
    /// `#soa[]T`
    Slice,
    /// `#soa[dynamic]T`
    Dyn,
}

/// A type, with its parts by number. A struct, union, enum or distinct type may stand in a table without its parts, as
/// long as these aren't known.
#[derive(Drop)]
pub enum Ty {
    /// `bool`
    Bool,
    /// `int` to `u64`
    Int {
        width: Width,
    },
    /// `rune`
    Rune,
    /// `string`
    Text,
    /// `rawptr`
    RawPtr,
    /// `^T`
    Ptr {
        to: TyId,
    },
    /// `[count]T`
    Array {
        count: u64,
        of: TyId,
    },
    /// `[]T`
    Slice {
        of: TyId,
    },
    /// `[dynamic]T`
    Dyn {
        of: TyId,
    },
    /// A `#soa` container over a struct.
    Soa {
        form: SoaForm,
        of: TyId,
    },
    /// `struct {..}`
    Struct {
        name: TypeName,
        fields: Option<Vec<Field>>,
    },
    /// `union {..}`
    Union {
        name: TypeName,
        variants: Option<Vec<TyId>>,
    },
    /// `enum base {..}`; without a base it is over `int`.
    Enum {
        name: TypeName,
        base: Option<Width>,
        enumerators: Option<Vec<Enumerator>>,
    },
    /// `distinct T`
    Distinct {
        name: TypeName,
        base: Option<TyId>,
    },
    /// `proc(..) -> (..)`
    Proc {
        convention: Convention,
        params: Vec<Param>,
        results: Vec<TyId>,
    },
}
