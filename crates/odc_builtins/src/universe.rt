// The names that the language gives every package, and those that it refuses.
ghost use Rattle.std.specs.Prelude.{◌≡◌, ◌≢◌, IfSome, IfNone};
ghost use Rattle.odc_builtins.specs.Universe.{predeclared_name, refused_name, refusal_of};

/// A type or constant that is known in every package (Odin overview, "Basic types").
#[derive(Clone, Copy)]
pub enum Predeclared {
    /// `bool`
    Bool,
    /// `int`
    Int,
    /// `uint`
    Uint,
    /// `i8`
    I8,
    /// `i16`
    I16,
    /// `i32`
    I32,
    /// `i64`
    I64,
    /// `u8`
    U8,
    /// `u16`
    U16,
    /// `u32`
    U32,
    /// `u64`
    U64,
    /// `byte`, another name of `u8`
    Byte,
    /// `rune`
    Rune,
    /// `string`
    Text,
    /// `rawptr`
    RawPtr,
    /// the truth value
    True,
    /// the other one
    False,
    /// the zero of pointers, slices, unions and the like
    Nil,
}

/// A name that Odin knows in every package and this profile doesn't have. It is refused where it is used and no declaration
/// gives it.
#[derive(Clone, Copy)]
pub enum RefusedName {
    /// `f16`
    F16,
    /// `f32`
    F32,
    /// `f64`
    F64,
    /// `complex32`
    Complex32,
    /// `complex64`
    Complex64,
    /// `complex128`
    Complex128,
    /// `quaternion64`
    Quaternion64,
    /// `quaternion128`
    Quaternion128,
    /// `quaternion256`
    Quaternion256,
    /// `any`
    Any,
    /// `type_info_of`
    TypeInfoOf,
    /// `typeid_of`
    TypeidOf,
    /// `cstring`
    Cstring,
    /// `uintptr`
    Uintptr,
    /// `i128`
    I128,
    /// `u128`
    U128,
    /// `b8`
    B8,
    /// `b16`
    B16,
    /// `b32`
    B32,
    /// `b64`
    B64,
    /// `i16le`
    I16Le,
    /// `i16be`
    I16Be,
    /// `i32le`
    I32Le,
    /// `i32be`
    I32Be,
    /// `i64le`
    I64Le,
    /// `i64be`
    I64Be,
    /// `i128le`
    I128Le,
    /// `i128be`
    I128Be,
    /// `u16le`
    U16Le,
    /// `u16be`
    U16Be,
    /// `u32le`
    U32Le,
    /// `u32be`
    U32Be,
    /// `u64le`
    U64Le,
    /// `u64be`
    U64Be,
    /// `u128le`
    U128Le,
    /// `u128be`
    U128Be,
    /// `soa_zip`
    SoaZip,
    /// `soa_unzip`
    SoaUnzip,
}

/// Why a name is refused.
#[derive(Clone, Copy, PartialEq, Eq)]
pub enum Refusal {
    /// A floating-point, complex or quaternion type: N01.
    Float,
    /// Types as values: N04.
    TypeInfo,
    /// Addresses as numbers and C strings: N05.
    Address,
    /// An integer or truth type of another size or byte order: N07.
    Integer,
    /// Joining columns into records and back: N14.
    Soa,
}

/// The type or constant that a bare name stands for where no declaration gives it.
pub fn predeclared_as(name: &str) -> Option<Predeclared>
    ensures some { IfSome result (λ n. predeclared_name n ≡ name.now) }
    ensures none { IfNone result ((n : _) → predeclared_name n ≢ name.now) }
{
    match name {
        "bool" => Some(Predeclared::Bool),
        "int" => Some(Predeclared::Int),
        "uint" => Some(Predeclared::Uint),
        "i8" => Some(Predeclared::I8),
        "i16" => Some(Predeclared::I16),
        "i32" => Some(Predeclared::I32),
        "i64" => Some(Predeclared::I64),
        "u8" => Some(Predeclared::U8),
        "u16" => Some(Predeclared::U16),
        "u32" => Some(Predeclared::U32),
        "u64" => Some(Predeclared::U64),
        "byte" => Some(Predeclared::Byte),
        "rune" => Some(Predeclared::Rune),
        "string" => Some(Predeclared::Text),
        "rawptr" => Some(Predeclared::RawPtr),
        "true" => Some(Predeclared::True),
        "false" => Some(Predeclared::False),
        "nil" => Some(Predeclared::Nil),
        _ => None,
    }
}

/// The refused name that a bare name is.
pub fn refused_as(name: &str) -> Option<RefusedName>
    ensures some { IfSome result (λ n. refused_name n ≡ name.now) }
    ensures none { IfNone result ((n : _) → refused_name n ≢ name.now) }
{
    match name {
        "f16" => Some(RefusedName::F16),
        "f32" => Some(RefusedName::F32),
        "f64" => Some(RefusedName::F64),
        "complex32" => Some(RefusedName::Complex32),
        "complex64" => Some(RefusedName::Complex64),
        "complex128" => Some(RefusedName::Complex128),
        "quaternion64" => Some(RefusedName::Quaternion64),
        "quaternion128" => Some(RefusedName::Quaternion128),
        "quaternion256" => Some(RefusedName::Quaternion256),
        "any" => Some(RefusedName::Any),
        "type_info_of" => Some(RefusedName::TypeInfoOf),
        "typeid_of" => Some(RefusedName::TypeidOf),
        "cstring" => Some(RefusedName::Cstring),
        "uintptr" => Some(RefusedName::Uintptr),
        "i128" => Some(RefusedName::I128),
        "u128" => Some(RefusedName::U128),
        "b8" => Some(RefusedName::B8),
        "b16" => Some(RefusedName::B16),
        "b32" => Some(RefusedName::B32),
        "b64" => Some(RefusedName::B64),
        "i16le" => Some(RefusedName::I16Le),
        "i16be" => Some(RefusedName::I16Be),
        "i32le" => Some(RefusedName::I32Le),
        "i32be" => Some(RefusedName::I32Be),
        "i64le" => Some(RefusedName::I64Le),
        "i64be" => Some(RefusedName::I64Be),
        "i128le" => Some(RefusedName::I128Le),
        "i128be" => Some(RefusedName::I128Be),
        "u16le" => Some(RefusedName::U16Le),
        "u16be" => Some(RefusedName::U16Be),
        "u32le" => Some(RefusedName::U32Le),
        "u32be" => Some(RefusedName::U32Be),
        "u64le" => Some(RefusedName::U64Le),
        "u64be" => Some(RefusedName::U64Be),
        "u128le" => Some(RefusedName::U128Le),
        "u128be" => Some(RefusedName::U128Be),
        "soa_zip" => Some(RefusedName::SoaZip),
        "soa_unzip" => Some(RefusedName::SoaUnzip),
        _ => None,
    }
}

/// Why a name is refused.
pub fn refused_for(name: RefusedName) -> Refusal
    ensures { result ≡ refusal_of name }
{
    match name {
        RefusedName::F16
        | RefusedName::F32
        | RefusedName::F64
        | RefusedName::Complex32
        | RefusedName::Complex64
        | RefusedName::Complex128
        | RefusedName::Quaternion64
        | RefusedName::Quaternion128
        | RefusedName::Quaternion256 => Refusal::Float,
        RefusedName::Any | RefusedName::TypeInfoOf | RefusedName::TypeidOf => Refusal::TypeInfo,
        RefusedName::Cstring | RefusedName::Uintptr => Refusal::Address,
        RefusedName::SoaZip | RefusedName::SoaUnzip => Refusal::Soa,
        RefusedName::I128
        | RefusedName::U128
        | RefusedName::B8
        | RefusedName::B16
        | RefusedName::B32
        | RefusedName::B64
        | RefusedName::I16Le
        | RefusedName::I16Be
        | RefusedName::I32Le
        | RefusedName::I32Be
        | RefusedName::I64Le
        | RefusedName::I64Be
        | RefusedName::I128Le
        | RefusedName::I128Be
        | RefusedName::U16Le
        | RefusedName::U16Be
        | RefusedName::U32Le
        | RefusedName::U32Be
        | RefusedName::U64Le
        | RefusedName::U64Be
        | RefusedName::U128Le
        | RefusedName::U128Be => Refusal::Integer,
    }
}
