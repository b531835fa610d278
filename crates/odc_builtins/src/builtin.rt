ghost use Rattle.std.specs.Prelude.{◌≡◌, ◌≢◌, IfSome, IfNone};
ghost use Rattle.odc_builtins.specs.Names.{name_of, home_of};

/// The built-in procedures of the language (Odin overview, "Built-in procedures").
#[derive(Clone, Copy)]
pub enum Builtin {
    /// The number of elements of an array, slice, dynamic array or `#soa` container, or of bytes of a string.
    Len,
    /// The number of elements that a dynamic array has room for.
    Cap,
    /// The address where the elements of a slice, a dynamic array or a string begin.
    RawData,
    /// The size of a type in bytes.
    SizeOf,
    /// The alignment of a type in bytes.
    AlignOf,
    /// The offset of a struct's field in bytes.
    OffsetOf,
    /// The lesser of two integers.
    Min,
    /// The greater of two integers.
    Max,
    /// An integer without its sign.
    Abs,
    /// Moves the elements of one slice into another.
    Copy,
    /// Stops the program where a condition is false.
    Assert,
    /// Writes a text and stops the program.
    Panic,
    /// Makes a dynamic array empty.
    Clear,
    /// Takes the last element of a dynamic array.
    Pop,
    /// Takes an element out of a dynamic array and closes up behind it.
    OrderedRemove,
    /// Takes an element out of a dynamic array and moves the last one into its place.
    UnorderedRemove,
    /// The memory of the heap, whole.
    HeapRegion,
    /// The memory for temporary values, whole.
    TempRegion,
    /// The bytes from an address on.
    ByteSlice,
    /// Asks an allocator for one value.
    New,
    /// Asks an allocator for the elements of a slice or a dynamic array.
    Make,
    /// Adds values at the end of a dynamic array.
    Append,
    /// Gives a dynamic array room for a number of elements.
    Reserve,
    /// Gives a dynamic array a length.
    Resize,
    /// Gives the elements of a slice, a string or a dynamic array back to an allocator.
    Delete,
    /// Gives one value back to an allocator.
    Free,
    /// Gives all memory back to an allocator.
    FreeAll,
}

/// Where the name of a built-in procedure is known.
#[derive(Clone, Copy)]
pub enum Home {
    /// In every package, by its bare name.
    Everywhere,
    /// In `base:runtime` by its bare name, and elsewhere as a member of that package.
    Runtime,
}

/// The built-in procedure that a bare name stands for; `known_in` tells in which packages.
pub fn built_in(name: &str) -> Option<Builtin>
    ensures some { IfSome result (λ b. name_of b ≡ name.now) }
    ensures none { IfNone result ((b : _) → name_of b ≢ name.now) }
{
    match name {
        "len" => Some(Builtin::Len),
        "cap" => Some(Builtin::Cap),
        "raw_data" => Some(Builtin::RawData),
        "size_of" => Some(Builtin::SizeOf),
        "align_of" => Some(Builtin::AlignOf),
        "offset_of" => Some(Builtin::OffsetOf),
        "min" => Some(Builtin::Min),
        "max" => Some(Builtin::Max),
        "abs" => Some(Builtin::Abs),
        "copy" => Some(Builtin::Copy),
        "assert" => Some(Builtin::Assert),
        "panic" => Some(Builtin::Panic),
        "clear" => Some(Builtin::Clear),
        "pop" => Some(Builtin::Pop),
        "ordered_remove" => Some(Builtin::OrderedRemove),
        "unordered_remove" => Some(Builtin::UnorderedRemove),
        "heap_region" => Some(Builtin::HeapRegion),
        "temp_region" => Some(Builtin::TempRegion),
        "byte_slice" => Some(Builtin::ByteSlice),
        "new" => Some(Builtin::New),
        "make" => Some(Builtin::Make),
        "append" => Some(Builtin::Append),
        "reserve" => Some(Builtin::Reserve),
        "resize" => Some(Builtin::Resize),
        "delete" => Some(Builtin::Delete),
        "free" => Some(Builtin::Free),
        "free_all" => Some(Builtin::FreeAll),
        _ => None,
    }
}

/// The bare name of a built-in procedure.
pub fn name(b: Builtin) -> &'static str
    ensures { result.now ≡ name_of b }
{
    match b {
        Builtin::Len => "len",
        Builtin::Cap => "cap",
        Builtin::RawData => "raw_data",
        Builtin::SizeOf => "size_of",
        Builtin::AlignOf => "align_of",
        Builtin::OffsetOf => "offset_of",
        Builtin::Min => "min",
        Builtin::Max => "max",
        Builtin::Abs => "abs",
        Builtin::Copy => "copy",
        Builtin::Assert => "assert",
        Builtin::Panic => "panic",
        Builtin::Clear => "clear",
        Builtin::Pop => "pop",
        Builtin::OrderedRemove => "ordered_remove",
        Builtin::UnorderedRemove => "unordered_remove",
        Builtin::HeapRegion => "heap_region",
        Builtin::TempRegion => "temp_region",
        Builtin::ByteSlice => "byte_slice",
        Builtin::New => "new",
        Builtin::Make => "make",
        Builtin::Append => "append",
        Builtin::Reserve => "reserve",
        Builtin::Resize => "resize",
        Builtin::Delete => "delete",
        Builtin::Free => "free",
        Builtin::FreeAll => "free_all",
    }
}

/// Where the name of a built-in procedure is known.
pub fn known_in(b: Builtin) -> Home
    ensures { result ≡ home_of b }
{
    match b {
        Builtin::HeapRegion | Builtin::TempRegion | Builtin::ByteSlice => Home::Runtime,
        _ => Home::Everywhere,
    }
}
