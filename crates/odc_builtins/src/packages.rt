ghost use Rattle.std.specs.Prelude.{◌≡◌, ◌≢◌, Some, None, IfSome, IfNone};
ghost use Rattle.odc_builtins.specs.Libraries.{path_of, text_of};

use crate::texts::{MEM, RUNTIME};

/// A package of the library. All four can be imported; `Runtime` and `Mem` are source text, while the
/// procedures of `Fmt` and `Os` are the compiler's own.
#[derive(Clone, Copy)]
pub enum LibraryPackage {
    /// `base:runtime`
    Runtime,
    /// `core:mem`
    Mem,
    /// `core:fmt`
    Fmt,
    /// `core:os`
    Os,
}

/// The package of the library that an import path names, also one that has no text.
pub fn library_package(path: &str) -> Option<LibraryPackage>
    ensures some { IfSome result (λ l. path_of l ≡ path.now) }
    ensures none { IfNone result ((l : _) → path_of l ≢ path.now) }
{
    match path {
        "base:runtime" => Some(LibraryPackage::Runtime),
        "core:mem" => Some(LibraryPackage::Mem),
        "core:fmt" => Some(LibraryPackage::Fmt),
        "core:os" => Some(LibraryPackage::Os),
        _ => None,
    }
}

/// The source text of the package of the library that an import path names. There is none at `core:fmt` and
/// `core:os`, which `library_package` knows, nor at any path that names no library.
pub fn library(path: &str) -> Option<&'static str>
    ensures some { IfSome result (λ t. (l : _) × (path_of l ≡ path.now) × (text_of l ≡ Some t.now)) }
    ensures none { IfNone result ((l : _) → path_of l ≡ path.now → text_of l ≡ None) }
{
    match path {
        "base:runtime" => Some(RUNTIME),
        "core:mem" => Some(MEM),
        _ => None,
    }
}
