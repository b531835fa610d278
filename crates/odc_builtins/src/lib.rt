// The names that the language gives every package without an import, and the library that stands outside
// the folder of a program. It stands on nothing.
//
// `built_in` tells which built-in procedure a name is. `known_in` tells where that name is known: in every package, or
// in `base:runtime` alone. `library_package` tells which library a path names, and `library` gives the text of those that
// have one. The texts are data: this crate says under which path each stands, and nothing of what they mean. `predeclared_as`
// tells which type or constant a name is, `refused_as` which names are refused where they are used, and `member_of` what a name
// is in `core:fmt` and `core:os`.
#![tactic(auto)]

mod builtin;
mod members;
mod packages;
mod texts;
mod universe;

pub use builtin::{Builtin, Home, built_in, known_in, name};
pub use members::{Member, MemberKind, member_kind, member_of};
pub use packages::{LibraryPackage, library, library_package};
pub use texts::{MEM, RUNTIME};
pub use universe::{Predeclared, Refusal, RefusedName, predeclared_as, refused_as, refused_for};
