// The types of the language: their identity, size, alignment and offsets, and the arithmetic of the integer types.
//
// It stands on no crate of the compiler. A `TypeTable` holds each type once, by number, with the numbers of its parts;
// contracts see it as the list of these nodes. What two types must share to be one, and how a type is laid out, is defined
// on trees, to which the numbers of a table unfold (`specs/Identity.antt`, `specs/Layout.antt`). Two numbers of a table
// stand for one type exactly where they are equal. A type has a size where its parts by value come to an end. `layout` tells
// the size and alignment of a type that has one and is within the limits, or why not; `size`, `align` and `offset` ask for
// a size below 2 to 64. The table keeps what is known of each type, and each type without a size is on the list of a type
// that it waits for, so that all types are measured in time linear in their parts.
#![tactic(auto)]

mod extent;
mod holds;
mod index;
mod kept;
mod key;
mod limits;
mod measure;
mod table;
mod ty;
mod waiter;
mod width;

pub use limits::{DEEPEST, LARGEST, LayoutError, SizeAlign};
pub use table::TypeTable;
pub use ty::{Convention, Enumerator, Field, Param, SoaForm, Ty, TyId, TypeName, TypePlace};
pub use width::{Width, divide, wrap};
