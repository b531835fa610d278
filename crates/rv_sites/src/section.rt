//! The bytes of the two sections, and reading them.

pub mod check;
mod copy;
pub mod view;
pub mod write;
