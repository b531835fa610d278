//! What is read from the front of some tokens.

use crate::end::End;
use odc_syntax::token::Token;

/// A part of the grammar that is read: its tree, how deep that is, and the tokens behind it.
pub struct Read<'a, T> {
    pub tree: T,
    pub height: u16,
    pub rest: &'a [Token],
}

/// The same of an operand, or of a type that may be one, with how it ends.
pub struct ReadTo<'a, T> {
    pub tree: T,
    pub height: u16,
    pub rest: &'a [Token],
    pub end: End,
}

/// What stands before a closing token, and that token.
pub struct Closed<T> {
    pub part: T,
    pub close: Token,
}
