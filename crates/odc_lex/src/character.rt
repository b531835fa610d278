//! The character at the front of a text.

ghost use Rattle.std.specs.Prelude.{IfSome, IfNone};
ghost use Rattle.odc_syntax.specs.lexical.Words.{IsCharacter};
ghost use Rattle.odc_syntax.specs.lexical.Longest.{Absent};
ghost use Rattle.odc_syntax.specs.lexical.Comments.{is_any};
ghost use Rattle.odc_lex.specs.Character.{IsFirstCharacter};

use bstr::decode_utf8;

/// A character and how many bytes it takes.
#[derive(Clone, Copy)]
pub struct Character {
    pub code: char,
    pub len: usize,
}

/// The character that the text begins with, if it begins with a whole one.
#[inline]
pub fn first_character(text: &[u8]) -> Option<Character>
    ensures some { IfSome result (IsFirstCharacter text.now) }
    ensures none { IfNone result (Absent (IsCharacter is_any) text.now) }
{
    match decode_utf8(text) {
        (Some(code), len) => Some(Character { code, len }),
        (None, _) => None,
    }
}
