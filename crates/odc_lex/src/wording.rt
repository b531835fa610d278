//! What the bytes of a token say beside its kind.

ghost use Rattle.std.specs.Prelude.{◌≡◌};
ghost use Rattle.odc_syntax.specs.lexical.Wording.{name_word, directive_word, text_word, word_of};

use crate::value::has_value;
use odc_syntax::token::{TokenKind, Word};

/// What a token of this kind says.
pub fn word_of(kind: TokenKind, bytes: &[u8]) -> Word
    ensures { result ≡ word_of kind bytes.now }
{
    match kind {
        TokenKind::Name => name_word(bytes),
        TokenKind::Directive => directive_word(bytes),
        TokenKind::Text => text_word(bytes),
        _ => Word::Plain,
    }
}

fn name_word(bytes: &[u8]) -> Word
    ensures { result ≡ name_word bytes.now }
{
    if bytes == b"int".as_slice() {
        Word::Int
    } else {
        Word::Plain
    }
}

fn directive_word(bytes: &[u8]) -> Word
    ensures { result ≡ directive_word bytes.now }
{
    if bytes == b"#soa".as_slice() {
        Word::Soa
    } else if bytes == b"#partial".as_slice() {
        Word::Partial
    } else if bytes == b"#type".as_slice() {
        Word::Type
    } else if bytes == b"#caller_location".as_slice() {
        Word::CallerLocation
    } else {
        Word::Plain
    }
}

fn text_word(bytes: &[u8]) -> Word
    ensures { result ≡ text_word bytes.now }
{
    if has_value(bytes, b"odin".as_slice()) {
        Word::Odin
    } else if has_value(bytes, b"contextless".as_slice()) {
        Word::Contextless
    } else {
        Word::Plain
    }
}
