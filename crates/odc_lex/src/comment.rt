//! Comments.

ghost use Rattle.std.specs.Prelude.{ℕ, List, ◌<◌, ◌≤◌, ◌+◌, ◌^◌, ◌∷◌, ◌≡◌, length, drop, IfSome, IfNone};
ghost use Rattle.std.specs.Bool.{OnTrue, OnFalse};
ghost use Rattle.odc_syntax.specs.lexical.Comments.{Closes, IsLineComment, IsBlockComment, EndsLine};
ghost use Rattle.odc_syntax.specs.lexical.Longest.{FindsOnlyFront};
ghost use Rattle.odc_lex.specs.Comment.{CanClose, IsStep};

use crate::character::first_character;
use crate::stretch::begins_with;
use crate::unit::{CharacterClass, Unit, run_len};

/// Whether the text begins with these two bytes.
#[inline(always)]
fn begins_with_both(first: u8, second: u8, text: &[u8]) -> bool
    ensures yes { OnTrue result (text.now ≡ first ∷ second ∷ drop 2 text.now) }
    ensures no { OnFalse result ((t : List ℕ) → text.now ≡ first ∷ second ∷ t → ⊥) }
{
    text.len() >= 2 && text[0] == first && text[1] == second
}

/// Whether the text is at the end of a line.
#[inline(always)]
fn ends_line(text: &[u8]) -> bool
    ensures yes { OnTrue result (EndsLine text.now) }
    ensures no { OnFalse result (EndsLine text.now → ⊥) }
{
    match text.first() {
        Some(b) => *b == b'\n',
        None => true,
    }
}

/// A comment that goes to the end of its line.
pub fn line_comment_len(text: &[u8]) -> Option<usize>
    ensures { FindsOnlyFront IsLineComment text.now result }
{
    if !begins_with_both(b'/', b'/', text) {
        return None;
    }
    let inside = &text[2..];
    let len = run_len(Unit::Character(CharacterClass::LineComment), inside);
    if ends_line(&inside[len..]) {
        Some(len + 2)
    } else {
        None
    }
}

/// A comment that has an end of its own, and may hold others like it.
pub fn block_comment_len(text: &[u8]) -> Option<usize>
    ensures { FindsOnlyFront (λ w rest. IsBlockComment w) text.now result }
{
    if !begins_with_both(b'/', b'*', text) {
        return None;
    }
    match closing_len(&text[2..]) {
        Some(len) => Some(len + 2),
        None => None,
    }
}

/// One step of reading comments: how many are open behind it, and how many bytes it takes.
#[derive(Clone, Copy)]
pub struct Step {
    pub depth: usize,
    pub len: usize,
}

/// The next mark or character where some comments are open.
fn comment_step(depth: usize, text: &[u8]) -> Option<Step>
    requires some { 0 < depth }
    requires few { depth + 1 < 2 ^ 64 }
    ensures some { IfSome result (IsStep depth text.now) }
    ensures none { IfNone result (CanClose depth text.now → ⊥) }
{
    if begins_with_both(b'*', b'/', text) {
        return Some(Step {
            depth: depth - 1,
            len: 2,
        });
    }
    if begins_with_both(b'/', b'*', text) {
        return Some(Step {
            depth: depth + 1,
            len: 2,
        });
    }
    match first_character(text) {
        Some(first) => Some(Step {
            depth,
            len: first.len,
        }),
        None => None,
    }
}

/// How many bytes come up to the end of the comment that is open.
fn closing_len(text: &[u8]) -> Option<usize>
    ensures { FindsOnlyFront (λ w rest. Closes 1 w) text.now result }
{
    let mut depth = 1;
    let mut at = 0;
    while depth > 0 {
        match comment_step(depth, &text[at..]) {
            Some(step) => {
                depth = step.depth;
                at += step.len;
            }
            None => return None,
        }
    }
    Some(at)
}
