//! Which operators tokens are.

ghost use Rattle.std.specs.Prelude.{◌≡◌, ◌∷◌, ◌+◌, ◌<◌, true, Some, IfSome, IfNone, ◌↔◌, IsTrue};
ghost use Rattle.odc_syntax.specs.Grammar.{later};
ghost use Rattle.odc_syntax.specs.declared.grammar.Level.TheVariants as level;
ghost use Rattle.odc_syntax.specs.Operators.{prefix_of, operator_of, level_of};
ghost use Rattle.odc_lookahead.specs.Sets.{continues, takes_braces, tighter, weight};
ghost use Rattle.odc_lookahead.specs.Read.{NoOperator, NothingGoesOn};

use crate::suffix::starts_suffix;
use crate::tokens::first;
use odc_syntax::grammar::{Level, Mode};
use odc_syntax::token::{Token, TokenKind};
use odc_syntax::tree::{BinaryOp, UnaryOp};

/// Where an expression stands behind the first token of one that stands so.
pub fn later(mode: Mode) -> Mode
    ensures { result ≡ later mode }
{
    match mode {
        Mode::Free | Mode::Start => Mode::Free,
        Mode::Header => Mode::Header,
    }
}

/// Whether braces may stand behind an operand.
pub fn takes_braces(mode: Mode) -> bool
    ensures { result ≡ takes_braces mode }
{
    match mode {
        Mode::Free | Mode::Start => true,
        Mode::Header => false,
    }
}

/// The operator before an operand.
pub fn prefix_of(kind: TokenKind) -> Option<UnaryOp>
    ensures { result ≡ prefix_of kind }
{
    match kind {
        TokenKind::Plus => Some(UnaryOp::Plus),
        TokenKind::Minus => Some(UnaryOp::Minus),
        TokenKind::Bang => Some(UnaryOp::Not),
        TokenKind::Tilde => Some(UnaryOp::Complement),
        TokenKind::Ampersand => Some(UnaryOp::Address),
        _ => None,
    }
}

/// The operator between two operands.
fn operator_of(kind: TokenKind) -> Option<BinaryOp>
    ensures { result ≡ operator_of kind }
{
    match kind {
        TokenKind::OrOr => Some(BinaryOp::Or),
        TokenKind::AndAnd => Some(BinaryOp::And),
        TokenKind::EqualEqual => Some(BinaryOp::Equal),
        TokenKind::NotEqual => Some(BinaryOp::NotEqual),
        TokenKind::Less => Some(BinaryOp::Less),
        TokenKind::Greater => Some(BinaryOp::Greater),
        TokenKind::LessEqual => Some(BinaryOp::LessEqual),
        TokenKind::GreaterEqual => Some(BinaryOp::GreaterEqual),
        TokenKind::Plus => Some(BinaryOp::Add),
        TokenKind::Minus => Some(BinaryOp::Subtract),
        TokenKind::Bar => Some(BinaryOp::BitOr),
        TokenKind::Tilde => Some(BinaryOp::BitXor),
        TokenKind::Star => Some(BinaryOp::Multiply),
        TokenKind::Slash => Some(BinaryOp::Divide),
        TokenKind::Percent => Some(BinaryOp::Remainder),
        TokenKind::PercentPercent => Some(BinaryOp::Modulo),
        TokenKind::Ampersand => Some(BinaryOp::BitAnd),
        TokenKind::AndNot => Some(BinaryOp::AndNot),
        TokenKind::ShiftLeft => Some(BinaryOp::ShiftLeft),
        TokenKind::ShiftRight => Some(BinaryOp::ShiftRight),
        _ => None,
    }
}

/// How tight an operator binds.
fn level_of(op: BinaryOp) -> Level
    ensures { result ≡ level_of op }
{
    match op {
        BinaryOp::Or => Level::Or,
        BinaryOp::And => Level::And,
        BinaryOp::Equal
        | BinaryOp::NotEqual
        | BinaryOp::Less
        | BinaryOp::Greater
        | BinaryOp::LessEqual
        | BinaryOp::GreaterEqual => Level::Comparison,
        BinaryOp::Add | BinaryOp::Subtract | BinaryOp::BitOr | BinaryOp::BitXor => Level::Sum,
        BinaryOp::Multiply
        | BinaryOp::Divide
        | BinaryOp::Remainder
        | BinaryOp::Modulo
        | BinaryOp::BitAnd
        | BinaryOp::AndNot
        | BinaryOp::ShiftLeft
        | BinaryOp::ShiftRight => Level::Product,
    }
}

/// The level of what stands between the operators of a level, unless that is one operand.
pub fn tighter(level: Level) -> Option<Level>
    ensures is { result ≡ tighter level }
    ensures lighter { IfSome result (λ l. weight l + 2 < weight level) }
{
    match level {
        Level::Or => Some(Level::And),
        Level::And => Some(Level::Comparison),
        Level::Comparison => Some(Level::Sum),
        Level::Sum => Some(Level::Product),
        Level::Product => None,
    }
}

/// Whether two levels are the same.
fn same_level(a: Level, b: Level) -> bool
    ensures { IsTrue result ↔ (a ≡ b) }
{
    a as u8 == b as u8
}

/// Whether any expression that stands so may go on with a token of this kind.
pub fn goes_on(mode: Mode, kind: TokenKind) -> bool
    ensures { result ≡ continues level.Or mode kind }
{
    starts_suffix(mode, kind) || operator_of(kind).is_some()
}

/// A first token with which any expression that stands so may go on, and the tokens behind it.
pub fn going_on(mode: Mode, tokens: &[Token]) -> Option<(Token, &[Token])>
    ensures is { IfSome result (λ r. tokens.now ≡ r.0 ∷ r.1.now) }
    ensures on { IfSome result (λ r. continues level.Or mode r.0.kind ≡ true) }
    ensures none { IfNone result (NothingGoesOn mode tokens.now) }
{
    let (token, rest) = first(tokens)?;
    if goes_on(mode, token.kind) {
        Some((token, rest))
    } else {
        None
    }
}

/// An operator of this level that stands first, its token, and the tokens behind it.
pub fn operator(level: Level, tokens: &[Token]) -> Option<(BinaryOp, Token, &[Token])>
    ensures is { IfSome result (λ r. tokens.now ≡ r.1 ∷ r.2.now) }
    ensures op { IfSome result (λ r. operator_of r.1.kind ≡ Some r.0) }
    ensures level { IfSome result (λ r. level_of r.0 ≡ level) }
    ensures none { IfNone result (NoOperator level tokens.now) }
{
    let (token, rest) = first(tokens)?;
    let op = operator_of(token.kind)?;
    if same_level(level_of(op), level) {
        Some((op, token, rest))
    } else {
        None
    }
}
