//! What the lexer knows between two pieces: the tokens so far, the open brackets, and whether a newline
//! ends the statement.

ghost use Rattle.std.specs.Prelude.{◌≡◌, ◌+◌, ◌<◌, ◌≤◌, ◌^◌, ◌-◌, ◌++◌, length, OnOk, IfOk, []};
ghost use Rattle.odc_syntax.specs.lexical.Pieces.{blank, newline, token, is_number_kind};
ghost use Rattle.odc_syntax.specs.lexical.Lexes.{behind, ends_statement, inserted, is_else, joins_lines, innermost, open_behind};
ghost use Rattle.odc_lex.specs.State.{Steps, HasRoom, before_token, before_end, ending_behind, ending_at_newline, total};
ghost use Rattle.odc_lex.specs.Piece.{piece_of};

use crate::piece::Form;
use crate::wording::word_of;
use odc_syntax::token::{Token, TokenKind, Tokens, Word};
use odc_text::place::Place;
use std::alloc::AllocError;

/// How the statement stands behind the last token.
#[derive(Clone, Copy)]
pub enum Ending {
    /// No newline ends it.
    Never,
    /// A newline ends it.
    AtNewline,
    /// A newline has ended it with this semicolon, unless `else` follows.
    Ended(Token),
}

/// Where the lexer stands.
#[derive(Drop)]
pub struct State {
    /// The tokens so far, but for a semicolon that `else` may drop.
    pub tokens: Vec<Token>,
    /// The open brackets, the innermost last.
    pub open: Vec<TokenKind>,
    pub ending: Ending,
    /// Where the next piece begins.
    pub at: Place,
    pub from: u32,
    /// Whether the last piece was a number.
    pub behind_number: bool,
}

/// The place behind some bytes.
pub fn behind(at: Place, bytes: &[u8]) -> Place
    requires line { at.line + length bytes.now < 2 ^ 32 }
    requires column { at.column + length bytes.now < 2 ^ 32 }
    ensures { result ≡ behind at bytes.now }
{
    let mut line = at.line;
    let mut column = at.column;
    for b in bytes {
        if *b == b'\n' {
            line += 1;
            column = 1;
        } else {
            column += 1;
        }
    }
    Place {
        file: at.file,
        line,
        column,
    }
}

/// A semicolon that no byte writes.
fn inserted(at: Place, from: u32) -> Token
    ensures { result ≡ inserted at from }
{
    Token {
        kind: TokenKind::Semicolon,
        word: Word::Plain,
        at,
        from,
        to: from,
    }
}

/// Whether a newline behind such a token ends the statement.
fn ends_statement(kind: TokenKind) -> bool
    ensures { result ≡ ends_statement kind }
{
    match kind {
        TokenKind::Name
        | TokenKind::Int
        | TokenKind::Float
        | TokenKind::Rune
        | TokenKind::Text
        | TokenKind::Context
        | TokenKind::Break
        | TokenKind::Continue
        | TokenKind::Fallthrough
        | TokenKind::Return
        | TokenKind::OrReturn
        | TokenKind::Dashes
        | TokenKind::Caret
        | TokenKind::Question
        | TokenKind::CloseParen
        | TokenKind::CloseBracket
        | TokenKind::CloseBrace => true,
        _ => false,
    }
}

fn is_else(kind: TokenKind) -> bool
    ensures { result ≡ is_else kind }
{
    match kind {
        TokenKind::Else => true,
        _ => false,
    }
}

fn is_number(kind: TokenKind) -> bool
    ensures { result ≡ is_number_kind kind }
{
    match kind {
        TokenKind::Int | TokenKind::Float => true,
        _ => false,
    }
}

/// Whether these open brackets keep a newline from ending a statement.
fn joins_lines(open: &[TokenKind]) -> bool
    ensures { result ≡ joins_lines (innermost «open».now) }
{
    match open.last() {
        Some(TokenKind::OpenParen | TokenKind::OpenBracket) => true,
        _ => false,
    }
}

/// The open brackets behind a token.
fn open_or_close(open: &mut Vec<TokenKind>, kind: TokenKind) -> Result<(), AllocError>
    ensures { OnOk result («open».new.items ≡ open_behind «open».old.items kind) }
{
    match kind {
        TokenKind::OpenParen | TokenKind::OpenBracket | TokenKind::OpenBrace => {
            open.push(kind)?;
        }
        TokenKind::CloseParen | TokenKind::CloseBracket | TokenKind::CloseBrace => {
            let _ = open.pop();
        }
        _ => {}
    }
    Ok(())
}

/// Whether a newline ends the statement behind a token, with these brackets open.
fn ending_behind(kind: TokenKind, open: &[TokenKind]) -> Ending
    ensures { result ≡ ending_behind kind «open».now }
{
    if ends_statement(kind) && !joins_lines(open) {
        Ending::AtNewline
    } else {
        Ending::Never
    }
}

/// The same behind a newline that stands at this place.
fn ending_at_newline(ending: Ending, at: Place, from: u32) -> Ending
    ensures { result ≡ ending_at_newline ending at from }
{
    match ending {
        Ending::Never => Ending::Never,
        Ending::AtNewline => Ending::Ended(inserted(at, from)),
        Ending::Ended(semicolon) => Ending::Ended(semicolon),
    }
}

/// Writes the semicolon that comes before a token of this kind, if one does.
fn write_before_token(
    tokens: &mut Vec<Token>,
    ending: Ending,
    kind: TokenKind,
) -> Result<(), AllocError>
    ensures { OnOk result (tokens.new.items ≡ tokens.old.items ++ before_token ending kind) }
{
    if let Ending::Ended(semicolon) = ending {
        if !is_else(kind) {
            tokens.push(semicolon)?;
        }
    }
    Ok(())
}

/// Writes the semicolon that comes before the end, if one does.
fn write_before_end(
    tokens: &mut Vec<Token>,
    ending: Ending,
    at: Place,
    from: u32,
) -> Result<(), AllocError>
    ensures { OnOk result (tokens.new.items ≡ tokens.old.items ++ before_end ending at from) }
{
    match ending {
        Ending::Never => {}
        Ending::AtNewline => tokens.push(inserted(at, from))?,
        Ending::Ended(semicolon) => tokens.push(semicolon)?,
    }
    Ok(())
}

impl State {
    /// Goes behind white space.
    pub fn pass_blank(&mut self, bytes: &[u8])
        requires { HasRoom self.old bytes.now }
        ensures { Steps self.old self.new (blank bytes.now) }
    {
        self.at = behind(self.at, bytes);
        self.from += bytes.len() as u32;
        self.behind_number = false;
    }

    /// Goes behind what counts as a newline.
    pub fn pass_newline(&mut self, bytes: &[u8])
        requires { HasRoom self.old bytes.now }
        ensures { Steps self.old self.new (newline bytes.now) }
    {
        self.ending = ending_at_newline(self.ending, self.at, self.from);
        self.at = behind(self.at, bytes);
        self.from += bytes.len() as u32;
        self.behind_number = false;
    }

    /// Writes a token and goes behind it.
    pub fn pass_token(&mut self, kind: TokenKind, bytes: &[u8]) -> Result<(), AllocError>
        requires { HasRoom self.old bytes.now }
        ensures { OnOk result (Steps self.old self.new (token kind bytes.now)) }
    {
        let from = self.from;
        let to = from + bytes.len() as u32;
        let word = word_of(kind, bytes);
        write_before_token(&mut self.tokens, self.ending, kind)?;
        self.tokens.push(Token {
            kind,
            word,
            at: self.at,
            from,
            to,
        })?;
        open_or_close(&mut self.open, kind)?;
        self.ending = ending_behind(kind, self.open.as_slice());
        self.at = behind(self.at, bytes);
        self.from = to;
        self.behind_number = is_number(kind);
        Ok(())
    }

    /// Goes behind a piece.
    pub fn pass(&mut self, form: Form, bytes: &[u8]) -> Result<(), AllocError>
        requires { HasRoom self.old bytes.now }
        ensures { OnOk result (Steps self.old self.new (piece_of form bytes.now)) }
    {
        match form {
            Form::Blank => {
                self.pass_blank(bytes);
                Ok(())
            }
            Form::Newline => {
                self.pass_newline(bytes);
                Ok(())
            }
            Form::Token(kind) => self.pass_token(kind, bytes),
        }
    }

    /// The tokens, at the end of the text.
    pub fn finish(self) -> Result<Tokens, AllocError>
        ensures tokens { IfOk result (λ tokens. tokens.list.items ≡ total self []) }
        ensures end { IfOk result (λ tokens. tokens.end ≡ self.at) }
    {
        let State {
            tokens: mut list,
            open: _open,
            ending,
            at,
            from,
            behind_number: _,
        } = self;
        write_before_end(&mut list, ending, at, from)?;
        Ok(Tokens { list, end: at })
    }
}
