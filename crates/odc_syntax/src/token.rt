//! Tokens: the words and signs of a source text, with their places.

use odc_text::place::Place;

/// The tokens of a source text, and the place just past its last byte.
#[derive(Drop)]
pub struct Tokens {
    pub list: Vec<Token>,
    pub end: Place,
}

/// A token, where it begins, and the bytes of the text that it covers, from `from` up to `to`. A
/// semicolon that a newline stands for covers none.
#[derive(Clone, Copy)]
pub struct Token {
    pub kind: TokenKind,
    pub word: Word,
    pub at: Place,
    pub from: u32,
    pub to: u32,
}

/// What the bytes of a name, a directive or a string say, where a rule of the grammar asks for more
/// than the kind.
#[derive(Clone, Copy)]
pub enum Word {
    /// Anything else.
    Plain,
    /// The name `int`.
    Int,
    /// `#soa`
    Soa,
    /// `#partial`
    Partial,
    /// `#type`
    Type,
    /// `#caller_location`
    CallerLocation,
    /// A string of the value `odin`, in double quotes or in backquotes; an escape may write a letter.
    Odin,
    /// A string of the value `contextless`.
    Contextless,
}

/// What kind of token it is. What a name, a literal or a directive says is in its bytes.
#[derive(Clone, Copy)]
pub enum TokenKind {
    /// A name that is no keyword.
    Name,
    /// An integer.
    Int,
    /// A number with a fraction, an exponent or an imaginary unit. The language has none.
    Float,
    /// A character in single quotes.
    Rune,
    /// A string, in double quotes or in backquotes.
    Text,
    /// `#` and a name.
    Directive,

    /// `package`
    Package,
    /// `import`
    Import,
    /// `proc`
    Proc,
    /// `struct`
    Struct,
    /// `union`
    Union,
    /// `enum`
    Enum,
    /// `distinct`
    Distinct,
    /// `dynamic`
    Dynamic,
    /// `if`
    If,
    /// `else`
    Else,
    /// `for`
    For,
    /// `in`
    In,
    /// `switch`
    Switch,
    /// `case`
    Case,
    /// `return`
    Return,
    /// `break`
    Break,
    /// `continue`
    Continue,
    /// `fallthrough`
    Fallthrough,
    /// `defer`
    Defer,
    /// `do`
    Do,
    /// `cast`
    Cast,
    /// `or_return`
    OrReturn,
    /// `context`
    Context,
    /// `typeid`
    Typeid,

    /// `matrix`, which the language refuses, as all up to `not_in`.
    Matrix,
    /// `map`
    Map,
    /// `transmute`
    Transmute,
    /// `auto_cast`
    AutoCast,
    /// `bit_set`
    BitSet,
    /// `bit_field`
    BitField,
    /// `using`
    Using,
    /// `where`
    Where,
    /// `foreign`
    Foreign,
    /// `asm`
    Asm,
    /// `when`
    When,
    /// `or_else`
    OrElse,
    /// `or_break`
    OrBreak,
    /// `or_continue`
    OrContinue,
    /// `not_in`
    NotIn,

    /// `(`
    OpenParen,
    /// `)`
    CloseParen,
    /// `[`
    OpenBracket,
    /// `]`
    CloseBracket,
    /// `{`
    OpenBrace,
    /// `}`
    CloseBrace,
    /// `,`
    Comma,
    /// `;`, written or stood for by a newline.
    Semicolon,
    /// `:`
    Colon,
    /// `.`
    Dot,
    /// `^`
    Caret,
    /// `?`
    Question,
    /// `$`
    Dollar,
    /// `@`
    At,
    /// `!`
    Bang,
    /// `~`
    Tilde,
    /// `&`
    Ampersand,
    /// `|`
    Bar,
    /// `+`
    Plus,
    /// `-`
    Minus,
    /// `*`
    Star,
    /// `/`
    Slash,
    /// `%`
    Percent,
    /// `%%`
    PercentPercent,
    /// `&~`
    AndNot,
    /// `<<`
    ShiftLeft,
    /// `>>`
    ShiftRight,
    /// `&&`
    AndAnd,
    /// `||`
    OrOr,
    /// `==`
    EqualEqual,
    /// `!=`
    NotEqual,
    /// `<`
    Less,
    /// `>`
    Greater,
    /// `<=`
    LessEqual,
    /// `>=`
    GreaterEqual,
    /// `=`
    Assign,
    /// `+=`
    PlusAssign,
    /// `-=`
    MinusAssign,
    /// `*=`
    StarAssign,
    /// `/=`
    SlashAssign,
    /// `%=`
    PercentAssign,
    /// `%%=`
    PercentPercentAssign,
    /// `&=`
    AndAssign,
    /// `|=`
    OrAssign,
    /// `~=`
    XorAssign,
    /// `&~=`
    AndNotAssign,
    /// `<<=`
    ShiftLeftAssign,
    /// `>>=`
    ShiftRightAssign,
    /// `->`
    Arrow,
    /// `---`
    Dashes,
    /// `..`
    DotDot,
    /// `..=`
    DotDotEqual,
    /// `..<`
    DotDotLess,
    /// `#+`
    HashPlus,
}
