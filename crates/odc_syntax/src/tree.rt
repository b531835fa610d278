//! Trees: what the tokens of a file, a declaration or an expression derive. A node is a small handle: its
//! places, and its kind on the heap. A contract sees an `Expr`, a `Type`, a `Stmt` or a `Decl` as the clean
//! tree of `specs/Tree`.

use crate::token::Token;
use odc_text::place::Place;
use std::marker::Model;

/// An expression. Parentheses that only group leave no node: they move `first`.
#[cycle(trees)]
#[derive(Drop)]
pub struct Expr {
    /// The place of the first token that it is written with.
    pub first: Place,
    /// The place of the node: of the operator, `[`, `.` or `^` that makes it, else of its first token.
    pub at: Place,
    pub kind: Box<ExprKind>,
}

impl Model for Expr {
    ghost use Rattle.odc_syntax.specs.Tree as tree;
    ghost use Rattle.odc_syntax.specs.Codes.{coded_expr};

    ghost Value = { tree.Expr };

    ghost coded = { coded_expr };

    ghost use Rattle.odc_syntax.specs.View.{expr_kind};
    ghost use Rattle.odc_syntax.specs.Sizes.{expr_size};

    ghost view = { λ e. tree.expr e.first e.at (expr_kind e.kind.value) };

    ghost size = { expr_size };

    ghost use Rattle.std.proofs.Common.{arith};
    ghost use Rattle.odc_syntax.specs.Falls.{expr_kind_falls};

    ghost size_decreases = { λ e h. omega (arith, expr_kind_falls e.kind.value) };
}

/// What kind of expression it is.
#[cycle(trees)]
#[derive(Drop)]
pub enum ExprKind {
    /// A name.
    Name(Token),
    /// An integer.
    Int(Token),
    /// A character.
    Rune(Token),
    /// A string.
    Text(Token),
    /// `context`
    Context,
    /// `.A`, an enumerator of the type that is wanted.
    Dot(Token),
    /// `e.x`
    Select(Expr, Token),
    /// `e.(T)`
    Assert(Expr, Type),
    /// `e^`
    Deref(Expr),
    /// `e[i]`
    Index(Expr, Expr),
    /// `e[a:b]`
    Cut(Expr, Option<Expr>, Option<Expr>),
    /// `e(x, ..)`, a call or a conversion.
    Call(Expr, Vec<Arg>),
    /// `e or_return`
    OrReturn(Expr),
    /// `T{x, ..}`, or `{x, ..}` of the type that is wanted.
    Literal(Option<Expr>, Vec<Arg>),
    /// An operator before its operand.
    Unary(UnaryOp, Expr),
    /// An operator between its operands.
    Binary(BinaryOp, Expr, Expr),
    /// `cast(T)e`
    Cast(Type, Expr),
    /// `#caller_location`
    Location,
    /// A type that stands where an expression may.
    TypeTree(Type),
    /// A procedure with its body.
    ProcLit(Box<Signature>, Vec<Stmt>),
}

/// An operator before its operand.
#[derive(Clone, Copy)]
pub enum UnaryOp {
    /// `+`
    Plus,
    /// `-`
    Minus,
    /// `!`
    Not,
    /// `~`
    Complement,
    /// `&`
    Address,
}

/// An operator between two operands.
#[derive(Clone, Copy)]
pub enum BinaryOp {
    /// `||`
    Or,
    /// `&&`
    And,
    /// `==`
    Equal,
    /// `!=`
    NotEqual,
    /// `<`
    Less,
    /// `>`
    Greater,
    /// `<=`
    LessEqual,
    /// `>=`
    GreaterEqual,
    /// `+`
    Add,
    /// `-`
    Subtract,
    /// `|`
    BitOr,
    /// `~`
    BitXor,
    /// `*`
    Multiply,
    /// `/`
    Divide,
    /// `%`
    Remainder,
    /// `%%`
    Modulo,
    /// `&`
    BitAnd,
    /// `&~`
    AndNot,
    /// `<<`
    ShiftLeft,
    /// `>>`
    ShiftRight,
}

/// An argument of a call or an element of a literal, with its name if it is given one.
#[cycle(trees)]
#[derive(Drop)]
pub struct Arg {
    pub name: Option<Token>,
    pub value: Expr,
}

/// A type.
#[cycle(trees)]
#[derive(Drop)]
pub struct Type {
    /// The place of its first token.
    pub at: Place,
    pub kind: Box<TypeKind>,
}

impl Model for Type {
    ghost use Rattle.odc_syntax.specs.Tree as tree;
    ghost use Rattle.odc_syntax.specs.Codes.{coded_type};

    ghost Value = { tree.Type_ };

    ghost coded = { coded_type };

    ghost use Rattle.odc_syntax.specs.View.{type_kind};
    ghost use Rattle.odc_syntax.specs.Sizes.{type_size};

    ghost view = { λ e. tree.type e.at (type_kind e.kind.value) };

    ghost size = { type_size };

    ghost use Rattle.std.proofs.Common.{arith};
    ghost use Rattle.odc_syntax.specs.Falls.{type_kind_falls};

    ghost size_decreases = { λ e h. omega (arith, type_kind_falls e.kind.value) };
}

/// What kind of type it is.
#[cycle(trees)]
#[derive(Drop)]
pub enum TypeKind {
    /// `T`
    Named(Token),
    /// `package.T`
    Member(Token, Token),
    /// `$T`
    Dollar(Token),
    /// `^T`
    Pointer(Type),
    /// `distinct T`
    Distinct(Type),
    /// A procedure's type.
    Proc(Box<Signature>),
    /// `[..]T`
    Array(Length, Type),
    /// `#soa[..]T`
    Soa(Length, Type),
    /// `struct {..}`
    Struct(Vec<Field>),
    /// `union {..}`
    Union(Vec<Type>),
    /// `enum T {..}`
    Enum(Option<Type>, Vec<Enumerator>),
}

/// What stands in the square brackets of a type.
#[cycle(trees)]
#[derive(Drop)]
pub enum Length {
    /// Nothing: a slice.
    Slice,
    /// `dynamic`
    Dynamic,
    /// `?`, the number of elements of the literal.
    Counted,
    /// `$N`
    Dollar(Token),
    /// A number of elements.
    Fixed(Expr),
}

/// Fields of one type.
#[cycle(trees)]
#[derive(Drop)]
pub struct Field {
    pub names: Vec<Token>,
    pub ty: Type,
}

/// A name of an enum's value, and the value if it is given.
#[cycle(trees)]
#[derive(Drop)]
pub struct Enumerator {
    pub name: Token,
    pub value: Option<Expr>,
}

/// What a procedure takes and gives.
#[cycle(trees)]
#[derive(Drop)]
pub struct Signature {
    /// The place of `proc`.
    pub at: Place,
    /// The string behind `proc`.
    pub convention: Option<Token>,
    pub params: Vec<Param>,
    pub results: Results,
}

/// What a procedure gives.
#[cycle(trees)]
#[derive(Drop)]
pub enum Results {
    /// Nothing.
    None,
    /// `-> T`
    One(Type),
    /// `-> (..)`
    List(Vec<Param>),
}

/// Parameters or results of one type. One without names is a type alone.
#[cycle(trees)]
#[derive(Drop)]
pub struct Param {
    /// `$` stands before the names.
    pub dollar: bool,
    pub names: Vec<Token>,
    pub ty: ParamType,
    pub default: Option<Expr>,
}

/// What type a parameter is given.
#[cycle(trees)]
#[derive(Drop)]
pub enum ParamType {
    /// A type.
    Type(Type),
    /// `typeid`
    Typeid,
    /// That of its default.
    Inferred,
}

/// A statement.
#[cycle(trees)]
#[derive(Drop)]
pub struct Stmt {
    /// The place of an assignment is that of its operator; of another statement, of its first token.
    pub at: Place,
    pub kind: Box<StmtKind>,
}

impl Model for Stmt {
    ghost use Rattle.odc_syntax.specs.Tree as tree;
    ghost use Rattle.odc_syntax.specs.Codes.{coded_stmt};

    ghost Value = { tree.Stmt };

    ghost coded = { coded_stmt };

    ghost use Rattle.odc_syntax.specs.View.{stmt_kind};
    ghost use Rattle.odc_syntax.specs.Sizes.{stmt_size};

    ghost view = { λ e. tree.stmt e.at (stmt_kind e.kind.value) };

    ghost size = { stmt_size };

    ghost use Rattle.std.proofs.Common.{arith};
    ghost use Rattle.odc_syntax.specs.Falls.{stmt_kind_falls};

    ghost size_decreases = { λ e h. omega (arith, stmt_kind_falls e.kind.value) };
}

/// What kind of statement it is.
#[cycle(trees)]
#[derive(Drop)]
pub enum StmtKind {
    /// A declaration.
    Declare(Decl),
    /// `a, b = x, y`, or with the operator of `+=` and its like.
    Assign(Vec<Expr>, AssignOp, Vec<Expr>),
    /// Expressions alone.
    Eval(Vec<Expr>),
    /// `{..}`, with its label.
    Block(Option<Token>, Vec<Stmt>),
    /// `if`: what stands before the condition, the condition, the body, and what follows `else`.
    If(Header, Expr, Vec<Stmt>, Else),
    /// `for`: its label, what stands before the condition, the condition, what is done behind the
    /// body, and the body.
    Loop(Option<Token>, Header, Option<Expr>, Option<Stmt>, Vec<Stmt>),
    /// `for .. in`: its label, the variables, what they range over, and the body.
    Range(Option<Token>, RangeNames, Span, Vec<Stmt>),
    /// `switch`: its label, its word, what stands before the value, the value, and the cases.
    Switch(Option<Token>, SwitchWord, Header, Option<Expr>, Vec<Case>),
    /// `switch .. in`: its label, its word, the variable, the value, and the cases.
    TypeSwitch(Option<Token>, SwitchWord, Token, Expr, Vec<Case>),
    /// `defer`
    Defer(Stmt),
    /// `return`
    Return(Vec<Expr>),
    /// `break`, with its label.
    Break(Option<Token>),
    /// `continue`, with its label.
    Continue(Option<Token>),
    /// `fallthrough`
    Fallthrough,
}

/// The operator of an assignment.
#[derive(Clone, Copy)]
pub enum AssignOp {
    /// `=`
    Set,
    /// The operator that stands before `=`.
    By(BinaryOp),
}

/// The word `switch`.
#[derive(Clone, Copy)]
pub struct SwitchWord {
    pub at: Place,
    /// `#partial` stands before it.
    pub partial: bool,
}

/// What stands in a header before its first `;`.
#[cycle(trees)]
#[derive(Drop)]
pub enum Header {
    /// Nothing.
    None,
    /// A declaration.
    Decl(Decl),
    /// An assignment or expressions.
    Simple(Stmt),
}

/// What an `if` does where its condition is false.
#[cycle(trees)]
#[derive(Drop)]
pub enum Else {
    /// Nothing.
    None,
    /// Another `if`.
    If(Stmt),
    /// A body.
    Body(Vec<Stmt>),
}

/// The variables of `for .. in`.
#[derive(Clone, Copy)]
pub struct RangeNames {
    /// The first is the element itself: `&` stands before it.
    pub by_reference: bool,
    pub first: Token,
    pub second: Option<Token>,
}

/// A value, or the values from it on: an item of a case, and what `for .. in` goes over.
#[cycle(trees)]
#[derive(Drop)]
pub struct Span {
    pub from: Expr,
    pub to: SpanEnd,
}

/// Where a span ends.
#[cycle(trees)]
#[derive(Drop)]
pub enum SpanEnd {
    /// It is the value alone.
    Alone,
    /// `..=`
    Through(Expr),
    /// `..<`
    Below(Expr),
}

/// A case of a switch. One without items is the default.
#[cycle(trees)]
#[derive(Drop)]
pub struct Case {
    /// The place of `case`.
    pub at: Place,
    pub items: Vec<Span>,
    pub body: Vec<Stmt>,
}

/// A declaration.
#[cycle(trees)]
#[derive(Drop)]
pub struct Decl {
    /// The place of its first token.
    pub at: Place,
    pub kind: Box<DeclKind>,
}

impl Model for Decl {
    ghost use Rattle.odc_syntax.specs.Tree as tree;
    ghost use Rattle.odc_syntax.specs.Codes.{coded_decl};

    ghost Value = { tree.Decl };

    ghost coded = { coded_decl };

    ghost use Rattle.odc_syntax.specs.View.{decl_kind};
    ghost use Rattle.odc_syntax.specs.Sizes.{decl_size};

    ghost view = { λ e. tree.decl e.at (decl_kind e.kind.value) };

    ghost size = { decl_size };

    ghost use Rattle.std.proofs.Common.{arith};
    ghost use Rattle.odc_syntax.specs.Falls.{decl_kind_falls};

    ghost size_decreases = { λ e h. omega (arith, decl_kind_falls e.kind.value) };
}

/// What kind of declaration it is.
#[cycle(trees)]
#[derive(Drop)]
pub enum DeclKind {
    /// `import`, with the name if it is given one, and the path.
    Import(Option<Token>, Token),
    /// `X : T : e`, or without the type.
    Constant(Vec<Token>, Option<Type>, Vec<Expr>),
    /// `x : T = e`, without the type, or without the value.
    Variable(Vec<Token>, Option<Type>, Initial),
}

/// What a variable begins with.
#[cycle(trees)]
#[derive(Drop)]
pub enum Initial {
    /// Zero, since no value is given.
    Zero,
    /// `---`
    Dashes,
    /// Values.
    Values(Vec<Expr>),
}

/// A file: its package's name, its imports and declarations, and the place past its last byte.
#[derive(Drop)]
pub struct FileTree {
    pub name: Token,
    pub decls: Vec<Decl>,
    pub end: Place,
}
