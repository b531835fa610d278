//! Trees that are given up.

ghost use Rattle.std.specs.Prelude.{◌≡◌};

use odc_syntax::tree::{
    Arg, Case, Decl, Enumerator, Expr, Field, Header, Length, Param, Signature, Span, Stmt, Type,
};

/// Drops an expression and returns `why`.
pub fn discard_expr<S>(_expr: Expr, why: S) -> S
    ensures { result ≡ why }
{
    why
}

/// Drops an expression that may be left out and returns `why`.
pub fn discard_optional_expr<S>(_optional_expr: Option<Expr>, why: S) -> S
    ensures { result ≡ why }
{
    why
}

/// Drops expressions and returns `why`.
pub fn discard_exprs<S>(_exprs: Vec<Expr>, why: S) -> S
    ensures { result ≡ why }
{
    why
}

/// Drops arguments and returns `why`.
pub fn discard_args<S>(_args: Vec<Arg>, why: S) -> S
    ensures { result ≡ why }
{
    why
}

/// Drops a type and returns `why`.
pub fn discard_type<S>(_type: Type, why: S) -> S
    ensures { result ≡ why }
{
    why
}

/// Drops a type that may be left out and returns `why`.
pub fn discard_optional_type<S>(_optional_type: Option<Type>, why: S) -> S
    ensures { result ≡ why }
{
    why
}

/// Drops types and returns `why`.
pub fn discard_types<S>(_types: Vec<Type>, why: S) -> S
    ensures { result ≡ why }
{
    why
}

/// Drops a length and returns `why`.
pub fn discard_length<S>(_length: Length, why: S) -> S
    ensures { result ≡ why }
{
    why
}

/// Drops fields and returns `why`.
pub fn discard_fields<S>(_fields: Vec<Field>, why: S) -> S
    ensures { result ≡ why }
{
    why
}

/// Drops enumerators and returns `why`.
pub fn discard_enumerators<S>(_enumerators: Vec<Enumerator>, why: S) -> S
    ensures { result ≡ why }
{
    why
}

/// Drops a signature and returns `why`.
pub fn discard_signature<S>(_signature: Signature, why: S) -> S
    ensures { result ≡ why }
{
    why
}

/// Drops parameters and returns `why`.
pub fn discard_params<S>(_params: Vec<Param>, why: S) -> S
    ensures { result ≡ why }
{
    why
}

/// Drops a statement and returns `why`.
pub fn discard_stmt<S>(_stmt: Stmt, why: S) -> S
    ensures { result ≡ why }
{
    why
}

/// Drops statements and returns `why`.
pub fn discard_stmts<S>(_stmts: Vec<Stmt>, why: S) -> S
    ensures { result ≡ why }
{
    why
}

/// Drops a header and returns `why`.
pub fn discard_header<S>(_header: Header, why: S) -> S
    ensures { result ≡ why }
{
    why
}

/// Drops a span and returns `why`.
pub fn discard_span<S>(_span: Span, why: S) -> S
    ensures { result ≡ why }
{
    why
}

/// Drops spans and returns `why`.
pub fn discard_spans<S>(_spans: Vec<Span>, why: S) -> S
    ensures { result ≡ why }
{
    why
}

/// Drops cases and returns `why`.
pub fn discard_cases<S>(_cases: Vec<Case>, why: S) -> S
    ensures { result ≡ why }
{
    why
}

/// Drops a declaration and returns `why`.
pub fn discard_decl<S>(_decl: Decl, why: S) -> S
    ensures { result ≡ why }
{
    why
}

/// Drops declarations and returns `why`.
pub fn discard_decls<S>(_decls: Vec<Decl>, why: S) -> S
    ensures { result ≡ why }
{
    why
}
