//! Trees that are given up.

ghost use Rattle.std.specs.Prelude.{◌≡◌};

use odc_program::program::{Helper, Procedure, Program};
use odc_program::tree::{BuildPart, Case, CaseItem, Over, Rights, TExpr, TStmt, TypeCase};

/// Drops an expression and returns `why`.
pub fn discard_expr<S>(_expr: TExpr, why: S) -> S
    ensures { result ≡ why }
{
    why
}

/// Drops an expression that may be left out and returns `why`.
pub fn discard_optional_expr<S>(_optional_expr: Option<TExpr>, why: S) -> S
    ensures { result ≡ why }
{
    why
}

/// Drops expressions and returns `why`.
pub fn discard_exprs<S>(_exprs: Vec<TExpr>, why: S) -> S
    ensures { result ≡ why }
{
    why
}

/// Drops left sides and returns `why`.
pub fn discard_lefts<S>(_lefts: Vec<Option<TExpr>>, why: S) -> S
    ensures { result ≡ why }
{
    why
}

/// Drops parts of a built value and returns `why`.
pub fn discard_parts<S>(_parts: Vec<BuildPart>, why: S) -> S
    ensures { result ≡ why }
{
    why
}

/// Drops right sides and returns `why`.
pub fn discard_rights<S>(_rights: Rights, why: S) -> S
    ensures { result ≡ why }
{
    why
}

/// Drops items of a case and returns `why`.
pub fn discard_items<S>(_items: Vec<CaseItem>, why: S) -> S
    ensures { result ≡ why }
{
    why
}

/// Drops what a loop runs over and returns `why`.
pub fn discard_over<S>(_over: Over, why: S) -> S
    ensures { result ≡ why }
{
    why
}

/// Drops a statement and returns `why`.
pub fn discard_stmt<S>(_stmt: TStmt, why: S) -> S
    ensures { result ≡ why }
{
    why
}

/// Drops a statement that may be left out and returns `why`.
pub fn discard_optional_stmt<S>(_optional_stmt: Option<TStmt>, why: S) -> S
    ensures { result ≡ why }
{
    why
}

/// Drops statements and returns `why`.
pub fn discard_stmts<S>(_stmts: Vec<TStmt>, why: S) -> S
    ensures { result ≡ why }
{
    why
}

/// Drops cases and returns `why`.
pub fn discard_cases<S>(_cases: Vec<Case>, why: S) -> S
    ensures { result ≡ why }
{
    why
}

/// Drops cases of a type switch and returns `why`.
pub fn discard_type_cases<S>(_type_cases: Vec<TypeCase>, why: S) -> S
    ensures { result ≡ why }
{
    why
}

/// Drops a helper and returns `why`.
pub fn discard_helper<S>(_helper: Helper, why: S) -> S
    ensures { result ≡ why }
{
    why
}

/// Drops a procedure and returns `why`.
pub fn discard_procedure<S>(_procedure: Procedure, why: S) -> S
    ensures { result ≡ why }
{
    why
}

/// Drops procedures and returns `why`.
pub fn discard_procedures<S>(_procedures: Vec<Procedure>, why: S) -> S
    ensures { result ≡ why }
{
    why
}

/// Drops a program and returns `why`.
pub fn discard_program<S>(_program: Program, why: S) -> S
    ensures { result ≡ why }
{
    why
}
