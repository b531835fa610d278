//! Lists of nodes.

ghost use Rattle.std.specs.Prelude.{◌≡◌, [], ◌∷◌, ◌++◌, IfOk};

use odc_syntax::tree::{Arg, Case, Decl, Enumerator, Expr, Field, Param, Span, Stmt, Type};
use std::alloc::AllocError;

/// Appends to a list of arguments.
pub fn push_arg(mut list: Vec<Arg>, item: Arg) -> Result<Vec<Arg>, AllocError>
    ensures { IfOk result (λ l. l.items ≡ list.items ++ item ∷ []) }
{
    list.push(item)?;
    Ok(list)
}

/// Appends to a list of expressions.
pub fn push_expr(mut list: Vec<Expr>, item: Expr) -> Result<Vec<Expr>, AllocError>
    ensures { IfOk result (λ l. l.items ≡ list.items ++ item ∷ []) }
{
    list.push(item)?;
    Ok(list)
}

/// Appends to a list of types.
pub fn push_type(mut list: Vec<Type>, item: Type) -> Result<Vec<Type>, AllocError>
    ensures { IfOk result (λ l. l.items ≡ list.items ++ item ∷ []) }
{
    list.push(item)?;
    Ok(list)
}

/// Appends to a list of statements.
pub fn push_stmt(mut list: Vec<Stmt>, item: Stmt) -> Result<Vec<Stmt>, AllocError>
    ensures { IfOk result (λ l. l.items ≡ list.items ++ item ∷ []) }
{
    list.push(item)?;
    Ok(list)
}

/// Appends to a list of declarations.
pub fn push_decl(mut list: Vec<Decl>, item: Decl) -> Result<Vec<Decl>, AllocError>
    ensures { IfOk result (λ l. l.items ≡ list.items ++ item ∷ []) }
{
    list.push(item)?;
    Ok(list)
}

/// Appends to a list of fields.
pub fn push_field(mut list: Vec<Field>, item: Field) -> Result<Vec<Field>, AllocError>
    ensures { IfOk result (λ l. l.items ≡ list.items ++ item ∷ []) }
{
    list.push(item)?;
    Ok(list)
}

/// Appends to a list of enumerators.
pub fn push_enumerator(
    mut list: Vec<Enumerator>,
    item: Enumerator,
) -> Result<Vec<Enumerator>, AllocError>
    ensures { IfOk result (λ l. l.items ≡ list.items ++ item ∷ []) }
{
    list.push(item)?;
    Ok(list)
}

/// Appends to a list of parameters.
pub fn push_param(mut list: Vec<Param>, item: Param) -> Result<Vec<Param>, AllocError>
    ensures { IfOk result (λ l. l.items ≡ list.items ++ item ∷ []) }
{
    list.push(item)?;
    Ok(list)
}

/// Appends to a list of spans.
pub fn push_span(mut list: Vec<Span>, item: Span) -> Result<Vec<Span>, AllocError>
    ensures { IfOk result (λ l. l.items ≡ list.items ++ item ∷ []) }
{
    list.push(item)?;
    Ok(list)
}

/// Appends to a list of cases.
pub fn push_case(mut list: Vec<Case>, item: Case) -> Result<Vec<Case>, AllocError>
    ensures { IfOk result (λ l. l.items ≡ list.items ++ item ∷ []) }
{
    list.push(item)?;
    Ok(list)
}
