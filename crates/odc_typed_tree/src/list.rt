//! Lists of nodes.

ghost use Rattle.std.specs.Prelude.{◌≡◌, [], ◌∷◌, ◌++◌, IfOk};

use odc_program::tree::{BuildPart, Case, CaseItem, TExpr, TStmt, TypeCase};
use std::alloc::AllocError;

/// Appends to a list of expressions.
pub fn push_expr(mut list: Vec<TExpr>, item: TExpr) -> Result<Vec<TExpr>, AllocError>
    ensures { IfOk result (λ l. l.items ≡ list.items ++ item ∷ []) }
{
    list.push(item)?;
    Ok(list)
}

/// Appends to a list of left sides.
pub fn push_left(
    mut list: Vec<Option<TExpr>>,
    item: Option<TExpr>,
) -> Result<Vec<Option<TExpr>>, AllocError>
    ensures { IfOk result (λ l. l.items ≡ list.items ++ item ∷ []) }
{
    list.push(item)?;
    Ok(list)
}

/// Appends to a list of parts of a built value.
pub fn push_part(mut list: Vec<BuildPart>, item: BuildPart) -> Result<Vec<BuildPart>, AllocError>
    ensures { IfOk result (λ l. l.items ≡ list.items ++ item ∷ []) }
{
    list.push(item)?;
    Ok(list)
}

/// Appends to a list of items of a case.
pub fn push_item(mut list: Vec<CaseItem>, item: CaseItem) -> Result<Vec<CaseItem>, AllocError>
    ensures { IfOk result (λ l. l.items ≡ list.items ++ item ∷ []) }
{
    list.push(item)?;
    Ok(list)
}

/// Appends to a list of statements.
pub fn push_stmt(mut list: Vec<TStmt>, item: TStmt) -> Result<Vec<TStmt>, AllocError>
    ensures { IfOk result (λ l. l.items ≡ list.items ++ item ∷ []) }
{
    list.push(item)?;
    Ok(list)
}

/// Appends to a list of cases.
pub fn push_case(mut list: Vec<Case>, item: Case) -> Result<Vec<Case>, AllocError>
    ensures { IfOk result (λ l. l.items ≡ list.items ++ item ∷ []) }
{
    list.push(item)?;
    Ok(list)
}

/// Appends to a list of cases of a type switch.
pub fn push_type_case(mut list: Vec<TypeCase>, item: TypeCase) -> Result<Vec<TypeCase>, AllocError>
    ensures { IfOk result (λ l. l.items ≡ list.items ++ item ∷ []) }
{
    list.push(item)?;
    Ok(list)
}
