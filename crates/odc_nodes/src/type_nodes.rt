//! Nodes of types and signatures.

ghost use Rattle.std.specs.Prelude.{◌≡◌, [], true, false, IfOk};
ghost use Rattle.odc_syntax.specs.Tree as tree;
ghost use Rattle.odc_syntax.specs.Grammar.{proc_type, proc_literal};
ghost use Rattle.odc_syntax.specs.View.{length, maybe_expr, maybe_type, types, fields, enumerators, param, params, signature, stmts, result_kind};

use odc_syntax::token::Token;
use odc_syntax::tree::{
    Enumerator, Expr, ExprKind, Field, Length, Param, ParamType, Results, Signature, Stmt, Type,
    TypeKind,
};
use odc_text::place::Place;
use odc_tree::discard::{discard_optional_expr, discard_stmts};
use odc_tree::node::{expr_node, signature_box, type_node};
use std::alloc::{AllocError, Global};

/// A name.
pub fn named(alloc: Global, name: Token) -> Result<Type, AllocError>
    ensures { IfOk result (λ t. t ≡ tree.type name.at (tree.named name)) }
{
    type_node(alloc, name.at, TypeKind::Named(name))
}

/// A name of another package.
pub fn member(alloc: Global, first: Token, name: Token) -> Result<Type, AllocError>
    ensures { IfOk result (λ t. t ≡ tree.type first.at (tree.member first name)) }
{
    type_node(alloc, first.at, TypeKind::Member(first, name))
}

/// `$T`
pub fn dollar(alloc: Global, at: Place, name: Token) -> Result<Type, AllocError>
    ensures { IfOk result (λ t. t ≡ tree.type at (tree.dollar name)) }
{
    type_node(alloc, at, TypeKind::Dollar(name))
}

/// `^T`
pub fn pointer(alloc: Global, at: Place, ty: Type) -> Result<Type, AllocError>
    ensures { IfOk result (λ t. t ≡ tree.type at (tree.pointer ty)) }
{
    type_node(alloc, at, TypeKind::Pointer(ty))
}

/// `distinct T`
pub fn distinct(alloc: Global, at: Place, ty: Type) -> Result<Type, AllocError>
    ensures { IfOk result (λ t. t ≡ tree.type at (tree.distinct ty)) }
{
    type_node(alloc, at, TypeKind::Distinct(ty))
}

/// A procedure's type.
pub fn procedure(alloc: Global, at: Place, s: Signature) -> Result<Type, AllocError>
    ensures { IfOk result (λ t. t ≡ tree.type at (tree.proc (signature s))) }
{
    let s = signature_box(alloc, s)?;
    type_node(alloc, at, TypeKind::Proc(s))
}

/// `[..]T`
pub fn array(alloc: Global, at: Place, count: Length, ty: Type) -> Result<Type, AllocError>
    ensures { IfOk result (λ t. t ≡ tree.type at (tree.array (length count) ty)) }
{
    type_node(alloc, at, TypeKind::Array(count, ty))
}

/// `#soa[..]T`
pub fn soa(alloc: Global, at: Place, count: Length, ty: Type) -> Result<Type, AllocError>
    ensures { IfOk result (λ t. t ≡ tree.type at (tree.soa (length count) ty)) }
{
    type_node(alloc, at, TypeKind::Soa(count, ty))
}

/// `struct {..}`
pub fn structure(alloc: Global, at: Place, list: Vec<Field>) -> Result<Type, AllocError>
    ensures { IfOk result (λ t. t ≡ tree.type at (tree.struct (fields list.items))) }
{
    type_node(alloc, at, TypeKind::Struct(list))
}

/// `union {..}`
pub fn union_of(alloc: Global, at: Place, list: Vec<Type>) -> Result<Type, AllocError>
    ensures { IfOk result (λ t. t ≡ tree.type at (tree.union (types list.items))) }
{
    type_node(alloc, at, TypeKind::Union(list))
}

/// `enum T {..}`
pub fn enumeration(
    alloc: Global,
    at: Place,
    base: Option<Type>,
    list: Vec<Enumerator>,
) -> Result<Type, AllocError>
    ensures { IfOk result (λ t. t ≡ tree.type at (tree.enum (maybe_type base) (enumerators list.items))) }
{
    type_node(alloc, at, TypeKind::Enum(base, list))
}

/// A signature.
pub fn signature(
    at: Place,
    convention: Option<Token>,
    list: Vec<Param>,
    results: Results,
) -> Signature
    ensures { signature result ≡ tree.signature at convention (params list.items) (result_kind results) }
{
    Signature {
        at,
        convention,
        params: list,
        results,
    }
}

/// A parameter that is a type without a name.
pub fn bare_param(alloc: Global, ty: Type) -> Param
    ensures { param result ≡ tree.param false [] (tree.of_type ty) tree.no_expr }
{
    Param {
        dollar: false,
        names: Vec::new(alloc),
        ty: ParamType::Type(ty),
        default: None,
    }
}

/// Names that are `typeid`, behind `$` or not.
pub fn typeid_param(dollar: bool, names: Vec<Token>, default: Option<Expr>) -> Param
    ensures { param result ≡ tree.param dollar names.items tree.typeid (maybe_expr default) }
{
    Param {
        dollar,
        names,
        ty: ParamType::Typeid,
        default,
    }
}

/// Names whose type is that of their default.
pub fn inferred_param(names: Vec<Token>, e: Expr) -> Param
    ensures { param result ≡ tree.param false names.items tree.inferred (tree.some_expr e) }
{
    Param {
        dollar: false,
        names,
        ty: ParamType::Inferred,
        default: Some(e),
    }
}

/// Names of a type, with their default.
pub fn typed_param(names: Vec<Token>, ty: Type, default: Option<Expr>) -> Param
    ensures { param result ≡ tree.param false names.items (tree.of_type ty) (maybe_expr default) }
{
    Param {
        dollar: false,
        names,
        ty: ParamType::Type(ty),
        default,
    }
}

/// Names behind `$` that stand for integers, with the word `int` as it is written.
pub fn int_param(
    alloc: Global,
    names: Vec<Token>,
    int: Token,
    default: Option<Expr>,
) -> Result<Param, AllocError>
    ensures { IfOk result (λ p. param p ≡ tree.param true names.items (tree.of_type (tree.type int.at (tree.named int))) (maybe_expr default)) }
{
    match named(alloc, int) {
        Ok(ty) => Ok(Param {
            dollar: true,
            names,
            ty: ParamType::Type(ty),
            default,
        }),
        Err(error) => Err(discard_optional_expr(default, error)),
    }
}

/// A procedure's type as an operand.
pub fn proc_type(alloc: Global, s: Signature) -> Result<Expr, AllocError>
    ensures { IfOk result (λ e. e ≡ proc_type (signature s)) }
{
    let at = s.at;
    let ty = procedure(alloc, at, s)?;
    expr_node(alloc, at, at, ExprKind::TypeTree(ty))
}

/// A procedure with its body.
pub fn proc_literal(alloc: Global, s: Signature, body: Vec<Stmt>) -> Result<Expr, AllocError>
    ensures { IfOk result (λ e. e ≡ proc_literal (signature s) (stmts body.items)) }
{
    let at = s.at;
    match signature_box(alloc, s) {
        Ok(s) => expr_node(alloc, at, at, ExprKind::ProcLit(s, body)),
        Err(error) => Err(discard_stmts(body, error)),
    }
}
