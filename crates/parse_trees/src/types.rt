//! Types and signatures.

use crate::exprs::{expr, optional_expr};
use crate::shown::{
    Shown, close, dash, name, open, optional_token, token, tokens, two_names, word,
};
use odc_syntax::token::Token;
use odc_syntax::tree::{
    Enumerator, Expr, Field, Length, Param, ParamType, Results, Signature, Type, TypeKind,
};

/// A type, with a space before it.
#[cycle(shows)]
pub(crate) fn ty(t: &Type, out: &mut String) -> Shown {
    open(kind_name(&t.kind), t.at, out)?;
    parts(&t.kind, out)?;
    close(out)
}

#[cycle(shows)]
fn parts(kind: &TypeKind, out: &mut String) -> Shown {
    match kind {
        TypeKind::Named(t) => name(*t, out),
        TypeKind::Dollar(t) => name(*t, out),
        TypeKind::Member(first, second) => two_names(*first, *second, out),
        TypeKind::Pointer(of) => ty(of, out),
        TypeKind::Distinct(of) => ty(of, out),
        TypeKind::Proc(s) => signature(s, out),
        TypeKind::Array(count, of) => {
            length(count, out)?;
            ty(of, out)
        }
        TypeKind::Soa(count, of) => {
            length(count, out)?;
            ty(of, out)
        }
        TypeKind::Struct(list) => fields(list.as_slice(), out),
        TypeKind::Union(list) => types(list.as_slice(), out),
        TypeKind::Enum(base, list) => {
            optional_type(base, out)?;
            enumerators(list.as_slice(), out)
        }
    }
}

fn kind_name(kind: &TypeKind) -> &'static str {
    match kind {
        TypeKind::Named(_) => "named",
        TypeKind::Member(_, _) => "member",
        TypeKind::Dollar(_) => "dollar",
        TypeKind::Pointer(_) => "pointer",
        TypeKind::Distinct(_) => "distinct",
        TypeKind::Proc(_) => "proc_type",
        TypeKind::Array(_, _) => "array",
        TypeKind::Soa(_, _) => "soa",
        TypeKind::Struct(_) => "struct",
        TypeKind::Union(_) => "union",
        TypeKind::Enum(_, _) => "enum",
    }
}

/// A type that may be left out.
#[cycle(shows)]
pub(crate) fn optional_type(t: &Option<Type>, out: &mut String) -> Shown {
    match t {
        Some(t) => ty(t, out),
        None => dash(out),
    }
}

#[cycle(shows)]
fn length(count: &Length, out: &mut String) -> Shown {
    match count {
        Length::Slice => word(" slice", out),
        Length::Dynamic => word(" dynamic", out),
        Length::Counted => word(" counted", out),
        Length::Dollar(t) => dollar(*t, out),
        Length::Fixed(e) => expr(e, out),
    }
}

fn dollar(t: Token, out: &mut String) -> Shown {
    word(" $", out)?;
    token(t, out)
}

/// Types in brackets.
#[cycle(shows)]
fn types(list: &[Type], out: &mut String) -> Shown {
    word(" [", out)?;
    types_on(list, out)
}

/// The rest of such a list.
#[cycle(shows)]
fn types_on(list: &[Type], out: &mut String) -> Shown {
    match list {
        [] => word(" ]", out),
        [x, rest @ ..] => {
            ty(x, out)?;
            types_on(rest, out)
        }
    }
}

/// Fields in brackets: names and a type each.
#[cycle(shows)]
fn fields(list: &[Field], out: &mut String) -> Shown {
    word(" [", out)?;
    fields_on(list, out)
}

/// The rest of such a list.
#[cycle(shows)]
fn fields_on(list: &[Field], out: &mut String) -> Shown {
    match list {
        [] => word(" ]", out),
        [x, rest @ ..] => {
            tokens(x.names.as_slice(), out)?;
            ty(&x.ty, out)?;
            fields_on(rest, out)
        }
    }
}

/// Enumerators in brackets: a name each, with its value where it is given one.
#[cycle(shows)]
fn enumerators(list: &[Enumerator], out: &mut String) -> Shown {
    word(" [", out)?;
    enumerators_on(list, out)
}

/// The rest of such a list.
#[cycle(shows)]
fn enumerators_on(list: &[Enumerator], out: &mut String) -> Shown {
    match list {
        [] => word(" ]", out),
        [x, rest @ ..] => {
            name(x.name, out)?;
            given_value(&x.value, out)?;
            enumerators_on(rest, out)
        }
    }
}

/// `=` and the value of an enumerator, where it is given one.
#[cycle(shows)]
fn given_value(e: &Option<Expr>, out: &mut String) -> Shown {
    match e {
        Some(e) => {
            word("=", out)?;
            expr(e, out)
        }
        None => Ok(()),
    }
}

/// A signature, with a space before it.
#[cycle(shows)]
pub(crate) fn signature(s: &Signature, out: &mut String) -> Shown {
    open("signature", s.at, out)?;
    optional_token(s.convention, out)?;
    params(s.params.as_slice(), out)?;
    word(" ->", out)?;
    results(&s.results, out)?;
    close(out)
}

#[cycle(shows)]
fn results(given: &Results, out: &mut String) -> Shown {
    match given {
        Results::None => word(" nothing", out),
        Results::One(t) => ty(t, out),
        Results::List(list) => params(list.as_slice(), out),
    }
}

/// Parameters in brackets.
#[cycle(shows)]
fn params(list: &[Param], out: &mut String) -> Shown {
    word(" [", out)?;
    params_on(list, out)
}

/// The rest of such a list.
#[cycle(shows)]
fn params_on(list: &[Param], out: &mut String) -> Shown {
    match list {
        [] => word(" ]", out),
        [x, rest @ ..] => {
            param(x, out)?;
            params_on(rest, out)
        }
    }
}

#[cycle(shows)]
fn param(p: &Param, out: &mut String) -> Shown {
    word(if p.dollar { " $" } else { "" }, out)?;
    tokens(&p.names, out)?;
    param_type(&p.ty, out)?;
    optional_expr(&p.default, out)
}

#[cycle(shows)]
fn param_type(t: &ParamType, out: &mut String) -> Shown {
    match t {
        ParamType::Type(t) => ty(t, out),
        ParamType::Typeid => word(" typeid", out),
        ParamType::Inferred => word(" inferred", out),
    }
}
