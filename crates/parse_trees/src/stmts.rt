//! Statements and declarations.

use crate::exprs::{expr, exprs, optional_expr};
use crate::shown::{Shown, assign_sign, close, dash, name, open, optional_token, tokens, word};
use crate::types::optional_type;
use odc_syntax::tree::{
    Case, Decl, DeclKind, Else, Header, Initial, RangeNames, Span, SpanEnd, Stmt, StmtKind,
    SwitchWord,
};

/// Statements in braces, with a space before them.
#[cycle(shows)]
pub(crate) fn stmts(list: &[Stmt], out: &mut String) -> Shown {
    word(" {", out)?;
    stmts_on(list, out)
}

/// The rest of such a list.
#[cycle(shows)]
fn stmts_on(list: &[Stmt], out: &mut String) -> Shown {
    match list {
        [] => word(" }", out),
        [x, rest @ ..] => {
            stmt(x, out)?;
            stmts_on(rest, out)
        }
    }
}

/// A statement, with a space before it.
#[cycle(shows)]
fn stmt(s: &Stmt, out: &mut String) -> Shown {
    open(kind_name(&s.kind), s.at, out)?;
    parts(&s.kind, out)?;
    close(out)
}

#[cycle(shows)]
fn parts(kind: &StmtKind, out: &mut String) -> Shown {
    match kind {
        StmtKind::Declare(d) => decl(d, out),
        StmtKind::Assign(places, op, values) => {
            exprs(places.as_slice(), out)?;
            word(assign_sign(*op), out)?;
            word("=", out)?;
            exprs(values.as_slice(), out)
        }
        StmtKind::Eval(list) => exprs(list.as_slice(), out),
        StmtKind::Return(list) => exprs(list.as_slice(), out),
        StmtKind::Block(label, body) => {
            optional_token(*label, out)?;
            stmts(body.as_slice(), out)
        }
        StmtKind::If(before, condition, body, other) => {
            header(before, out)?;
            expr(condition, out)?;
            stmts(body.as_slice(), out)?;
            otherwise(other, out)
        }
        StmtKind::Loop(label, before, condition, step, body) => {
            optional_token(*label, out)?;
            header(before, out)?;
            optional_expr(condition, out)?;
            optional_stmt(step, out)?;
            stmts(body.as_slice(), out)
        }
        StmtKind::Range(label, names, over, body) => {
            optional_token(*label, out)?;
            range_names(*names, out)?;
            span(over, out)?;
            stmts(body.as_slice(), out)
        }
        StmtKind::Switch(label, switch, before, value, list) => {
            optional_token(*label, out)?;
            switch_word(*switch, out)?;
            header(before, out)?;
            optional_expr(value, out)?;
            cases(list.as_slice(), out)
        }
        StmtKind::TypeSwitch(label, switch, variable, value, list) => {
            optional_token(*label, out)?;
            switch_word(*switch, out)?;
            name(*variable, out)?;
            expr(value, out)?;
            cases(list.as_slice(), out)
        }
        StmtKind::Defer(inner) => stmt(inner, out),
        StmtKind::Break(label) => optional_token(*label, out),
        StmtKind::Continue(label) => optional_token(*label, out),
        StmtKind::Fallthrough => Ok(()),
    }
}

fn kind_name(kind: &StmtKind) -> &'static str {
    match kind {
        StmtKind::Declare(_) => "declare",
        StmtKind::Assign(_, _, _) => "assign",
        StmtKind::Eval(_) => "eval",
        StmtKind::Block(_, _) => "block",
        StmtKind::If(_, _, _, _) => "if",
        StmtKind::Loop(_, _, _, _, _) => "loop",
        StmtKind::Range(_, _, _, _) => "range",
        StmtKind::Switch(_, _, _, _, _) => "switch",
        StmtKind::TypeSwitch(_, _, _, _, _) => "type_switch",
        StmtKind::Defer(_) => "defer",
        StmtKind::Return(_) => "return",
        StmtKind::Break(_) => "break",
        StmtKind::Continue(_) => "continue",
        StmtKind::Fallthrough => "fallthrough",
    }
}

fn range_names(names: RangeNames, out: &mut String) -> Shown {
    word(if names.by_reference { " &" } else { "" }, out)?;
    name(names.first, out)?;
    optional_token(names.second, out)
}

/// The place of the word `switch`, behind `#partial` where that stands before it.
fn switch_word(switch: SwitchWord, out: &mut String) -> Shown {
    word(if switch.partial { " #partial" } else { "" }, out)?;
    open("word", switch.at, out)?;
    close(out)
}

/// A statement that may be left out.
#[cycle(shows)]
fn optional_stmt(s: &Option<Stmt>, out: &mut String) -> Shown {
    match s {
        Some(s) => stmt(s, out),
        None => dash(out),
    }
}

/// What stands before the first `;` of a header.
#[cycle(shows)]
fn header(before: &Header, out: &mut String) -> Shown {
    match before {
        Header::None => dash(out),
        Header::Decl(d) => decl(d, out),
        Header::Simple(s) => stmt(s, out),
    }
}

/// What follows the body of an `if`.
#[cycle(shows)]
fn otherwise(other: &Else, out: &mut String) -> Shown {
    match other {
        Else::None => dash(out),
        Else::If(s) => stmt(s, out),
        Else::Body(body) => stmts(body.as_slice(), out),
    }
}

#[cycle(shows)]
fn span(s: &Span, out: &mut String) -> Shown {
    expr(&s.from, out)?;
    span_end(&s.to, out)
}

#[cycle(shows)]
fn span_end(to: &SpanEnd, out: &mut String) -> Shown {
    match to {
        SpanEnd::Alone => Ok(()),
        SpanEnd::Through(to) => {
            word(" ..=", out)?;
            expr(to, out)
        }
        SpanEnd::Below(to) => {
            word(" ..<", out)?;
            expr(to, out)
        }
    }
}

/// Spans in brackets.
#[cycle(shows)]
fn spans(list: &[Span], out: &mut String) -> Shown {
    word(" [", out)?;
    spans_on(list, out)
}

/// The rest of such a list.
#[cycle(shows)]
fn spans_on(list: &[Span], out: &mut String) -> Shown {
    match list {
        [] => word(" ]", out),
        [x, rest @ ..] => {
            span(x, out)?;
            spans_on(rest, out)
        }
    }
}

#[cycle(shows)]
fn cases(list: &[Case], out: &mut String) -> Shown {
    match list {
        [] => word("", out),
        [x, rest @ ..] => {
            case(x, out)?;
            cases(rest, out)
        }
    }
}

#[cycle(shows)]
fn case(c: &Case, out: &mut String) -> Shown {
    open("case", c.at, out)?;
    spans(c.items.as_slice(), out)?;
    stmts(c.body.as_slice(), out)?;
    close(out)
}

/// A declaration, with a space before it.
#[cycle(shows)]
pub(crate) fn decl(d: &Decl, out: &mut String) -> Shown {
    open(decl_name(&d.kind), d.at, out)?;
    decl_parts(&d.kind, out)?;
    close(out)
}

#[cycle(shows)]
fn decl_parts(kind: &DeclKind, out: &mut String) -> Shown {
    match kind {
        DeclKind::Import(alias, path) => {
            optional_token(*alias, out)?;
            name(*path, out)
        }
        DeclKind::Constant(names, t, values) => {
            tokens(names, out)?;
            optional_type(t, out)?;
            exprs(values.as_slice(), out)
        }
        DeclKind::Variable(names, t, value) => {
            tokens(names, out)?;
            optional_type(t, out)?;
            initial(value, out)
        }
    }
}

fn decl_name(kind: &DeclKind) -> &'static str {
    match kind {
        DeclKind::Import(_, _) => "import",
        DeclKind::Constant(_, _, _) => "constant",
        DeclKind::Variable(_, _, _) => "variable",
    }
}

#[cycle(shows)]
fn initial(value: &Initial, out: &mut String) -> Shown {
    match value {
        Initial::Zero => word(" zero", out),
        Initial::Dashes => word(" ---", out),
        Initial::Values(values) => exprs(values.as_slice(), out),
    }
}
