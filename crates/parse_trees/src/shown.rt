//! Tokens, places and operators.

use odc_syntax::token::Token;
use odc_syntax::tree::{AssignOp, BinaryOp, UnaryOp};
use odc_text::place::Place;
use std::alloc::AllocError;
use std::fmt::Write;

/// What a function that shows something gives: nothing, or that memory ran out.
pub(crate) type Shown = Result<(), AllocError>;

/// A word as it stands.
pub(crate) fn word(text: &str, out: &mut String) -> Shown {
    out.push_str(text)
}

/// A space and a dash, for what is left out.
pub(crate) fn dash(out: &mut String) -> Shown {
    out.push_str(" -")
}

/// A place, as `line:column`.
pub(crate) fn place(at: Place, out: &mut String) -> Shown {
    write!(out, "{}:{}", at.line, at.column)
}

/// A token: its place, and how many bytes it covers.
pub(crate) fn token(t: Token, out: &mut String) -> Shown {
    place(t.at, out)?;
    write!(out, "+{}", t.to.saturating_sub(t.from))
}

/// A token with a space before it.
pub(crate) fn name(t: Token, out: &mut String) -> Shown {
    out.push_str(" ")?;
    token(t, out)
}

/// Two tokens with a space before each.
pub(crate) fn two_names(first: Token, second: Token, out: &mut String) -> Shown {
    name(first, out)?;
    name(second, out)
}

/// A token with a space before it, or ` -` where there is none.
pub(crate) fn optional_token(t: Option<Token>, out: &mut String) -> Shown {
    match t {
        Some(t) => name(t, out),
        None => dash(out),
    }
}

/// A name and `=`, where there is one.
pub(crate) fn named(t: Option<Token>, out: &mut String) -> Shown {
    match t {
        Some(t) => {
            name(t, out)?;
            out.push_str("=")
        }
        None => Ok(()),
    }
}

/// Tokens in brackets, with a space before them.
pub(crate) fn tokens(list: &[Token], out: &mut String) -> Shown {
    out.push_str(" [")?;
    for (i, t) in list.iter().enumerate() {
        if i > 0 {
            out.push_str(" ")?;
        }
        token(*t, out)?;
    }
    out.push_str("]")
}

/// The beginning of a node: a space, its kind and its place.
pub(crate) fn open(kind: &str, at: Place, out: &mut String) -> Shown {
    write!(out, " ({}@", kind)?;
    place(at, out)
}

/// The beginning of an expression, with the place of its first token where that is another than its own.
pub(crate) fn open_expr(kind: &str, first: Place, at: Place, out: &mut String) -> Shown {
    open(kind, at, out)?;
    if first.line == at.line && first.column == at.column {
        return Ok(());
    }
    out.push_str("<")?;
    place(first, out)
}

/// The end of a node.
pub(crate) fn close(out: &mut String) -> Shown {
    out.push_str(")")
}

pub(crate) fn unary_sign(op: UnaryOp) -> &'static str {
    match op {
        UnaryOp::Plus => " +",
        UnaryOp::Minus => " -",
        UnaryOp::Not => " !",
        UnaryOp::Complement => " ~",
        UnaryOp::Address => " &",
    }
}

pub(crate) fn binary_sign(op: BinaryOp) -> &'static str {
    match op {
        BinaryOp::Or => " ||",
        BinaryOp::And => " &&",
        BinaryOp::Equal => " ==",
        BinaryOp::NotEqual => " !=",
        BinaryOp::Less => " <",
        BinaryOp::Greater => " >",
        BinaryOp::LessEqual => " <=",
        BinaryOp::GreaterEqual => " >=",
        BinaryOp::Add => " +",
        BinaryOp::Subtract => " -",
        BinaryOp::BitOr => " |",
        BinaryOp::BitXor => " ~",
        BinaryOp::Multiply => " *",
        BinaryOp::Divide => " /",
        BinaryOp::Remainder => " %",
        BinaryOp::Modulo => " %%",
        BinaryOp::BitAnd => " &",
        BinaryOp::AndNot => " &~",
        BinaryOp::ShiftLeft => " <<",
        BinaryOp::ShiftRight => " >>",
    }
}

/// The operator of an assignment, up to its `=`.
pub(crate) fn assign_sign(op: AssignOp) -> &'static str {
    match op {
        AssignOp::Set => " ",
        AssignOp::By(op) => binary_sign(op),
    }
}
