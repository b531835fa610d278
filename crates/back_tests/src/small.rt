//! Procedures that are read, with their places and variables.

use odc_small::text::read_program;
use odc_text::place::Place;
use odc_typed::tree::{BinaryOp, ExprKind, Program, StmtKind};
use std::test::Fail;

/// The program with these procedures, which begin on line 3, and an empty `main`.
fn read(rt: &HostRuntime, text: &str) -> Result<Option<Program>, Fail> {
    let mut whole = String::from_str(rt.alloc(), "package main\nimport \"core:fmt\"\n")?;
    whole.push_str(text)?;
    whole.push_str("main :: proc() {\n}\n")?;
    Ok(read_program(rt.alloc(), whole.as_bytes())?)
}

fn is_at(place: Place, line: u32, column: u32) -> bool {
    place.line == line && place.column == column
}

/// Whether a procedure with the parameters `a` and `b` and these lines is taken, beside one that takes one
/// argument.
fn is_taken(rt: &HostRuntime, lines: &str) -> Result<bool, Fail> {
    let mut text = String::from_str(rt.alloc(), "F :: proc(a: int, b: int) -> int {\n")?;
    text.push_str(lines)?;
    text.push_str("\treturn a\n}\nG :: proc(a: int) -> int {\n\treturn a\n}\n")?;
    Ok(read(rt, text.as_str())?.is_some())
}

/// Whether a procedure that answers this value is taken, beside one that takes two arguments.
fn is_answered(rt: &HostRuntime, value: &str) -> Result<bool, Fail> {
    let mut text = String::from_str(rt.alloc(), "F :: proc() -> int {\n\treturn ")?;
    text.push_str(value)?;
    text.push_str("\n}\nG :: proc(a: int, b: int) -> int {\n\treturn a\n}\n")?;
    Ok(read(rt, text.as_str())?.is_some())
}

#[test]
fn a_greatest_divisor_is_read(rt: HostRuntime) -> Result<(), Fail> {
    let text =
        "F :: proc(a: int, b: int) -> int {\n\tc := a\n\td := b\n\tfor 0 < d {\n\t\te := c % d\n\t\tc = d\n\t\td = e\n\t}\n\treturn c\n}\n";
    let program = read(&rt, text)?.ok_or("not taken")?;
    let [procedure, _main] = program.procedures.as_slice() else {
        return Err(Fail::from("not two procedures"));
    };
    assert_eq!(rt; procedure.name.as_str(), "main.F");
    assert!(rt; is_at(procedure.at, 3, 6));
    let ([a, b], [result], [c, d, e]) = (
        procedure.parameters.as_slice(),
        procedure.results.as_slice(),
        procedure.locals.as_slice(),
    ) else {
        return Err(Fail::from("not these variables"));
    };
    assert!(rt; is_at(a.at, 3, 11));
    assert!(rt; is_at(b.at, 3, 19));
    assert!(rt; is_at(result.at, 3, 30));
    assert!(rt; is_at(c.at, 4, 2));
    assert!(rt; is_at(d.at, 5, 2));
    assert!(rt; is_at(e.at, 7, 3));
    let [first, _, third, last] = procedure.body.as_slice() else {
        return Err(Fail::from("not four statements"));
    };
    assert!(rt; matches!(first.kind, StmtKind::Declare(3, _)));
    assert!(rt; is_at(last.at, 11, 2));
    let StmtKind::Loop(condition, body) = &third.kind else {
        return Err(Fail::from("no loop"));
    };
    assert!(rt; is_at(condition.at, 6, 8));
    assert!(rt; matches!(condition.kind, ExprKind::Binary(BinaryOp::Less, ..)));
    let [declared, ..] = body.as_slice() else {
        return Err(Fail::from("no body"));
    };
    let StmtKind::Declare(5, value) = &declared.kind else {
        return Err(Fail::from("no declaration"));
    };
    assert!(rt; is_at(value.at, 7, 10));
    assert!(rt; matches!(value.kind, ExprKind::Binary(BinaryOp::Remainder, ..)));
    Ok(())
}

#[test]
fn names_are_checked(rt: HostRuntime) -> Result<(), Fail> {
    assert!(rt; is_taken(&rt, "\tc := a\n\tc = b\n")?);
    assert!(rt; !is_taken(&rt, "\ta = b\n")?, "a parameter assigned");
    assert!(rt; !is_taken(&rt, "\ta := b\n")?, "a parameter declared");
    assert!(rt; !is_taken(&rt, "\tc := c\n")?, "used in its declaration");
    assert!(rt; is_taken(&rt, "\tif a < b {\n\t\tc := a\n\t}\n\tc := b\n")?);
    assert!(rt;
        !is_taken(&rt, "\tc := b\n\tif a < b {\n\t\tc := a\n\t}\n")?,
        "declared outside"
    );
    assert!(rt;
        !is_taken(&rt, "\tif a < b {\n\t\tc := a\n\t}\n\tc = b\n")?,
        "a closed block's name"
    );
    assert!(rt;
        read(&rt, "F :: proc(a: int, a: int) -> int {\n\treturn a\n}\n")?.is_none(),
        "one name twice"
    );
    Ok(())
}

#[test]
fn sums_just_outside_are_not_taken(rt: HostRuntime) -> Result<(), Fail> {
    assert!(rt; is_taken(&rt, "\tc := a / 1 % b\n")?);
    assert!(rt; !is_taken(&rt, "\tc := a / 0\n")?, "a zero divisor");
    assert!(rt; !is_taken(&rt, "\tc := a % 0\n")?, "a zero divisor");
    assert!(rt; !is_taken(&rt, "\tc := 2 * a\n")?, "an integer first");
    assert!(rt; is_taken(&rt, "\tc := G(G(G(G(a))))\n")?);
    assert!(rt;
        !is_taken(&rt, "\tc := G(G(G(G(G(a)))))\n")?,
        "five calls deep"
    );
    assert!(rt; !is_taken(&rt, "\tc := a+a\n")?, "no spaces");
    Ok(())
}

#[test]
fn calls_have_their_number_of_arguments(rt: HostRuntime) -> Result<(), Fail> {
    assert!(rt; is_answered(&rt, "G(1, 2)")?);
    assert!(rt; !is_answered(&rt, "G(1)")?, "one argument");
    assert!(rt; !is_answered(&rt, "H(1, 2)")?, "another name");
    Ok(())
}
