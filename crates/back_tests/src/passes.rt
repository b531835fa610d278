//! The core code and the mid code of small texts.

ghost use Rattle.std.specs.Prelude.{IfOk};
ghost use Rattle.odc_typed.specs.Frame.{FramesFit};
ghost use Rattle.odc_typed.specs.Nodes.{NodesFit};
ghost use Rattle.odc_typed.specs.View.{program};
ghost use Rattle.odc_typed.specs.Well.{IsWell};
ghost use Rattle.odc_core.specs.View.{program as core_program};
ghost use Rattle.odc_core.specs.Well.{IsWell as IsWellCore};
ghost use Rattle.odc_lower.specs.Size.{AreCountable};

use odc_context::context::pass_context;
use odc_core::tree::{BinaryOp, Comparison, CoreExpr, CoreProgram, CoreStmt, Descriptor, Width};
use odc_lower::lower::lower;
use odc_mid::tree::{MidProgram, MidStep, Named};
use odc_small::text::read_program;
use odc_text::check::Check;
use odc_typed::tree::Program;
use std::alloc::Global;
use std::test::Fail;

/// The program of a text.
fn typed(alloc: Global, text: &str) -> Result<Program, Fail>
    ensures well { IfOk result (λ p. IsWell (program p)) }
    ensures frames { IfOk result (λ p. FramesFit (program p).procedures) }
    ensures nodes { IfOk result (λ p. NodesFit (program p).procedures) }
{
    let read = read_program(alloc, text.as_bytes())?;
    match read {
        Some(p) => Ok(p),
        None => Err(Fail::from("not taken")),
    }
}

/// The core code of a text.
fn core(alloc: Global, text: &str) -> Result<CoreProgram, Fail>
    ensures well { IfOk result (λ q. IsWellCore (core_program q)) }
    ensures countable { IfOk result (λ q. AreCountable (core_program q).procedures) }
{
    let p = typed(alloc, text)?;
    Ok(pass_context(alloc, &p)?)
}

/// The mid code of a text.
fn mid(alloc: Global, text: &str) -> Result<MidProgram, Fail> {
    let q = core(alloc, text)?;
    Ok(lower(alloc, &q)?)
}

/// Whether this is the word in a variable.
fn reads(e: &CoreExpr, x: u32) -> bool {
    match e {
        CoreExpr::Load(Width::Double, place) => matches!(&**place, CoreExpr::Slot(y) if *y == x),
        _ => false,
    }
}

/// Whether a variable gets this constant.
fn sets_constant(s: &CoreStmt, x: u32, word: u64) -> bool {
    match s {
        CoreStmt::Store(Width::Double, CoreExpr::Slot(y), CoreExpr::Const(w)) => {
            *y == x && *w == word
        }
        _ => false,
    }
}

/// Whether a variable gets the word in another one.
fn copies(s: &CoreStmt, x: u32, y: u32) -> bool {
    match s {
        CoreStmt::Store(Width::Double, CoreExpr::Slot(z), value) => *z == x && reads(value, y),
        _ => false,
    }
}

/// 256 bytes, 136 for the variable, 128 for each of seven nodes, and 16 for each of the four that are
/// values, rounded up. Two values wait at once.
#[test]
fn a_line_is_printed(rt: HostRuntime) -> Result<(), Fail> {
    let q = core(
        rt.alloc(),
        "package main\nimport \"core:fmt\"\nmain :: proc() {\n\ta := 8\n\tfmt.println(6 - a)\n}\n",
    )?;
    let [code] = q.procedures.as_slice() else {
        return Err(Fail::from("not one procedure"));
    };
    assert_eq!(rt; code.frame, 1360);
    assert_eq!(rt; code.parameters, 0);
    assert_eq!(rt; code.variables.len(), 6);
    assert_eq!(rt; code.body.len(), 13);
    assert!(rt; sets_constant(&code.body[0], 1, 8));
    assert!(rt; copies(&code.body[1], 0, 1));
    assert!(rt; sets_constant(&code.body[2], 1, 6));
    assert!(rt; copies(&code.body[3], 2, 0));
    assert!(rt;
        matches!(&code.body[12], CoreStmt::Write(Descriptor::Out, from, _) if reads(from, 4))
    );
    Ok(())
}

/// Both operands wait behind two parameters and the result, the divisor is checked at the place of the
/// operator, and the quotient waits where the dividend did.
#[test]
fn a_division_checks_its_divisor(rt: HostRuntime) -> Result<(), Fail> {
    let q = core(
        rt.alloc(),
        "package main\nimport \"core:fmt\"\nF :: proc(a: int, b: int) -> int {\n\treturn a / b\n}\nmain :: proc() {\n}\n",
    )?;
    let [code, _main] = q.procedures.as_slice() else {
        return Err(Fail::from("not two procedures"));
    };
    assert_eq!(rt; code.body.len(), 8);
    assert!(rt; sets_constant(&code.body[0], 2, 0));
    assert!(rt; copies(&code.body[1], 3, 0));
    assert!(rt; copies(&code.body[2], 4, 1));
    assert!(rt;
        matches!(&code.body[3], CoreStmt::Check(divisor, Check::Division, at) if reads(divisor, 4) && at.line == 4 && at.column == 11)
    );
    assert!(rt;
        matches!(
            &code.body[4],
            CoreStmt::Store(Width::Double, CoreExpr::Slot(3), CoreExpr::Binary(BinaryOp::Divide, l, r)) if reads(l, 3) && reads(r, 4)
        )
    );
    assert!(rt; copies(&code.body[5], 2, 3));
    Ok(())
}

/// Each turn reads the condition anew, and leaves the loop where it is false.
#[test]
fn a_turn_begins_with_the_condition(rt: HostRuntime) -> Result<(), Fail> {
    let q = core(
        rt.alloc(),
        "package main\nimport \"core:fmt\"\nmain :: proc() {\n\ta := 1\n\tfor a < 9 {\n\t\ta = a\n\t}\n}\n",
    )?;
    let [code] = q.procedures.as_slice() else {
        return Err(Fail::from("not one procedure"));
    };
    assert_eq!(rt; code.body.len(), 3);
    let CoreStmt::Loop(turn) = &code.body[2] else {
        return Err(Fail::from("no loop"));
    };
    assert_eq!(rt; turn.len(), 7);
    assert!(rt; copies(&turn[0], 1, 0));
    assert!(rt; sets_constant(&turn[1], 2, 9));
    assert!(rt;
        matches!(
            &turn[2],
            CoreStmt::Store(
                Width::Double,
                CoreExpr::Slot(1),
                CoreExpr::Compare(Comparison::Less, _, _)
            )
        )
    );
    assert!(rt;
        matches!(&turn[3], CoreStmt::If(value, first, second) if reads(value, 1) && first.is_empty() && second.len() == 1)
    );
    assert!(rt; matches!(&turn[4], CoreStmt::Eval(CoreExpr::Const(0))));
    assert!(rt; copies(&turn[5], 1, 0));
    assert!(rt; copies(&turn[6], 0, 1));
    Ok(())
}

/// 256 bytes, 136 for the parameter and the result each, 128 for each of four nodes, 16 for each of the
/// three that are values.
#[test]
fn a_result_begins_and_is_answered(rt: HostRuntime) -> Result<(), Fail> {
    let q = core(
        rt.alloc(),
        "package main\nimport \"core:fmt\"\nF :: proc(a: int) -> int {\n\treturn a + 1\n}\nmain :: proc() {\n}\n",
    )?;
    let [code, _main] = q.procedures.as_slice() else {
        return Err(Fail::from("not two procedures"));
    };
    assert_eq!(rt; code.name.as_str(), "main.F");
    assert_eq!(rt; code.parameters, 1);
    assert_eq!(rt; code.frame, 1088);
    assert_eq!(rt; code.variables.len(), 7);
    assert_eq!(rt; code.variables[3].offset, 176);
    assert_eq!(rt; code.variables[4].size, 32);
    assert_eq!(rt; code.body.len(), 7);
    assert!(rt; sets_constant(&code.body[0], 1, 0));
    assert!(rt; copies(&code.body[1], 2, 0));
    assert!(rt; copies(&code.body[4], 1, 2));
    assert!(rt; matches!(&code.body[5], CoreStmt::Return(value) if reads(value, 1)));
    assert!(rt; matches!(&code.body[6], CoreStmt::Return(value) if reads(value, 1)));
    Ok(())
}

/// The sum is the fifth statement, behind three statements of three, four and four steps and one of three:
/// its address lies in the first temporary, and its operands in those behind it.
#[test]
fn operands_lie_in_temporaries_by_depth(rt: HostRuntime) -> Result<(), Fail> {
    let r = mid(
        rt.alloc(),
        "package main\nimport \"core:fmt\"\nmain :: proc() {\n\ta := 8\n\tb := a + 7\n}\n",
    )?;
    let [p] = r.procedures.as_slice() else {
        return Err(Fail::from("not one procedure"));
    };
    assert_eq!(rt; p.steps.len(), 27);
    assert!(rt;
        matches!(
            &p.steps[14],
            MidStep::Address {
                to: 0,
                of: Named::Variable(2)
            }
        )
    );
    assert!(rt;
        matches!(
            &p.steps[17],
            MidStep::Address {
                to: 2,
                of: Named::Variable(3)
            }
        )
    );
    assert!(rt;
        matches!(
            &p.steps[19],
            MidStep::Binary {
                to: 1,
                op: BinaryOp::Add,
                left: 1,
                right: 2
            }
        )
    );
    assert!(rt;
        matches!(
            &p.steps[20],
            MidStep::Store {
                width: Width::Double,
                address: 0,
                value: 1
            }
        )
    );
    Ok(())
}

/// The result is set to 0, and then to 9 by way of a variable, in three, three and four steps; a digit is
/// stored as a byte.
#[test]
fn a_store_and_an_answer(rt: HostRuntime) -> Result<(), Fail> {
    let r = mid(
        rt.alloc(),
        "package main\nimport \"core:fmt\"\nF :: proc() -> int {\n\treturn 9\n}\nmain :: proc() {\n\tfmt.println(F())\n}\n",
    )?;
    let [p, main] = r.procedures.as_slice() else {
        return Err(Fail::from("not two procedures"));
    };
    assert_eq!(rt; p.steps.len(), 18);
    assert!(rt; matches!(&p.steps[4], MidStep::Const { to: 1, word: 9 }));
    assert!(rt; matches!(&p.steps[12], MidStep::Return { value: 0 }));
    let mut bytes = 0u32;
    for step in main.steps.as_slice() {
        if matches!(
            step,
            MidStep::Store {
                width: Width::Byte,
                ..
            }
        ) {
            bytes = bytes.saturating_add(1);
        }
    }
    assert!(rt; bytes > 0);
    Ok(())
}
