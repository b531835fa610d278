//! What files and the fronts of texts answer. Depths and places are counted by hand.

use odc_builtins::library;
use odc_lex::lex;
use odc_lookahead::error::ParseError;
use odc_parse::front::{Parsed, parse_decl, parse_expr};
use odc_parse::parse::parse_file;
use odc_syntax::token::Tokens;
use odc_syntax::tree::{DeclKind, Else, ExprKind, FileTree, StmtKind};
use odc_text::code::{Fault, code_name};
use odc_text::place::FileId;
use odc_tree::discard::{discard_decl, discard_decls, discard_expr};
use std::alloc::Global;
use std::fmt::Write;
use std::test::Fail;

/// The tokens of a text that has some.
fn tokens_of(alloc: Global, text: &str) -> Option<Tokens> {
    if text.len() > 100_000 {
        return None;
    }
    match lex(alloc, FileId { number: 0 }, text.as_bytes()) {
        Ok(tokens) => Some(tokens),
        Err(_error) => None,
    }
}

fn fault_shown(out: &mut String, fault: Fault) -> Result<(), Fail> {
    write!(
        out,
        "{} {}:{}",
        code_name(fault.code),
        fault.at.line,
        fault.at.column
    )?;
    Ok(())
}

fn error_shown(out: &mut String, error: ParseError) -> Result<(), Fail> {
    match error {
        ParseError::Fault(fault) => fault_shown(out, fault),
        ParseError::Memory => {
            out.push_str("memory")?;
            Ok(())
        }
    }
}

/// How many declarations the file has, or its fault.
fn file_answer(alloc: Global, text: &str) -> Result<String, Fail> {
    let mut out = String::new(alloc);
    match tokens_of(alloc, text) {
        None => out.push_str("no tokens")?,
        Some(tokens) => match parse_file(alloc, &tokens) {
            Ok(tree) => {
                let count = tree.decls.len();
                write!(out, "{} declarations", discard_decls(tree.decls, count))?;
            }
            Err(error) => error_shown(&mut out, error)?,
        },
    }
    Ok(out)
}

/// The position behind the expression at the front, or the fault.
fn expr_answer(alloc: Global, text: &str) -> Result<String, Fail> {
    expr_answer_from(alloc, text, 0)
}

/// The same from a position on.
fn expr_answer_from(alloc: Global, text: &str, from: usize) -> Result<String, Fail> {
    let mut out = String::new(alloc);
    match tokens_of(alloc, text) {
        None => out.push_str("no tokens")?,
        Some(tokens) => {
            if from > tokens.list.len() {
                out.push_str("no position")?;
                return Ok(out);
            }
            match parse_expr(alloc, &tokens, from) {
                Ok(read) => {
                    let Parsed { tree, next } = read;
                    write!(out, "next {}", discard_expr(tree, next))?;
                }
                Err(error) => error_shown(&mut out, error)?,
            }
        }
    }
    Ok(out)
}

/// The same for a declaration.
pub(crate) fn decl_answer(alloc: Global, text: &str) -> Result<String, Fail> {
    let mut out = String::new(alloc);
    match tokens_of(alloc, text) {
        None => out.push_str("no tokens")?,
        Some(tokens) => match parse_decl(alloc, &tokens, 0) {
            Ok(read) => {
                let Parsed { tree, next } = read;
                write!(out, "next {}", discard_decl(tree, next))?;
            }
            Err(error) => error_shown(&mut out, error)?,
        },
    }
    Ok(out)
}

#[test]
fn fronts_that_are_expressions(rt: HostRuntime) -> Result<(), Fail> {
    for (text, want) in [
        ("a < b < c", "next 3"),
        ("a", "next 1"),
        ("'a'", "next 1"),
        ("`a`", "next 1"),
        ("context.allocator", "next 3"),
        ("#caller_location", "next 1"),
        (".A", "next 2"),
        ("{1, x = 2,}", "next 8"),
        ("(a)", "next 3"),
        ("a.(T)", "next 5"),
        ("a^", "next 2"),
        ("a[1:2]", "next 6"),
        ("f(1, x = 2)", "next 8"),
        ("f() or_return", "next 4"),
        ("a.T{1}", "next 6"),
        ("cast(^T)a", "next 6"),
        ("a || b && c == d + e * -f", "next 12"),
        ("[?]int{1, 2}", "next 9"),
        ("proc(a: int) {}", "next 8"),
        ("struct{}", "next 3"),
        ("union{}", "next 3"),
        ("enum{A}", "next 4"),
        ("distinct ^T", "next 3"),
        ("#type proc()", "next 4"),
        ("[2]int{1, 2}", "next 9"),
        ("[dynamic]T{}", "next 6"),
        ("[]T{}", "next 5"),
        ("T{}", "next 3"),
        ("f(x){1}", "next 7"),
        ("a[1]", "next 4"),
        ("a[:]", "next 4"),
        ("a[1:]", "next 5"),
        ("a == b || a != b && a <= b || a >= b && a > b", "next 19"),
        ("a | b ~ c - d", "next 7"),
        ("a / b % c %% d & e &~ f << g >> h", "next 15"),
        ("! + ~ & - a", "next 6"),
        ("proc \"\\x6fdin\" ()", "next 4"),
        ("[2][?]int{1}", "G01 1:10"),
        ("f(,)", "G01 1:3"),
        ("a +", "G01 1:4"),
        (")", "G01 1:1"),
        ("a + matrix", "N02 1:5"),
        ("proc \"c\" ()", "N12 1:1"),
    ] {
        let got = expr_answer(rt.alloc(), text)?;
        assert_eq!(rt; got.as_str(), want, "{text}");
    }
    Ok(())
}

/// So many signs `-`, each with a space behind it, and a last text.
fn behind_signs(alloc: Global, count: usize, last: &str) -> Result<String, Fail> {
    let mut text = String::new(alloc);
    for _ in 0..count {
        text.push_str("- ")?;
    }
    text.push_str(last)?;
    expr_answer(alloc, text.as_str())
}

#[test]
fn at_the_bound(rt: HostRuntime) -> Result<(), Fail> {
    for (count, last, want) in [
        (199, "1", "next 200"),
        (200, "1", "L05 1:401"),
        (198, "cast(T)a", "next 203"),
        (199, "cast(T)a", "L05 1:404"),
        (199, "(a)", "L05 1:400"),
        (199, "a^", "L05 1:400"),
        (199, "a+b", "L05 1:400"),
    ] {
        let got = behind_signs(rt.alloc(), count, last)?;
        assert_eq!(rt; got.as_str(), want, "{count} {last}");
    }
    Ok(())
}

/// A declaration that begins with so many parentheses, behind a text and before another.
fn behind_parentheses(
    alloc: Global,
    before: &str,
    count: usize,
    after: &str,
) -> Result<String, Fail> {
    let mut text = String::new(alloc);
    text.push_str(before)?;
    text.push_str("X :: ")?;
    for _ in 0..count {
        text.push_str("(")?;
    }
    text.push_str(after)?;
    Ok(text)
}

#[test]
fn declarations_and_files_at_the_bound(rt: HostRuntime) -> Result<(), Fail> {
    for (count, after, want) in [
        (198, "1", "G01 1:205"),
        (199, "1", "L05 1:205"),
        (200, "1", "L05 1:205"),
    ] {
        let text = behind_parentheses(rt.alloc(), "", count, after)?;
        let answer = decl_answer(rt.alloc(), text.as_str())?;
        assert_eq!(rt; answer.as_str(), want, "{count}");
    }
    for (count, after, want) in [
        (198, "1", "G01 2:205"),
        (199, "1", "L05 2:205"),
        (200, "1\nx: matrix", "N02 3:4"),
    ] {
        let text = behind_parentheses(rt.alloc(), "package p\n", count, after)?;
        let answer = file_answer(rt.alloc(), text.as_str())?;
        assert_eq!(rt; answer.as_str(), want, "{count}");
    }
    Ok(())
}

#[test]
fn expressions_behind_other_tokens(rt: HostRuntime) -> Result<(), Fail> {
    for (from, want) in [
        (2, "next 5"),
        (4, "next 5"),
        (1, "G01 1:3"),
        (5, "G01 1:10"),
    ] {
        let got = expr_answer_from(rt.alloc(), "a = b < c", from)?;
        assert_eq!(rt; got.as_str(), want, "{from}");
    }
    Ok(())
}

#[test]
fn declarations(rt: HostRuntime) -> Result<(), Fail> {
    for (text, want) in [
        ("a, b :: 1, 2", "next 8"),
        ("a : int : 1", "next 5"),
        ("a := 1", "next 4"),
        ("a: int", "next 3"),
        ("a: int = ---", "next 5"),
        ("a: int = 1", "next 5"),
        ("a: (^T)", "next 6"),
        ("a: [dynamic]T", "next 6"),
        ("a: $T", "G01 1:4"),
        ("a: [?]int = {1}", "G01 1:11"),
        (
            "P :: proc \"contextless\" ($T: typeid, a, b: []T, c := 1) -> (x: int, err: E)",
            "next 34",
        ),
        ("Q :: proc(int, ^T) -> bool", "next 12"),
        ("Q :: proc(a: int, ^T)", "G01 1:19"),
        ("Q :: proc(^T, a: int)", "G01 1:16"),
        ("P :: proc(a: [$N]$T, b: (^int),)", "next 22"),
        ("P :: proc($N: int, $T: typeid)", "next 15"),
        ("P :: proc($T: bool)", "G01 1:15"),
        ("P :: proc(a := $T)", "G01 1:16"),
        ("P :: proc() -> $T", "G01 1:16"),
        ("P :: proc() -> (r := 5)", "next 13"),
        ("P :: proc(a: int) -> proc() {}", "next 15"),
        ("P :: matrix", "N02 1:6"),
        ("X :: proc() -> ()", "G01 1:17"),
        ("S :: struct {a, b: int, c: [4]T,}", "next 19"),
        ("U :: union {int, ^T}", "next 10"),
        ("U :: union {int,}", "next 8"),
        ("E :: enum u8 {A, B = 2}", "next 12"),
        ("E :: enum {A,}", "next 8"),
        ("T :: distinct #soa[dynamic]P", "next 9"),
    ] {
        let got = decl_answer(rt.alloc(), text)?;
        assert_eq!(rt; got.as_str(), want, "{text}");
    }
    Ok(())
}

#[test]
fn files(rt: HostRuntime) -> Result<(), Fail> {
    for (text, want) in [
        ("package p", "0 declarations"),
        (
            "package p\nimport \"core:fmt\"\nimport m \"core:mem\"\nX :: 1\n",
            "3 declarations",
        ),
        ("package p\nX :: a < b < c", "G01 2:12"),
        ("package p\nX :: 1 Y :: 2", "G01 2:8"),
        ("package\nX :: 1", "G01 2:3"),
        ("", "G01 1:1"),
        ("package p\nf :: proc() {\n}", "1 declarations"),
        ("package p\nf :: proc() {\n", "G01 3:1"),
        ("package p\nx: matrix", "N02 2:4"),
        ("package p\nX :: a < b < c\nx: matrix", "N02 3:4"),
    ] {
        let got = file_answer(rt.alloc(), text)?;
        assert_eq!(rt; got.as_str(), want, "{text}");
    }
    Ok(())
}

/// What a file answers whose second line is this.
fn line_answer(alloc: Global, line: &str) -> Result<String, Fail> {
    let mut text = String::new(alloc);
    text.push_str("package p\n")?;
    text.push_str(line)?;
    file_answer(alloc, text.as_str())
}

#[test]
fn refused_forms(rt: HostRuntime) -> Result<(), Fail> {
    for (line, want) in [
        ("x :: 1.5", "N01 2:6"),
        ("x: matrix", "N02 2:4"),
        ("x: map", "N03 2:4"),
        ("x: typeid", "N04 2:4"),
        ("x :: proc($T: typeid)", "1 declarations"),
        ("x :: transmute(int)1", "N05 2:6"),
        ("x :: auto_cast 1", "N05 2:6"),
        ("x: [^]int", "N05 2:4"),
        ("x: bit_set", "N08 2:4"),
        ("x: bit_field", "N08 2:4"),
        ("using x", "N09 2:1"),
        ("x :: #load", "N10 2:6"),
        ("x :: proc() where", "N11 2:13"),
        ("x :: ..", "N11 2:6"),
        ("x :: proc {", "N11 2:6"),
        ("x :: struct(", "N11 2:6"),
        ("x :: union(", "N11 2:6"),
        ("foreign", "N12 2:1"),
        ("x :: asm", "N12 2:6"),
        ("x :: proc \"c\" ()", "N12 2:6"),
        ("x :: proc \"c\\x6fntextless\" ()", "1 declarations"),
        ("x :: proc `odin` ()", "1 declarations"),
        ("x :: proc `\\x6fdin` ()", "N12 2:6"),
        ("x: #soa^T", "N14 2:4"),
        ("x :: &context", "N15 2:6"),
        ("when", "N16 2:1"),
        ("x :: a or_else b", "N16 2:8"),
        ("or_break", "N16 2:1"),
        ("or_continue", "N16 2:1"),
        ("x :: a ? b", "N16 2:8"),
        ("@(private)", "N17 2:1"),
        ("#+build", "N17 2:1"),
        ("x :: a not_in b", "N18 2:8"),
    ] {
        let got = line_answer(rt.alloc(), line)?;
        assert_eq!(rt; got.as_str(), want, "{line}");
    }
    Ok(())
}

/// What a file with a procedure answers whose body is this line, the third.
fn body_answer(alloc: Global, line: &str) -> Result<String, Fail> {
    let mut text = String::new(alloc);
    text.push_str("package p\nf :: proc() {\n")?;
    text.push_str(line)?;
    text.push_str("\n}\n")?;
    file_answer(alloc, text.as_str())
}

#[test]
fn statements(rt: HostRuntime) -> Result<(), Fail> {
    for line in [
        "a, b = 1, 2",
        "a += 1",
        "a -= 1; a *= 1; a /= 1; a %= 1; a %%= 1",
        "a &= 1; a |= 1; a ~= 1; a &~= 1; a <<= 1; a >>= 1",
        "x: int; y: int = 1;;",
        "f()",
        "x, y := f()",
        "{ a = 1 }",
        "if a { b() } else if c { d() } else do e()",
        "if x := f(); x > 0 do return",
        "if (x == T{1}) { }",
        "if f([?]T{1}) { }",
        "if x == struct {a: int} { }",
        "if f(); a { } else { }",
        "for { break }",
        "for a < 1 do a += 1",
        "for i := 0; i < 10; i += 1 { continue }",
        "for ;; { }",
        "for x in xs { }",
        "for &x in xs { }",
        "for f(); a; f() { }",
        "for &x, i in xs do f(x, i)",
        "for i in 0..<n { }",
        "for i in 0..=n { }",
        "l: for { break l }",
        "l: { }",
        "l: for { continue l }",
        "l: switch x { }",
        "l: #partial switch x { case: }",
        "switch x { case 1, 2..=3: a() case: fallthrough }",
        "switch x := f(); x { case 1: }",
        "switch f(); x { case 1..<2: a(); b() }",
        "switch { case a: }",
        "#partial switch x { case .A: }",
        "switch v in u { case int: a() case: b() }",
        "#partial switch v in u { case int: }",
        "defer f()",
        "defer { }",
        "return 1, 2",
        "return",
        "g :: proc() -> int { return 1 }",
    ] {
        let got = body_answer(rt.alloc(), line)?;
        assert_eq!(rt; got.as_str(), "1 declarations", "{line}");
    }
    Ok(())
}

#[test]
fn statements_that_are_none(rt: HostRuntime) -> Result<(), Fail> {
    for (line, want) in [
        ("if x == T{1} { }", "G01 3:14"),
        ("if [?]T { }", "G01 3:9"),
        ("for x in #soa[?]T { }", "G01 3:19"),
        ("switch [?]T { case: }", "G01 3:13"),
        ("for ; [?]T; { }", "G01 3:11"),
        ("if proc() { }", "G01 3:11"),
        ("if a { } else b", "G01 3:15"),
        ("switch x { case 1 a() }", "G01 3:19"),
        ("f() g()", "G01 3:5"),
        ("for a in { }", "G01 3:10"),
        ("a = = 1", "G01 3:5"),
        ("else { }", "G01 3:1"),
        ("switch x { f() }", "G01 3:12"),
        ("l: if a { }", "G01 3:4"),
        ("a = when", "N16 3:5"),
    ] {
        let got = body_answer(rt.alloc(), line)?;
        assert_eq!(rt; got.as_str(), want, "{line}");
    }
    Ok(())
}

/// Whether the `else` of a body that begins with two times `if` is the inner one's.
fn inner_else(tree: &FileTree) -> bool {
    let Some(first) = tree.decls.first() else {
        return false;
    };
    let DeclKind::Constant(_names, _ty, values) = &*first.kind else {
        return false;
    };
    let Some(value) = values.first() else {
        return false;
    };
    let ExprKind::ProcLit(_signature, body) = &*value.kind else {
        return false;
    };
    let Some(outer) = body.first() else {
        return false;
    };
    let StmtKind::If(_header, _condition, block, Else::None) = &*outer.kind else {
        return false;
    };
    let Some(inner) = block.first() else {
        return false;
    };
    matches!(&*inner.kind, StmtKind::If(_, _, _, Else::Body(_)))
}

#[test]
fn else_belongs_to_the_inner_if(rt: HostRuntime) -> Result<(), Fail> {
    let text = "package p\nf :: proc() {\nif a do if b do c() else do d()\n}";
    let inner = match tokens_of(rt.alloc(), text) {
        None => false,
        Some(tokens) => match parse_file(rt.alloc(), &tokens) {
            Ok(tree) => {
                let inner = inner_else(&tree);
                discard_decls(tree.decls, inner)
            }
            Err(_error) => false,
        },
    };
    assert!(rt; inner);
    Ok(())
}

#[test]
fn library_texts(rt: HostRuntime) -> Result<(), Fail> {
    for (path, want) in [
        ("base:runtime", "17 declarations"),
        ("core:mem", "8 declarations"),
    ] {
        let got = match library(path) {
            Some(text) => file_answer(rt.alloc(), text)?,
            None => String::new(rt.alloc()),
        };
        assert_eq!(rt; got.as_str(), want, "{path}");
    }
    Ok(())
}

/// The main file of a package that fills columns in an arena of its own.
const MAIN: &str = "\
package main\n\
import \"core:fmt\"\n\
import \"base:runtime\"\n\
import \"pool\"\n\
\n\
Particle :: struct {id: int, x, y: i32, alive: bool}\n\
\n\
sum :: proc(xs: []$T) -> T {\n\
\ttotal: T\n\
\tfor x in xs { total += x }\n\
\treturn total\n\
}\n\
fill :: proc(ps: ^#soa[dynamic]Particle, n: int) -> (err: runtime.Allocator_Error) {\n\
\tfor i in 0..<n {\n\
\t\tappend(ps, Particle{id = i, x = i32(i % 10), alive = i % 2 == 0}) or_return\n\
\t}\n\
\treturn\n\
}\n\
main :: proc() {\n\
\tp: pool.Pool\n\
\tcontext.allocator = pool.allocator(&p)\n\
\tdefer free_all()\n\
\tps: #soa[dynamic]Particle\n\
\tif err := fill(&ps, 1000); err != .None {\n\
\t\tfmt.println(\"failed\", err)\n\
\t\treturn\n\
\t}\n\
\tlive := 0\n\
\tfor i in 0..<len(ps) {\n\
\t\tps[i].y = ps[i].x * 2\n\
\t\tif ps[i].alive { live += 1 }\n\
\t}\n\
\tfmt.println(len(ps), cap(ps), live, sum(ps.y[:len(ps)]), sum(ps.id[:len(ps)]), p.calls)\n\
}\n\
";

/// The package of that arena.
const POOL: &str = "\
package pool\n\
import \"base:runtime\"\n\
\n\
Pool :: struct {data: [65536]byte, used, calls: int}\n\
\n\
allocator :: proc(p: ^Pool) -> runtime.Allocator {\n\
\treturn runtime.Allocator{procedure = pool_proc, data = p}\n\
}\n\
pool_proc :: proc(allocator_data: rawptr, mode: runtime.Allocator_Mode, size, alignment: int, old_memory: rawptr, old_size: int, location := #caller_location) -> ([]byte, runtime.Allocator_Error) {\n\
\tp := cast(^Pool)allocator_data\n\
\tp.calls += 1\n\
\t#partial switch mode {\n\
\tcase .Alloc:\n\
\t\tfrom := (p.used + alignment - 1) &~ (alignment - 1)\n\
\t\tif from + size > len(p.data) { return nil, .Out_Of_Memory }\n\
\t\tp.used = from + size\n\
\t\treturn p.data[from:from + size], .None\n\
\tcase .Free_All:\n\
\t\tp.used = 0\n\
\t\treturn nil, .None\n\
\t}\n\
\treturn nil, .Mode_Not_Implemented\n\
}\n\
";

#[test]
fn packages_with_allocators(rt: HostRuntime) -> Result<(), Fail> {
    for (text, want) in [(MAIN, "7 declarations"), (POOL, "4 declarations")] {
        let got = file_answer(rt.alloc(), text)?;
        assert_eq!(rt; got.as_str(), want);
    }
    Ok(())
}
