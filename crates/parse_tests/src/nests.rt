//! Texts that nest as deep as they may.

use crate::tests::decl_answer;
use std::alloc::Global;
use std::fmt::Write;
use std::test::Fail;

/// A text that nests: what begins it, what opens a level, what stands innermost, what closes a level, and what
/// ends it; the most levels that a declaration holds, the position behind it at one level less and at the
/// most, and the column of the fault at one level more.
struct Nest {
    name: &'static str,
    head: &'static str,
    open: &'static str,
    middle: &'static str,
    close: &'static str,
    tail: &'static str,
    most: u8,
    less: usize,
    next: usize,
    column: usize,
}

const NESTS: [Nest; 21] = [
    Nest {
        name: "procedures",
        head: "x := ",
        open: "proc ( a := ",
        middle: "1",
        close: " ) { }",
        tail: "",
        most: 198,
        less: 1580,
        next: 1588,
        column: 2394,
    },
    Nest {
        name: "parentheses",
        head: "x := ",
        open: "(",
        middle: "1",
        close: ")",
        tail: "",
        most: 198,
        less: 398,
        next: 400,
        column: 205,
    },
    Nest {
        name: "signs",
        head: "x := ",
        open: "- ",
        middle: "1",
        close: "",
        tail: "",
        most: 198,
        less: 201,
        next: 202,
        column: 404,
    },
    Nest {
        name: "casts",
        head: "x := ",
        open: "cast(T)",
        middle: "1",
        close: "",
        tail: "",
        most: 198,
        less: 792,
        next: 796,
        column: 1397,
    },
    Nest {
        name: "calls",
        head: "x := ",
        open: "f(",
        middle: "1",
        close: ")",
        tail: "",
        most: 198,
        less: 595,
        next: 598,
        column: 403,
    },
    Nest {
        name: "indices",
        head: "x := ",
        open: "a[",
        middle: "1",
        close: "]",
        tail: "",
        most: 198,
        less: 595,
        next: 598,
        column: 403,
    },
    Nest {
        name: "literals",
        head: "x := ",
        open: "{",
        middle: "1",
        close: "}",
        tail: "",
        most: 198,
        less: 398,
        next: 400,
        column: 205,
    },
    Nest {
        name: "pointers",
        head: "x: ",
        open: "^",
        middle: "T",
        close: "",
        tail: "",
        most: 198,
        less: 200,
        next: 201,
        column: 203,
    },
    Nest {
        name: "slices",
        head: "x: ",
        open: "[]",
        middle: "T",
        close: "",
        tail: "",
        most: 198,
        less: 397,
        next: 399,
        column: 402,
    },
    Nest {
        name: "parenthesised types",
        head: "x: ",
        open: "(",
        middle: "T",
        close: ")",
        tail: "",
        most: 198,
        less: 397,
        next: 399,
        column: 203,
    },
    Nest {
        name: "distinct",
        head: "x: ",
        open: "distinct ",
        middle: "T",
        close: "",
        tail: "",
        most: 198,
        less: 200,
        next: 201,
        column: 1795,
    },
    Nest {
        name: "structs",
        head: "x: ",
        open: "struct {a: ",
        middle: "T",
        close: "}",
        tail: "",
        most: 198,
        less: 988,
        next: 993,
        column: 2193,
    },
    Nest {
        name: "procedure types",
        head: "x: ",
        open: "proc(a: ",
        middle: "T",
        close: ")",
        tail: "",
        most: 198,
        less: 988,
        next: 993,
        column: 1596,
    },
    Nest {
        name: "blocks",
        head: "x :: proc() {",
        open: "{",
        middle: "",
        close: "}",
        tail: "}",
        most: 198,
        less: 402,
        next: 404,
        column: 212,
    },
    Nest {
        name: "ifs",
        head: "x :: proc() { ",
        open: "if a {",
        middle: "",
        close: "}",
        tail: " }",
        most: 197,
        less: 792,
        next: 796,
        column: 1200,
    },
    Nest {
        name: "loops",
        head: "x :: proc() { ",
        open: "for {",
        middle: "",
        close: "}",
        tail: " }",
        most: 198,
        less: 599,
        next: 602,
        column: 1005,
    },
    Nest {
        name: "switches",
        head: "x :: proc() { ",
        open: "switch {case: ",
        middle: "",
        close: "}",
        tail: " }",
        most: 198,
        less: 993,
        next: 998,
        column: 2787,
    },
    Nest {
        name: "deferred",
        head: "x :: proc() { ",
        open: "defer ",
        middle: "{}",
        close: "",
        tail: " }",
        most: 197,
        less: 206,
        next: 207,
        column: 1203,
    },
    Nest {
        name: "elses",
        head: "x :: proc() { ",
        open: "if a {} else ",
        middle: "{}",
        close: "",
        tail: " }",
        most: 197,
        less: 990,
        next: 995,
        column: 2579,
    },
    Nest {
        name: "dereferences",
        head: "x := a",
        open: "^",
        middle: "",
        close: "",
        tail: "",
        most: 198,
        less: 201,
        next: 202,
        column: 205,
    },
    Nest {
        name: "sums",
        head: "x := 1",
        open: "+1",
        middle: "",
        close: "",
        tail: "",
        most: 198,
        less: 398,
        next: 400,
        column: 403,
    },
];

/// What a declaration of so many levels answers.
fn nest_answer(alloc: Global, nest: &Nest, levels: usize) -> Result<String, Fail> {
    let mut text = String::new(alloc);
    text.push_str(nest.head)?;
    for _ in 0..levels {
        text.push_str(nest.open)?;
    }
    text.push_str(nest.middle)?;
    for _ in 0..levels {
        text.push_str(nest.close)?;
    }
    text.push_str(nest.tail)?;
    decl_answer(alloc, text.as_str())
}

/// Whether a declaration of so many levels answers this.
fn answers(alloc: Global, nest: &Nest, levels: usize, want: &str) -> Result<bool, Fail> {
    let got = nest_answer(alloc, nest, levels)?;
    Ok(got.as_str() == want)
}

/// Whether the nest answers as it was counted: at one level less than the most, at the most, and at one more.
fn is_as_counted(alloc: Global, nest: &Nest) -> Result<bool, Fail> {
    let (less, next, column) = (nest.less, nest.next, nest.column);
    let most = usize::from(nest.most);
    let below = format!(in alloc; "next {less}")?;
    let at = format!(in alloc; "next {next}")?;
    let above = format!(in alloc; "L05 1:{column}")?;
    Ok(
        answers(alloc, nest, most.saturating_sub(1), below.as_str())?
            && answers(alloc, nest, most, at.as_str())?
            && answers(alloc, nest, most + 1, above.as_str())?,
    )
}

#[test]
fn deepest_nests(rt: HostRuntime) -> Result<(), Fail> {
    for nest in &NESTS {
        let right = is_as_counted(rt.alloc(), nest)?;
        assert!(rt; right, "{}", nest.name);
    }
    Ok(())
}
