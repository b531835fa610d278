//! The small grammar.
//!
//! ```text
//! Text = "package main" NL 'import "core:fmt"' NL {Func}
//!        "main :: proc() {" NL {Line} "}" NL
//! Func = Upper " :: proc(" [Name ": int" {", " Name ": int"}] ") -> int {" NL
//!        {Line} TAB "return " Sum NL "}" NL
//! Line = TABS Name " := " Sum NL | TABS Name " = " Sum NL
//!      | TABS "fmt.println(" Sum {", " Sum} ")" NL
//!      | TABS ("if " | "for ") Sum (" < " | " == ") Sum " {" NL {Line} TABS "}" NL
//! Sum  = Mul {(" + " | " - ") Mul}                        at most eight Muls
//! Mul  = Int | (Name | Call) {(" * " | " / " | " % ") Atom}   at most eight factors
//! Atom = Name | Int | Call
//! Call = Upper "(" [Sum {", " Sum}] ")"
//! Name = one letter "a" to "z"        Upper = one letter "A" to "Z"
//! Int  = "0" | a digit "1" to "9" and at most eight more digits
//! ```
//!
//! A Line at depth d begins with d tabs; the body of a Func or of `main` has depth 1. Lines nest at most
//! eight deep, Calls at most four. An Int after ` / ` or ` % ` isn't 0.

/// A sign between two products.
#[derive(Clone, Copy)]
pub enum Sign {
    Plus,
    Minus,
}

/// A sign between two factors.
#[derive(Clone, Copy)]
pub enum Scale {
    Times,
    Over,
    Rest,
}

/// A comparison of two sums.
#[derive(Clone, Copy)]
pub enum Relation {
    Less,
    Same,
}

/// What begins a line with a body.
#[derive(Clone, Copy)]
pub enum Keyword {
    If,
    For,
}
