// The arithmetic of constants: integers between -2^127 and 2^127 - 1, exact, with an answer of their own where the exact
// result is outside.
//
// `fold` and its like give the result that an operator of the language has on numbers, or None exactly where there is
// none: where the exact result is no constant, and where a divisor is 0. What type the operands have, and where the
// fault stands, is the caller's.
#![tactic(auto)]

pub mod fold;
#[cfg(test)]
mod tests;
