// Look-ahead for the parser, and the lemmas of reading. The functions classify tokens: operators, what begins an
// operand, a type or a statement, how a list between commas goes on, the first refused form, the fault that is
// reported. No function here reads an expression. The lemmas say when the answer of a function that reads one
// production is right, made from the answers for its parts; `README.md` names those to cite. What the public
// calls of the parser answer stands in `specs/Law.antt`. It assumes nothing of the tokens.
#![tactic(auto)]

pub mod blame;
pub mod end;
pub mod error;
pub mod laws;
pub mod lists;
pub mod name_lists;
pub mod operand;
pub mod operators;
pub mod read;
pub mod refused;
pub mod shape;
pub mod statement_form;
pub mod stop;
pub mod suffix;
pub mod tokens;
pub mod type_form;
pub mod unary;
