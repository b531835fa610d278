// The files of a package: `parse_file` gives the tree of the tokens of a source text, or the first fault.
// What a file is, and where the fault stands, is said in `specs/File.antt` over the grammar of odc_syntax.
// `parse_expr` and `parse_decl` give the tree of an expression or a declaration at the front of some tokens.
// Expressions, types, statements and declarations are read by odc_parse_expr. It assumes nothing of the
// tokens. The layer above may rely on the tree being the only one that the grammar allows.
#![tactic(auto)]

mod file;
pub mod front;
mod import;
mod items;
pub mod parse;
