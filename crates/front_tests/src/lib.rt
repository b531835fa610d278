// Tests of the lexer, of the refused forms, of scopes and of the built-in names, in a crate of their own, so that
// none of these crates is proved a second time for them. It holds nothing else.
#![tactic(auto)]

#[cfg(test)]
mod builtins;
#[cfg(test)]
mod lexer;
#[cfg(test)]
mod refused;
#[cfg(test)]
mod scope;
