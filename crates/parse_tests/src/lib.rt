// Tests of the parser, in a crate of their own, so that the parser isn't proved a second time for them. It holds
// nothing else.
#![tactic(auto)]

#[cfg(test)]
mod nests;
#[cfg(test)]
mod tests;
