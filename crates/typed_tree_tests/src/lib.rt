// Tests of the functions that make, copy and drop typed trees, in a crate of their own, so that those aren't proved a
// second time for them. It holds nothing else.
#![tactic(auto)]

#[cfg(test)]
mod tests;
