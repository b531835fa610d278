// Tests of the step from typed programs to core code, in a crate of their own, so that it isn't proved a second time for
// them. It holds nothing else.
#![tactic(auto)]

#[cfg(test)]
mod tests;
