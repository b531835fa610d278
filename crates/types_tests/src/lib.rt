// Tests of the types, in a crate of their own, so that `odc_types` isn't proved a second time for them. It holds nothing
// else.
#![tactic(auto)]

#[cfg(test)]
mod tests;
