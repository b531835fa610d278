// Tests of the commands, of their words and of their lines, in a crate of their own, so that `odc_tool` isn't proved
// a second time for them. It holds nothing else.
#![tactic(auto)]

#[cfg(test)]
mod files;
#[cfg(test)]
mod folder;
#[cfg(test)]
mod status;
#[cfg(test)]
mod tests;
#[cfg(test)]
mod words;
