// Tests of the small grammar, of the passes to core code, mid code and what the machine loads, and of the instruction
// table, in a crate of their own, so that none of these crates is proved a second time for them. It holds nothing
// else.
#![tactic(auto)]

#[cfg(test)]
mod emit;
#[cfg(test)]
mod passes;
#[cfg(test)]
mod small;
#[cfg(test)]
mod table;
