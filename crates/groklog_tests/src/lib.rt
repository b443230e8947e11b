//! Tests of the crates below `groklog`, of what no contract says: answers on devices that fail, and how the lines of an input are
//! read. In a crate of their own they don't have the crates that they test proved again.
#![tactic(auto)]

#[cfg(test)]
mod devices;
