//! Tests of the edits of machines by their own calls.
#![tactic(auto)]

#[cfg(test)]
mod names;
#[cfg(test)]
mod trees;
#[cfg(test)]
mod trials;
