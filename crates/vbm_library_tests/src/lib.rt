//! Tests of the library's file.
#![tactic(auto)]

#[cfg(test)]
mod library;
#[cfg(test)]
mod rich;
