//! Tests of the gated log by its own calls. What the program makes of logs is in `tests/lab/logs.txt`.
#![tactic(auto)]

#[cfg(test)]
mod commits;
#[cfg(test)]
mod limits;
#[cfg(test)]
mod redo;
