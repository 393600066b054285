//! What the files of a store stand for, and what edits of its library do to it.
#![tactic(auto)]
