//! Worked examples and laws of the definitions of `store_model`, each the contract of a function with
//! an empty body. They show what the definitions say. Nothing of the program stands on them: only other laws, of
//! scripts and of dumps, cite some of these.
#![tactic(auto)]

pub mod examples;
pub mod laws;
