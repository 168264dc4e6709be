//! Tests of what makes an image in one pass: of pairs, and of a folder in memory. Its bytes are compared with those of
//! a store that made the same tree command by command.
//!
//! Like `tests_store`, the crate is a program that does nothing.
#![tactic(auto)]

#[cfg(test)]
mod tests;

/// Does nothing: only the tests are of use.
fn main(_rt: HostRuntime) {}
