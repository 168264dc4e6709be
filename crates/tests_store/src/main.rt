//! Tests of the whole program, as the calls `top` and `top_pair`, that a row of a table of calls cannot make: a disk, a
//! source or a sink in memory fails at a chosen call, or a crash comes. And the calls of `store_core`, of
//! `session_core` and of `recovered_store` over such a disk.
//!
//! What the program answers where nothing fails is tried through the program that is linked, by tables of calls. So a
//! test here looks at what is left, and compares it with what the same call leaves where nothing fails.
//!
//! The crate is a program that does nothing, since no crate stands on it: for a library that stands so high, `rt ci`
//! would sum up the sources below it along each way that leads to them, which takes minutes.
#![tactic(auto)]

#[cfg(test)]
mod tests;

/// Does nothing: only the tests are of use.
fn main(_rt: HostRuntime) {}
