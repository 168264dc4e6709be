//! Tests of the words for people that change an image, as the calls of `image_changes` and `image_puts`, over a disk in
//! memory.
//!
//! What a word leaves is compared with what commands leave that make the same tree.
//!
//! The crate is a program that does nothing, since no crate stands on it: for a library that stands so high, `rt ci`
//! would sum up the sources below it along each way that leads to them, which takes minutes.
#![tactic(auto)]

#[cfg(test)]
mod tests;

/// Does nothing: only the tests are of use.
fn main(_rt: HostRuntime) {}
