//! Tests of the sentences: each is called once with ample memory, on the smallest images. What it comes to was worked
//! out by hand from the script language and the format.
//!
//! The crate is a program that does nothing, since no crate stands on it: for a library that stands so high, `rt ci`
//! would sum up the sources below it along each way that leads to them, which takes minutes.
#![tactic(auto)]

#[cfg(test)]
mod tests;

/// Does nothing: only the tests are of use.
fn main(_rt: HostRuntime) {}
