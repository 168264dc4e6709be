//! Tests of the calls of `hbox`, over images, folders, builders, sources and sinks in memory: what each call prints,
//! what it says, and how it ends.
//!
//! The lines were written by hand. What the library crates below promise is proved there; here each call is made once
//! where nothing fails, and once for each kind of trouble.
//!
//! The crate is a program that does nothing, since no crate stands on it, as `tests_store` is.
#![tactic(auto)]

#[cfg(test)]
mod tests;

/// Does nothing: only the tests are of use.
fn main(_rt: HostRuntime) {}
