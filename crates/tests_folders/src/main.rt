//! Tests of folders of the host: what is found in one and the dump that it tells, in memory and on the real host; and
//! the trees that are made of a dump there, over what `host_folders`, `host_builder` and `host_files` make public.
//!
//! The listings were worked out by hand. Like `tests_store`, the crate is a program that does nothing.
#![tactic(auto)]

#[cfg(test)]
mod tests;

/// Does nothing: only the tests are of use.
fn main(_rt: HostRuntime) {}
