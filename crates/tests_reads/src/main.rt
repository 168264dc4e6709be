//! Tests of what only reads images in memory: a store that is opened on one, also where a crash broke a commit off,
//! what an image is summed up to, walks over its pairs, the stream of its parts, and comparisons with another image and
//! with a folder; and of what makes an image hold what a folder holds, since that is a comparison first.
//!
//! The images are those that a store leaves. Like `tests_store`, the crate is a program that does nothing.
#![tactic(auto)]

#[cfg(test)]
mod tests;

/// Does nothing: only the tests are of use.
fn main(_rt: HostRuntime) {}
