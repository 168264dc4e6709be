//! Tests of the layers below the store, over what their crates make public: the table, lists, trees, scripts, and the
//! parts of a check.
//!
//! They hold what no clause and no call of the program says: how often something below is called, also on tables that
//! are made to take work, and streams and files of the system that fail in the middle. What the program leaves and
//! prints is tried by the rows of `.ci/rows`; faults and crashes at each call of a disk in turn, through the program,
//! by `tests_store`.
//!
//! They stand in one crate because each crate with tests is proved twice, and loads all below it each time.
#![tactic(auto)]

#[cfg(test)]
mod tests;
