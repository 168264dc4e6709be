//! The tests, a module for each kind, and `support`, which they share.

mod differences;
mod part_streams;
mod recovered;
mod recovered_disks;
mod support;
mod syncs;
mod walks;
