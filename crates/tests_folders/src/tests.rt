//! The tests, a module for each kind, and `support`, which they share.

mod folder_streams;
mod folder_walks;
mod host_trees;
mod made_folders;
mod real_folders;
mod support;
