//! The tests, a module for each kind of sentence, and `support`, which they share.

mod images;
mod listings;
mod scripts;
mod sessions;
mod support;
