//! The tests, a module for each kind, and `support`, which they share.

mod failures;
mod reads;
mod sessions;
mod stops;
mod streams;
mod support;
