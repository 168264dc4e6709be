//! The tests, a module for each kind, and `support`, which they share.

mod counted;
mod created;
mod support;
mod written;
