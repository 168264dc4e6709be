//! The tests, a module for each kind, and `support`, which they share.

mod changes;
mod comparisons;
mod creations;
mod makings;
mod readings;
mod support;
