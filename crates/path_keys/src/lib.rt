//! Paths and their attributes, and the keys that pairs have in the list: keys, as bytes, are in the order of paths.
//! Start at `Path`.
#![tactic(auto)]

mod attributes;
mod names;
mod paths;
mod places;

pub use attributes::{AttrName, attr_key, of_attr_key};
pub use paths::{Path, PathFault};
pub use places::{last_at, replant};
