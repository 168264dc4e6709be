//! Worked examples of the definitions, each the contract of a function with an empty body and proved by
//! computing. The values were worked out by hand from the format, or by
//! another program where SHA-256 gives them; none by this one.

pub mod attributes;
pub mod draws;
pub mod edges;
pub mod formats;
pub mod grammar;
pub mod ranges;
pub mod scripts;
pub mod tables;
pub mod versions;
