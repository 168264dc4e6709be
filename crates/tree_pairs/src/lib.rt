//! What stands at a path of the tree that a list of pairs holds. Start at `kind_of`. Files, directories and moves
//! share it: what a call that carries out a command does to the list (`specs/TreeCalls.antt`), the values that say
//! what stands at a path and those of attributes, and the laws between a tree and its list (`proofs/`).
//!
//! `TreeReader` tells whether pairs that come one after another are those of a tree under one version of the format,
//! and how many directories, files and bytes it has. No list of them is kept. The path of the last entry tells where
//! the next one may stand. All paths above it are directories, and it may be one itself. Whatever stands in another
//! directory has come already. A file whose bytes stand in its first pair has no other pair. The blocks of another file
//! follow its first pair at once, so its path, its length and how many of its bytes were read tell the next one. The
//! attributes of an entry follow it, if the version has any: the name of the last one tells which may be next.
#![tactic(auto)]

mod attributes;
mod counts;
mod first;
mod kind;
pub mod laws;
mod reader;

pub use attributes::{has_attributes, is_above};
pub use counts::Counts;
pub use first::Entry;
pub use kind::{
    ATTRIBUTE_LIMIT, FILE_BLOCK, FILE_LIMIT, INLINE_LIMIT, INLINE_START, Kind, attribute_in,
    attribute_value, directory_value, file_value, first_of, inline_in, inline_value, is_inline,
    kind_in, kind_of, kind_told, kind_under,
};
pub use reader::TreeReader;
