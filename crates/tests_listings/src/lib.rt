//! Tests of listings: dumps as streams, what is listed of them, their differences, and pictures of images, over what
//! `dump_streams`, `dump_views`, `dump_diff`, `entry_lines` and `slot_map` make public; and of the words of `hbox` that
//! ask for an image or a listing of a folder, which `box_words` reads.
//!
//! They hold what no clause says and no program on real files shows: listings, views and scripts that were worked out
//! by hand; that a call succeeds; and a disk, a source or a sink that fails, once for each crate that hands that on.
#![tactic(auto)]

#[cfg(test)]
mod tests;
