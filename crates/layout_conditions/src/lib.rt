//! The conditions by which slots are known to be the layout of a tree, and the law that they hold of layouts alone.
//!
//! The layout is defined as a whole: pages are cut from a tree's pairs, and placed. To see whether slots hold the
//! layout of some tree, five conditions are tested page by page, and no other layout is made. Start at
//! specs/Conditions.antt, which says what they are. The law (`law`) says that they hold exactly of layouts.
#![tactic(auto)]

pub mod examples;
pub mod law;
