//! A copy of an image onto another: the second image becomes what recovery leaves of the first. Start at `mirror`.
//!
//! Both images have to have the same parameters and version. The first is checked whole and then read once more, slot
//! by slot beside the second, and is never written. Only the slots that differ are kept in memory, and only they are
//! written, in one commit. So a crash at any moment leaves an image that recovers to what the second was, or to the
//! first.
#![tactic(auto)]

mod call;
mod compare;
mod fault;
mod pair;
mod rewrite;

pub use call::mirror;
pub use fault::MirrorFault;
