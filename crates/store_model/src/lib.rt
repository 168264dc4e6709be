//! The definitions that the whole store stands on: what a tree is, which pages spell it, where they
//! lie in the table, and which bytes an image has; what a script says and what it answers.
//!
//! Start at `specs/Trees.antt` (a tree), `specs/Steps.antt` (what a command does to it) and `specs/Images.antt` (its
//! bytes). The definitions are plain mathematics. This crate has no program code beside three plain types and the
//! length of a block. Worked examples and laws of the definitions stand in `model_laws`.
#![tactic(auto)]

mod draw_kind;
mod refusal;
mod version;

pub use draw_kind::DrawKind;
pub use refusal::Refusal;
pub use version::Version;

/// How many bytes a block of an image has, and so a slot of the table.
pub const BLOCK: usize = 4096;

/// The bytes of a slot of the table, and of each other block of an image.
pub type Slot = [u8; BLOCK];
