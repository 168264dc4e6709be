//! The redo journal of an image: it changes slots of the table, and the version of the format, together, even if a
//! crash comes at any moment. Start at `Journal`.
//!
//! A commit writes the new bytes of each changed slot into its shadow block and marks the slot, makes that durable,
//! sets the commit flag, makes that durable, writes the slots into the table, makes that durable, clears the flag,
//! makes that durable, and erases marks and shadow. Recovery goes on from wherever a crash cut it short. So an image
//! recovers to the old header and table or to the new ones, never to some between.
//!
//! An upgrade changes the version of the format with the slots, from 1 to 2, by three more writes. It sets the
//! version's mark, the one behind the last slot's, with the marks. It writes the version's byte of the header with the
//! slots, and it clears the version's mark when it erases the journal. While the flag is set that byte may be torn.
//! So where the version's mark is set too, the header is read as one of version 2 (`Journal::view_header`).
//!
//! The journal also formats, wipes and digests a disk. A `View` reads the slots that recovery would leave, and does
//! not recover. This crate needs a disk and the places of an image's areas, and never looks at what slots hold. No
//! call takes memory. The crate is named after the block with the commit flag, the gate block.
#![tactic(auto)]

mod changes;
mod commit;
mod digest;
mod entry;
mod fault;
mod format;
mod header;
mod journal;
mod journal_cache;
mod recover;
mod redo;
mod view;
mod wipe;

pub use changes::SlotChanges;
pub use fault::JournalFault;
pub use journal::Journal;
pub use view::View;
