//! What a call promises that opens an image and does a work with its store, whatever the work. Start at `StoreWork` and
//! `open_for`.
//!
//! What is promised is one record over what the work keeps and does (`Works` of specs/Works.antt). A work shows two
//! things: what holds where there was no store (`IsUnopened`), and what it did with one (`WorksOnStore`). The rest
//! follows, here and once (`works_unopened` and `works_opened` of proofs/WorkEnds.antt).
#![tactic(auto)]

mod work;

pub use work::{StoreWork, open_for};
