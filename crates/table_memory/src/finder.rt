//! How the slot of a page is found.

ghost use Rattle.std.specs.Prelude.{◌≡◌, ◌⊎◌, [], IfSome};
ghost use Rattle.table_memory.specs.Starts.{AreStarts, IsKeptStart};

use crate::memo::checksum_of_label;
use seeded_draw::{Draw, Front};
use std::alloc::Global;
use store_base::Label;

/// How many places there are for slots: a prime, so that each byte of a checksum counts. They are more than those of
/// the memo, since a page is looked for in the slots where another label took its place there; with as many places
/// here, that label would mostly have taken its hint too.
const HINTS: usize = 1_021;

/// What stands for a slot that is not known: no table has it.
const NO_SLOT: u32 = u32::MAX;

/// How many starts are kept: those of the pages that one command looks for, or adds.
const STARTS: usize = 8;

/// A draw, and what helps to find a page in the slots that it lays out.
///
/// It keeps the starts that were drawn last, each with its label: a new page is looked for when it is staged, and
/// once more when it is laid. It keeps what was digested last of a label's front, since the labels of a group begin
/// alike. It keeps the slots where pages were found last, each at the place of its label. By now such a slot may hold
/// another page or none, so a caller has to look there, and contracts tell nothing of it.
#[derive(Drop)]
pub struct Finder<W: Draw> {
    /// The draw.
    pub draw: W,
    /// The starts that were drawn last.
    pub starts: Vec<(Label, u32)>,
    /// What was digested last of a label's front.
    pub front: Front,
    /// The slots where pages were found last.
    pub slots: Vec<u32>,
    pub ghost started: { AreStarts (W.drawn draw) starts.items },
}

/// The place of the hint of a label.
fn place_of_hint(label: &Label) -> usize {
    (checksum_of_label(label) % HINTS as u64) as usize
}

impl<W: Draw> Finder<W> {
    /// Takes the draw, and keeps nothing yet. It takes no memory.
    pub fn new(alloc: Global, draw: W) -> Finder<W>
        ensures draw { result.draw ≡ draw }
        ensures starts { result.starts.items ≡ [] }
    {
        Finder {
            draw,
            starts: Vec::new(alloc),
            front: Front::new(),
            slots: Vec::new(alloc),
        }
    }

    /// The slot to look at first for the page of the label; it may lie behind the table. It takes no memory.
    pub fn hint(&self, label: &Label) -> u32 {
        match self.slots.get(place_of_hint(label)) {
            Some(slot) => *slot,
            None => NO_SLOT,
        }
    }

    /// Keeps the slot where the page of the label was found, if it was, and if there is memory for it.
    pub fn keep(&mut self, label: &Label, found: Option<u32>)
        ensures draw { self.new.draw ≡ self.old.draw }
        ensures starts { self.new.starts.items ≡ self.old.starts.items }
    {
        let Some(slot) = found else {
            return;
        };
        if self.slots.is_empty() {
            // Without memory for the places none is kept.
            let _ = self.slots.resize(HINTS, NO_SLOT);
        }
        if let Some(kept) = self.slots.get_mut(place_of_hint(label)) {
            *kept = slot;
        }
    }

    /// The start of the label, if it is kept. It takes no memory.
    fn kept_start(&self, label: &Label) -> Option<u32>
        ensures { IfSome result (IsKeptStart self.now.starts.items label.now) }
    {
        for (kept, start) in &self.starts {
            if *kept == *label {
                return Some(*start);
            }
        }
        None
    }

    /// Forgets the starts, where as many are kept as may be. It takes no memory.
    fn make_room(&mut self)
        ensures draw { self.new.draw ≡ self.old.draw }
        ensures starts { (self.new.starts.items ≡ self.old.starts.items)
            ⊎ (self.new.starts.items ≡ []) }
    {
        if self.starts.len() >= STARTS {
            self.starts.clear();
        }
    }

    /// The start of the label, which is drawn where it is not kept, and kept where there is memory for it.
    pub fn start(&mut self, label: &Label) -> u32
        ensures start { result ≡ (W.drawn self.old.draw).start label.now }
        ensures draw { self.new.draw ≡ self.old.draw }
    {
        if let Some(start) = self.kept_start(label) {
            return start;
        }
        self.make_room();
        let start = self.draw.start_from(&mut self.front, label);
        let _ = self.starts.push((*label, start));
        start
    }
}
