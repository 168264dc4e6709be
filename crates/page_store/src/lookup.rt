//! Looks up the page of a label.

ghost use Rattle.std.specs.Prelude.{◌≡◌, true, None, Some, Ok};
ghost use Rattle.store_model.specs.Labels.{label_bytes};
ghost use Rattle.page_store.specs.Lookups.{Consults, Locates, LooksUp};
ghost use Rattle.page_store.specs.Indexes.{IsIndexed};
ghost use Rattle.page_store.specs.Overlays.{slots_seen, Views};
ghost use Rattle.table_memory.specs.Memos.{memo_place, IsMemoOf, IsKnown};
ghost use Rattle.table_memory.specs.OverlayState.{overlaid};

use crate::changes::Changes;
use crate::index::{note_slots, noted};
use crate::locate::locate;
use crate::overlay::Overlay;
use disk_model::Disk;
use node_pages::decode_page;
use seeded_draw::Draw;
use std::collections::BTreeMap;
use store_base::{Fault, Label, ReadSlots};
use store_model::BLOCK;
use table_memory::{Finder, PageMemo, memo_place};

/// How many slots a search may look at before that counts towards an index.
const FREE_LOOKS: u32 = 8;

/// The slots of a table, with all that helps to look a page up in them, and what was found.
#[derive(Drop)]
pub struct Lookup<D: Disk, W: Draw> {
    /// The slots.
    pub overlay: Overlay<D>,
    /// The draw by which pages lie in them, with what helps to find them.
    pub finder: Finder<W>,
    /// What was found in the slots.
    pub memo: PageMemo,
    /// Where all pages lie, under the digests of their labels, if searches went far.
    pub index: Option<BTreeMap<u64, u32>>,
    pub ghost drawn: { overlay.params.slots ≡ (W.drawn finder.draw).slots },
    pub ghost remembered: { IsMemoOf (W.drawn finder.draw)
        (overlaid overlay.params.slots overlay.touched.entries (D.state overlay.disk)) memo },
    pub ghost indexed: { IsIndexed (W.digests finder.draw)
        (overlaid overlay.params.slots overlay.touched.entries (D.state overlay.disk)) index },
}

impl<D: Disk, W: Draw> Lookup<D, W> {
    /// Makes an index of the slots, where there is memory for it. Each slot is read once. After a fault there is none.
    fn make_index(&mut self) -> Result<(), Fault>
        ensures call { Consults (slots_seen D.state self.old.overlay)
            (slots_seen D.state self.new.overlay) result }
        ensures follows { Views D.state self.old.overlay self.new.overlay }
        ensures draw { self.new.finder.draw ≡ self.old.finder.draw }
        ensures memo { self.new.memo ≡ self.old.memo }
    {
        self.overlay.looks = 0;
        self.index = None;
        let mut index = BTreeMap::new(self.overlay.alloc);
        if note_slots(&mut self.overlay, &self.finder.draw, &mut index)? {
            self.index = Some(index);
        }
        Ok(())
    }

    /// Makes an index where searches looked at more slots than there are, beyond `FREE_LOOKS` each. It is called once
    /// before each search.
    fn index_when_due(&mut self) -> Result<(), Fault>
        ensures call { Consults (slots_seen D.state self.old.overlay)
            (slots_seen D.state self.new.overlay) result }
        ensures follows { Views D.state self.old.overlay self.new.overlay }
        ensures draw { self.new.finder.draw ≡ self.old.finder.draw }
        ensures memo { self.new.memo ≡ self.old.memo }
    {
        self.overlay.looks = self.overlay.looks.saturating_sub(FREE_LOOKS);
        if self.overlay.looks < self.finder.draw.slots() {
            return Ok(());
        }
        self.make_index()
    }

    /// Whether the index tells that there is no page of the label. If it notes a slot, that is the next hint.
    fn is_absent(&mut self, label: &Label) -> bool
        ensures absent { result ≡ true → Locates (W.drawn self.old.finder.draw)
            (slots_seen D.state self.old.overlay) (slots_seen D.state self.old.overlay) label.now (Ok None) }
        ensures overlay { self.new.overlay ≡ self.old.overlay }
        ensures draw { self.new.finder.draw ≡ self.old.finder.draw }
        ensures memo { self.new.memo ≡ self.old.memo }
    {
        let Some(index) = &self.index else {
            return false;
        };
        let Some(at) = noted(index, &self.finder.draw, label) else {
            return true;
        };
        self.finder.keep(label, Some(at));
        false
    }

    /// Finds the slot of the page of the label, as `locate`. With an index it looks at one slot, or at none where there
    /// is no page.
    fn slot_of(&mut self, label: &Label) -> Result<Option<u32>, Fault>
        ensures call { Locates (W.drawn self.old.finder.draw) (slots_seen D.state self.old.overlay)
            (slots_seen D.state self.new.overlay) label.now result }
        ensures follows { Views D.state self.old.overlay self.new.overlay }
        ensures draw { self.new.finder.draw ≡ self.old.finder.draw }
        ensures memo { self.new.memo ≡ self.old.memo }
    {
        self.index_when_due()?;
        if self.is_absent(label) {
            return Ok(None);
        }
        locate(&mut self.overlay, &mut self.finder, label)
    }

    /// Remembers the page in slot `at`, which was found under the label, where there is memory for it. A slot that
    /// holds no page, as only slots that are not observable may, is as one that was not found.
    // It stands apart from `learn`, each call of which would clear its page.
    #[inline(never)]
    fn remember_at(&mut self, at: u32, label: &Label) -> Result<(), Fault>
        requires { Locates (W.drawn self.old.finder.draw) (slots_seen D.state self.old.overlay)
            (slots_seen D.state self.old.overlay) label.now (Ok (Some at)) }
        ensures call { Consults (slots_seen D.state self.old.overlay)
            (slots_seen D.state self.new.overlay) result }
        ensures follows { Views D.state self.old.overlay self.new.overlay }
        ensures draw { self.new.finder.draw ≡ self.old.finder.draw }
    {
        let mut slot = [0; BLOCK];
        self.overlay.get(at, &mut slot)?;
        self.memo.remember(label, decode_page(&slot));
        Ok(())
    }

    /// Reads the page of the label and remembers it, unless the changes or the memo know it: then the call only
    /// answers. The label has this place in the memo. Where there is no memory for it, the page is not remembered.
    pub fn learn(&mut self, changes: &Changes, place: usize, label: &Label) -> Result<(), Fault>
        requires { place ≡ memo_place (label_bytes label.now) }
        ensures call { Consults (slots_seen D.state self.old.overlay)
            (slots_seen D.state self.new.overlay) result }
        ensures follows { Views D.state self.old.overlay self.new.overlay }
        ensures draw { self.new.finder.draw ≡ self.old.finder.draw }
        ensures known { IsKnown changes.now.pages.entries self.old.memo label.now → result ≡ Ok tt }
        ensures kept { IsKnown changes.now.pages.entries self.old.memo label.now
            → self.new.memo ≡ self.old.memo }
    {
        if changes.knows(&self.memo, place, label) {
            return Ok(());
        }
        let Some(at) = self.slot_of(label)? else {
            self.memo.remember_none(label);
            return Ok(());
        };
        self.remember_at(at, label)
    }

    /// Whether there is a page under the label. It asks the changes, then the memo, then the slots.
    pub fn has_page(&mut self, changes: &Changes, label: &Label) -> Result<bool, Fault>
        ensures call { LooksUp (W.drawn self.old.finder.draw) (slots_seen D.state self.old.overlay)
            (slots_seen D.state self.new.overlay) changes.now.pages.entries label.now result }
        ensures follows { Views D.state self.old.overlay self.new.overlay }
        ensures draw { self.new.finder.draw ≡ self.old.finder.draw }
    {
        if let Some(page) = changes.known(&self.memo, memo_place(label), label) {
            return Ok(page.is_some());
        }
        let at = self.slot_of(label)?;
        Ok(at.is_some())
    }
}
