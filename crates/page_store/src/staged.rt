//! The staged pages.

ghost use Rattle.std.specs.Prelude.{[], ◌≡◌, ◌≢◌, ◌↔◌, ◌≤◌, ◌<◌, ℕ, Bool, true, false, min, None, Some, IsSome, IsOk};
ghost use Rattle.std.specs.Prelude.{IfOk, Ok, OnOk, OnErr};
ghost use Rattle.std.specs.FinMap as maps;
ghost use Rattle.store_base.specs.Faults.{disk_faults_after};
ghost use Rattle.store_model.specs.Labels.{label_bytes};
ghost use Rattle.store_model.specs.Parameters.{image_len};
ghost use Rattle.disk_model.specs.DiskState.{IsObservable};
ghost use Rattle.sha2.specs.Sha256.{sha256};
ghost use Rattle.gate_journal.specs.Changes.{AreChanges};
ghost use Rattle.gate_journal.specs.Places.{AreCalls, ReadsOnly};
ghost use Rattle.store_model.specs.PageMaps.{PageMap, IsPageMap, page_at};
ghost use Rattle.node_pages.specs.PagesState.{IsPageGet, IsPagePut, IsPageDrop, looked_at, most_pages};
ghost use Rattle.table_memory.specs.Memos.{memo_place, IsKnown};
ghost use Rattle.page_store.specs.PageImages.{pages_in_table, SlotStandsAt};
ghost use Rattle.table_memory.specs.Staging.{with_change, used_after};
ghost use Rattle.store_model.specs.declared.version.Version.TheVariants.{One};
ghost use Rattle.page_store.specs.Settling.{SettlesBy, Settles, SettlesUpgrade, SettlesSlots, LeadsTo};

use crate::changes::Changes;
use crate::commit_kind::CommitKind;
use crate::fault::SettleFault;
use crate::index::forget;
use crate::lookup::Lookup;
use crate::overlay::Overlay;
use crate::prepare::find_slots;
use crate::write_back::{commit_anew, commit_slots};
use disk_model::Disk;
use gate_journal::{Journal, SlotChanges};
use node_pages::{Cell, Page, Pages};
use seeded_draw::Draw;
use std::alloc::Global;
use std::marker::Model;
use store_base::{DiskFault, Fault, Label, Params};
use table_memory::{Boxed, Finder, PageMemo, SlotCache, behind, empty, memo_place};

/// The pages in the table of an image, with changes that are not settled yet. Contracts see it as one record: the map
/// of the pages now, that of the pages in the table, the disk, and whether the value is spent.
///
/// An observable disk under a value that is not spent reads the layout of the table's pages, and nothing is pending.
#[derive(Drop)]
pub struct Staged<D: Disk, W: Draw> {
    lookup: Lookup<D, W>,
    changes: Changes,
    /// How many pages there are now, and how many of them the table has.
    used: u32,
    settled: u32,
    lookups: u64,
    is_spent: bool,
}

impl<D: Disk, W: Draw> Model for Staged<D, W> {
    ghost use Rattle.page_store.specs.StagedState.{StagedState, staged_state, IsStaged};
    ghost use Rattle.page_store.specs.Codes.{staged_code};

    ghost Value = { StagedState D W };

    ghost coded = { staged_code D.code W.code };

    ghost view = { λ s. staged_state D.state s.lookup.overlay.params
        s.lookup.finder.draw s.lookup.overlay.disk
        s.changes.pages.entries s.lookup.memo s.lookups s.is_spent };

    ghost invariant = { λ s. IsStaged (W.drawn s.lookup.finder.draw)
        s.lookup.overlay.params (D.state s.lookup.overlay.disk)
        s.lookup.overlay.touched.entries s.changes.pages.entries s.used s.settled s.is_spent };
}

/// How many pages there are, of so many, once one label was given a page or lost it. A count that would come to 2^32
/// stays below.
fn count_after(used: u32, was_there: bool, is_there: bool) -> u32
    ensures { result ≡ min most_pages (used_after used was_there is_there) }
{
    match (was_there, is_there) {
        (false, true) => used.saturating_add(1),
        (true, false) => used.saturating_sub(1),
        _ => used,
    }
}

/// The answer where a page was looked up and is not known all the same: there was no memory to remember it.
fn not_remembered() -> Fault
    ensures { result ≡ Fault.NoMemory }
{
    Fault::NoMemory
}

impl<D: Disk, W: Draw> Staged<D, W> {
    ghost use Rattle.page_store.specs.StagedState.{IsTold, pages_state, Follows, without_changes};
    ghost use Rattle.page_store.specs.Stagings.{Stages};

    /// Takes a disk whose table has so many pages, with no change staged. It takes no memory.
    ///
    /// The disk has the length of an image of these parameters, and the draw their slots. An observable disk reads
    /// the layout of so many pages under the parameters, with nothing pending. The cache keeps no slot yet.
    pub fn new(
        alloc: Global,
        disk: D,
        params: &Params,
        draw: W,
        pages: u32,
        cache: SlotCache,
    ) -> Staged<D, W>
        requires size { (D.state disk).size ≡ image_len params.now.slots }
        requires drawn { (W.drawn draw).slots ≡ params.now.slots }
        requires stands { IsObservable (D.state disk)
            → SlotStandsAt (W.drawn draw)
            params.now (pages_in_table params.now.slots (D.state disk).bytes)
            (D.state disk) }
        requires count { IsObservable (D.state disk)
            → pages ≡ maps.len (pages_in_table params.now.slots (D.state disk).bytes) }
        requires empty { cache ≡ [] }
        ensures params { result.params ≡ params.now }
        ensures drawn { result.draw ≡ draw }
        ensures disk { result.disk ≡ disk }
        ensures table { result.table ≡ pages_in_table params.now.slots (D.state disk).bytes }
        ensures map { result.map ≡ result.table }
        ensures runs { result.is_spent ≡ false }
        ensures lookups { result.lookups ≡ 0 }
    {
        Staged {
            lookup: Lookup {
                overlay: Overlay::new(alloc, disk, params, cache),
                finder: Finder::new(alloc, draw),
                memo: PageMemo::new(alloc),
                index: None,
            },
            changes: Changes::new(alloc),
            used: pages,
            settled: pages,
            lookups: 0,
            is_spent: false,
        }
    }

    /// How many pages there are now. It takes no memory.
    pub fn used(&self) -> u32
        ensures { IsObservable (D.state self.now.disk) → self.now.is_spent ≡ false
            → result ≡ maps.len self.now.map }
    {
        self.used
    }

    /// Whether it is spent: a fault of the disk came at a write or a sync of a settle, or after one. It takes no
    /// memory.
    pub fn is_spent(&self) -> bool
        ensures { result ≡ self.now.is_spent }
    {
        self.is_spent
    }

    /// The disk. It takes no memory.
    pub fn disk(&self) -> &D
        ensures { result.now ≡ self.now.disk }
    {
        &self.lookup.overlay.disk
    }

    /// Gives the disk back. It takes no memory.
    pub fn into_disk(self) -> D
    where
        W: Drop,
        ensures { result ≡ self.disk }
    {
        let Staged {
            lookup,
            changes: _,
            used: _,
            settled: _,
            lookups: _,
            is_spent: _,
        } = self;
        let Lookup {
            overlay,
            finder: _,
            memo: _,
            index: _,
        } = lookup;
        overlay.into_disk()
    }

    /// Takes all changes back: the pages are those of the table. It takes no memory.
    pub fn discard(&mut self)
        ensures { self.new ≡ without_changes self.old }
    {
        self.changes.clear();
        self.used = self.settled;
    }

    /// Computes SHA-256 (FIPS 180-4) of all bytes that the disk reads. Staged changes are not among them. It takes no
    /// memory. After `DiskFault` the pages are as they were.
    pub fn digest(&mut self) -> Result<[u8; 32], DiskFault>
        ensures calls { AreCalls (D.state self.old.disk) (D.state self.new.disk) result }
        ensures reads { IsObservable (D.state self.old.disk)
            → ReadsOnly (D.state self.old.disk) (D.state self.new.disk) }
        ensures digest { IsObservable (D.state self.old.disk)
            → IfOk result (λ digest. digest ≡ sha256 (D.state self.old.disk).bytes) }
        ensures map { IsObservable (D.state self.old.disk) → self.new.map ≡ self.old.map }
        ensures runs { self.new.is_spent ≡ self.old.is_spent }
        ensures follows { Follows D.state self.old self.new }
    {
        Journal::digest(&mut self.lookup.overlay.disk)
    }

    /// The page under the label, which has this place in the memo. `NoMemory` exactly where nothing is known of the
    /// label: there was no memory to remember it. It takes no memory.
    fn shown(&self, place: usize, label: &Label) -> Result<Option<&Page>, Fault>
        requires { place ≡ memo_place (label_bytes label.now) }
        ensures found { IsTold D.state self.now
            → IfOk (looked_at result) (λ page. page ≡ page_at self.now.map label.now) }
        ensures faults { (count : ℕ) → disk_faults_after count (looked_at result) ≡ count }
        ensures known { IsOk result ↔ IsKnown self.now.staged self.now.memo label.now }
    {
        match self.changes.known(&self.lookup.memo, place, label) {
            Some(page) => Ok(behind(page)),
            None => Err(not_remembered()),
        }
    }

    /// Stages what is under the label from now on, a page of this label or none. To add a page there have to be fewer
    /// than 2^32 - 1 of them. After a fault the pages are as they were.
    fn stage(&mut self, label: Label, change: Option<Boxed<Page>>) -> Result<(), Fault>
        requires fits { (m : PageMap) → IsPageMap m → IsPageMap (with_change m label change) }
        requires few { IsSome change → IsTold D.state self.old
            → maps.len self.old.map < most_pages }
        ensures call { Stages (pages_state D.state self.old)
            (pages_state D.state self.new) label change result }
        ensures follows { Follows D.state self.old self.new }
    {
        let is_there = self.lookup.has_page(&self.changes, &label)?;
        let used = count_after(self.used, is_there, change.is_some());
        self.changes.keep(label, change)?;
        self.used = used;
        Ok(())
    }

    /// Settles the pages: the changed slots of the table are written together, and are durable at the return.
    ///
    /// Each image that a crash at any moment of the call may leave holds the pages that the table had or those that
    /// there are now. A settle that changes d slots makes 5d + 2 writes and 5 syncs, and one that changes none makes
    /// none.
    ///
    /// `Full` comes exactly where there are more pages than slots. After `Full` and `NoMemory` nothing was written.
    /// `Disk`: the disk failed. If that came at a write or a sync, or after one, the value is spent, and the disk has
    /// the pages that the table had or those that there were. After each fault a value that is not spent has the map
    /// and the table that it had. A value that is spent cannot be settled again.
    pub fn settle(&mut self) -> Result<(), SettleFault>
        requires { self.old.is_spent ≡ false }
        ensures call { Settles D.state W.drawn self.old self.new result }
    {
        self.settle_by(CommitKind::Plain)
    }

    /// Settles the pages as `settle` does, and makes the image one of version 2 with them: the parameters are those of
    /// version 1 before, and after Ok those of version 2.
    ///
    /// Each image that a crash at any moment of the call may leave is of version 1 and holds the pages that the table
    /// had, or is of version 2 and holds those that there are now. An upgrade that changes d slots makes 5d + 5 writes
    /// and 5 syncs, and so does one that changes none. After a fault the parameters are those of before.
    pub fn settle_upgrade(&mut self) -> Result<(), SettleFault>
        requires runs { self.old.is_spent ≡ false }
        requires version { self.old.params.version ≡ One }
        ensures call { SettlesUpgrade D.state W.drawn self.old self.new result }
    {
        self.settle_by(CommitKind::Upgrade)
    }

    /// Changes slots of the table together, where nothing is staged. With them the table is the placement of so many
    /// pages. It takes no memory: whoever makes a whole table hands its slots over, and no page is staged.
    ///
    /// A commit of d slots makes 5d + 2 writes and 5 syncs, and one of none makes none. Each image that a crash at
    /// any moment of the call may leave holds the pages that the table had or those to which the slots lead. After Ok
    /// nothing is kept of the table that was. `DiskFault`: the disk failed at a write or after one. The value is
    /// spent, and the disk has the old pages or the new ones.
    pub fn settle_slots<S: SlotChanges>(&mut self, changes: &S, pages: u32) -> Result<(), DiskFault>
        requires runs { self.old.is_spent ≡ false }
        requires none_staged { self.old.staged ≡ [] }
        requires changes { AreChanges self.old.params.slots (S.changes changes.now) }
        requires table { IsObservable (D.state self.old.disk)
            → (m : PageMap) × LeadsTo (W.drawn self.old.draw)
            self.old.params (S.changes changes.now)
            (D.state self.old.disk).bytes m pages }
        ensures call { SettlesSlots D.state W.drawn (S.changes changes.now) pages
            self.old self.new result }
    {
        let Lookup {
            overlay,
            finder: _,
            memo,
            index,
        } = &mut self.lookup;
        let params = overlay.params;
        empty(&mut overlay.touched);
        // What is kept of the table is that of the one before, whatever comes.
        memo.clear();
        forget(index);
        match commit_anew(&mut overlay.disk, &mut overlay.cache, &params, changes) {
            Ok(()) => {
                self.used = pages;
                self.settled = pages;
                Ok(())
            }
            // It came at a write or behind one, so the disk may have the old pages or the new ones.
            Err(fault) => {
                self.is_spent = true;
                Err(fault)
            }
        }
    }

    /// Settles the pages, with a commit of this kind at the end.
    fn settle_by(&mut self, kind: CommitKind) -> Result<(), SettleFault>
        requires runs { self.old.is_spent ≡ false }
        requires version { kind ≡ CommitKind.Upgrade → self.old.params.version ≡ One }
        ensures call { SettlesBy kind D.state W.drawn self.old self.new result }
    {
        let params = self.lookup.overlay.params;
        let slots = params.slots();
        if self.used > slots {
            return Err(SettleFault::Full {
                need: self.used,
                slots,
            });
        }
        let Lookup {
            overlay,
            finder,
            memo,
            index,
        } = &mut self.lookup;
        forget(index);
        let found = find_slots(overlay, finder, &self.changes);
        // Whatever was found, the slots are the disk's again.
        empty(&mut overlay.touched);
        // An index serves searches for pages alone, so what a settle looked at doesn't count.
        overlay.looks = 0;
        let changed = found?;
        let spares = &mut overlay.spares;
        match commit_slots(
            &mut overlay.disk,
            &mut overlay.cache,
            &params,
            changed,
            spares,
            kind,
        ) {
            Ok(()) => {
                overlay.params = kind.params(&params);
                self.changes.hand_to(memo);
                self.settled = self.used;
                Ok(())
            }
            // It came at a write or behind one, so the disk may have the old pages or the new ones.
            Err(_) => {
                memo.clear();
                self.is_spent = true;
                Err(SettleFault::Disk)
            }
        }
    }
}

impl<D: Disk, W: Draw> Pages for Staged<D, W> {
    ghost use Rattle.page_store.specs.StagedState.{pages_state, Follows, Follows-refl, Follows-trans};

    ghost state = { λ s. pages_state D.state s };

    ghost follows = { λ old new. Follows D.state old new };

    ghost valid = { λ s told. told.valid };

    ghost follows_refl = { λ s. Follows-refl D.state s (D.sound s.disk) };

    ghost follows_trans = { λ a b c. Follows-trans D.state a b c };

    fn get(&mut self, label: &Label) -> Result<Option<Page>, Fault> {
        Ok(self.look(label)?.copied())
    }

    fn look(&mut self, label: &Label) -> Result<Option<&Page>, Fault> {
        self.lookups = self.lookups.saturating_add(1);
        let place = memo_place(label);
        self.lookup.learn(&self.changes, place, label)?;
        self.shown(place, label)
    }

    fn put(&mut self, page: Page) -> Result<(), Fault> {
        let label = page.label();
        let kept = self.changes.spares.copy(&page)?;
        self.stage(label, Some(kept))
    }

    fn put_run(&mut self, label: &Label, count: u8, run: &[u8]) -> Result<(), Fault> {
        let kept = self.changes.spares.page(label, count, run)?;
        self.stage(*label, Some(kept))
    }

    fn insert_cell(&mut self, label: &Label, at: u32, cell: &Cell) -> Result<(), Fault> {
        self.changes
            .insert_cell(&self.lookup.memo, label, at, cell)?;
        Ok(())
    }

    fn drop_page(&mut self, label: &Label) -> Result<(), Fault> {
        self.stage(*label, None)
    }
}
