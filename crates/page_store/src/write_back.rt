//! The commit of the slots that a settle changed.

ghost use Rattle.std.specs.Prelude.{◌≡◌};
ghost use Rattle.store_model.specs.declared.version.Version.TheVariants.{One};
ghost use Rattle.store_model.specs.Parameters.{image_len};
ghost use Rattle.disk_model.specs.DiskState.{IsObservable, IsDurable};
ghost use Rattle.gate_journal.specs.Changes.{AreChanges};
ghost use Rattle.gate_journal.specs.Phases.{HasEmptyJournal};
ghost use Rattle.gate_journal.specs.Places.{AreCalls};
ghost use Rattle.table_memory.specs.SlotCaches.{changes_of, IsSlotCacheOf};
ghost use Rattle.page_store.specs.Committing.{CommitsAs, CommitsSlots};

use crate::commit_kind::CommitKind;
use disk_model::Disk;
use gate_journal::{Journal, SlotChanges};
use store_base::{DiskFault, Params};
use store_model::Slot;
use table_memory::{ChangedSlots, SlotCache, Spares};

/// Commits the changed slots of the table of a disk of these parameters, by a commit of this kind.
fn commit_as<D: Disk>(
    disk: &mut D,
    params: &Params,
    changed: &ChangedSlots,
    kind: CommitKind,
) -> Result<(), DiskFault>
    requires version { kind ≡ CommitKind.Upgrade → params.now.version ≡ One }
    requires size { (D.state disk.old).size ≡ image_len params.now.slots }
    requires changes { AreChanges params.now.slots (changes_of changed.now.slots.items) }
    requires durable { IsObservable (D.state disk.old) → IsDurable (D.state disk.old) }
    requires empty { IsObservable (D.state disk.old)
        → HasEmptyJournal params.now.slots (D.state disk.old).bytes }
    ensures calls { AreCalls (D.state disk.old) (D.state disk.new) result }
    ensures observed { IsObservable (D.state disk.old)
        → CommitsAs kind params.now.slots (changes_of changed.now.slots.items) (D.state disk.old)
        (D.state disk.new) result }
    ensures none { kind ≡ CommitKind.Plain → (changes_of changed.now.slots.items).count ≡ 0
        → disk.new ≡ disk.old }
{
    match kind {
        CommitKind::Plain => Journal::commit(disk, params, changed),
        CommitKind::Upgrade => Journal::commit_upgrade(disk, params, changed),
    }
}

/// Commits the changed slots of the table of a disk of these parameters, by a commit of this kind, and gives those that
/// are kept their new bytes. After `DiskFault` the disk may have the old slots or the new ones, and none is kept.
pub fn commit_slots<D: Disk>(
    disk: &mut D,
    cache: &mut SlotCache,
    params: &Params,
    changed: ChangedSlots,
    spares: &mut Spares<Slot>,
    kind: CommitKind,
) -> Result<(), DiskFault>
    requires version { kind ≡ CommitKind.Upgrade → params.now.version ≡ One }
    requires size { (D.state disk.old).size ≡ image_len params.now.slots }
    requires changes { AreChanges params.now.slots (changes_of changed.slots.items) }
    requires durable { IsObservable (D.state disk.old) → IsDurable (D.state disk.old) }
    requires empty { IsObservable (D.state disk.old)
        → HasEmptyJournal params.now.slots (D.state disk.old).bytes }
    requires cached { IsSlotCacheOf params.now.slots (D.state disk.old) cache.old }
    ensures call { CommitsSlots kind D.state params.now.slots (changes_of changed.slots.items)
        disk.old disk.new cache.new result }
{
    match commit_as(disk, params, &changed, kind) {
        Ok(()) => {
            cache.rewrite_all(changed.slots, spares);
            Ok(())
        }
        Err(fault) => {
            cache.clear();
            Err(fault)
        }
    }
}

/// Commits changed slots of the table of a disk of these parameters, and keeps no slot any more. After `DiskFault` the
/// disk may have the old slots or the new ones. It takes no memory.
#[tactic(auto, using(table_memory::proofs::CacheLemmas::cache_empty))]
pub fn commit_anew<D: Disk, S: SlotChanges>(
    disk: &mut D,
    cache: &mut SlotCache,
    params: &Params,
    changes: &S,
) -> Result<(), DiskFault>
    requires size { (D.state disk.old).size ≡ image_len params.now.slots }
    requires changes { AreChanges params.now.slots (S.changes changes.now) }
    requires durable { IsObservable (D.state disk.old) → IsDurable (D.state disk.old) }
    requires empty { IsObservable (D.state disk.old)
        → HasEmptyJournal params.now.slots (D.state disk.old).bytes }
    ensures calls { AreCalls (D.state disk.old) (D.state disk.new) result }
    ensures observed { IsObservable (D.state disk.old)
        → CommitsAs CommitKind.Plain params.now.slots (S.changes changes.now) (D.state disk.old)
        (D.state disk.new) result }
    ensures none { (S.changes changes.now).count ≡ 0 → disk.new ≡ disk.old }
    ensures cached { IsSlotCacheOf params.now.slots (D.state disk.new) cache.new }
{
    cache.clear();
    Journal::commit(disk, params, changes)
}
