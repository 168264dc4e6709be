//! The calls of the journal.
ghost use Rattle.std.specs.Prelude.{◌≡◌, ◌≢◌, ◌↔◌, ◌⊎◌, ◌+◌, ◌*◌, ◌/◌, ◌<◌, ◌≤◌, slice_index, IsOk, IfOk, OnOk, OnErr};
ghost use Rattle.store_model.specs.declared.version.Version.TheVariants.{One};
ghost use Rattle.store_model.specs.Parameters.{image_len, block_len};
ghost use Rattle.store_model.specs.Images.{first_byte, recovered_slot};
ghost use Rattle.disk_model.specs.DiskState.{IsObservable, IsDurable};
ghost use Rattle.disk_model.specs.DiskCalls.{Rose, raised, LeavesOnly};
ghost use Rattle.gate_journal.specs.Places.{AreCalls, Makes, ReadsOnly};
ghost use Rattle.gate_journal.specs.Phases.{HasEmptyJournal};
ghost use Rattle.gate_journal.specs.Changes.{AreChanges, Commits, CommitsUpgrade};
ghost use Rattle.gate_journal.specs.Costs.{upgrade_writes, upgrade_syncs};
ghost use Rattle.gate_journal.specs.Headers.{ViewsHeader};
ghost use Rattle.gate_journal.specs.Recovery.{Recovers, redo_writes, redo_syncs, erase_writes};
ghost use Rattle.sha2.specs.Sha256.{sha256};
ghost use Rattle.gate_journal.specs.Wipes.{Wipes, block_count};
ghost use Rattle.gate_journal.specs.Formats.{IsEmptyOrNone, Formats, faults_after_format};

use crate::changes::SlotChanges;
use crate::commit::{Kind, commit_changes};
use crate::digest::digest_disk;
use crate::fault::JournalFault;
use crate::format::{is_image, write_image};
use crate::header::read_viewed;
use crate::journal_cache::JournalCache;
use crate::recover::recover_durable;
use crate::view::read_recovered;
use crate::wipe::overwrite_disk;
use disk_model::Disk;
use store_base::{DiskFault, Params, image_len as len_of};
use store_model::Slot;

/// The redo journal of an image. Its calls take no memory.
pub struct Journal;

impl Journal {
    /// Changes these slots of the table together.
    ///
    /// After Ok the disk is durable and reads the image with the slots changed. With no slot to change nothing is
    /// called.
    ///
    /// Each image that a crash at any moment of the call may leave has the disk's length. It recovers to the old
    /// image or to the one with the slots changed. So does what the disk reads after `DiskFault`: recover it before
    /// it is used again.
    pub fn commit<D: Disk, S: SlotChanges>(
        disk: &mut D,
        params: &Params,
        changes: &S,
    ) -> Result<(), DiskFault>
        requires size { (D.state disk.old).size ≡ image_len params.now.slots }
        requires changes { AreChanges params.now.slots (S.changes changes.now) }
        requires durable { IsObservable (D.state disk.old) → IsDurable (D.state disk.old) }
        requires empty { IsObservable (D.state disk.old)
            → HasEmptyJournal params.now.slots (D.state disk.old).bytes }
        ensures calls { AreCalls (D.state disk.old) (D.state disk.new) result }
        ensures commits { IsObservable (D.state disk.old)
            → Commits params.now.slots (S.changes changes.now) (D.state disk.old)
            (D.state disk.new) result }

        // with no change nothing is called, and otherwise so many writes and syncs are made
        ensures none { (S.changes changes.now).count ≡ 0 → disk.new ≡ disk.old }
        ensures none_fails { (S.changes changes.now).count ≡ 0 → IsOk result }
        ensures makes { IsObservable (D.state disk.old) → 0 < (S.changes changes.now).count
            → Makes (5 * (S.changes changes.now).count + 2) 5 (D.state disk.old)
            (D.state disk.new) result }

        // a fault comes at a write or behind one
        ensures wrote { IsObservable (D.state disk.old)
            → OnErr result (Rose (D.state disk.old).writes (D.state disk.new).writes) }
    {
        if changes.count() == 0 {
            return Ok(());
        }
        commit_changes(disk, params.slots(), changes, Kind::Slots)
    }

    /// Changes these slots of the table together, and makes the image one of version 2 with them.
    ///
    /// The parameters are of version 1. After Ok the disk is durable and reads the image with the slots changed and
    /// of version 2. With no slot to change, the version is written all the same.
    ///
    /// Each image that a crash at any moment of the call may leave has the disk's length. It recovers to the old
    /// image or to that new one. So does what the disk reads after `DiskFault`: recover it before it is used again.
    pub fn commit_upgrade<D: Disk, S: SlotChanges>(
        disk: &mut D,
        params: &Params,
        changes: &S,
    ) -> Result<(), DiskFault>
        requires version { params.now.version ≡ One }
        requires size { (D.state disk.old).size ≡ image_len params.now.slots }
        requires changes { AreChanges params.now.slots (S.changes changes.now) }
        requires durable { IsObservable (D.state disk.old) → IsDurable (D.state disk.old) }
        requires empty { IsObservable (D.state disk.old)
            → HasEmptyJournal params.now.slots (D.state disk.old).bytes }
        ensures calls { AreCalls (D.state disk.old) (D.state disk.new) result }
        ensures commits { IsObservable (D.state disk.old)
            → CommitsUpgrade params.now.slots (S.changes changes.now) (D.state disk.old)
            (D.state disk.new) result }
        ensures makes { IsObservable (D.state disk.old)
            → Makes (upgrade_writes (S.changes changes.now).count) upgrade_syncs (D.state disk.old)
            (D.state disk.new) result }

        // a fault comes at a write or behind one
        ensures wrote { IsObservable (D.state disk.old)
            → OnErr result (Rose (D.state disk.old).writes (D.state disk.new).writes) }
    {
        commit_changes(disk, params.slots(), changes, Kind::Upgrade)
    }

    /// Recovers the image that a crash left: finishes a commit whose flag is set, and empties the journal.
    ///
    /// It takes any disk of the length of the parameters, with writes pending or not. After Ok the disk is durable
    /// and reads what it recovers to.
    ///
    /// Each image that a crash at any moment of the call may leave is one that a crash before it might have left, or
    /// has the disk's length and recovers to the same. What the disk reads recovers to the same, after `DiskFault`
    /// too: then recover it again before it is used.
    ///
    /// With an empty journal it makes one sync and no write. Otherwise it writes once each block of the journal that
    /// is not zero. Where the flag is set, it also writes once each marked slot, the version if that is marked, and
    /// the flag.
    pub fn recover<D: Disk>(disk: &mut D, params: &Params) -> Result<(), DiskFault>
        requires { (D.state disk.old).size ≡ image_len params.now.slots }
        ensures calls { AreCalls (D.state disk.old) (D.state disk.new) result }
        ensures recovers { IsObservable (D.state disk.old)
            → Recovers params.now.slots (D.state disk.old) (D.state disk.new) result }

        // with an empty journal one sync is made and no write, and otherwise no more than what is to be changed takes
        ensures quiet { IsObservable (D.state disk.old)
            → HasEmptyJournal params.now.slots (D.state disk.old).bytes
            → (D.state disk.new).writes ≡ (D.state disk.old).writes }
        ensures quiet_syncs { IsObservable (D.state disk.old)
            → HasEmptyJournal params.now.slots (D.state disk.old).bytes
            → (D.state disk.new).syncs ≡ raised (D.state disk.old).syncs }
        ensures makes { IsObservable (D.state disk.old)
            → (HasEmptyJournal params.now.slots (D.state disk.old).bytes → ⊥)
            → Makes (redo_writes params.now.slots (D.state disk.old).bytes
            + erase_writes params.now.slots (D.state disk.old).bytes)
            (redo_syncs (D.state disk.old).bytes + 2)
            (D.state disk.old) (D.state disk.new) result }
    {
        // What was pending has to stand before it is judged: a crash could still take it back.
        disk.sync()?;
        recover_durable(disk, params.slots())
    }

    /// Writes the image of the empty tree to a disk of its length that is no image.
    ///
    /// After Ok the disk is durable and reads the image of the empty tree, whatever was pending before.
    ///
    /// `WrongLength` comes exactly where the disk's length is not that of an image of these parameters.
    /// `AlreadyImage` comes only where the length is right and the first byte is that of an image; such a disk gives
    /// `AlreadyImage` or `Disk`, and is only read. `Disk` comes only where the disk failed.
    ///
    /// A disk of the right length whose first byte is not that of an image reads no image or that of the empty tree,
    /// after `Disk` too. If nothing was pending before, each image that a crash at any moment of the call may leave is
    /// one of these as well. A write that is pending might leave the first byte of an image before the rest is written,
    /// so sync such a disk first.
    pub fn format<D: Disk>(disk: &mut D, params: &Params) -> Result<(), JournalFault>
        ensures size { (D.state disk.new).size ≡ (D.state disk.old).size }
        ensures observable { (D.state disk.new).is_observable ≡ (D.state disk.old).is_observable }
        ensures faults { (D.state disk.new).faults
            ≡ faults_after_format (D.state disk.old).faults result }
        ensures rise { (D.state disk.old).faults ≤ (D.state disk.new).faults }
        ensures writes { (D.state disk.old).writes ≤ (D.state disk.new).writes }
        ensures syncs { (D.state disk.old).syncs ≤ (D.state disk.new).syncs }

        ensures wrong_length { (result ≡ Err JournalFault.WrongLength)
            ↔ ((D.state disk.old).size ≢ image_len params.now.slots) }
        ensures wrong_length_keeps { result ≡ Err JournalFault.WrongLength → disk.new ≡ disk.old }

        ensures already_image { IsObservable (D.state disk.old)
            → result ≡ Err JournalFault.AlreadyImage
            → slice_index (D.state disk.old).bytes 0 ≡ first_byte }
        // an image is only read, also where that fails
        ensures image_is_kept { IsObservable (D.state disk.old)
            → (D.state disk.old).size ≡ image_len params.now.slots
            → slice_index (D.state disk.old).bytes 0 ≡ first_byte
            → ReadsOnly (D.state disk.old) (D.state disk.new) }
        ensures already_image_keeps { IsObservable (D.state disk.old)
            → result ≡ Err JournalFault.AlreadyImage
            → ReadsOnly (D.state disk.old) (D.state disk.new) }
        ensures image_is_found { IsObservable (D.state disk.old)
            → (D.state disk.old).size ≡ image_len params.now.slots
            → slice_index (D.state disk.old).bytes 0 ≡ first_byte
            → (result ≡ Err JournalFault.AlreadyImage) ⊎ (result ≡ Err JournalFault.Disk) }

        ensures disk_failed { result ≡ Err JournalFault.Disk
            → Rose (D.state disk.old).faults (D.state disk.new).faults }
        ensures makes { IsObservable (D.state disk.old)
            → (D.state disk.old).size ≡ image_len params.now.slots
            → slice_index (D.state disk.old).bytes 0 ≢ first_byte
            → Makes (image_len params.now.slots / block_len + 1) 2 (D.state disk.old)
            (D.state disk.new) result }
        ensures formats { IsObservable (D.state disk.old)
            → Formats params.now (D.state disk.new) result }

        // what the disk reads, after a fault too, and where nothing was pending what a crash may leave
        ensures reads { IsObservable (D.state disk.old)
            → (D.state disk.old).size ≡ image_len params.now.slots
            → slice_index (D.state disk.old).bytes 0 ≢ first_byte
            → IsEmptyOrNone params.now (D.state disk.new).bytes }
        ensures crash { IsObservable (D.state disk.old)
            → (D.state disk.old).size ≡ image_len params.now.slots
            → slice_index (D.state disk.old).bytes 0 ≢ first_byte
            → IsDurable (D.state disk.old)
            → LeavesOnly (D.state disk.old) (D.state disk.new) (IsEmptyOrNone params.now) }
    {
        if disk.len() != len_of(params.slots()) {
            return Err(JournalFault::WrongLength);
        }
        if is_image(disk)? {
            return Err(JournalFault::AlreadyImage);
        }
        Ok(write_image(disk, params)?)
    }

    /// Reads the parameters of the image that recovery would leave. `None` comes exactly where the disk is no image:
    /// its header, as it is read, names no parameters, or not those of its length. Nothing is written. After
    /// `DiskFault` the disk is as it was.
    pub fn view_header<D: Disk>(disk: &mut D) -> Result<Option<Params>, DiskFault>
        ensures views { ViewsHeader (D.state disk.old) (D.state disk.new) result }
    {
        read_viewed(disk)
    }

    /// Reads what recovery would leave in slot `at`, and writes nothing.
    /// After `DiskFault` the buffer may hold anything, and the disk is as it was.
    pub fn view_slot<D: Disk>(
        disk: &mut D,
        params: &Params,
        at: u32,
        into: &mut Slot,
    ) -> Result<(), DiskFault>
        requires below { at < params.now.slots }
        requires size { (D.state disk.old).size ≡ image_len params.now.slots }
        ensures calls { AreCalls (D.state disk.old) (D.state disk.new) result }
        ensures reads { IsObservable (D.state disk.old)
            → ReadsOnly (D.state disk.old) (D.state disk.new) }
        ensures slot { IsObservable (D.state disk.old)
            → OnOk result (into.new ≡ recovered_slot params.now.slots (D.state disk.old).bytes at) }
    {
        read_recovered(disk, &mut JournalCache::new(), params.slots(), at, into)
    }

    /// Fills the disk with zeros, however long it is, and the first byte before all others.
    ///
    /// After Ok every byte is zero and durable, whatever was pending before. Whatever the answer, the disk then reads
    /// as it did but for the first byte, or begins with zero. If nothing was pending before, so does each image that
    /// a crash at any moment of the call may leave. On a disk of no byte nothing is called.
    pub fn wipe<D: Disk>(disk: &mut D) -> Result<(), DiskFault>
        ensures calls { AreCalls (D.state disk.old) (D.state disk.new) result }
        ensures wipes { IsObservable (D.state disk.old)
            → Wipes (D.state disk.old) (D.state disk.new) result }

        // with no byte nothing is called, and otherwise so many writes and syncs are made
        ensures none { (D.state disk.old).size ≡ 0 → disk.new ≡ disk.old }
        ensures none_fails { (D.state disk.old).size ≡ 0 → IsOk result }
        ensures makes { IsObservable (D.state disk.old) → 0 < (D.state disk.old).size
            → Makes (1 + block_count (D.state disk.old).size) 2 (D.state disk.old)
            (D.state disk.new) result }
    {
        if disk.len() == 0 {
            return Ok(());
        }
        overwrite_disk(disk)
    }

    /// Computes SHA-256 (FIPS 180-4) of all bytes that the disk reads: header, journal and table. Nothing is written.
    /// After `DiskFault` the disk is as it was.
    pub fn digest<D: Disk>(disk: &mut D) -> Result<[u8; 32], DiskFault>
        ensures calls { AreCalls (D.state disk.old) (D.state disk.new) result }
        ensures reads { IsObservable (D.state disk.old)
            → ReadsOnly (D.state disk.old) (D.state disk.new) }
        ensures digest { IsObservable (D.state disk.old)
            → IfOk result (λ digest. digest ≡ sha256 (D.state disk.old).bytes) }
    {
        digest_disk(disk)
    }
}
