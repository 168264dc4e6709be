//! The steps that write a file.

ghost use Rattle.std.specs.Prelude.{◌≡◌, ◌≢◌, ℕ, true, false, min};
ghost use Rattle.store_model.specs.Parameters.{Parameters};
ghost use Rattle.store_model.specs.Trees.{Tree};
ghost use Rattle.store_model.specs.Pairs as model;
ghost use Rattle.dump_streams.specs.Dumps.DumpStep.{Write};
ghost use Rattle.dump_streams.specs.Reading.{GoesOn};
ghost use Rattle.tree_writer.specs.Writing.{WritesTree, TakesStep};

use crate::fault::TreeFault;
use crate::writer::TreeWriter;
use disk_model::Disk;
use path_keys::Path;
use store_base::Bytes;
use store_model::Version;
use tree_pairs::{FILE_BLOCK, is_inline};

/// Whether a file that begins with so many bytes has other than were told, whatever comes behind them: more already,
/// or so few that no more come. It is told only of a file whose bytes, or those that were told, stand in the first
/// pair.
fn is_other(version: Version, len: u32, told: u32) -> bool
    ensures other { result ≡ true → len ≢ told }
    ensures short { result ≡ true → model.is_inline version (min len told) ≡ true }
    ensures same { result ≡ false → model.is_inline version len ≡ true → told ≡ len }
{
    len != told && is_inline(version, len.min(told))
}

impl TreeWriter {
    /// Takes a step that writes; at offset 0 it begins a file that is told to have so many bytes. Faults as of `take`.
    pub(crate) fn write<D: Disk>(
        &mut self,
        disk: &mut D,
        path: &Path,
        at: u32,
        bytes: &Bytes,
        told: u32,
    ) -> Result<(), TreeFault>
        requires { (p : Parameters) × (start : D) × (t : Tree)
            × WritesTree p t (D.state start) (D.state disk.old) self.old
            × GoesOn t (Write path.now at bytes.now) p }
        ensures { TakesStep D.state (Write path.now at bytes.now) told
            disk.old disk.new self.old self.new result }
    {
        if at == 0 {
            self.end_file()?;
            return self.write_first(disk, path, bytes, told);
        }
        self.write_more(disk, path, at, bytes)
    }

    /// Takes the step that begins a file which is told to have so many bytes, where the one before ended.
    fn write_first<D: Disk>(
        &mut self,
        disk: &mut D,
        path: &Path,
        bytes: &Bytes,
        told: u32,
    ) -> Result<(), TreeFault>
        requires ended { self.old.got ≡ self.old.told }
        requires step { (p : Parameters) × (start : D) × (t : Tree)
            × WritesTree p t (D.state start) (D.state disk.old) self.old
            × GoesOn t (Write path.now 0 bytes.now) p }
        ensures { TakesStep D.state (Write path.now 0 bytes.now) told
            disk.old disk.new self.old self.new result }
    {
        let len = bytes.as_slice().len() as u32;
        if is_other(self.pairs.version(), len, told) {
            return Err(TreeFault::Changed);
        }
        self.got = len;
        self.told = told;
        self.pairs.push_file(disk, path, told, bytes)
    }

    /// Takes a step that writes more bytes of the last file, which has so many.
    fn write_more<D: Disk>(
        &mut self,
        disk: &mut D,
        path: &Path,
        at: u32,
        bytes: &Bytes,
    ) -> Result<(), TreeFault>
        requires further { at ≢ 0 }
        requires step { (p : Parameters) × (start : D) × (t : Tree)
            × WritesTree p t (D.state start) (D.state disk.old) self.old
            × GoesOn t (Write path.now at bytes.now) p }
        ensures { (told : ℕ) → TakesStep D.state (Write path.now at bytes.now) told
            disk.old disk.new self.old self.new result }
    {
        let bytes = bytes.as_slice();
        self.got = at + bytes.len() as u32;
        self.pairs
            .push_blocks(disk, path, at / FILE_BLOCK + 1, bytes)
    }
}
