//! The steps that make a directory or give an attribute.

ghost use Rattle.std.specs.Prelude.{◌≡◌, ◌≢◌, ℕ, OnOk, IfErr};
ghost use Rattle.store_model.specs.Parameters.{Parameters};
ghost use Rattle.store_model.specs.Trees.{Tree};
ghost use Rattle.dump_streams.specs.Dumps.DumpStep.{Make, Set};
ghost use Rattle.dump_streams.specs.Reading.{GoesOn};
ghost use Rattle.tree_writer.specs.declared.fault.TreeFault.TheVariants as faults;
ghost use Rattle.tree_writer.specs.Writing.{WritesTree, TakesStep};

use crate::fault::TreeFault;
use crate::writer::TreeWriter;
use disk_model::Disk;
use path_keys::{AttrName, Path, attr_key};
use store_base::Bytes;
use tree_pairs::{attribute_value, directory_value};

impl TreeWriter {
    /// Ends the last file: as many bytes came as were told, or `Changed`.
    pub(crate) fn end_file(&self) -> Result<(), TreeFault>
        ensures ok { OnOk result (self.now.got ≡ self.now.told) }
        ensures err { IfErr result (λ fault. (fault ≡ faults.Changed) × (self.now.got ≢ self.now.told)) }
    {
        if self.got != self.told {
            return Err(TreeFault::Changed);
        }
        Ok(())
    }

    /// Takes a step that makes a directory. Faults as of `take`.
    pub(crate) fn make<D: Disk>(&mut self, disk: &mut D, path: &Path) -> Result<(), TreeFault>
        requires { (p : Parameters) × (start : D) × (t : Tree)
            × WritesTree p t (D.state start) (D.state disk.old) self.old × GoesOn t (Make path.now) p }
        ensures { (told : ℕ) → TakesStep D.state (Make path.now) told
            disk.old disk.new self.old self.new result }
    {
        self.end_file()?;
        self.pairs.push(disk, path.key(0), directory_value())
    }

    /// Takes a step that gives an attribute. Faults as of `take`.
    pub(crate) fn set<D: Disk>(
        &mut self,
        disk: &mut D,
        path: &Path,
        name: &AttrName,
        bytes: &Bytes,
    ) -> Result<(), TreeFault>
        requires { (p : Parameters) × (start : D) × (t : Tree)
            × WritesTree p t (D.state start) (D.state disk.old) self.old
            × GoesOn t (Set path.now name.now bytes.now) p }
        ensures { (told : ℕ) → TakesStep D.state (Set path.now name.now bytes.now) told
            disk.old disk.new self.old self.new result }
    {
        self.end_file()?;
        match attr_key(path, name) {
            Some(key) => self
                .pairs
                .push(disk, key, attribute_value(bytes.as_slice())),
            None => unreachable!(),
        }
    }
}
