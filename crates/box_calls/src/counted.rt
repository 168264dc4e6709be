//! A builder that counts what another one makes.

ghost use Rattle.std.specs.Prelude.{◌≡◌};
ghost use Rattle.store_base.specs.Counts.{raised};
ghost use Rattle.box_calls.specs.Counted.{counted_state};

use dump_streams::TakerFault;
use host_builder::{Builder, HostAttribute, LeftOut};
use path_keys::{AttrName, Path};

/// How much a builder made, up to the last value of a u64.
#[derive(Clone, Copy, Debug)]
pub(crate) struct MadeCounts {
    /// Folders.
    pub folders: u64,
    /// Files.
    pub files: u64,
    /// Links, each in the place of a file that was made.
    pub links: u64,
    /// Bytes of files.
    pub bytes: u64,
    /// Entries that were left out.
    pub left_out: u64,
}

impl MadeCounts {
    /// Nothing was made.
    fn new() -> Self
        ensures { result.left_out ≡ 0 }
    {
        MadeCounts {
            folders: 0,
            files: 0,
            links: 0,
            bytes: 0,
            left_out: 0,
        }
    }

    /// Counts a folder, if it was made.
    fn add_folder(&mut self, is_made: bool)
        ensures { self.new.left_out ≡ self.old.left_out }
    {
        if is_made {
            self.folders = self.folders.saturating_add(1);
        }
    }

    /// Counts bytes, if they were written to a file from an offset on; at 0 it was made.
    fn add_bytes(&mut self, is_written: bool, at: u32, count: usize)
        ensures { self.new.left_out ≡ self.old.left_out }
    {
        if is_written && at == 0 {
            self.files = self.files.saturating_add(1);
        }
        if is_written {
            self.bytes = self.bytes.saturating_add(count as u64);
        }
    }

    /// Counts a link in the place of a file, if it was made.
    fn add_link(&mut self, is_made: bool)
        ensures { self.new.left_out ≡ self.old.left_out }
    {
        if is_made {
            self.links = self.links.saturating_add(1);
            self.files = self.files.saturating_sub(1);
        }
    }

    /// Counts a file no more, if it is gone.
    fn drop_file(&mut self, is_gone: bool)
        ensures { self.new.left_out ≡ self.old.left_out }
    {
        if is_gone {
            self.files = self.files.saturating_sub(1);
        }
    }

    /// Counts an entry that is left out.
    fn add_left_out(&mut self)
        ensures { self.new.left_out ≡ raised self.old.left_out }
    {
        self.left_out = self.left_out.saturating_add(1);
    }
}

/// Has another builder make what is asked for, and counts what that makes, and what it is told to be left out. It tells
/// what the other one tells, but for what was left out before.
#[derive(Drop)]
pub(crate) struct CountedBuilder<B: Builder> {
    builder: B,
    counts: MadeCounts,
}

impl<B: Builder> CountedBuilder<B> {
    /// A builder over this one.
    pub fn new(builder: B) -> Self
        ensures builder { result.builder ≡ builder }
        ensures none { result.counts.left_out ≡ 0 }
    {
        CountedBuilder {
            builder,
            counts: MadeCounts::new(),
        }
    }

    /// Gives the other builder back, and what was made and left out.
    pub fn into_parts(self) -> (B, MadeCounts)
        ensures builder { result.0 ≡ self.builder }
        ensures counts { result.1 ≡ self.counts }
    {
        let CountedBuilder { builder, counts } = self;
        (builder, counts)
    }
}

impl<B: Builder> Builder for CountedBuilder<B> {
    ghost state = { λ counted. counted_state (B.state counted.builder) counted.counts.left_out };

    fn make_folder(&mut self, path: &Path) -> Result<(), TakerFault> {
        let done = self.builder.make_folder(path);
        self.counts.add_folder(done.is_ok());
        done
    }

    fn write(&mut self, path: &Path, at: u32, bytes: &[u8]) -> Result<(), TakerFault> {
        let done = self.builder.write(path, at, bytes);
        self.counts.add_bytes(done.is_ok(), at, bytes.len());
        done
    }

    fn end_file(&mut self, path: &Path) -> Result<(), TakerFault> {
        self.builder.end_file(path)
    }

    fn let_execute(&mut self, path: &Path) -> Result<(), TakerFault> {
        self.builder.let_execute(path)
    }

    fn set_time(&mut self, path: &Path, seconds: u64) -> Result<(), TakerFault> {
        self.builder.set_time(path, seconds)
    }

    fn make_link(&mut self, path: &Path, target: &[u8]) -> Result<(), TakerFault> {
        let done = self.builder.make_link(path, target);
        self.counts.add_link(done.is_ok());
        done
    }

    fn remove_file(&mut self, path: &Path) -> bool {
        let is_gone = self.builder.remove_file(path);
        self.counts.drop_file(is_gone);
        is_gone
    }

    fn remove_folder(&mut self, path: &Path) -> bool {
        self.builder.remove_folder(path)
    }

    fn remove_root(&mut self) -> bool {
        self.builder.remove_root()
    }

    fn leave_out(&mut self, path: &Path, why: LeftOut) {
        self.counts.add_left_out();
        self.builder.leave_out(path, why);
    }

    fn leave_attribute_out(
        &mut self,
        path: &Path,
        name: &AttrName,
        attribute: Option<HostAttribute>,
    ) {
        self.builder.leave_attribute_out(path, name, attribute);
    }
}
