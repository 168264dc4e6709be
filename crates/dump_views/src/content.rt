//! The bytes of one file of a dump.

ghost use Rattle.std.specs.Prelude.{◌≡◌, [], IfErr};
ghost use Rattle.store_model.specs.Trees.{empty_tree, node_at};
ghost use Rattle.dump_streams.specs.Dumps.DumpStep.{Make, Write};
ghost use Rattle.dump_streams.specs.Takers.{IsTaken};
ghost use Rattle.dump_streams.specs.declared.taker.TakerFault.TheVariants as faults;
ghost use Rattle.dump_views.specs.declared.content.ContentTaker.{ContentTaker};
ghost use Rattle.dump_views.specs.Contents.{TakesOne, BreaksOne, TookContents, standing_by, standing_of};

use crate::same::is_same_path;
use dump_streams::{DumpStep, Step, Taker, TakerFault};
use path_keys::Path;
use script_lines::{Sink, SinkFault};

/// What stands at a path.
#[derive(Clone, Copy, Debug, PartialEq, Eq)]
pub enum Standing {
    /// Nothing.
    Nothing,
    /// A folder, as the root always is.
    Directory,
    /// A file.
    File,
}

/// Finds one file in a dump. It puts the bytes that the steps write at one path into a sink, and remembers what
/// stands there. So at the end of a dump it put the bytes of the file at that path, and nothing where there is no
/// file.
#[derive(Drop)]
pub struct ContentTaker<W: Sink> {
    path: Path,
    standing: Standing,
    sink: W,
}

impl<W: Sink> ContentTaker<W> {
    /// A taker that puts the bytes of the file at the path into the sink.
    pub fn new(path: Path, sink: W) -> Self
        ensures path { result.path ≡ path }
        ensures sink { result.sink ≡ sink }
        ensures standing { result.standing ≡ standing_of (node_at empty_tree path) }
        ensures none { TookContents W.state result result [] }
    {
        let standing = if path.is_root() {
            Standing::Directory
        } else {
            Standing::Nothing
        };
        ContentTaker {
            path,
            standing,
            sink,
        }
    }

    /// What stands at the path.
    pub fn standing(&self) -> Standing
        ensures { result ≡ self.now.standing }
    {
        self.standing
    }

    /// Gives the sink back, with the bytes that were put into it.
    pub fn into_sink(self) -> W
        ensures { result ≡ self.sink }
    {
        let ContentTaker {
            path: _,
            standing: _,
            sink,
        } = self;
        sink
    }

    /// Takes the step that makes a folder.
    fn make(&mut self, path: &Path)
        ensures { self.new ≡ record self.old {
          standing =
              standing_by self.old.path self.old.standing (Make path.now);
        } }
    {
        if is_same_path(&self.path, path) {
            self.standing = Standing::Directory;
        }
    }

    /// Takes the step that writes bytes into a file. After an error the first of them may have been put.
    fn write(&mut self, path: &Path, at: u32, bytes: &[u8]) -> Result<(), TakerFault>
        ensures taken { TakesOne W.state self.old self.new (Write path.now at bytes.now) result }
        ensures fault { IfErr result (λ fault. fault ≡ faults.Failed) }
    {
        let _ = at;
        if !is_same_path(&self.path, path) {
            return Ok(());
        }
        self.standing = Standing::File;
        match self.sink.put(bytes) {
            Ok(()) => Ok(()),
            Err(SinkFault) => Err(TakerFault::Failed),
        }
    }

    /// Takes a step.
    fn take_one(&mut self, step: &DumpStep) -> Result<(), TakerFault>
        ensures taken { TakesOne W.state self.old self.new step.now result }
        ensures fault { IfErr result (λ fault. fault ≡ faults.Failed) }
    {
        match step.parts() {
            Step::Make(path) => {
                self.make(path);
                Ok(())
            }
            Step::Write(path, at, bytes) => self.write(path, at, bytes.as_slice()),
            Step::Set(_, _, _) => Ok(()),
        }
    }
}

impl<W: Sink> Taker for ContentTaker<W> {
    ghost took = { TookContents W.state };

    ghost broke = { BreaksOne W.state };

    /// `Failed`: the sink failed. The first bytes of the step may have been put.
    fn take(&mut self, step: &DumpStep) -> Result<(), TakerFault>
        ensures contract { (first : ContentTaker W)
            → IsTaken (TookContents W.state first self.old) (TookContents W.state first self.new)
            step.now result }
        ensures broken { IfErr result (BreaksOne W.state self.old self.new step.now) }
        ensures taken { TakesOne W.state self.old self.new step.now result }
        ensures fault { IfErr result (λ fault. fault ≡ faults.Failed) }
    {
        self.take_one(step)
    }
}
