//! What is found at a path of a dump: the bytes of a file, or where a link leads.

ghost use Rattle.std.specs.Prelude.{◌≡◌, [], true, None};
ghost use Rattle.store_model.specs.Trees.{empty_tree, node_at};
ghost use Rattle.dump_views.specs.Contents.{standing_of};
ghost use Rattle.image_reads.specs.FileTakers.{TookFile, empty_by, leads_by, said_target, found_by};

use dump_streams::{DumpStep, Step, Taker, TakerFault};
use dump_views::{ContentTaker, Standing, is_same_path};
use host_builder::{HostAttribute, attribute_in};
use host_folders::LinkTarget;
use path_keys::{AttrName, Path};
use script_lines::Sink;
use store_base::Bytes;

/// What stands at a path of an image.
#[derive(Clone, Copy, Debug)]
pub enum FileFound {
    /// Nothing.
    Nothing,
    /// A folder, as the root always is.
    Folder,
    /// A file that is no link.
    File,
    /// A link, and where it leads. In the image that is an empty file with an attribute that says so.
    Link(LinkTarget),
}

/// Finds one file in a dump, as `ContentTaker`, and tells a link from a file that is none.
#[derive(Drop)]
pub(crate) struct FileTaker<W: Sink> {
    contents: ContentTaker<W>,
    path: Path,
    /// Whether no byte of the file came.
    is_empty: bool,
    /// Where the first of the path's attributes leads that says where a link leads.
    target: Option<LinkTarget>,
}

impl<W: Sink> FileTaker<W> {
    /// A taker that puts the bytes of the file at the path into the sink.
    pub fn new(path: Path, sink: W) -> Self
        ensures sink { result.contents.sink ≡ sink }
        ensures contents_path { result.contents.path ≡ path }
        ensures standing { result.contents.standing ≡ standing_of (node_at empty_tree path) }
        ensures path { result.path ≡ path }
        ensures is_empty { result.is_empty ≡ true }
        ensures target { result.target ≡ None }
        ensures none { TookFile W.state result result [] }
    {
        FileTaker {
            contents: ContentTaker::new(path, sink),
            path,
            is_empty: true,
            target: None,
        }
    }

    /// What was found at the path.
    pub fn found(&self) -> FileFound
        ensures { result ≡ found_by self.now.contents.standing self.now.is_empty self.now.target }
    {
        match self.contents.standing() {
            Standing::Nothing => FileFound::Nothing,
            Standing::Directory => FileFound::Folder,
            Standing::File => match self.target {
                Some(target) if self.is_empty => FileFound::Link(target),
                _ => FileFound::File,
            },
        }
    }

    /// Gives the sink back, with the bytes that were put into it.
    pub fn into_sink(self) -> W
        ensures { result ≡ self.contents.sink }
    {
        let FileTaker { contents, .. } = self;
        contents.into_sink()
    }

    /// Notes what a step says of a link at the path.
    fn note(&mut self, step: &DumpStep)
        ensures { self.new ≡ record self.old {
          is_empty = empty_by self.old.path self.old.is_empty step.now;
          target = leads_by self.old.path self.old.target step.now;
        } }
    {
        match step.parts() {
            Step::Make(_) => {}
            Step::Write(path, _, bytes) => {
                if is_same_path(&self.path, path) && !bytes.as_slice().is_empty() {
                    self.is_empty = false;
                }
            }
            Step::Set(path, name, bytes) => {
                if is_same_path(&self.path, path) && self.target.is_none() {
                    self.target = target_in(name, bytes);
                }
            }
        }
    }
}

/// Where an attribute says that a link leads, if it says so.
fn target_in(name: &AttrName, bytes: &Bytes) -> Option<LinkTarget>
    ensures { result ≡ said_target name.now bytes.now }
{
    match attribute_in(name.as_bytes(), bytes.as_slice()) {
        Some(HostAttribute::Link) => match LinkTarget::parse(bytes.as_slice()) {
            Ok(target) => Some(target),
            Err(_) => None,
        },
        Some(HostAttribute::Executes | HostAttribute::Time(_)) | None => None,
    }
}

impl<W: Sink> Taker for FileTaker<W> {
    ghost use Rattle.image_reads.specs.FileTakers.{TookFile, BreaksFile};

    ghost took = { TookFile W.state };

    ghost broke = { BreaksFile W.state };

    /// `Failed`: the sink failed. The first bytes of the step may have been put.
    fn take(&mut self, step: &DumpStep) -> Result<(), TakerFault> {
        self.note(step);
        self.contents.take(step)
    }
}
