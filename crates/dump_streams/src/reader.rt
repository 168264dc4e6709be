//! Which step may be the next of a dump.

ghost use Rattle.std.specs.Prelude.{◌≡◌, ◌↔◌, ◌<◌, IsTrue};
ghost use Rattle.store_model.specs.Commands.{IsCommand};
ghost use Rattle.store_model.specs.Parameters.{Parameters};
ghost use Rattle.store_model.specs.Trees.{empty_tree};
ghost use Rattle.dump_streams.specs.Dumps.{command_of_step};
ghost use Rattle.dump_streams.specs.Dumps.DumpStep.{Make, Write, Set};
ghost use Rattle.dump_streams.specs.Reading.{HasRead, AddsStep, AddsEntry, IsNextPath, IsNextPiece, IsNextName};

use crate::step::{DumpStep, Step};
use path_keys::{AttrName, Path, attr_key};
use store_base::Bytes;
use store_model::Version;
use tree_pairs::{ATTRIBUTE_LIMIT, Entry, FILE_LIMIT, Kind, has_attributes, is_above};

/// The most bytes that one line of a dump writes.
pub const DUMP_PIECE: u32 = 2048;

/// Reads the steps of a dump one after another. It knows the last entry and the name of its last attribute, and no
/// tree: as long as all steps were taken, they are the dump of a tree, whose last entry this is.
#[derive(Clone, Copy, Debug)]
pub struct ListingReader {
    /// The version of the format under which the tree is to stand.
    version: Version,
    /// The last entry, of a file with the bytes that were written so far; before the first one the root.
    last: Entry,
    /// The name of its last attribute, if it has one.
    attribute: Option<AttrName>,
}

impl ListingReader {
    /// A reader under one version to which no step came.
    pub fn new(version: Version) -> Self
        ensures version { result.version ≡ version }
        ensures read { (p : Parameters) → p.version ≡ version → HasRead result empty_tree p }
    {
        ListingReader {
            version,
            last: Entry::root(),
            attribute: None,
        }
    }

    /// Takes the next step, and says whether some tree's dump begins with those that were taken and this one,
    /// under the reader's version. Then these are the whole dump of the tree that the step leads to. If not,
    /// nothing changed.
    pub fn add(&mut self, step: &DumpStep) -> bool
        ensures { AddsStep self.old self.new step.now result }
    {
        match step.parts() {
            Step::Make(path) => self.add_directory(path),
            Step::Write(path, 0, bytes) => self.add_file(path, bytes),
            Step::Write(path, at, bytes) => self.add_piece(path, at, bytes),
            Step::Set(path, name, bytes) => self.add_attribute(path, name, bytes),
        }
    }

    /// Takes the step that makes a directory.
    fn add_directory(&mut self, path: &Path) -> bool
        requires { IsCommand (command_of_step (Make path.now)) }
        ensures { AddsStep self.old self.new (Make path.now) result }
    {
        self.add_entry(path, Kind::Directory)
    }

    /// Takes the first step that writes a file.
    fn add_file(&mut self, path: &Path, bytes: &Bytes) -> bool
        requires { IsCommand (command_of_step (Write path.now 0 bytes.now)) }
        ensures { AddsStep self.old self.new (Write path.now 0 bytes.now) result }
    {
        let len = bytes.as_slice().len() as u32;
        if len > DUMP_PIECE {
            return false;
        }
        self.add_entry(path, Kind::File(len))
    }

    /// Takes the first step of an entry, if one may stand at the path behind the last one.
    fn add_entry(&mut self, path: &Path, kind: Kind) -> bool
        ensures { AddsEntry self.old self.new path.now kind result }
    {
        if path.is_root() || !self.last.may_precede(path) {
            return false;
        }
        *self = ListingReader {
            version: self.version,
            last: Entry { path: *path, kind },
            attribute: None,
        };
        true
    }

    /// Takes a step that writes a file further.
    fn add_piece(&mut self, path: &Path, at: u32, bytes: &Bytes) -> bool
        requires further { 0 < at }
        requires command { IsCommand (command_of_step (Write path.now at bytes.now)) }
        ensures { AddsStep self.old self.new (Write path.now at bytes.now) result }
    {
        if !self.is_next_piece(path, at, bytes) {
            return false;
        }
        self.last.kind = Kind::File(at + bytes.as_slice().len() as u32);
        true
    }

    /// Whether a write adds a piece to the last file. Only the last piece of a file is shorter than others.
    fn is_next_piece(&self, path: &Path, at: u32, bytes: &Bytes) -> bool
        ensures { IsTrue result ↔ IsNextPiece self.now path.now at bytes.now }
    {
        let len = bytes.as_slice().len() as u32;
        *path == self.last.path
            && self.last.kind == Kind::File(at)
            && self.attribute.is_none()
            && at % DUMP_PIECE == 0
            && 0 < len
            && len <= DUMP_PIECE
            && at <= FILE_LIMIT - len
    }

    /// Takes the step that gives a path an attribute.
    fn add_attribute(&mut self, path: &Path, name: &AttrName, bytes: &Bytes) -> bool
        requires { IsCommand (command_of_step (Set path.now name.now bytes.now)) }
        ensures { AddsStep self.old self.new (Set path.now name.now bytes.now) result }
    {
        if !self.is_next_name(path, name, bytes) {
            return false;
        }
        self.attribute = Some(*name);
        true
    }

    /// Whether an attribute may stand behind those that the last entry has. Version 1 has none.
    fn is_next_name(&self, path: &Path, name: &AttrName, bytes: &Bytes) -> bool
        ensures { IsTrue result ↔ IsNextName self.now path.now name.now bytes.now }
    {
        has_attributes(self.version)
            && *path == self.last.path
            && is_above(&self.attribute, name)
            && bytes.as_slice().len() <= ATTRIBUTE_LIMIT
            && attr_key(path, name).is_some()
    }
}
