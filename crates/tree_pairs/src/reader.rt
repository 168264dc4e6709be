//! The reader of pairs.

ghost use Rattle.std.specs.Prelude.{◌≡◌, ◌↔◌, ◌<◌, ◌≤◌, IsTrue, [], false};
ghost use Rattle.store_model.specs.Parameters.{Parameters};
ghost use Rattle.store_model.specs.Paths as paths;
ghost use Rattle.path_keys.specs.Reading.{HasNoAttribute};
ghost use Rattle.tree_pairs.specs.Fronts.{MayHaveAttribute};
ghost use Rattle.tree_pairs.specs.Seen.{HasSeen, IsNextBlock, MayBeNext, size_of};
ghost use Rattle.tree_pairs.specs.ReaderCalls.{AddsPair, TellsWhole, TellsCounts};

use crate::attributes::{has_attributes, is_above};
use crate::counts::{Counts, counted};
use crate::first::{Entry, first_in, size_in_first};
use crate::{FILE_BLOCK, Kind, attribute_in};
use path_keys::{AttrName, Path, of_attr_key};
use store_base::Key;
use store_model::Version;

/// Reads the pairs of a tree one after another, in the order of their keys. It knows the last entry, and no list.
#[derive(Clone, Copy, Debug)]
pub struct TreeReader {
    /// The version of the format that the pairs have.
    version: Version,
    /// The last entry, and before the first one the root.
    last: Entry,
    /// How many bytes of it were read, if it is a file. Some stand in its first pair, the others behind it.
    read: u32,
    /// The name of the last of its attributes that were read, if there is one.
    attribute: Option<AttrName>,
    /// What was counted, the last entry as a whole.
    counts: Counts,
}

impl TreeReader {
    /// A reader of one version that has seen no pair.
    pub fn new(version: Version) -> Self
        ensures version { result.version ≡ version }
        ensures seen { (p : Parameters) → p.version ≡ version → HasSeen result [] p }
    {
        TreeReader {
            version,
            last: Entry::root(),
            read: 0,
            attribute: None,
            counts: Counts {
                dirs: 0,
                files: 0,
                bytes: 0,
            },
        }
    }

    /// Takes the next pair, a key and the bytes of its value, and says whether some tree's pairs begin with those that
    /// were taken and this one, under the reader's version. So its key has to be greater than theirs. If not, nothing
    /// changed. After `pairs_limit` pairs, more than any image holds, the answer may be no though such a tree exists.
    pub fn add(&mut self, key: &Key, value: &[u8]) -> bool
        ensures { AddsPair self.old self.new (key.now, value.now) result }
    {
        match self.last.kind {
            Kind::File(len) if self.read < len => self.add_block(len, key, value),
            _ => match of_attr_key(key) {
                Some((path, name)) => self.add_attribute(&path, name, value),
                None => self.add_first(key, value),
            },
        }
    }

    /// Takes the next block of a file of so many bytes.
    fn add_block(&mut self, len: u32, key: &Key, value: &[u8]) -> bool
        requires file { self.old.last.kind ≡ Kind.File len }
        requires more { self.old.read < len }
        ensures { AddsPair self.old self.new (key.now, value.now) result }
    {
        if !self.is_next_block(len, key, value) {
            return false;
        }
        self.read += value.len() as u32;
        true
    }

    /// Whether a pair is the next block of a file of so many bytes: it has the next number, and it is full unless it is
    /// the last.
    fn is_next_block(&self, len: u32, key: &Key, value: &[u8]) -> bool
        requires { self.now.read < len }
        ensures { IsTrue result
            ↔ IsNextBlock self.now.last.path self.now.read len key.now value.now }
    {
        let number = self.read / FILE_BLOCK + 1;
        let expected = (len - self.read).min(FILE_BLOCK);
        *key == self.last.path.key(number) && value.len() == expected as usize
    }

    /// Takes the first pair of an entry behind the last one.
    fn add_first(&mut self, key: &Key, value: &[u8]) -> bool
        requires whole { size_of self.old.last.kind ≤ self.old.read }
        requires no_attribute { HasNoAttribute key.now }
        ensures { AddsPair self.old self.new (key.now, value.now) result }
    {
        let Some(entry) = first_in(key, value, self.version) else {
            return false;
        };
        if !self.last.may_precede(&entry.path) {
            return false;
        }
        let Some(counts) = counted(self.counts, entry.kind) else {
            return false;
        };
        *self = TreeReader {
            last: entry,
            read: size_in_first(entry.kind, self.version),
            attribute: None,
            counts,
            ..*self
        };
        true
    }

    /// Takes the pair of an attribute of a path.
    fn add_attribute(&mut self, path: &Path, name: AttrName, value: &[u8]) -> bool
        requires whole { size_of self.old.last.kind ≤ self.old.read }
        requires attribute { MayHaveAttribute path.now name }
        ensures { AddsPair self.old self.new (paths.attribute_key path.now name, value.now) result }
    {
        if !self.may_be_next(path, &name) {
            return false;
        }
        let Some(_bytes) = attribute_in(value) else {
            return false;
        };
        self.attribute = Some(name);
        true
    }

    /// Whether an attribute may stand behind the pairs that were taken: it is one of the last path, and its name is
    /// above those of the path's attributes before it. Version 1 has none.
    fn may_be_next(&self, path: &Path, name: &AttrName) -> bool
        ensures { IsTrue result
            ↔ MayBeNext self.now.version self.now.last.path self.now.attribute path.now name.now }
    {
        has_attributes(self.version) && *path == self.last.path && is_above(&self.attribute, name)
    }

    /// Whether the pairs that were taken are all those of a tree, under the reader's version.
    pub fn is_whole(&self) -> bool
        ensures { TellsWhole self.now result }
    {
        match self.last.kind {
            Kind::Directory => true,
            Kind::File(len) => self.read >= len,
        }
    }

    /// What the tree holds whose pairs were taken. Where they are no tree's, nothing is promised of it.
    pub fn counts(&self) -> Counts
        ensures { TellsCounts self.now result }
    {
        self.counts
    }
}
