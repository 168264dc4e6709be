//! Counts the pages of pairs by their keys, and keeps the levels that are drawn for it.

ghost use Rattle.std.specs.Prelude.{◌≡◌, ◌∷◌, [], false};
ghost use Rattle.store_model.specs.Paths as paths;
ghost use Rattle.host_builder.specs.HostAttributes as model;
ghost use Rattle.store_model.specs.Draws.{draw_of};
ghost use Rattle.layout_scratch.specs.Counting.{HasCounted};
ghost use Rattle.image_create.specs.FoundKeys.{HasKeys, HaveFields, block_keys, blocks_of, found_keys};
ghost use Rattle.image_create.specs.FoundKeys.{name_keys, names_by, own_names};

use drawn_levels::KnownLevels;
use host_folders::{Found, FoundKind};
use layout_scratch::PageCounter;
use path_keys::{AttrName, Path, attr_key};
use std::alloc::Global;
use store_base::{Key, Params};
use store_model::Version;
use thiserror::Error;
use tree_pairs::{FILE_BLOCK, is_inline};

/// So many pairs can be laid out: their pages on all levels are counted in 32 bits.
const MAX_PAIRS: u32 = 268_435_456;

/// There are more than 268,435,456 pairs, which is more than can be laid out.
#[derive(Clone, Copy, Debug, PartialEq, Eq, Error)]
#[error("there are too many pairs")]
pub struct TooMany;

/// The pages of pairs whose keys came, and the levels of the keys.
#[derive(Drop)]
pub(crate) struct KeyCounter {
    pub(crate) levels: KnownLevels,
    pub(crate) counter: PageCounter,
}

/// How many blocks what was found has.
fn block_count(version: Version, kind: FoundKind) -> u32
    ensures { result ≡ blocks_of version kind }
{
    match kind {
        FoundKind::File(len) if !is_inline(version, len) => len.div_ceil(FILE_BLOCK),
        FoundKind::File(_) | FoundKind::Folder | FoundKind::Link => 0,
    }
}

/// The name of the attribute of a link.
fn link_name() -> AttrName
    ensures { result ≡ model.link_name }
{
    let Some(name) = AttrName::parse(b"link") else {
        unreachable!()
    };
    name
}

impl KeyCounter {
    ghost use Rattle.image_create.specs.Counts.{AddsKeys, CountsKeys};

    /// Counts no key yet, under these parameters.
    pub(crate) fn new(alloc: Global, params: &Params) -> Self
        ensures levels { result.levels ≡ params.now }
        ensures counted { HasCounted (draw_of params.now) [] result.counter }
    {
        KeyCounter {
            levels: KnownLevels::new(alloc, params),
            counter: PageCounter::new(),
        }
    }

    /// Counts the key that comes next.
    fn push(&mut self, key: &Key) -> Result<(), TooMany>
        ensures levels { self.new.levels ≡ self.old.levels }
        ensures counts { CountsKeys self.old self.new (key.now ∷ []) result }
    {
        if self.counter.keys() >= MAX_PAIRS {
            return Err(TooMany);
        }
        let level = self.levels.draw(key);
        self.counter.add_at(level);
        Ok(())
    }

    /// Counts the keys of so many blocks of a file.
    fn push_blocks(&mut self, path: &Path, count: u32) -> Result<(), TooMany>
        ensures levels { self.new.levels ≡ self.old.levels }
        ensures counts { CountsKeys self.old self.new (block_keys path.now count) result }
    {
        for number in 0..count {
            self.push(&path.key(number + 1))?;
        }
        Ok(())
    }

    /// Counts the key of an attribute, if it has one.
    fn push_name(&mut self, path: &Path, name: &AttrName) -> Result<(), TooMany>
        ensures levels { self.new.levels ≡ self.old.levels }
        ensures counts { paths.is_root path.now ≡ false → HaveFields path.now (name.now ∷ [])
            → CountsKeys self.old self.new (name_keys path.now (name.now ∷ [])) result }
    {
        match attr_key(path, name) {
            Some(key) => self.push(&key),
            None => Ok(()),
        }
    }

    /// Counts the keys of the attributes of a folder or a file.
    fn push_own_names(&mut self, found: &Found) -> Result<(), TooMany>
        ensures levels { self.new.levels ≡ self.old.levels }
        ensures counts { paths.is_root found.now.path ≡ false → HaveFields found.now.path (own_names found.now)
            → CountsKeys self.old self.new (name_keys found.now.path (own_names found.now)) result }
    {
        let mut at = 0;
        while let Some(attribute) = found.attribute(at) {
            self.push_name(&found.path, &attribute.name)?;
            at += 1;
        }
        Ok(())
    }

    /// Counts the keys of the attributes of what was found.
    fn push_names(&mut self, found: &Found) -> Result<(), TooMany>
        ensures levels { self.new.levels ≡ self.old.levels }
        ensures counts { HasKeys found.now
            → CountsKeys self.old self.new
            (name_keys found.now.path (names_by found.now.kind found.now)) result }
    {
        match found.kind {
            FoundKind::Folder | FoundKind::File(_) => self.push_own_names(found),
            FoundKind::Link => self.push_name(&found.path, &link_name()),
        }
    }

    /// Counts the keys of all pairs of what was found.
    pub(crate) fn push_found(&mut self, version: Version, found: &Found) -> Result<(), TooMany>
        ensures levels { self.new.levels ≡ self.old.levels }
        ensures counts { HasKeys found.now → CountsKeys self.old self.new (found_keys version found.now) result }
    {
        self.push(&found.path.key(0))?;
        self.push_blocks(&found.path, block_count(version, found.kind))?;
        self.push_names(found)
    }
}
