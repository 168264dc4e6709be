//! The pairs of a listing's tree, while they come.

ghost use Rattle.std.specs.Prelude.{◌≡◌, ◌+◌, ◌∷◌, ◌++◌, ◌<◌, ◌≤◌, List, [], length, OnOk};
ghost use Rattle.store_model.specs.Parameters.{Parameters, height_limit};
ghost use Rattle.store_model.specs.Trees.{Tree};
ghost use Rattle.store_model.specs.Paths as paths;
ghost use Rattle.store_model.specs.Pairs as model;
ghost use Rattle.store_model.specs.Draws.{draw_of};
ghost use Rattle.store_model.specs.Pages.{page_count};
ghost use Rattle.seeded_draw.specs.AnyDrawn.{any_draw};
ghost use Rattle.layout_scratch.specs.Levels.{levels_of};
ghost use Rattle.dump_streams.specs.Dumps as dumps;
ghost use Rattle.dump_streams.specs.Dumps.DumpStep.{Write};

use crate::step::{DumpStep, Step};
use layout_scratch::{DrawnPairs, PageCounter};
use node_pages::PairList;
use path_keys::{AttrName, Path, attr_key};
use seeded_draw::{AnyDraw, Front};
use std::alloc::Global;
use store_base::{Bytes, Key, NoMemory, Params, Value};
use thiserror::Error;
use tree_pairs::{
    ATTRIBUTE_LIMIT, FILE_BLOCK, attribute_value, directory_value, file_value, inline_value,
    is_inline,
};

/// So many pairs can be laid out: their pages on all levels are counted in 32 bits.
const MAX_PAIRS: u32 = 268_435_456;

/// The pairs of the tree whose dump came so far, in the order of their keys, and how many pages they have. Once the
/// pages are more than the slots they are counted on, and no pair is kept: so the pairs take no more memory than the
/// pages of a full table.
#[derive(Drop)]
pub struct ListedPairs {
    params: Params,
    front: Front,
    counter: PageCounter,
    /// The pairs, if the pages are no more than the slots; and else none.
    pairs: PairList,
    /// The levels of their keys, so that none is drawn again for the layout.
    levels: Vec<u8>,
    /// Which of them is the first pair of the last path, if there is a path.
    first: u32,
    ghost drawn: { levels.items ≡ levels_of (draw_of params) pairs },
}

/// Why the pairs of a step were not added.
#[derive(Clone, Copy, Debug, PartialEq, Eq, Error)]
pub enum PairsFault {
    /// Memory ran out.
    #[error("memory ran out")]
    NoMemory,
    /// There would be more than 268,435,456 pairs, which is more than can be laid out.
    #[error("there are too many pairs")]
    TooMany,
}

impl From<NoMemory> for PairsFault {
    fn from(_: NoMemory) -> Self {
        PairsFault::NoMemory
    }
}

/// The draw that an image's parameters name.
#[tactic(auto, unfolding(store_model::specs::Draws::draw_of))]
fn drawn_by(params: &Params) -> AnyDraw
    ensures draw { any_draw result ≡ draw_of params.now }
    ensures height { (any_draw result).height ≤ height_limit }
{
    let _ = params.height();
    AnyDraw::new(params)
}

impl ListedPairs {
    ghost use Rattle.dump_streams.specs.Listed.{HoldsListed, TookSteps, TakesPairs, TellsPairs};
    ghost use Rattle.dump_streams.specs.Listed.{AddsPairs, AddsPiece, AddsAttribute, blocks_from, with_length};

    /// The pairs of no step.
    pub fn new(alloc: Global, params: &Params) -> Self
        ensures params { result.params ≡ params.now }
        ensures listed { HoldsListed result [] params.now }
        ensures took { TookSteps result result [] }
    {
        ListedPairs {
            params: *params,
            front: Front::new(),
            counter: PageCounter::new(),
            pairs: PairList::new(alloc),
            levels: Vec::new(alloc),
            first: 0,
        }
    }

    /// Adds the pairs of the next step of a dump. Whether the step goes on with the dump is not looked at.
    /// After an error what is kept is spoilt.
    pub fn add(&mut self, step: &DumpStep) -> Result<(), PairsFault>
        ensures params { self.new.params ≡ self.old.params }
        ensures took { (first : ListedPairs) (steps : List dumps.DumpStep) → TookSteps first self.old steps
            → OnOk result (TookSteps first self.new (steps ++ step.now ∷ [])) }
        ensures emptied { OnOk result (self.new.params.slots < self.new.counter.pages
            → self.new.pairs ≡ []) }
    {
        self.push_pairs(step)?;
        self.let_go();
        Ok(())
    }

    /// Keeps no pair once the pages are more than the slots.
    fn let_go(&mut self)
        ensures params { self.new.params ≡ self.old.params }
        ensures held { (t : Tree) (p : Parameters) → HoldsListed self.old t p
            → HoldsListed self.new t p }
        ensures emptied { self.new.params.slots < self.new.counter.pages → self.new.pairs ≡ [] }
    {
        if self.counter.pages() > self.params.slots() {
            self.pairs.clear();
            self.levels.clear();
        }
    }

    /// Adds the pairs of a step that goes on with the dump.
    fn push_pairs(&mut self, step: &DumpStep) -> Result<(), PairsFault>
        ensures params { self.new.params ≡ self.old.params }
        ensures taken { TakesPairs self.old self.new step.now result }
    {
        let draw = drawn_by(&self.params);
        match step.parts() {
            Step::Make(path) => self.push_first(&draw, path, directory_value()),
            Step::Write(path, at, bytes) => self.push_bytes(&draw, path, at, bytes),
            Step::Set(path, name, bytes) => self.push_attribute(&draw, path, name, bytes),
        }
    }

    /// Adds the pairs of a step that writes.
    fn push_bytes(
        &mut self,
        draw: &AnyDraw,
        path: &Path,
        at: u32,
        bytes: &Bytes,
    ) -> Result<(), PairsFault>
        requires draw { any_draw draw.now ≡ draw_of self.old.params }
        requires height { (any_draw draw.now).height ≤ height_limit }
        ensures params { self.new.params ≡ self.old.params }
        ensures taken { TakesPairs self.old self.new (Write path.now at bytes.now) result }
    {
        if at == 0 {
            return self.push_file(draw, path, bytes);
        }
        self.push_piece(draw, path, at, bytes)
    }

    /// Adds the pairs of a file that came to be.
    fn push_file(&mut self, draw: &AnyDraw, path: &Path, bytes: &Bytes) -> Result<(), PairsFault>
        requires draw { any_draw draw.now ≡ draw_of self.old.params }
        requires height { (any_draw draw.now).height ≤ height_limit }
        ensures params { self.new.params ≡ self.old.params }
        ensures first { self.new.first ≡ length self.old.pairs }
        ensures added { OnOk result
            (AddsPairs (any_draw draw.now) self.old.pairs
            (model.file_pairs (model.is_inline self.old.params.version (length bytes.now))
            path.now bytes.now)
            self.old self.new) }
    {
        let bytes = bytes.as_slice();
        let len = bytes.len() as u32;
        if is_inline(self.params.version(), len) {
            return self.push_first(draw, path, inline_value(bytes));
        }
        self.push_first(draw, path, file_value(len))?;
        self.push_blocks(draw, path, 1, bytes)
    }

    /// Adds the blocks of more bytes to the last file, which has so many bytes, and sets its length.
    fn push_piece(
        &mut self,
        draw: &AnyDraw,
        path: &Path,
        at: u32,
        bytes: &Bytes,
    ) -> Result<(), PairsFault>
        requires draw { any_draw draw.now ≡ draw_of self.old.params }
        requires height { (any_draw draw.now).height ≤ height_limit }
        ensures params { self.new.params ≡ self.old.params }
        ensures first { self.new.first ≡ self.old.first }
        ensures added { OnOk result
            (AddsPiece (any_draw draw.now) path.now at bytes.now self.old self.new) }
    {
        let bytes = bytes.as_slice();
        self.set_length(at.saturating_add(bytes.len() as u32));
        self.push_blocks(draw, path, at / FILE_BLOCK + 1, bytes)
    }

    /// Sets the length of the last file, while its pairs are kept.
    fn set_length(&mut self, len: u32)
        ensures params { self.new.params ≡ self.old.params }
        ensures first { self.new.first ≡ self.old.first }
        ensures counter { self.new.counter ≡ self.old.counter }
        ensures pairs { self.new.pairs ≡ with_length self.old.pairs self.old.first len }
    {
        if self.first < self.pairs.len() {
            let key = self.pairs.get(self.first).0;
            self.pairs.set(self.first, (key, file_value(len)));
        }
    }

    /// Adds the pair of an attribute, if the path may have it.
    fn push_attribute(
        &mut self,
        draw: &AnyDraw,
        path: &Path,
        name: &AttrName,
        bytes: &Bytes,
    ) -> Result<(), PairsFault>
        requires draw { any_draw draw.now ≡ draw_of self.old.params }
        requires height { (any_draw draw.now).height ≤ height_limit }
        ensures params { self.new.params ≡ self.old.params }
        ensures first { self.new.first ≡ self.old.first }
        ensures added { OnOk result
            (AddsAttribute (any_draw draw.now) path.now name.now bytes.now self.old self.new) }
    {
        let bytes = bytes.as_slice();
        if bytes.len() > ATTRIBUTE_LIMIT {
            return Ok(());
        }
        match attr_key(path, name) {
            Some(key) => self.push(draw, key, attribute_value(bytes)),
            None => Ok(()),
        }
    }

    /// Adds the blocks of bytes of a file, the first of them under this number.
    fn push_blocks(
        &mut self,
        draw: &AnyDraw,
        path: &Path,
        first: u32,
        bytes: &[u8],
    ) -> Result<(), PairsFault>
        requires draw { any_draw draw.now ≡ draw_of self.old.params }
        requires height { (any_draw draw.now).height ≤ height_limit }
        requires few { first + length bytes.now < 4294967296 }
        ensures params { self.new.params ≡ self.old.params }
        ensures first { self.new.first ≡ self.old.first }
        ensures added { OnOk result
            (AddsPairs (any_draw draw.now)
            self.old.pairs (blocks_from path.now first bytes.now) self.old self.new) }
    {
        let mut number = first;
        let mut rest = bytes;
        while !rest.is_empty() {
            let (block, behind) = rest.split_at((FILE_BLOCK as usize).min(rest.len()));
            self.push(draw, path.key(number), Value::new(block))?;
            number += 1;
            rest = behind;
        }
        Ok(())
    }

    /// Adds the first pair of a path.
    fn push_first(&mut self, draw: &AnyDraw, path: &Path, value: Value) -> Result<(), PairsFault>
        requires draw { any_draw draw.now ≡ draw_of self.old.params }
        requires height { (any_draw draw.now).height ≤ height_limit }
        ensures params { self.new.params ≡ self.old.params }
        ensures first { self.new.first ≡ length self.old.pairs }
        ensures added { OnOk result
            (AddsPairs (any_draw draw.now)
            self.old.pairs ((paths.key path.now 0, value) ∷ []) self.old self.new) }
    {
        self.first = self.pairs.len();
        self.push(draw, path.key(0), value)
    }

    /// Adds a pair behind all others, and counts it.
    fn push(&mut self, draw: &AnyDraw, key: Key, value: Value) -> Result<(), PairsFault>
        requires draw { any_draw draw.now ≡ draw_of self.old.params }
        requires height { (any_draw draw.now).height ≤ height_limit }
        ensures params { self.new.params ≡ self.old.params }
        ensures first { self.new.first ≡ self.old.first }
        ensures added { OnOk result
            (AddsPairs (any_draw draw.now) self.old.pairs ((key, value) ∷ []) self.old self.new) }
    {
        if self.counter.keys() >= MAX_PAIRS {
            return Err(PairsFault::TooMany);
        }
        let level = self.counter.add(draw, &mut self.front, &key);
        self.keep(level, key, value)?;
        Ok(())
    }

    /// Keeps a pair behind all others, with the level that is drawn for its key.
    fn keep(&mut self, level: u8, key: Key, value: Value) -> Result<(), NoMemory>
        requires { level ≡ (draw_of self.old.params).level key }
        ensures params { self.new.params ≡ self.old.params }
        ensures first { self.new.first ≡ self.old.first }
        ensures counter { self.new.counter ≡ self.old.counter }
        ensures pairs { OnOk result (self.new.pairs ≡ self.old.pairs ++ (key, value) ∷ []) }
    {
        self.levels.push(level)?;
        let kept = self.pairs.push((key, value));
        if kept.is_err() {
            self.levels.pop();
        }
        kept
    }

    /// How many pages the tree has.
    pub fn pages(&self) -> u32
        ensures { (t : Tree) (p : Parameters) → HoldsListed self.now t p → result ≡ page_count t p }
    {
        self.counter.pages()
    }

    /// The pairs of the tree with the levels of their keys, if its pages are no more than the slots.
    pub fn kept(&self) -> Option<DrawnPairs<'_>>
        ensures { (t : Tree) (p : Parameters) → HoldsListed self.now t p → TellsPairs t p result }
    {
        if self.counter.pages() > self.params.slots() {
            return None;
        }
        Some(DrawnPairs::new(&self.params, &self.pairs, self.levels.as_slice()))
    }
}
