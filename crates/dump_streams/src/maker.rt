//! Makes steps of pairs, without a look at the steps before.

ghost use Rattle.std.specs.Prelude.{◌≡◌, ℕ, [], ◌∷◌, List, Some, None};
ghost use Rattle.store_model.specs.Pairs.{Pair};
ghost use Rattle.dump_streams.specs.Dumps.{DumpStep};
ghost use Rattle.dump_streams.specs.Making.{IsLeft, Makes, MakesOn};

use crate::DumpStep;
use crate::taken::Taken;
use arrayvec::ArrayVec;
use path_keys::Path;
use store_base::{Key, Value};
use tree_pairs::FILE_BLOCK;

/// The most bytes that a step writes.
const PIECE: usize = crate::DUMP_PIECE as usize;

/// A file of which blocks are to come.
#[derive(Clone, Copy)]
pub struct OpenFile {
    pub(crate) path: Path,
    /// How many of its bytes were given.
    pub(crate) at: u32,
    /// How many are in the blocks that are to come.
    pub(crate) left: u32,
}

/// Makes steps of pairs, and keeps the bytes of one piece.
#[derive(Drop)]
pub struct StepMaker {
    /// The file that is open.
    pub(crate) file: Option<OpenFile>,
    /// Its bytes that came and were not given yet.
    pub(crate) piece: ArrayVec<u8, { PIECE }>,
}

impl StepMaker {
    /// A maker to which no pair came.
    pub fn new() -> Self
        ensures { IsLeft result [] [] }
    {
        StepMaker {
            file: None,
            piece: ArrayVec::new(),
        }
    }

    /// Takes the next pair.
    pub fn take(&mut self, pair: (Key, Value), into: &mut DumpStep) -> Taken
        ensures { MakesOn self.old self.new pair into.new result }
    {
        match self.file {
            Some(file) => self.take_block(file, &pair.1, into),
            None => self.take_first(pair, into),
        }
    }

    /// Takes the next block of the file that is open.
    fn take_block(&mut self, file: OpenFile, value: &Value, into: &mut DumpStep) -> Taken
        requires { self.old.file ≡ Some file }
        ensures { (k : List ℕ) (rest : List Pair) (steps : List DumpStep)
            → IsLeft self.old ((k, value.now) ∷ rest) steps
            → Makes rest steps self.new into.new result }
    {
        let block = value.as_slice();
        if block.len() != (file.left as usize).min(FILE_BLOCK as usize) {
            return Taken::Refused;
        }
        if self.piece.try_extend_from_slice(block).is_err() {
            return Taken::Refused;
        }
        let left = file.left - block.len() as u32;
        if left > 0 && self.piece.len() < PIECE {
            self.file = Some(OpenFile { left, ..file });
            return Taken::More;
        }
        into.write(file.path, file.at, self.piece.as_slice());
        let at = file.at.saturating_add(self.piece.len() as u32);
        self.piece.clear();
        if left == 0 {
            self.file = None;
            return Taken::Step;
        }
        self.file = Some(OpenFile { at, left, ..file });
        Taken::Step
    }
}
