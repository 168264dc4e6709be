//! The steps that the pairs of a tree make.

ghost use Rattle.std.specs.Prelude.{◌≡◌, [], IsTrue};
ghost use Rattle.store_model.specs.Parameters.{Parameters};
ghost use Rattle.store_model.specs.Trees.{Tree, empty_tree};
ghost use Rattle.store_model.specs.Pairs.{pairs};
ghost use Rattle.store_model.specs.Pages.{IsTreeUnder};
ghost use Rattle.dump_streams.specs.Taking.{HasGiven, HasTaken, TakesPair};

use crate::maker::StepMaker;
use crate::taken::Taken;
use crate::{DumpStep, ListingReader};
use store_base::{Key, Value};
use store_model::Version;

/// The steps that the pairs of a tree make, as they come in their order. It keeps the bytes of one piece of a file, and
/// of the tree only the last path.
///
/// Whatever pairs come, also those of no tree, the steps that are given are the dump of some tree.
#[derive(Drop)]
pub struct PairSteps {
    maker: StepMaker,
    /// Which step may be the next of a dump.
    reader: ListingReader,
}

impl PairSteps {
    /// No pair came yet, of a tree under this version.
    pub fn new(version: Version) -> Self
        ensures given { (p : Parameters) → p.version ≡ version → HasGiven result empty_tree p }
        ensures taken { (u : Tree) (p : Parameters) → p.version ≡ version → IsTreeUnder u p
            → HasTaken result u p [] empty_tree }
    {
        PairSteps {
            maker: StepMaker::new(),
            reader: ListingReader::new(version),
        }
    }

    /// Takes the next pair, and puts the step that it gives into `into`; where it gives none, any step may stand there.
    pub fn take(&mut self, pair: (Key, Value), into: &mut DumpStep) -> Taken
        ensures { TakesPair self.old self.new pair into.new result }
    {
        match self.maker.take(pair, into) {
            Taken::Step => {
                if self.reader.add(into) {
                    Taken::Step
                } else {
                    Taken::Refused
                }
            }
            Taken::More => Taken::More,
            Taken::Refused => Taken::Refused,
        }
    }

    /// Whether the pairs may end here: no file lacks a block.
    pub fn is_whole(&self) -> bool
        ensures told { (u : Tree) (p : Parameters) (t : Tree) → HasTaken self.now u p (pairs u p) t
            → IsTrue result }
        ensures tree { (u : Tree) (p : Parameters) (t : Tree) → HasTaken self.now u p (pairs u p) t → t ≡ u }
    {
        self.maker.file.is_none()
    }
}
