//! The stream of the parts of a store's tree that are at some paths and below them.

ghost use Rattle.std.specs.Prelude.{◌≡◌, ℕ, None, IsTrue};
ghost use Rattle.std.specs.List.Sorted.{IsSorted};
ghost use Rattle.store_model.specs.Paths.{path_cmp};
ghost use Rattle.store_model.specs.Trees.{Tree, empty_tree};
ghost use Rattle.dump_streams.specs.Dumps as dumps;
ghost use Rattle.dump_streams.specs.Streams.{IsNext};
ghost use Rattle.store_stream.specs.PartKeys.{is_part};
ghost use Rattle.store_stream.specs.PartsStreams.{PartsBy, PartsOf, IsWholeParts, PartsEndBy, ReadsParts};
ghost use Rattle.store_stream.specs.PartsStreams.{Tells, PartsWith, PartsToEnd, PartsTurned};

use crate::StoreStream;
use crate::part_paths::PartPaths;
use crate::place::Place;
use crate::stream::Turn;
use disk_model::Disk;
use dump_streams::{DumpStep, DumpStream, StreamFault, Taken};
use path_keys::Path;
use store_base::{Key, Value};
use store_core::{ApplyFault, Store};
use tree_pairs::directory_value;

/// The steps of the dump of the parts of a store's tree that are at some paths and below them: what is at the paths and
/// below them, at the same places, and the directories that lead there, without their attributes. What more than one of
/// the paths covers comes once.
///
/// It owns the store meanwhile, and only reads its disk: it searches at most once for each of the paths and each of the
/// directories that lead there, and pulls one pair more at most for each of them. It takes no memory but for the
/// store's caches.
pub struct PartsStream<'a, D: Disk> {
    /// The stream of the store, of whose pairs only those of the parts are taken.
    stream: StoreStream<D>,
    parts: PartPaths<'a>,
}

impl<'a, D: Disk> PartsStream<'a, D> {
    /// The stream of the parts at these paths, which stand in their order, from which no step came. Nothing is called.
    pub fn new(store: Store<D>, paths: &'a [Path]) -> Self
        requires { IsSorted path_cmp paths.now }
        ensures came { PartsOf D.state result empty_tree }
        ensures store { result.stream.store ≡ store }
        ensures paths { result.parts.paths.now ≡ paths.now }
        ensures fault { result.stream.fault ≡ None }
        ensures keeps { ReadsParts D.state result result }
    {
        PartsStream {
            stream: StoreStream::new(store),
            parts: PartPaths::new(paths),
        }
    }

    /// Why the store gave no pair: `Disk`, `NoMemory` or `Stopped`. `None` also after `NoDump`, for which the store is
    /// not to blame.
    pub fn fault(&self) -> Option<ApplyFault>
        ensures { result ≡ self.now.stream.fault }
    {
        self.stream.fault()
    }

    /// Gives the store back, which holds what it held.
    pub fn into_store(self) -> Store<D>
        ensures { result ≡ self.entry.stream.store }
    {
        let PartsStream { stream, parts: _ } = self;
        stream.into_store()
    }

    /// The next step, as `next` of the stream.
    fn next_step(&mut self, into: &mut DumpStep) -> Result<bool, StreamFault>
        ensures next { IsNext (PartsOf D.state self.old) (PartsOf D.state self.new)
            (IsWholeParts D.state self.new) (PartsEndBy D.state self.new) into.new result }
        ensures keeps { (start : PartsStream D) → ReadsParts D.state start self.old
            → ReadsParts D.state start self.new }
    {
        for _ in 0..u32::MAX {
            match self.turn(into)? {
                Turn::Step => return Ok(true),
                Turn::End => return Ok(false),
                Turn::More => {}
            }
        }
        Err(StreamFault::NoDump)
    }

    /// Pulls one pair of the tree, and takes it or goes on to the next one of the parts.
    fn turn(&mut self, into: &mut DumpStep) -> Result<Turn, StreamFault>
        ensures turned { (t : Tree) (count : ℕ) → PartsBy D.state self.old t count
            → PartsTurned D.state self.new t count into.new result }
        ensures keeps { (start : PartsStream D) → ReadsParts D.state start self.old
            → ReadsParts D.state start self.new }
    {
        let Some(pair) = self.stream.pull()? else {
            return self.end();
        };
        match self.parts.place_of(&pair.0) {
            Place::Inside => self.take(pair, into),
            Place::Leads => {
                if pair.1 == directory_value() {
                    self.take(pair, into)
                } else {
                    Ok(Turn::More)
                }
            }
            Place::Before(key) => {
                self.stream.start(&key)?;
                Ok(Turn::More)
            }
            Place::Behind => self.end(),
        }
    }

    /// Takes a pair of the parts, and puts the step that it gives into `into`.
    fn take(&mut self, pair: (Key, Value), into: &mut DumpStep) -> Result<Turn, StreamFault>
        ensures turned { (t : Tree) (count : ℕ) → PartsWith D.state self.old t count pair
            → (Tells D.state self.old → IsTrue (is_part self.old.parts.paths.now pair))
            → PartsTurned D.state self.new t count into.new result }
        ensures keeps { (start : PartsStream D) → ReadsParts D.state start self.old
            → ReadsParts D.state start self.new }
    {
        match self.stream.steps.take(pair, into) {
            Taken::Step => Ok(Turn::Step),
            Taken::More => Ok(Turn::More),
            Taken::Refused => Err(StreamFault::NoDump),
        }
    }

    /// Ends, where no pair of the parts is left.
    fn end(&self) -> Result<Turn, StreamFault>
        ensures { (t : Tree) (count : ℕ) (s : dumps.DumpStep) → PartsToEnd D.state self.now t
            → PartsTurned D.state self.now t count s result }
    {
        if self.stream.steps.is_whole() {
            Ok(Turn::End)
        } else {
            Err(StreamFault::NoDump)
        }
    }
}

impl<'a, D: Disk> DumpStream for PartsStream<'a, D> {
    ghost came = { PartsOf D.state };

    ghost whole = { IsWholeParts D.state };

    ghost keeps = { ReadsParts D.state };

    ghost fails = { PartsEndBy D.state };

    /// `NoMemory` and `Unreadable`: the store told a fault, now or before, and `fault` tells which. `NoDump`: the disk
    /// gave what no store has, which no disk does that tells its bytes. It is never too long.
    fn next(&mut self, into: &mut DumpStep) -> Result<bool, StreamFault> {
        self.next_step(into)
    }
}
