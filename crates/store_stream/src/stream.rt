//! The stream of a store.

ghost use Rattle.std.specs.Prelude.{◌≡◌, ℕ, [], None};
ghost use Rattle.store_model.specs.Trees.{Tree, empty_tree};
ghost use Rattle.store_model.specs.Pages.{IsTreeUnder};
ghost use Rattle.dump_streams.specs.Taking.{HasTaken};
ghost use Rattle.dump_streams.specs.Streams.{IsNext};
ghost use Rattle.store_stream.specs.StoreStreams.{stream_fault_of, CameBy, CameOf, IsWhole, EndsBy, ReadsStore};
ghost use Rattle.image_check.specs.Standing.{IsFitting};
ghost use Rattle.store_core.specs.Walks.{StandsAfter};
ghost use Rattle.store_stream.specs.Pulling.{Pulled, Turned};
ghost use Rattle.store_stream.specs.Reading.{Pulls, Starts};

use disk_model::Disk;
use dump_streams::{DumpStep, DumpStream, PairSteps, StreamFault, Taken};
use store_base::{Key, Value};
use store_core::{ApplyFault, PairsWalk, Store};

/// The steps of the dump of a store's tree. It owns the store meanwhile, only reads its disk, and takes no memory but
/// for the store's caches.
pub struct StoreStream<D: Disk> {
    store: Store<D>,
    /// Which pairs came.
    walk: PairsWalk,
    /// The steps that they make.
    pub(crate) steps: PairSteps,
    /// Why the store gave no pair. Then nothing more is asked of it.
    fault: Option<ApplyFault>,
}

/// What one more pair gave.
pub(crate) enum Turn {
    /// The next step.
    Step,
    /// No step yet.
    More,
    /// There was none.
    End,
}

impl<D: Disk> StoreStream<D> {
    /// The stream of a store, from which no step came. Nothing is called.
    pub fn new(store: Store<D>) -> Self
        ensures came { CameOf D.state result empty_tree }
        ensures store { result.store ≡ store }
        ensures fault { result.fault ≡ None }
        ensures keeps { ReadsStore D.state result result }
        ensures fitting { IsFitting store.tree store.params }
        ensures walk { StandsAfter store.tree store.params [] result.walk }

        // The steps may be those of the pairs of any tree.
        ensures steps { (u : Tree) → IsTreeUnder u store.params
            → HasTaken result.steps u store.params [] empty_tree }
    {
        let walk = store.walk();
        let steps = PairSteps::new(store.params().version());
        StoreStream {
            store,
            walk,
            steps,
            fault: None,
        }
    }

    /// Why the store gave no pair: `Disk`, `NoMemory` or `Stopped`. `None` also after `NoDump`, for which the store is
    /// not to blame.
    pub fn fault(&self) -> Option<ApplyFault>
        ensures { result ≡ self.now.fault }
    {
        self.fault
    }

    /// Gives the store back, which holds what it held.
    pub fn into_store(self) -> Store<D>
        ensures { result ≡ self.store }
    {
        let StoreStream {
            store,
            walk: _,
            steps: _,
            fault: _,
        } = self;
        store
    }

    /// The next step, as `next` of the stream.
    fn next_step(&mut self, into: &mut DumpStep) -> Result<bool, StreamFault>
        ensures next { IsNext (CameOf D.state self.old) (CameOf D.state self.new)
            (IsWhole D.state self.new) (EndsBy D.state self.new) into.new result }
        ensures keeps { (start : StoreStream D) → ReadsStore D.state start self.old
            → ReadsStore D.state start self.new }
    {
        for _ in 0..u32::MAX {
            match self.turn(into)? {
                Turn::Step => return Ok(true),
                Turn::End => return Ok(false),
                Turn::More => {}
            }
        }
        Err(StreamFault::NoDump)
    }

    /// Pulls one pair, and puts the step that it gives into `into`.
    fn turn(&mut self, into: &mut DumpStep) -> Result<Turn, StreamFault>
        ensures turned { (t : Tree) (count : ℕ) → CameBy D.state self.old t count
            → Turned D.state self.new t count into.new result }
        ensures keeps { (start : StoreStream D) → ReadsStore D.state start self.old
            → ReadsStore D.state start self.new }
    {
        let Some(pair) = self.pull()? else {
            if self.steps.is_whole() {
                return Ok(Turn::End);
            }
            return Err(StreamFault::NoDump);
        };
        match self.steps.take(pair, into) {
            Taken::Step => Ok(Turn::Step),
            Taken::More => Ok(Turn::More),
            Taken::Refused => Err(StreamFault::NoDump),
        }
    }

    /// Pulls the next pair of the store, and keeps a fault. After a fault it tells the same again.
    pub(crate) fn pull(&mut self) -> Result<Option<(Key, Value)>, StreamFault>
        ensures pulled { (t : Tree) (count : ℕ) → CameBy D.state self.old t count
            → Pulled D.state self.new t count result }
        ensures pulls { Pulls D.state self.old self.new result }
        ensures keeps { (start : StoreStream D) → ReadsStore D.state start self.old
            → ReadsStore D.state start self.new }
    {
        if let Some(fault) = self.fault {
            return Err(stream_fault(fault));
        }
        match self.store.next_of(&mut self.walk) {
            Ok(pair) => Ok(pair),
            Err(fault) => {
                self.fault = Some(fault);
                Err(stream_fault(fault))
            }
        }
    }

    /// Goes on with the first pair whose key is not below this one, and keeps a fault. After a fault it tells the same
    /// again.
    pub(crate) fn start(&mut self, key: &Key) -> Result<(), StreamFault>
        ensures starts { Starts D.state key.now self.old self.new result }
        ensures keeps { (start : StoreStream D) → ReadsStore D.state start self.old
            → ReadsStore D.state start self.new }
    {
        if let Some(fault) = self.fault {
            return Err(stream_fault(fault));
        }
        match self.store.walk_from(key) {
            Ok(walk) => {
                self.walk = walk;
                Ok(())
            }
            Err(fault) => {
                self.fault = Some(fault);
                Err(stream_fault(fault))
            }
        }
    }
}

impl<D: Disk> DumpStream for StoreStream<D> {
    ghost came = { CameOf D.state };

    ghost whole = { IsWhole D.state };

    ghost keeps = { ReadsStore D.state };

    ghost fails = { EndsBy D.state };

    /// `NoMemory` and `Unreadable`: the store told a fault, now or before, and `fault` tells which. `NoDump`: the disk
    /// gave what no store has, which no disk does that tells its bytes. It is never too long.
    fn next(&mut self, into: &mut DumpStep) -> Result<bool, StreamFault> {
        self.next_step(into)
    }
}

/// What the stream tells where the store tells a fault.
fn stream_fault(fault: ApplyFault) -> StreamFault
    ensures { result ≡ stream_fault_of fault }
{
    match fault {
        ApplyFault::NoMemory => StreamFault::NoMemory,
        ApplyFault::Disk | ApplyFault::Stopped => StreamFault::Unreadable,
    }
}
