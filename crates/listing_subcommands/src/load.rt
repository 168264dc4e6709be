//! The subcommand `load`: makes the tree of a listing in an empty image.

ghost use Rattle.std.specs.Prelude.{◌≡◌, Err};
ghost use Rattle.store_model.specs.Parameters.{Parameters};
ghost use Rattle.store_model.specs.Trees.{Tree, empty_tree};
ghost use Rattle.dump_streams.specs.declared.listed_pairs.ListedPairs.{ListedPairs};
ghost use Rattle.dump_streams.specs.Listed.{TookSteps};
ghost use Rattle.dump_streams.specs.Takers.{BreaksAnyhow};
ghost use Rattle.dump_streams.specs.Draining.{StopsBy};
ghost use Rattle.dump_streams.specs.Listings.{CameOf, IsListed, EndsBy};
ghost use Rattle.image_subcommands.specs.Outside.{KeepsOutside, outside_of};
ghost use Rattle.image_work.specs.Works.{IsReady};
ghost use Rattle.listing_subcommands.specs.Filling.{LoadsListed, FillsStore, PutsFull, PrintsFilled};
ghost use Rattle.listing_subcommands.specs.Listings.{HoldsTree, ReadsListing};
ghost use Rattle.listing_subcommands.specs.Listings as readings;
ghost use Rattle.listing_subcommands.specs.LoadCall.{IsLoad};

use disk_model::Disk;
use dump_streams::{DrainFault, ListedPairs, ListingStream, StreamFault, drain};
use image_check::AttachFault;
use image_subcommands::{Outcome, Status};
use image_work::{StoreWork, open_for};
use script_lines::{Reply, Sink, Source, write_reply};
use std::alloc::Global;
use store_base::{NoMemory, Params};
use store_core::{ApplyFault, LoadAnswer, Store};
use store_model::Refusal;

/// The status of a call that a fault of its listing ended.
fn stream_status(fault: StreamFault) -> Status
    ensures { result ≡ readings.stream_status fault }
{
    match fault {
        StreamFault::NoMemory => Status::NoMemory,
        StreamFault::Unreadable => Status::SourceFault,
        StreamFault::NoDump => Status::BadListing,
        StreamFault::TooLong => Status::TooLong,
    }
}

/// The status of a call whose listing was not taken to its end. After the first line that continues no dump the others
/// are read too, and nothing of them is kept. So a take that fails and a source that is too long are told of a bad
/// listing as of a good one. A listing that keeps its limit has fewer pairs than can be laid out, so what was not taken
/// found no memory.
fn read_on<R: Source>(stream: &mut ListingStream<R>, fault: DrainFault) -> Status
    ensures { (p : Parameters) (first taker : ListedPairs) → stream.old.reader.version ≡ p.version
        → StopsBy (CameOf R.state) (IsListed R.state) (EndsBy R.state) TookSteps BreaksAnyhow
        stream.old first taker fault
        → ReadsListing R.state p stream.old.first.value stream.new.lines.source (Err result) }
{
    match fault {
        DrainFault::Taker(_) => Status::NoMemory,
        DrainFault::Stream(fault) => match fault {
            StreamFault::NoDump => match stream.read_to_end() {
                Ok(()) => Status::BadListing,
                Err(fault) => stream_status(fault),
            },
            _ => stream_status(fault),
        },
    }
}

/// The pairs of the tree of the listing that a source has, which is read to its end. `Err` has the status of a call
/// that ended before.
fn read_listing<R: Source>(
    alloc: Global,
    source: R,
    params: &Params,
) -> (R, Result<ListedPairs, Status>)
    ensures { ReadsListing R.state params.now source result.0 result.1 }
{
    let mut stream = match ListingStream::new(alloc, source, params.version()) {
        Ok(stream) => stream,
        Err((NoMemory, source)) => return (source, Err(Status::NoMemory)),
    };
    let mut listed = ListedPairs::new(alloc, params);
    match drain(&mut stream, &mut listed) {
        Ok(()) => (stream.into_source(), Ok(listed)),
        Err(fault) => {
            let status = read_on(&mut stream, fault);
            (stream.into_source(), Err(status))
        }
    }
}

/// Loads an empty store with the tree whose pairs are held, or tells that the tree has more pages than there are slots.
fn load_listed<D: Disk>(
    store: &mut Store<D>,
    listed: &ListedPairs,
) -> Result<LoadAnswer, ApplyFault>
    requires ready { IsReady D.state store.old }
    requires empty { store.old.tree ≡ empty_tree }
    requires listed { (t : Tree) × HoldsTree store.old.params listed.now t }
    ensures { LoadsListed D.state listed.now store.old store.new result }
{
    match listed.kept() {
        Some(pairs) => store.load_drawn(&pairs),
        None => Ok(LoadAnswer::Full {
            need: listed.pages(),
            slots: store.params().slots(),
        }),
    }
}

/// Loads a store with the tree of the listing that a source has, if it is empty. `Err` has the status of a call that
/// ended before: nothing is taken where the store is not empty.
fn fill_store<D: Disk, R: Source>(
    alloc: Global,
    store: &mut Store<D>,
    source: R,
) -> (R, Result<LoadAnswer, Status>)
    requires { IsReady D.state store.old }
    ensures { FillsStore D.state R.state store.old store.new source result.0 result.1 }
{
    if !store.is_empty() {
        return (source, Err(Status::NotEmpty));
    }
    let (source, read) = read_listing(alloc, source, store.params());
    match read {
        Err(status) => (source, Err(status)),
        Ok(listed) => match load_listed(store, &listed) {
            Ok(answer) => (source, Ok(answer)),
            Err(fault) => (source, Err(fault.into())),
        },
    }
}

/// Prints that a tree has more pages than there are slots, and answers how the call ends.
fn print_full<W: Sink>(sink: &mut W, need: u32, slots: u32) -> Status
    ensures { PutsFull W.state need slots sink.old sink.new result }
{
    match write_reply(sink, &Reply::No(Refusal::Full { need, slots })) {
        Ok(()) => Status::TooFull,
        Err(fault) => fault.into(),
    }
}

/// Ends a call whose store was filled so: prints what is to be printed, and gives the status.
fn print_filled<W: Sink>(sink: &mut W, filled: Result<LoadAnswer, Status>) -> Status
    ensures { PrintsFilled W.state filled sink.old sink.new result }
{
    match filled {
        Ok(LoadAnswer::Done) => Status::Done,
        Ok(LoadAnswer::Full { need, slots }) => print_full(sink, need, slots),
        Err(status) => status,
    }
}

/// The work of `load`, from whose source no byte was taken yet.
#[derive(Drop)]
struct LoadWork<R: Source, W: Sink> {
    alloc: Global,
    source: R,
    sink: W,
}

impl<R: Source, W: Sink> StoreWork for LoadWork<R, W> {
    ghost use Rattle.image_subcommands.specs.Statuses.{Subcommand as words};
    ghost use Rattle.listing_subcommands.specs.LoadCall.{KeepsLoad, LoadsAt};

    type Reads = R;

    type Writes = W;

    ghost word = { λ work. words.Load };

    ghost given = { λ work. (work.source, work.sink) };

    ghost keeps = { λ D disk_of work. KeepsLoad disk_of R.state W.state };

    ghost does = { λ D disk_of work. LoadsAt disk_of R.state W.state };

    /// Loads the store with the tree of the listing.
    fn work<D: Disk>(self, store: Store<D>) -> Outcome<D, R, W> {
        let LoadWork {
            alloc,
            source,
            sink,
        } = self;
        let (mut store, mut sink) = (store, sink);
        let (source, filled) = fill_store(alloc, &mut store, source);
        let status = print_filled(&mut sink, filled);
        Outcome {
            status,
            done: status.done_of_work(),
            disk: store.into_disk(),
            source,
            sink,
        }
    }

    fn give_up<D: Disk>(self, fault: AttachFault, disk: D) -> Outcome<D, R, W> {
        let LoadWork {
            alloc: _,
            source,
            sink,
        } = self;
        Outcome::idle(fault.into(), disk, source, sink)
    }
}

/// Loads the tree of the listing that the source has into an empty image, by one commit: opens the image, and reads the
/// source to its end.
pub fn load_image<D: Disk, R: Source, W: Sink>(
    alloc: Global,
    disk: D,
    source: R,
    sink: W,
) -> Outcome<D, R, W>
    ensures load { IsLoad D.state R.state W.state (outside_of disk source sink) result }
    ensures outside { KeepsOutside result.status (D.state disk)
        (D.state result.disk) (R.state source)
        (R.state result.source) (W.state sink) (W.state result.sink) }
{
    let work = LoadWork {
        alloc,
        source,
        sink,
    };
    open_for(alloc, disk, work)
}
