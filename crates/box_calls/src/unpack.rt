//! `unpack`: makes a folder of a listing.

ghost use Rattle.std.specs.Prelude.{◌≡◌, false};
ghost use Rattle.store_model.specs.Trees.{empty_tree};
ghost use Rattle.dump_streams.specs.Listings.{CameOf};
ghost use Rattle.box_calls.specs.Makings.{stream_trouble, build_trouble, Unpacks};
ghost use Rattle.box_calls.specs.Makings as model;

use crate::counted::CountedBuilder;
use crate::making::end_made;
use crate::place::{Made, Place};
use crate::telling::About;
use crate::trouble::Trouble;
use crate::wanted::wanted_of;
use box_words::Taken;
use dump_streams::{ListingStream, StreamFault, TakerFault};
use host_builder::{BuildFault, Builder, Built, build};
use script_lines::{Sink, Source};

/// The trouble of a listing whose steps ended so.
fn stream_trouble(fault: StreamFault) -> Trouble
    ensures { result ≡ stream_trouble fault }
{
    match fault {
        StreamFault::NoMemory => Trouble::NoMemory,
        StreamFault::Unreadable => Trouble::Input,
        StreamFault::NoDump => Trouble::NoListing,
        StreamFault::TooLong => Trouble::LongListing,
    }
}

/// What making the tree of a listing came to that ended so. The builder says itself what failed, and was told of a path
/// that no host can have.
fn build_trouble(done: &Result<(), BuildFault>) -> Result<(), Trouble>
    ensures { result ≡ build_trouble done.now }
{
    match done {
        Ok(()) => Ok(()),
        Err(BuildFault::Stream(fault)) => Err(stream_trouble(*fault)),
        Err(BuildFault::Builder(TakerFault::NoMemory)) => Err(Trouble::NoMemory),
        Err(BuildFault::Builder(TakerFault::Failed)) => Err(Trouble::Host),
        Err(BuildFault::NoName(_)) => Err(Trouble::Host),
    }
}

/// Makes the folder of a listing of which nothing was read, by a builder that made no link. After each trouble the
/// builder took away what it made.
pub fn unpack_listing<R: Source, B: Builder, E: Sink>(
    place: &Place<'_>,
    listing: ListingStream<R>,
    builder: B,
    taken: Taken,
    say: E,
) -> Made<ListingStream<R>, B, E>
    requires { (B.state builder).has_links ≡ false }
    ensures unpacks { Unpacks R.state place.now.sums_up (model.wanted_of taken) listing result.from
        (B.state builder) (B.state result.builder) (E.state say) (E.state result.say) result.status }
{
    let mut listing = listing;
    let counted = CountedBuilder::new(builder);
    let Built {
        builder: counted,
        stays: _,
        done,
    } = build(place.alloc, &mut listing, counted, wanted_of(taken));
    let (builder, counts) = counted.into_parts();
    let mut say = say;
    let about = About::Number(listing.line());
    let status = end_made(place, build_trouble(&done), &counts, about, &mut say);
    Made {
        status,
        from: listing,
        builder,
        say,
    }
}
