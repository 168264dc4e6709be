//! Leads a listing into a taker.

ghost use Rattle.dump_streams.specs.Listings.{CameOf, IsListed, IsOfSame, EndsBy};
ghost use Rattle.dump_streams.specs.Draining.{Drains};
ghost use Rattle.dump_streams.specs.ReadListings.{TakesListing};

use crate::draining::{DrainFault, drain};
use crate::listing::ListingStream;
use crate::taker::Taker;
use script_lines::Source;

/// Takes all steps of a listing from which none came: where the source has a listing, just the steps of its dump
/// are taken, or the source or the taker fails.
/// `Stream`: `NoDump`, so the source has no listing, `Unreadable` or `TooLong`. `Taker`: a step was not taken.
pub fn drain_listing<R: Source, T: Taker>(
    stream: &mut ListingStream<R>,
    taker: &mut T,
) -> Result<(), DrainFault>
    ensures listing { TakesListing R.state T.took stream.old taker.old taker.new result }
    ensures drains { Drains (CameOf R.state) (IsListed R.state)
        (EndsBy R.state) T.took T.broke stream.old stream.new taker.old taker.new result }
    ensures same { IsOfSame stream.old stream.new }
{
    drain(stream, taker)
}
