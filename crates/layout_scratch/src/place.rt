//! Where pages lie: by rank, each in the first free slot of its probe sequence.

ghost use Rattle.std.specs.Prelude.{◌≡◌, ◌≤◌, ◌<◌, List, length, map, IfOk, IfSome, slice_get, position, is_none};
ghost use Rattle.std.specs.List.{find, AllByRecursion};
ghost use Rattle.std.specs.List.Sorted.{IsStrictlySortedBy};
ghost use Rattle.store_model.specs.Lists.{numbers_below};
ghost use Rattle.store_model.specs.Labels.{label_cmp};
ghost use Rattle.store_model.specs.Pages as model;
ghost use Rattle.store_model.specs.Placement.{place, probe, is_free, put_first_free};
ghost use Rattle.layout_scratch.specs.Layouts.{table_of, IsNumber};

use crate::layout::Layout;
use node_pages::PageList;
use seeded_draw::{Draw, Front};
use std::alloc::Global;
use store_base::NoMemory;

/// The first place with no number, if there is one.
fn first_none(places: &[Option<u32>]) -> Option<usize>
    ensures { result ≡ position is_none places.now }
{
    places.iter().position(|place| place.is_none())
}

/// The first free slot from `start` on, going round the end, if there is one; which pages have the numbers does not
/// matter.
fn first_free(places: &[Option<u32>], start: usize) -> Option<usize>
    requires { start < length places.now }
    ensures within { IfSome result (λ at. at < length places.now) }
    ensures value { (pages : List model.Page) → AllByRecursion (IsNumber pages) places.now
        → result ≡ find (is_free (table_of pages places.now))
        (map (probe (length places.now) start) (numbers_below (length places.now))) }
{
    let (before, behind) = places.split_at(start);
    match first_none(behind) {
        Some(at) => Some(start + at),
        None => first_none(before),
    }
}

/// Puts the page with this number in the first free slot of its probe sequence. The front helps to draw its start.
fn put<W: Draw>(
    draw: &W,
    front: &mut Front,
    pages: &PageList,
    number: u32,
    places: &mut [Option<u32>],
)
    requires slots { length places.old ≡ (W.drawn draw.now).slots }
    requires numbers { AllByRecursion (IsNumber pages.now) places.old }
    requires page { number < length pages.now }
    ensures numbers { AllByRecursion (IsNumber pages.now) places.new }
    ensures value { IfSome (slice_get pages.now number) (λ page. table_of pages.now places.new
        ≡ put_first_free (W.drawn draw.now) (table_of pages.now places.old) page) }
{
    let start = draw.start_from(front, &pages.get(number).label()) as usize;
    if let Some(at) = first_free(places, start) {
        places[at] = Some(number);
    }
}

/// Places pages that come by rank, no more than there are slots: each in the first free slot from its start on, going
/// round the end. `NoMemory` comes where memory ran out.
pub fn place_pages<W: Draw>(alloc: Global, draw: &W, pages: PageList) -> Result<Layout, NoMemory>
    requires ranked { IsStrictlySortedBy label_cmp (map (λ page. page.label) pages) }
    requires fits { length pages ≤ (W.drawn draw.now).slots }
    ensures { IfOk result (λ layout. layout ≡ place (W.drawn draw.now) pages) }
{
    let mut front = Front::new();
    let mut places = vec![in alloc; None; draw.slots() as usize]?;
    for number in 0..pages.len() {
        put(draw, &mut front, &pages, number, &mut places);
    }
    Ok(Layout { pages, places })
}
