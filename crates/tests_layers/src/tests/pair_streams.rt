//! Lists of 300 pairs, read to their end. The counts of lookups were worked out by hand.

ghost use Rattle.std.specs.Prelude.{◌≤◌, ◌<◌};
ghost use Rattle.store_model.specs.Parameters.{height_limit};

use super::counted_pages::CountedPages;
use ordered_pairs::OrderedPairs;
use pair_stream::PairStream;
use seeded_draw::AnyDraw;
use skip_levels::SkipList;
use std::alloc::Global;
use std::process::Abort;
use store_base::{DrawKind, Key, Params, Value};

/// The key of a number below 300. Under `ruler` it stands on level 1 where 7 divides the number, and on level 2 where
/// 49 does.
fn key(number: u32) -> Key
    requires { number < 300 }
{
    let mut bytes = [0; 124];
    bytes[0] = (number / 20) as u8;
    bytes[1] = (number % 20) as u8;
    bytes[2] = if number % 7 == 0 { b'U' } else { 0 };
    bytes[3] = if number % 49 == 0 { b'U' } else { 0 };
    Key::new(bytes)
}

/// The pages of the list of the 300 keys, which were not asked for yet.
fn pages_of(rt: &impl Abort, alloc: Global, height: u8) -> CountedPages {
    let params = Params::new(64, height, DrawKind::Ruler, [0; 32]).expect(rt, "parameters");
    let mut list = SkipList::new(alloc, CountedPages::new(alloc), AnyDraw::new(&params));
    for number in 0..300 {
        list.put(key(number), Value::new(&[1])).expect(rt, "memory");
    }
    let mut pages = list.into_pages();
    let _ = pages.lookups();
    pages
}

/// Whether a stream gives the pairs from this number on in order, each once, and then no more.
fn gives_rest(pages: &mut CountedPages, stream: &mut PairStream, first: u32) -> bool {
    for number in first..300 {
        if stream.next(pages) != Ok(Some((key(number), Value::new(&[1])))) {
            return false;
        }
    }
    stream.next(pages) == Ok(None)
}

/// Whether one gives the 300 pairs.
fn gives_all(pages: &mut CountedPages, height: u8) -> bool
    requires { height ≤ height_limit }
{
    gives_rest(pages, &mut PairStream::new(height), 0)
}

/// Whether one that starts at the key of a number gives the pairs from it on.
fn gives_from(pages: &mut CountedPages, height: u8, first: u32) -> bool
    requires height { height ≤ height_limit }
    requires number { first < 300 }
{
    match PairStream::starting_at(pages, height, &key(first)) {
        Ok(mut stream) => gives_rest(pages, &mut stream, first),
        Err(_) => false,
    }
}

#[test]
fn one_level(rt: HostRuntime) {
    // 30 pages of the one group, all full, and one that is not there.
    let mut pages = pages_of(&rt, rt.alloc(), 1);
    assert!(rt; gives_all(&mut pages, 1));
    assert!(rt; pages.lookups() == 31);
    // The 12 pages before key 120 and that of key 120, which is the first of it, and that page twice more: to hold it,
    // and for its first pair. Then 17 pages, and one that is not there.
    assert!(rt; gives_from(&mut pages, 1, 120));
    assert!(rt; pages.lookups() == 13 + 2 + 17 + 1);
}

#[test]
fn three_levels(rt: HostRuntime) {
    // Level 0 has no group of the start, which is one lookup. Of the 43 keys above level 0 each of the 7 on level 2
    // takes three lookups, and each other two. The end takes one on level 1 and one on level 2.
    let mut pages = pages_of(&rt, rt.alloc(), 3);
    assert!(rt; gives_all(&mut pages, 3));
    assert!(rt; pages.lookups() == 1 + 7 * 3 + 36 * 2 + 2);
    // One page of each level, and that of level 0 once more, which has the pairs up to key 153. Of the 21 keys above
    // level 0 from there on, 3 are on level 2.
    assert!(rt; gives_from(&mut pages, 3, 150));
    assert!(rt; pages.lookups() == 4 + 3 * 3 + 18 * 2 + 2);
}
