//! Lists of pairs, with the calls on their pages counted. The counts were worked out by hand or come from another
//! program.

use super::counted_pages::CountedPages;
use ordered_pairs::{MapPairs, OrderedPairs};
use seeded_draw::AnyDraw;
use skip_levels::SkipList;
use std::alloc::Global;
use std::process::Abort;
use store_base::{DrawKind, Fault, Key, Params, Value};
use tests_tools::{NEVER, number, path_of};

/// A list over counted pages.
type CountedList = SkipList<CountedPages, AnyDraw>;

/// The key that a word spells: its path, and the number of a block where one stands behind it, as in `/a@1`.
fn key_of(word: &str) -> Key {
    let (path, block) = word.split_once('@').unwrap_or((word, "0"));
    path_of(path).key(block.parse::<u32>().unwrap_or(0))
}

/// The value of one byte.
fn value_of(byte: u8) -> Value {
    Value::new(&[byte])
}

/// Takes a key out, and once more, where there is nothing left to take. Answers whether that was so.
fn take(list: &mut CountedList, key: &Key) -> Result<bool, Fault> {
    let is_taken = list.take(key)? == Some(value_of(1));
    Ok(is_taken && list.take(key)?.is_none())
}

/// Puts the value of this byte under a key. Answers that it is done.
fn put(list: &mut CountedList, key: Key, byte: u8) -> Result<bool, Fault> {
    list.put(key, value_of(byte))?;
    Ok(true)
}

/// Does what a word of a row says, and answers whether it comes to what is wanted.
fn is_done(list: &mut CountedList, word: &str) -> Result<bool, Fault> {
    let (what, key) = word.split_once(' ').unwrap_or(("", word));
    let key = key_of(key);
    match what {
        "put1" => put(list, key, 1),
        "put2" => put(list, key, 2),
        "take" => take(list, &key),
        "get1" => Ok(list.get(&key)? == Some(value_of(1))),
        "get2" => Ok(list.get(&key)? == Some(value_of(2))),
        _ => Ok(list.get(&key)?.is_none()),
    }
}

/// The draw `ruler` with three levels.
fn ruler(rt: &impl Abort) -> AnyDraw {
    AnyDraw::new(&Params::new(8, 3, DrawKind::Ruler, [0; 32]).expect(rt, "parameters"))
}

/// The pages after these words on a list over them, which knows none of them at first.
fn changed(rt: &impl Abort, alloc: Global, pages: CountedPages, words: &str) -> CountedPages {
    let mut list = SkipList::new(alloc, pages, ruler(rt));
    for word in words.split(',') {
        assert!(rt; is_done(&mut list, word) == Ok(true), "{words}");
    }
    list.into_pages()
}

/// Changes of a list. Rows are parted by `#`, each on the pages of the one before. A row has the words for one list,
/// which knows no page at first; how many pages these put and drop; and how many they ask for. A count that is left out
/// is not looked at. The words, parted by `,`, put the value 1 or 2 under a key, take a key out, and once more, where
/// there is nothing left to take, or find a value or, with `none`, no value.
static CHANGES: &str = "\
    put1 /aaU|2#put1 /UU|4#put1 /U|2#put1 /bU|2#put1 /aU|2#put1 /b|1#put1 /UUU|4#put1 /a|1#put1 /Ua|3#put1 /ab|1#\
    put1 /aUb|2#put1 /Ub|3#put1 /aa|1#put1 /abU|3#put1 /Uab|2#put1 /aaU@1|1#put1 /a@1|1#put1 /Uab@1|1#take /bU|2#\
    take /U|2#take /aUb|3#take /UU|3#take /abU|3#take /UUU|4#take /Uab|3#take /aa|1#take /b|1#take /a|1";

/// Searches. Of each of the three groups of the path its page is asked for, which has room, so that none is asked for
/// behind it. A put asks for the same. The lowest group is known then, so that the search behind it asks for the page
/// of that one alone: 3 and 1, and 3 and 3 were it forgotten.
static SEARCHES: &str = "\
    put1 /UU#put1 /Ua#put1 /b#none /A|0|3#get1 /UU|0|3#get1 /Ua|0|3#get1 /b|0|3#\
    put2 /UU,get2 /UU|1|4#put2 /Ua,get2 /Ua|1|4#put2 /b,get2 /b|1|4";

/// Searches in a known group, of 25 blocks in three pages. The way down asks for a page of each of two levels above,
/// and each search for the pages of the group up to that of its block: the first page has 10, and so has the second.
static BLOCKS: &str = "\
    put1 /a@1,put1 /a@2,put1 /a@3,put1 /a@4,put1 /a@5,put1 /a@6,put1 /a@7,put1 /a@8,put1 /a@9,put1 /a@10,\
    put1 /a@11,put1 /a@12,put1 /a@13,put1 /a@14,put1 /a@15,put1 /a@16,put1 /a@17,put1 /a@18,put1 /a@19,\
    put1 /a@20,put1 /a@21,put1 /a@22,put1 /a@23,put1 /a@24,put1 /a@25#\
    get1 /a@25|0|5#get1 /a@25,get1 /a@24|0|8#get1 /a@25,get1 /a@24,get1 /a@1|0|9#\
    get1 /a@1,get1 /a@2,get1 /a@15,get1 /a@16|0|8";

/// Whether a count is the one that a row says, if it says one.
fn is_so(count: u64, wanted: &str) -> bool {
    let wanted = number(wanted);
    wanted == NEVER || count == wanted
}

/// Looks whether a row counts so as it says, and answers the pages behind it.
fn counted(rt: &impl Abort, alloc: Global, pages: CountedPages, row: &str) -> CountedPages {
    let (words, counts) = row.split_once('|').unwrap_or((row, ""));
    let (changes, lookups) = counts.split_once('|').unwrap_or((counts, ""));
    let mut pages = changed(rt, alloc, pages, words);
    assert!(rt;
        is_so(pages.changes(), changes) & is_so(pages.lookups(), lookups),
        "{row}"
    );
    pages
}

/// Looks whether each row of a table counts so as it says.
fn expect_counts(rt: &impl Abort, alloc: Global, table: &str) {
    let mut pages = CountedPages::new(alloc);
    for row in table.split('#') {
        pages = counted(rt, alloc, pages, row);
    }
}

#[test]
fn pages_that_a_list_puts_drops_and_asks_for(rt: HostRuntime) {
    expect_counts(&rt, rt.alloc(), CHANGES);
    expect_counts(&rt, rt.alloc(), SEARCHES);
    expect_counts(&rt, rt.alloc(), BLOCKS);
}

/// The pairs of /a with the value 1 and of /b with the value 2.
fn two_pairs(alloc: Global) -> Result<MapPairs, Fault> {
    let mut pairs = MapPairs::new(alloc)?;
    pairs.put(key_of("/b"), value_of(2))?;
    pairs.put(key_of("/a"), value_of(1))?;
    Ok(pairs)
}

/// Whether the key has this value, of one byte.
fn has(pairs: &mut MapPairs, word: &str, byte: u8) -> bool {
    pairs.get(&key_of(word)) == Ok(Some(value_of(byte)))
}

/// Whether the key can be taken out, once.
fn is_taken(pairs: &mut MapPairs, word: &str) -> bool {
    let key = key_of(word);
    let is_taken = pairs.take(&key) == Ok(Some(value_of(1)));
    is_taken && pairs.take(&key) == Ok(None)
}

/// Whether the first pair behind /aa is that of /b.
fn is_next(pairs: &mut MapPairs) -> bool {
    let next = pairs.next_from(&key_of("/aa"));
    next == Ok(Some((key_of("/b"), value_of(2))))
}

/// A list of the pairs of this one, which are taken out of it by themselves.
fn rebuilt(rt: &impl Abort, list: &MapPairs) -> MapPairs {
    MapPairs::from_pairs(list.pairs().expect(rt, "memory"))
}

#[test]
fn list_in_memory_and_a_copy(rt: HostRuntime) {
    let mut pairs = two_pairs(rt.alloc()).expect(&rt, "memory");
    let mut other = pairs.copy().expect(&rt, "memory");
    assert!(rt; is_taken(&mut other, "/a"));
    assert!(rt; has(&mut pairs, "/a", 1));
    assert!(rt; is_next(&mut rebuilt(&rt, &pairs)));
}
