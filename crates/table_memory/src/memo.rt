//! What was found under labels of a table, kept in memory.

ghost use Rattle.std.specs.Prelude.{◌≡◌, ◌<◌, ◌≤◌, [], Option, IsSome, IfSome, OnOk, length};
ghost use Rattle.store_model.specs.Labels.{label_bytes};
ghost use Rattle.store_model.specs.Labels.Lead.{Leader};
ghost use Rattle.store_model.specs.Pages as model;
ghost use Rattle.table_memory.specs.Memos.{checksum_from, checksum, memo_place, IsRemembered, KeepsPlaces, Remembers};
ghost use Rattle.table_memory.specs.Memos.{RemembersMore, Renews};

use crate::boxed::{Boxed, on_heap};
use crate::spares::Spares;
use node_pages::Page;
use std::alloc::Global;
use std::collections::BTreeMap;
use std::marker::Model;
use std::mem;
use store_base::{Label, NoMemory};

/// How many places there are: a prime, so that each byte of a checksum counts, and one by which 256 leaves a remainder
/// of 29, so that names that differ in two digits side by side have different places.
const PLACES: usize = 227;

/// What was found under labels: a page, or that there is none. Each label has a place, by its checksum, and of the
/// labels of one place the last one is remembered. Contracts see what is at each place, with its label.
#[derive(Drop)]
pub struct PageMemo {
    alloc: Global,
    places: Vec<Option<(Label, Option<Boxed<Page>>)>>,
}

impl Model for PageMemo {
    ghost use Rattle.table_memory.specs.Memos.{Remembered, RemembersFew};
    ghost use Rattle.table_memory.specs.Codes.{remembered_code};

    ghost Value = { Remembered };

    ghost coded = { remembered_code };

    ghost view = { λ memo. memo.places.items };

    ghost invariant = { λ memo. RemembersFew memo.places.items };
}

/// The checksum of a first number and a key, by its last two bytes and its words of eight bytes (Fletcher).
fn checksum_of_key(key: &[u8; 124], first: u64) -> u64
    requires { first ≤ 1_099_511_627_775 }
    ensures { result ≡ checksum_from (Leader key.now) first }
{
    let (words, _) = key.as_chunks::<8>();
    let mut sum = first + 256 * u64::from(key[122]) + u64::from(key[123]);
    let mut sums: u64 = 0;
    for word in words {
        sum = sum.wrapping_add(u64::from_be_bytes(*word));
        sums = sums.wrapping_add(sum);
    }
    sums
}

/// The checksum of a label, from which its places follow, here and in the hints.
pub fn checksum_of_label(label: &Label) -> u64
    ensures { result ≡ checksum (label_bytes label.now) }
{
    let first = u64::from(label.level) + 256 * u64::from(label.index);
    match label.lead.key_bytes() {
        Some(key) => checksum_of_key(key, first),
        None => first,
    }
}

/// The place of a label.
pub fn memo_place(label: &Label) -> usize
    ensures value { result ≡ memo_place (label_bytes label.now) }
    ensures below { result < PLACES }
{
    (checksum_of_label(label) % PLACES as u64) as usize
}

/// Makes the places, where there is memory for them.
fn make_places(places: &mut Vec<Option<(Label, Option<Boxed<Page>>)>>) -> Result<(), NoMemory>
    requires { length places.old.items ≤ PLACES }
    ensures made { OnOk result (length places.new.items ≡ PLACES) }
    ensures kept { OnOk result (KeepsPlaces places.old.items places.new.items) }
{
    places.reserve(PLACES - places.len())?;
    for _place in places.len()..PLACES {
        places.push(None)?;
    }
    Ok(())
}

/// The page that an entry has, if it has one.
fn page_of(entry: Option<(Label, Option<Boxed<Page>>)>) -> Option<Boxed<Page>> {
    let (_, page) = entry?;
    page
}

impl PageMemo {
    /// Makes an empty memo. It takes no memory.
    pub fn new(alloc: Global) -> PageMemo
        ensures { result ≡ [] }
    {
        PageMemo {
            alloc,
            places: Vec::new(alloc),
        }
    }

    /// Recalls what is remembered of the label, which has this place: a page, or that there is none; `None` where
    /// nothing is remembered. It takes no memory.
    pub fn recall(&self, place: usize, label: &Label) -> Option<&Option<Boxed<Page>>>
        requires { place ≡ memo_place (label_bytes label.now) }
        ensures found { IfSome result (λ found. IsRemembered self.now label.now found.now) }
        ensures all { (found : Option model.Page)
            → IsRemembered self.now label.now found → IsSome result }
    {
        let Some((kept, found)) = self.places.get(place)? else {
            return None;
        };
        if *kept == *label {
            return Some(found);
        }
        None
    }

    /// Remembers this of the label, in the place of what was, where there is memory for it, and hands out a page that
    /// had this place.
    fn keep(&mut self, label: Label, found: Option<Boxed<Page>>) -> Option<Boxed<Page>>
        ensures { Remembers self.old self.new label found }
    {
        let Ok(()) = make_places(&mut self.places) else {
            self.places.clear();
            return None;
        };
        let place = memo_place(&label);
        page_of(mem::replace(&mut self.places[place], Some((label, found))))
    }

    /// Remembers what was found under the label, where there is memory for it.
    pub fn remember(&mut self, label: &Label, found: Option<Page>)
        ensures { RemembersMore self.old self.new label.now found }
    {
        if let Ok(kept) = on_heap(self.alloc, found) {
            let _ = self.keep(*label, kept);
        }
    }

    /// Remembers that nothing was found under the label, where there is memory for it.
    pub fn remember_none(&mut self, label: &Label)
        ensures { RemembersMore self.old self.new label.now None }
    {
        let _ = self.keep(*label, None);
    }

    /// Takes over what is staged: remembers what each change has under its label, where there is memory for it. Under
    /// each other label nothing more is remembered than was. Boxes of pages that gave way go to the spares.
    // The changes are taken one by one, since so their map keeps its memory.
    pub fn renew(
        &mut self,
        changes: &mut BTreeMap<Label, Option<Boxed<Page>>>,
        spares: &mut Spares<Page>,
    )
        ensures renews { Renews changes.old.entries self.old self.new }
        ensures emptied { changes.new.entries ≡ [] }
    {
        while let Some((label, change)) = changes.pop_first() {
            spares.take(self.keep(label, change));
        }
    }

    /// Forgets all. It takes no memory.
    pub fn clear(&mut self)
        ensures { self.new ≡ [] }
    {
        self.places.clear();
    }
}
