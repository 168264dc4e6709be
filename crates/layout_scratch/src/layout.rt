//! Layouts.

ghost use Rattle.std.specs.Prelude.{◌≡◌, ◌<◌, length, Option, Some, IfSome, is_some, slice_get};
ghost use Rattle.store_model.specs.Pages as model;
ghost use Rattle.store_model.specs.Placement.{pages_in};
ghost use Rattle.store_model.specs.Images.{slot_bytes};

use node_pages::PageList;
use std::marker::Model;
use store_model::{BLOCK, Slot};

/// The table of a list of pairs. Contracts see it as the list of its slots, each empty or with a page.
///
/// It keeps each page once, and for each slot the number of its page, so that placing moves no page.
#[derive(Drop)]
pub struct Layout {
    /// The pages, in whatever order.
    pub(crate) pages: PageList,
    /// For each slot the number of its page, if it has one.
    pub(crate) places: Vec<Option<u32>>,
}

impl Model for Layout {
    ghost use Rattle.store_model.specs.Placement.{Table};
    ghost use Rattle.layout_scratch.specs.Layouts.{table_of, ArePlaces};

    ghost Value = { Table };

    ghost view = { λ l. table_of l.pages l.places.items };

    ghost invariant = { λ l. ArePlaces l.pages l.places.items };
}

impl Layout {
    /// How many slots hold a page.
    pub fn used(&self) -> u32
        ensures { result ≡ length (pages_in self.now) }
    {
        self.pages.len()
    }

    /// Writes the bytes of slot `at`, which has to be one of the table's, to the buffer.
    #[tactic(auto, unfolding(store_model::specs::Images::slot_bytes))]
    pub fn slot(&self, at: u32, into: &mut Slot)
        requires { at < length self.now }
        ensures { (held : Option model.Page) → slice_get self.now at ≡ Some held
            → into.new ≡ slot_bytes held }
    {
        match self.places[at as usize] {
            Some(number) => *into = *self.pages.get(number).as_slot(),
            None => *into = [0; BLOCK],
        }
    }

    /// The bytes of slot `at`, which has to be one of the table's, where it holds a page.
    #[tactic(auto, unfolding(store_model::specs::Images::slot_bytes))]
    pub fn look(&self, at: u32) -> Option<&Slot>
        requires { at < length self.now }
        ensures page { (held : Option model.Page) → slice_get self.now at ≡ Some held
            → is_some result ≡ is_some held }
        ensures bytes { (held : Option model.Page) → slice_get self.now at ≡ Some held
            → IfSome result (λ slot. slot.now ≡ slot_bytes held) }
    {
        match self.places[at as usize] {
            Some(number) => Some(self.pages.get(number).as_slot()),
            None => None,
        }
    }
}
