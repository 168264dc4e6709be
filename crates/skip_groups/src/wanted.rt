//! What a search in a group wants of the cells next to a key.

ghost use Rattle.std.specs.Prelude.{ℕ, ◌≡◌, ◌<◌, List, Some, IfSome, refl, length, slice_get};
ghost use Rattle.std.specs.Option.{option_or};
ghost use Rattle.std.specs.Ordering.{is_eq};
ghost use Rattle.store_model.specs.Paths.{key_cmp};
ghost use Rattle.store_model.specs.Pages as model;
ghost use Rattle.skip_groups.specs.Floors.{value_at, pair_in, pair_at};
ghost use Rattle.skip_groups.specs.Searches.{seen};

use node_pages::{Cell, Page};
use store_base::{Key, Value, byte_order};

/// What a search for a key finds, changed by the cells that it comes to: the place on the next lower level,
/// the value of the key, or the first pair from the key on.
pub trait Wanted {
    /// What a cell that is not above the key makes of what was there.
    ghost floor: { List ℕ → model.Cell → Self → Self };

    /// What the first cell above the key makes of it.
    ghost after: { List ℕ → model.Cell → Self → Self };

    /// Sees the cell of a page with this number, the first being 0, which is not above the key.
    fn see_floor(&mut self, page: &Page, index: u32, key: &Key)
        requires { index < length page.now.cells }
        ensures { self.new ≡ seen (floor key.now) (slice_get page.now.cells index) self.old };

    /// Sees the cell of a page with this number, which is the first above the key.
    fn see_after(&mut self, page: &Page, index: u32, key: &Key)
        requires { index < length page.now.cells }
        ensures { self.new ≡ seen (after key.now) (slice_get page.now.cells index) self.old };

    /// Of several cells that are not above the key, the last counts.
    ghost last_counts: { (key : List ℕ) (first second : model.Cell) (found : Self)
        → floor key second (floor key first found) ≡ floor key second found };
}

impl Wanted for Option<Value> {
    ghost floor = { λ key cell found. value_at key (Some cell) };

    ghost after = { λ key cell found. found };

    ghost last_counts = { λ key first second found. refl };

    fn see_floor(&mut self, page: &Page, index: u32, key: &Key) {
        if has_key(page, index, key) {
            *self = page.value(index);
        } else if self.is_some() {
            *self = None;
        }
    }

    fn see_after(&mut self, page: &Page, index: u32, key: &Key) {}
}

impl Wanted for Option<(Key, Value)> {
    ghost floor = { λ key cell found. pair_at key (Some cell) };

    ghost after = { λ key cell found. option_or found (pair_in (Some cell)) };

    ghost last_counts = { λ key first second found. refl };

    fn see_floor(&mut self, page: &Page, index: u32, key: &Key) {
        if has_key(page, index, key) {
            *self = pair_of(page.cell(index));
        } else if self.is_some() {
            *self = None;
        }
    }

    fn see_after(&mut self, page: &Page, index: u32, key: &Key) {
        if self.is_none() {
            *self = pair_of(page.cell(index));
        }
    }
}

/// Whether the cell of a page with this number is that of the key.
fn has_key(page: &Page, index: u32, key: &Key) -> bool
    requires { index < length page.now.cells }
    ensures { IfSome (slice_get page.now.cells index)
        (λ cell. result ≡ is_eq (key_cmp key.now cell.key)) }
{
    byte_order(key.as_bytes(), page.key_bytes(index)).is_eq()
}

/// The pair of a cell of level 0; `None` of a cell that has no value.
pub fn pair_of(cell: Cell) -> Option<(Key, Value)>
    ensures { result ≡ pair_in (Some cell) }
{
    let value = cell.value?;
    Some((cell.key, value))
}
