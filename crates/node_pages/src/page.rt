//! Pages, and their slots.

ghost use Rattle.std.specs.Prelude.{◌≡◌, ◌+◌, ◌-◌, ◌*◌, ◌<◌, ◌≤◌, ◌↔◌, [], ◌∷◌, ◌++◌, length, map, take, drop, None};
ghost use Rattle.std.specs.Prelude.{Some, IfSome, IsTrue, true, false, nat_eq, slice_get, slice_index};
ghost use Rattle.std.specs.List.{flat_map, AllByRecursion};
ghost use Rattle.std.specs.List.Sorted.{IsStrictlySortedBy};
ghost use Rattle.std.specs.Cmp.{partial_equiv_from_equiv, on_equiv, on_per};
ghost use Rattle.std.specs.Cmp.Lexicographic.{pointwise, nat_list_eq_equiv};
ghost use Rattle.std.specs.declared.cmp.Ordering.TheVariants.{Less};
ghost use Rattle.store_model.specs.Lists.{zeros};
ghost use Rattle.store_model.specs.Parameters.{block_len};
ghost use Rattle.store_model.specs.Paths.{key_cmp};
ghost use Rattle.store_model.specs.Pages as model;
ghost use Rattle.store_model.specs.Pages.{IsCell, IsPage, page_room};
ghost use Rattle.store_model.specs.Images.{cell_bytes, page_bytes, slot_bytes};
ghost use Rattle.store_model.specs.Labels as labels;
ghost use Rattle.store_model.specs.Labels.{IsLabel, label_bytes};
ghost use Rattle.store_base.specs.Keys.{IsKey};
ghost use Rattle.node_pages.specs.CellAreas as spelled;
ghost use Rattle.node_pages.specs.CellRefs.{cell_of};
ghost use Rattle.node_pages.specs.PageSlots as cells;
ghost use Rattle.node_pages.specs.Insertions.{TakesCell, with_cell};

use crate::cell::{Cell, CellRef};
use crate::cell_area::{are_whole, cell_len, is_below, room};
use crate::cell_bytes;
use std::marker::Model;
use store_base::{Key, Label, Value};
use store_model::{BLOCK, Slot};

/// The byte of a slot that counts the cells.
const COUNT_AT: usize = 131;

/// Where the cells of a slot begin.
const CELLS_AT: usize = 132;

/// A label and the cells of one run of its group: 1 to 10 at level 0, 1 to 31 above, with keys that strictly
/// rise. Contracts see a page as that of the definitions; each is one, as `IsPage` says. A page is kept as
/// its slot in an image, and no call of it takes memory.
#[derive(Clone, Copy, Debug)]
pub struct Page {
    label: Label,
    slot: Slot,
}

impl Model for Page {
    ghost use Rattle.store_model.specs.Pages as model;

    ghost Value = { model.Page };

    ghost use Rattle.store_model.specs.Images.{page_bytes};
    ghost use Rattle.node_pages.specs.PageSlots.{page_in, IsSlotOf};

    ghost view = { λ p. page_in p.label p.slot };

    ghost invariant = { λ p. IsSlotOf p.label p.slot };

    ghost inverse = { λ p. record { label = p.label; slot = page_bytes p } };

    ghost inverse_ok = { λ p valid i. record { label = p.label; slot = valid.bytes i } };
}

/// The level of a label.
fn level_of(label: &Label) -> u8
    ensures { result ≡ label.now.level }
{
    label.level
}

/// The bytes of the cells from number `first` up to number `past` of the page that a slot of the label holds.
fn bytes_in<'a>(label: &Label, slot: &'a Slot, first: u32, past: u32) -> &'a [u8]
    requires holds { cells.IsSlotOf label.now slot.now }
    requires order { first ≤ past }
    requires within { past ≤ length (cells.page_in label.now slot.now).cells }
    ensures { result.now ≡ flat_map cell_bytes
        (drop first (take past (cells.page_in label.now slot.now).cells)) }
{
    let (_, area) = slot.split_at(CELLS_AT);
    cell_bytes::cells_between(level_of(label), area, first, past)
}

/// Begins the slot of a page of the label, with no cell yet.
fn begin(label: &Label, slot: &mut Slot)
    requires { slot.old ≡ zeros block_len }
    ensures value { slot.new ≡ page_bytes (record { label = label.now; cells = [] }) }
    ensures valid { IsLabel label.now }
{
    slot[0] = 1;
    slot[1..COUNT_AT].copy_from_slice(&label.to_bytes());
}

/// Adds a cell to the slot of a page of the label.
fn append(label: &Label, slot: &mut Slot, cell: &Cell)
    requires cell { IsCell label.now.level cell.now }
    requires room { slice_index slot.old COUNT_AT < page_room label.now.level }
    requires blank { drop (spelled.cell_size label.now.level * slice_index slot.old COUNT_AT)
        (drop CELLS_AT slot.old)
        ≡ zeros (3964 - spelled.cell_size label.now.level * slice_index slot.old COUNT_AT) }
    ensures { slot.new ≡ cells.appended label.now.level slot.old (cell_bytes cell.now) }
{
    let at = CELLS_AT + cell_len(label.level) * usize::from(slot[COUNT_AT]);
    slot[COUNT_AT] += 1;
    cell_bytes::write_cell(&mut slot[at..], cell);
}

/// Adds so many cells to the slot of a page of the label that has none yet; their bytes are given.
fn fill(label: &Label, slot: &mut Slot, count: u8, run: &[u8])
    requires valid { IsLabel label.now }
    requires empty { slot.old ≡ page_bytes (record { label = label.now; cells = [] }) }
    requires packed { cells.ArePacked label.now.level count run.now }
    requires room { count ≤ page_room label.now.level }
    ensures { slot.new ≡ page_bytes (record {
      label = label.now;
      cells = cells.cells_in label.now.level count run.now;
    }) }
{
    slot[COUNT_AT] = count;
    slot[CELLS_AT..CELLS_AT + run.len()].copy_from_slice(run);
}

/// Puts a cell into the slot of a page of the label, before that of number `at` or behind all.
fn put_before(label: &Label, slot: &mut Slot, at: u32, cell: &Cell)
    requires holds { cells.IsSlotOf label.now slot.old }
    requires within { at ≤ slice_index slot.old COUNT_AT }
    requires cell { IsCell label.now.level cell.now }
    requires room { slice_index slot.old COUNT_AT < page_room label.now.level }
    ensures { slot.new ≡ page_bytes (with_cell (cells.page_in label.now slot.old) at cell.now) }
{
    let size = cell_len(label.level);
    let end = size * usize::from(slot[COUNT_AT]);
    slot[COUNT_AT] += 1;
    cell_bytes::insert_cell(
        label.level,
        &mut slot[CELLS_AT..],
        size * at as usize,
        end,
        cell,
    );
}

/// Reads the label of the page that a slot holds, from its first 131 bytes alone: the cells are not looked at. `None`
/// exactly where byte 0 is not 1 or no label stands behind it, as in a free slot.
pub fn label_in(slot: &Slot) -> Option<Label>
    ensures found { IfSome result (λ label. IsLabel label
        × (take COUNT_AT slot.now ≡ 1 ∷ label_bytes label)) }
    ensures only { (label : labels.Label) → IsLabel label
        → take COUNT_AT slot.now ≡ 1 ∷ label_bytes label
        → result ≡ Some label }

    // What a slot of the table holds is free or a page.
    ensures free { slot.now ≡ slot_bytes None → result ≡ None }
    ensures page { (page : model.Page) → IsPage page → slot.now ≡ slot_bytes (Some page)
        → result ≡ Some page.label }
{
    if slot[0] != 1 {
        return None;
    }
    let mut label = [0; 130];
    label.copy_from_slice(&slot[1..COUNT_AT]);
    Label::from_bytes(&label)
}

/// Reads the label of the page that a slot holds, and looks at all of the slot, but copies nothing.
///
/// `None` exactly where its bytes are no page's: byte 0 is not 1, the label's bytes are no label's, there is no cell or
/// more than the level has room for, the length of a value is not 1 to 256 or other bytes than zeros fill it up, the
/// keys do not strictly rise, or other bytes than zeros stand behind the last cell.
pub fn page_label(slot: &Slot) -> Option<Label>
    ensures found { IfSome result (λ label. cells.IsSlotOf label slot.now) }
    ensures only { (page : model.Page) → IsPage page
        → page_bytes page ≡ slot.now → result ≡ Some page.label }
{
    let label = label_in(slot)?;
    let (_, area) = slot.split_at(CELLS_AT);
    if !are_whole(label.level, slot[COUNT_AT], area) {
        return None;
    }
    Some(label)
}

/// Reads the page that a slot holds; `None` exactly where its bytes are no page's, as `page_label` says.
pub fn decode_page(slot: &Slot) -> Option<Page>
    ensures found { IfSome result (λ page. IsPage page × (page_bytes page ≡ slot.now)) }
    ensures only { (page : model.Page) → IsPage page
        → page_bytes page ≡ slot.now → result ≡ Some page }
{
    let label = page_label(slot)?;
    Some(Page { label, slot: *slot })
}

/// Writes the bytes of a page to a slot.
pub fn encode_page(page: &Page, slot: &mut Slot)
    ensures { slot.new ≡ page_bytes page.now }
{
    *slot = page.slot;
}

impl Page {
    /// The page of a label with one cell, which has to be one of the label's level.
    pub fn new(label: Label, first: Cell) -> Self
        requires { IsCell label.level first }
        ensures value { result ≡ record { label = label; cells = first ∷ [] } }
        ensures valid { IsPage result }
    {
        Page::with_first(label, &first)
    }

    /// Adds a cell behind the others: one of the page's level, with a key above theirs, where there is room.
    pub fn push(&mut self, cell: Cell)
        requires cell { IsCell self.old.label.level cell }
        requires room { length self.old.cells < page_room self.old.label.level }
        requires rising { IsStrictlySortedBy key_cmp
            (map (λ c. c.key) (self.old.cells ++ cell ∷ [])) }
        ensures value { self.new ≡ record self.old { cells = self.old.cells ++ cell ∷ [] } }
        ensures valid { IsPage self.new }
    {
        self.add(&cell);
    }

    /// As `new`, from a cell that stays where it is.
    pub fn with_first(label: Label, first: &Cell) -> Self
        requires { IsCell label.level first.now }
        ensures value { result ≡ record { label = label; cells = first.now ∷ [] } }
        ensures valid { IsPage result }
    {
        let mut slot = [0; BLOCK];
        begin(&label, &mut slot);
        append(&label, &mut slot, first);
        Page { label, slot }
    }

    /// As `push`, from a cell that stays where it is.
    pub fn add(&mut self, cell: &Cell)
        requires cell { IsCell self.old.label.level cell.now }
        requires room { length self.old.cells < page_room self.old.label.level }
        requires rising { IsStrictlySortedBy key_cmp
            (map (λ c. c.key) (self.old.cells ++ cell.now ∷ [])) }
        ensures value { self.new ≡ record self.old { cells = self.old.cells ++ cell.now ∷ [] } }
        ensures valid { IsPage self.new }
    {
        append(&self.label, &mut self.slot, cell);
    }

    /// The page of a label and so many cells, whose bytes are given.
    // Apart from its caller it would answer a page that is copied once more.
    #[inline(always)]
    pub fn of_run(label: Label, count: u8, run: &[u8]) -> Self
        requires packed { cells.ArePacked label.level count run.now }
        requires page { IsPage (record {
          label = label;
          cells = cells.cells_in label.level count run.now;
        }) }
        ensures { result ≡ record {
          label = label;
          cells = cells.cells_in label.level count run.now;
        } }
    {
        let mut slot = [0; BLOCK];
        begin(&label, &mut slot);
        fill(&label, &mut slot, count, run);
        Page { label, slot }
    }

    /// Makes it the page of a label and so many cells, whose bytes are given.
    pub fn refill(&mut self, label: &Label, count: u8, run: &[u8])
        requires packed { cells.ArePacked label.now.level count run.now }
        requires page { IsPage (record {
          label = label.now;
          cells = cells.cells_in label.now.level count run.now;
        }) }
        ensures { self.new ≡ record {
          label = label.now;
          cells = cells.cells_in label.now.level count run.now;
        } }
    {
        self.label = *label;
        self.slot = [0; BLOCK];
        begin(label, &mut self.slot);
        fill(label, &mut self.slot, count, run);
    }

    /// Whether the keys of the first `past` cells are below this one.
    fn are_below(&self, past: u32, key: &Key) -> bool
        requires { past ≤ length self.now.cells }
        ensures { IsTrue result ↔ AllByRecursion (λ k. key_cmp k key.now ≡ Less)
            (map (λ c. c.key) (take past self.now.cells)) }
    {
        past == 0 || is_below(self.key_bytes(past - 1), key.as_bytes())
    }

    /// Whether the keys of the cells from number `first` on are above this one.
    fn are_above(&self, first: u32, key: &Key) -> bool
        requires { first ≤ length self.now.cells }
        ensures { IsTrue result ↔ AllByRecursion (λ k. key_cmp key.now k ≡ Less)
            (map (λ c. c.key) (drop first self.now.cells)) }
    {
        first == self.len() || is_below(key.as_bytes(), self.key_bytes(first))
    }

    /// Whether a key stands between those of the first `at` cells and those of the others.
    fn is_between(&self, at: u32, key: &Key) -> bool
        requires { at ≤ length self.now.cells }
        ensures { IsTrue result ↔ IsStrictlySortedBy key_cmp
            (map (λ c. c.key) (take at self.now.cells) ++ key.now
            ∷ map (λ c. c.key) (drop at self.now.cells)) }
    {
        self.reveal();
        self.are_below(at, key) && self.are_above(at, key)
    }

    /// Whether it has so many cells, has room for one more, and the cell is one of its level.
    fn may_take(&self, at: u32, cell: &Cell) -> bool
        ensures { IsTrue result
            ↔ ((at ≤ length self.now.cells)
            × (length self.now.cells < page_room self.now.label.level)
            × IsCell self.now.label.level cell.now) }
    {
        at <= self.len() && self.len() < u32::from(room(self.level())) && cell.is_of(self.level())
    }

    /// Whether it takes a cell before that of number `at`, or behind all.
    fn takes(&self, at: u32, cell: &Cell) -> bool
        ensures { IsTrue result ↔ TakesCell self.now at cell.now }
    {
        self.reveal();
        self.may_take(at, cell) && self.is_between(at, &cell.key)
    }

    /// Inserts a cell before that of number `at`, or behind all, and answers whether it did: it does where
    /// the page with it is one. Else the page is as it was.
    pub fn insert(&mut self, at: u32, cell: &Cell) -> bool
        ensures takes { IsTrue result ↔ TakesCell self.old at cell.now }
        ensures value { result ≡ true → self.new ≡ with_cell self.old at cell.now }
        ensures kept { result ≡ false → self.new ≡ self.old }
    {
        let takes = self.takes(at, cell);
        if takes {
            put_before(&self.label, &mut self.slot, at, cell);
        }
        takes
    }

    /// Its label.
    pub fn label(&self) -> Label
        ensures value { result ≡ self.now.label }
        ensures valid { IsPage self.now }
    {
        self.label
    }

    /// The level of its label.
    pub fn level(&self) -> u8
        ensures { result ≡ self.now.label.level }
    {
        level_of(&self.label)
    }

    /// How many cells it has: 1 to 10 at level 0, 1 to 31 above.
    pub fn len(&self) -> u32
        ensures value { result ≡ length self.now.cells }
        ensures valid { IsPage self.now }
    {
        u32::from(self.slot[COUNT_AT])
    }

    /// Says that it is a page, as a proof needs it that looks into one. It costs nothing.
    pub fn reveal(&self)
        ensures valid { IsPage self.now }
    {
        let _ = self.len();
    }

    /// Its bytes in an image.
    pub fn as_slot(&self) -> &Slot
        ensures value { result.now ≡ page_bytes self.now }
        ensures valid { IsPage self.now }
    {
        &self.slot
    }

    /// The bytes of the cells from number `first` up to number `past`, one cell behind the other.
    pub fn bytes_between(&self, first: u32, past: u32) -> &[u8]
        requires order { first ≤ past }
        requires within { past ≤ length self.now.cells }
        ensures { result.now ≡ flat_map cell_bytes (drop first (take past self.now.cells)) }
    {
        bytes_in(&self.label, &self.slot, first, past)
    }

    /// Whether its cells have these bytes, one cell behind the other.
    pub fn has_bytes(&self, run: &[u8]) -> bool
        ensures { IsTrue result ↔ (flat_map cell_bytes self.now.cells ≡ run.now) }
    {
        self.bytes_between(0, self.len()) == run
    }

    /// Cell `i`, the first being 0.
    pub fn cell(&self, i: u32) -> Cell
        requires { i < length self.now.cells }
        ensures value { slice_get self.now.cells i ≡ Some result }
        ensures valid { IsPage self.now × IsCell self.now.label.level result }
    {
        cell_bytes::read_cell(level_of(&self.label), self.bytes_between(i, i + 1))
    }

    /// Cell `i`. The page lends its value, which is not copied.
    pub fn cell_ref(&self, i: u32) -> CellRef<'_>
        requires { i < length self.now.cells }
        ensures { slice_get self.now.cells i ≡ Some (cell_of result) }
    {
        cell_bytes::cell_ref(level_of(&self.label), self.bytes_between(i, i + 1))
    }

    /// The value of cell `i`, without its key; `None` above level 0.
    pub fn value(&self, i: u32) -> Option<Value>
        requires { i < length self.now.cells }
        ensures { IfSome (slice_get self.now.cells i) (λ cell. cell.value ≡ result) }
    {
        cell_bytes::read_value(level_of(&self.label), self.bytes_between(i, i + 1))
    }

    /// The bytes of the key of cell `i`.
    pub fn key_bytes(&self, i: u32) -> &[u8]
        requires { i < length self.now.cells }
        ensures value { IfSome (slice_get self.now.cells i) (λ cell. cell.key ≡ result.now) }
        ensures valid { IsPage self.now × IsKey result.now }
    {
        self.reveal();
        cell_bytes::key_part(self.bytes_between(i, i + 1))
    }

    /// The key of cell `i`, without its value.
    pub fn key(&self, i: u32) -> Key
        requires { i < length self.now.cells }
        ensures value { IfSome (slice_get self.now.cells i) (λ cell. cell.key ≡ result) }
        ensures valid { IsPage self.now × IsKey result }
    {
        cell_bytes::read_key(self.key_bytes(i))
    }
}

impl PartialEq for Page {
    ghost eq = { λ a b. pointwise nat_eq (page_bytes a) (page_bytes b) };

    ghost laws = { on_per page_bytes (partial_equiv_from_equiv nat_list_eq_equiv) };

    fn eq(&self, other: &Self) -> bool
        ensures value { result ≡ pointwise nat_eq (page_bytes self.now) (page_bytes other.now) }
        ensures same { IsTrue result ↔ (self.now ≡ other.now) }
    {
        self.slot == other.slot
    }
}

impl Eq for Page {
    ghost laws = { on_equiv page_bytes nat_list_eq_equiv };
}
