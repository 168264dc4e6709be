//! How the list of the empty tree is loaded with the pairs of a tree.

ghost use Rattle.std.specs.Prelude.{◌≡◌, ◌≤◌, false, length};
ghost use Rattle.store_model.specs.Trees.{Tree, empty_tree};
ghost use Rattle.store_model.specs.Pairs as model;
ghost use Rattle.store_model.specs.Pages.{IsTreeUnder};
ghost use Rattle.layout_conditions.specs.Layouts.{table_of_tree};
ghost use Rattle.layout_scratch.specs.Sorting.{sorted_limit};
ghost use Rattle.image_check.specs.Standing.{IsFitting};
ghost use Rattle.staged_tree.specs.Loads.{IsLoadAnswer, loaded_tree};
ghost use Rattle.staged_tree.specs.StagedTree.{IsListAt, GoesOn};
ghost use Rattle.staged_tree.specs.Steps.{EndsStep};

use crate::commands::TreeList;
use crate::used_slots::UsedSlots;
use disk_model::Disk;
use image_check::ApplyFault;
use layout_scratch::{DrawnPairs, Layout, ScratchFault, build_drawn};
use std::alloc::Global;
use store_base::Params;

/// How a load was answered.
#[derive(Clone, Copy, Debug, PartialEq, Eq)]
pub enum LoadAnswer {
    /// The tree is loaded.
    Done,
    /// Its pages are more than the slots, and nothing was written.
    Full {
        /// How many pages the tree has.
        need: u32,
        /// How many slots there are.
        slots: u32,
    },
}

/// Loads the list of the empty tree with that of a tree whose pairs these are. After it nothing is staged. No level is
/// drawn that is known under these parameters.
///
/// A fault leaves the list as it was. `NoMemory`: nothing was written. `Disk`: the disk failed at a write or after
/// one, and the pages are spent.
pub fn load_list<D: Disk>(
    alloc: Global,
    list: &mut TreeList<D>,
    params: &Params,
    pairs: &DrawnPairs<'_>,
) -> Result<LoadAnswer, ApplyFault>
    requires runs { list.old.pages.is_spent ≡ false }
    requires list { IsListAt D.state empty_tree params.now list.old }
    requires few { length pairs.now ≤ sorted_limit }
    requires pairs { (t : Tree)
        × (IsTreeUnder t params.now × (pairs.now ≡ model.pairs t params.now)) }
    ensures call { (t : Tree) → IsTreeUnder t params.now → pairs.now ≡ model.pairs t params.now
        → EndsStep D.state empty_tree (loaded_tree params.now empty_tree t)
        (IsLoadAnswer params.now t) params.now list.old.pages list.new.pages result }
    ensures list { GoesOn D.state list.old list.new }
{
    match build_drawn(alloc, params, pairs) {
        Ok(layout) => settle_layout(alloc, list, params, &layout),
        Err(ScratchFault::Full { need, slots }) => Ok(LoadAnswer::Full { need, slots }),
        Err(ScratchFault::NoMemory) => Err(ApplyFault::NoMemory),
    }
}

/// Settles the layout of a tree that fits over the list of the empty tree, which becomes the list of that tree.
fn settle_layout<D: Disk>(
    alloc: Global,
    list: &mut TreeList<D>,
    params: &Params,
    layout: &Layout,
) -> Result<LoadAnswer, ApplyFault>
    requires runs { list.old.pages.is_spent ≡ false }
    requires list { IsListAt D.state empty_tree params.now list.old }
    requires tree { (t : Tree)
        × (IsFitting t params.now × (layout.now ≡ table_of_tree t params.now)) }
    ensures call { (t : Tree) → IsFitting t params.now → layout.now ≡ table_of_tree t params.now
        → EndsStep D.state empty_tree t (λ answer. answer ≡ LoadAnswer.Done)
        params.now list.old.pages list.new.pages result }
    ensures list { GoesOn D.state list.old list.new }
{
    let Ok(changes) = UsedSlots::of(alloc, layout, params.slots()) else {
        return Err(ApplyFault::NoMemory);
    };
    list.forget();
    // Nothing is staged in it: the list is that of its table.
    list.pages.discard();
    let settled = list.pages.settle_slots(&changes, layout.used());
    list.take_up();
    settled?;
    Ok(LoadAnswer::Done)
}
