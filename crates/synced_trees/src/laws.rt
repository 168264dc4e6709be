//! Laws of synchronized trees.

ghost use Rattle.std.specs.Prelude.{◌≡◌, ◌++◌, Bool, false, true, map};
ghost use Rattle.std.specs.List.{filter};
ghost use Rattle.store_model.specs.Paths.{Name};
ghost use Rattle.store_model.specs.Trees.{Tree, IsTree};
ghost use Rattle.dump_streams.specs.Dumps.{command_of_step, dump};
ghost use Rattle.dump_diff.specs.declared.differences.Differences.{Differences};
ghost use Rattle.dump_diff.specs.Differences.{AreDifferences, marks_of};
ghost use Rattle.dump_diff.specs.Sides.{AreAttributeDifferences};
ghost use Rattle.dump_diff.specs.Scripts.{is_addition, removal_commands, sides_of};
ghost use Rattle.synced_trees.specs.Syncing.{HidesNone, IsSynced};
ghost use Rattle.synced_trees.specs.Taken.{LeadsTo, sync_commands};

/// The commands that are made of the differences of two trees, and of the steps of the second that the first lacks, are
/// none of them refused, and lead to what is told: to the second tree where what is not told goes, and all attributes
/// do, and else to the first with the second laid over it, where that hides no directory that has something below it.
pub fn commands_of_differences_lead_to_what_is_told()
    ensures { (deletes : Bool) (takes : Name → Bool) (old told : Tree) (found : Differences) → IsTree old → IsTree told
        → AreDifferences old told (marks_of found.paths.items)
        → AreAttributeDifferences old told (marks_of found.paths.items) (sides_of found.attributes.items)
        → (deletes ≡ false → HidesNone old told)
        → LeadsTo deletes takes old told (sync_commands deletes takes found (dump told)) }
{}

/// The script of the differences of two trees leads from the first to the second: what `write_removals` writes, and
/// then what `AdditionTaker` does. No command of it is refused.
pub fn scripts_of_differences_lead_to_the_second_tree()
    ensures { (old told : Tree) (found : Differences) → IsTree old → IsTree told
        → AreDifferences old told (marks_of found.paths.items)
        → AreAttributeDifferences old told (marks_of found.paths.items) (sides_of found.attributes.items)
        → LeadsTo true (λ a. true) old told (removal_commands found
        ++ map command_of_step (filter (is_addition found) (dump told))) }
{}

/// At most one tree holds what is told; where what is not told goes, and all attributes do, it is the tree that was
/// told.
pub fn one_tree_holds_what_is_told()
    ensures once { (deletes : Bool) (takes : Name → Bool) (old told new other : Tree)
        → IsSynced deletes takes old told new → IsSynced deletes takes old told other → new ≡ other }
    ensures whole { (takes : Name → Bool) (old told new : Tree) → IsTree told → ((a : Name) → takes a ≡ true)
        → IsSynced true takes old told new → new ≡ told }
{}
