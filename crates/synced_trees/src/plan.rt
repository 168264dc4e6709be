//! Plans what leads from one tree to what another tells.

ghost use Rattle.std.specs.Prelude.{◌≡◌, IfOk, IfErr, IfSome, IfNone};
ghost use Rattle.store_model.specs.Paths.{parent};
ghost use Rattle.store_model.specs.Trees.{empty_tree};
ghost use Rattle.dump_diff.specs.Differences.{marks_of};
ghost use Rattle.dump_diff.specs.Gains.{takes};
ghost use Rattle.dump_diff.specs.Scripts.{AreRising, difference_line, sides_of};
ghost use Rattle.script_lines.specs.SinkState.{Puts};
ghost use Rattle.std.specs.List.{flat_map};
ghost use Rattle.synced_trees.specs.Plans as model;
ghost use Rattle.synced_trees.specs.Plans.{Counts, Hides, IsHiding, IsPlanOf, IsUnplanned, NoneHides};
ghost use Rattle.synced_trees.specs.Taken.{taken_marks, taken_sides};

use dump_diff::{
    CompareFault, Compared, Difference, Differences, KeptStep, Losses, Mark, Removal,
    compare_keeping, removals, write_differences,
};
use dump_streams::DumpStream;
use path_keys::Path;
use script_lines::{Sink, SinkFault};
use std::alloc::Global;
use thiserror::Error;

/// What is to be changed of a tree, and how: paths and attributes that are taken away or cut, and steps that make and
/// write. It has the bytes that are written, and of the rest no more than names.
#[derive(Drop)]
pub struct SyncPlan {
    changed: Differences,
    removals: Vec<Removal>,
    additions: Vec<KeptStep>,
}

/// Why nothing is planned.
#[derive(Clone, Copy, Debug, Error)]
pub enum PlanFault {
    /// The two dumps were not compared.
    #[error(transparent)]
    Compare(CompareFault),
    /// A file is told at this path, where a directory stands that has something below it, and nothing may be taken
    /// away.
    #[error("a folder that is not empty would become a file")]
    Hidden(Path),
}

impl From<CompareFault> for PlanFault {
    ghost use Rattle.synced_trees.specs.declared.plan.PlanFault.TheVariants as plans;

    ghost from_gives = { λ cause fault. fault ≡ plans.Compare cause };

    fn from(fault: CompareFault) -> Self {
        PlanFault::Compare(fault)
    }
}

/// Plans what leads from the tree of the first dump to what the second tells: to the first tree with the second laid
/// over it, and without the losses that count; where all of them do, to the second tree. Nothing came yet of either
/// stream; each is walked once. What is equal in both has no part in the plan.
///
/// `Compare`: the dumps were not compared, for this reason. `Hidden`: where no path is to be lost, a file is told where
/// a directory stands that has something below it.
pub fn plan_sync<A: DumpStream, B: DumpStream>(
    alloc: Global,
    first: &mut A,
    second: &mut B,
    losses: &Losses,
) -> Result<SyncPlan, PlanFault>
    ensures plans { A.came first.old empty_tree → B.came second.old empty_tree
        → IfOk result (IsPlanOf losses.now (A.whole first.new) (B.whole second.new)) }
    ensures failed { A.came first.old empty_tree → B.came second.old empty_tree
        → IfErr result (IsUnplanned losses.now (A.came first.new) (A.whole first.new) (A.fails first.new)
        (B.came second.new) (B.whole second.new) (B.fails second.new)) }
    ensures keeps_first { (start : A) → A.keeps start first.old → A.keeps start first.new }
    ensures keeps_second { (start : B) → B.keeps start second.old → B.keeps start second.new }
{
    let Compared { found, additions } = compare_keeping(alloc, first, second)?;
    let changed = counted(found, losses)?;
    let removals = removals(alloc, &changed).map_err(CompareFault::NoMemory)?;
    Ok(SyncPlan {
        changed,
        removals,
        additions,
    })
}

/// The differences that count.
/// `Hidden`: they don't say how to get there.
fn counted(found: Differences, losses: &Losses) -> Result<Differences, PlanFault>
    ensures counts { AreRising found → IfOk result (Counts losses.now found) }
    ensures hidden { AreRising found → IfErr result (Hides losses.now.paths (marks_of found.paths.items)) }
{
    if losses.paths {
        return Ok(without_losses(found, losses));
    }
    match hidden(&found) {
        Some(path) => Err(PlanFault::Hidden(path)),
        None => Ok(without_losses(found, losses)),
    }
}

/// The differences without the losses that don't count.
fn without_losses(found: Differences, losses: &Losses) -> Differences
    ensures sides { sides_of result.attributes.items
        ≡ taken_sides (takes losses.now) (sides_of found.attributes.items) }
    ensures marks { AreRising found → marks_of result.paths.items
        ≡ taken_marks losses.now.paths (takes losses.now) (marks_of found.paths.items)
        (sides_of found.attributes.items) }
{
    let mut found = found;
    found.leave_losses(losses);
    found
}

/// A path at which a directory with something below it becomes a file, if there is one.
fn hidden(found: &Differences) -> Option<Path>
    ensures some { AreRising found.now → IfSome result (IsHiding (marks_of found.now.paths.items)) }
    ensures none { AreRising found.now → IfNone result (NoneHides (marks_of found.now.paths.items)) }
{
    for difference in found.paths() {
        if is_hidden(found, difference) {
            return Some(above(&difference.path));
        }
    }
    None
}

/// Whether a path goes whose parent becomes of another kind.
fn is_hidden(found: &Differences, difference: &Difference) -> bool
    ensures { AreRising found.now → result ≡ model.is_hidden_by (marks_of found.now.paths.items)
        (difference.now.path, difference.now.mark) }
{
    is_removed(difference.mark) && is_kind(found.mark_at(&above(&difference.path)))
}

/// The parent of a path; of the root the root.
fn above(path: &Path) -> Path
    ensures { result ≡ parent path.now }
{
    path.parent().unwrap_or(*path)
}

/// Whether what a mark is of goes.
fn is_removed(mark: Mark) -> bool
    ensures { result ≡ model.is_removed mark }
{
    matches!(mark, Mark::Removed)
}

/// Whether what a mark is of becomes of another kind.
fn is_kind(mark: Option<Mark>) -> bool
    ensures { result ≡ model.is_kind mark }
{
    matches!(mark, Some(Mark::Kind))
}

impl SyncPlan {
    /// What changes: the paths and attributes at which the tree before and the one after differ.
    pub fn changed(&self) -> &Differences
        ensures { result.now ≡ self.now.changed }
    {
        &self.changed
    }

    /// What takes away and cuts, in its order.
    pub fn removals(&self) -> &[Removal]
        ensures { result.now ≡ self.now.removals.items }
    {
        self.removals.as_slice()
    }

    /// The steps that make and write, in their order.
    pub fn additions(&self) -> &[KeptStep]
        ensures { result.now ≡ self.now.additions.items }
    {
        self.additions.as_slice()
    }

    /// Writes a line for each path that changes: `D PATH` where what stands there goes, `A PATH` where something comes,
    /// and
    /// `M PATH` where it is changed.
    /// `SinkFault`: a put failed, and no other was made after it. A prefix of the lines may have been written.
    pub fn write_lines<W: Sink>(&self, sink: &mut W) -> Result<(), SinkFault>
        ensures { Puts (W.state sink.old) (W.state sink.new)
            (flat_map difference_line self.now.changed.paths.items) result }
    {
        write_differences(&self.changed, sink)
    }
}
