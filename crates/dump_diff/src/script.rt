//! The script that leads from the first tree to the second.

ghost use Rattle.std.specs.Prelude.{◌≡◌, [], true, false, Ok, ⊤};
ghost use Rattle.std.specs.List.{flat_map};
ghost use Rattle.std.specs.FinMap.{find};
ghost use Rattle.store_model.specs.Paths.{parent, path_cmp};
ghost use Rattle.dump_streams.specs.Dumps.{step_line};
ghost use Rattle.dump_diff.specs.declared.difference.Mark.TheVariants as marks;
ghost use Rattle.dump_diff.specs.Differences.{marks_of};
ghost use Rattle.script_lines.specs.SinkState.{IsPut, Puts};
ghost use Rattle.dump_diff.specs.Scripts as model;
ghost use Rattle.dump_diff.specs.Scripts.{AreRising, TakesAddition, TookAdditions, commands_text};

use crate::difference::{AttributeDifference, Difference, Mark, Side};
use crate::differences::Differences;
use crate::kept_step::{KeptPart, KeptStep};
use crate::removal::Removal;
use dump_streams::{DumpStep, Step, Taker, TakerFault, write_step};
use path_keys::Path;
use script_lines::{Sink, SinkFault, write_command};

/// Writes the first part of the script: the lines that take away what the second tree has not, and cut what it has
/// otherwise. These are `prune` for each path that is gone or has another kind, unless its parent is pruned; `cut` to
/// no byte for each file whose bytes differ; and then `unset` for each attribute that is gone or has other bytes.
/// `SinkFault`: a put failed, and no other was made after it. A prefix of the lines may have been written.
pub fn write_removals<W: Sink>(found: &Differences, sink: &mut W) -> Result<(), SinkFault>
    ensures { AreRising found.now → Puts (W.state sink.old) (W.state sink.new)
        (commands_text (model.removal_commands found.now)) result }
{
    write_cuts(found, sink)?;
    write_unsets(found.attributes(), sink)
}

/// Writes the lines that prune and cut.
fn write_cuts<W: Sink>(found: &Differences, sink: &mut W) -> Result<(), SinkFault>
    ensures { AreRising found.now → Puts (W.state sink.old) (W.state sink.new)
        (commands_text (flat_map (model.cut_commands (marks_of found.now.paths.items))
        found.now.paths.items)) result }
{
    for difference in found.paths() {
        write_if(&cut_of(found, difference), sink)?;
    }
    Ok(())
}

/// Writes the lines that take attributes away.
fn write_unsets<W: Sink>(attributes: &[AttributeDifference], sink: &mut W) -> Result<(), SinkFault>
    ensures { Puts (W.state sink.old) (W.state sink.new)
        (commands_text (flat_map model.unset_commands attributes.now)) result }
{
    for attribute in attributes {
        write_if(&unset_of(attribute), sink)?;
    }
    Ok(())
}

/// Writes the line of a removal, if there is one.
fn write_if<W: Sink>(removal: &Option<Removal>, sink: &mut W) -> Result<(), SinkFault>
    ensures { Puts (W.state sink.old) (W.state sink.new)
        (commands_text (model.commands_in removal.now)) result }
{
    match removal {
        Some(removal) => write_command(sink, &removal.change().command()),
        None => Ok(()),
    }
}

/// What prunes or cuts what stands at a path, if it is to be pruned or cut.
pub(crate) fn cut_of(found: &Differences, difference: &Difference) -> Option<Removal>
    ensures { AreRising found.now → model.commands_in result
        ≡ model.cut_commands (marks_of found.now.paths.items) difference.now }
{
    match difference.mark {
        Mark::Removed | Mark::Kind => prune_of(found, &difference.path),
        Mark::Bytes => Some(Removal::Cut(difference.path)),
        Mark::Added | Mark::Attributes => None,
    }
}

/// What prunes a path, unless its parent is pruned.
fn prune_of(found: &Differences, path: &Path) -> Option<Removal>
    ensures { AreRising found.now → model.commands_in result
        ≡ model.cut_of
        (model.is_pruned (find path_cmp (parent path.now) (marks_of found.now.paths.items)))
        marks.Removed path.now }
{
    let above = path.parent().unwrap_or(*path);
    if is_pruned(found.mark_at(&above)) {
        return None;
    }
    Some(Removal::Prune(*path))
}

/// Whether what stands at a path is pruned.
fn is_pruned(mark: Option<Mark>) -> bool
    ensures { result ≡ model.is_pruned mark }
{
    matches!(mark, Some(Mark::Removed | Mark::Kind))
}

/// What takes an attribute away, if it is gone or has other bytes.
pub(crate) fn unset_of(attribute: &AttributeDifference) -> Option<Removal>
    ensures { model.commands_in result ≡ model.unset_commands attribute.now }
{
    match attribute.side {
        Side::First | Side::Both => Some(Removal::Unset(attribute.path, attribute.name)),
        Side::Second => None,
    }
}

/// Writes the second part of the script: those steps of the second dump that make and write what the first tree
/// has not, or has otherwise.
#[derive(Drop)]
pub struct AdditionTaker<W: Sink> {
    found: Differences,
    sink: W,
}

impl<W: Sink> AdditionTaker<W> {
    /// A taker that writes to this sink what the differences ask for.
    pub fn new(found: Differences, sink: W) -> Self
        ensures found { result.found ≡ found }
        ensures sink { result.sink ≡ sink }
        ensures none { TookAdditions W.state result result [] }
    {
        AdditionTaker { found, sink }
    }

    /// Gives the sink back, with what was written.
    pub fn into_sink(self) -> W
        ensures { result ≡ self.sink }
    {
        let AdditionTaker { found: _, sink } = self;
        sink
    }
}

impl<W: Sink> Taker for AdditionTaker<W> {
    ghost took = { TookAdditions W.state };

    ghost broke = { λ first now step fault. ⊤ };

    /// `Failed`: the put of its line failed, and a prefix of it may have been written.
    fn take(&mut self, step: &DumpStep) -> Result<(), TakerFault>
        ensures taken { TakesAddition W.state self.old self.new step.now result }
        ensures passed { AreRising self.old.found
            → model.is_addition self.old.found step.now ≡ false
            → (self.new ≡ self.old) × (result ≡ Ok tt) }
        ensures put { AreRising self.old.found
            → model.is_addition self.old.found step.now ≡ true
            → (self.new.found ≡ self.old.found)
            × IsPut (W.state self.old.sink) (W.state self.new.sink)
            (step_line step.now) result }
    {
        if !is_addition(&self.found, step) {
            return Ok(());
        }
        match write_step(&mut self.sink, step) {
            Ok(()) => Ok(()),
            Err(_) => Err(TakerFault::Failed),
        }
    }
}

/// Whether a step of the second dump makes or writes what the first tree has not, or has otherwise.
fn is_addition(found: &Differences, step: &DumpStep) -> bool
    ensures { AreRising found.now → result ≡ model.is_addition found.now step.now }
{
    match step.parts() {
        Step::Make(path) => is_made(found.mark_at(path)),
        Step::Write(path, _, _) => is_written(found.mark_at(path)),
        Step::Set(path, name, _) => is_made(found.mark_at(path))
            || is_set(found.side_of(path, name)),
    }
}

/// The same for a step that is kept.
pub(crate) fn is_kept_addition(found: &Differences, step: &KeptStep) -> bool
    ensures { AreRising found.now → result ≡ model.is_addition found.now step.now }
{
    let mark = found.mark_at(step.path());
    match step.part() {
        KeptPart::Make => is_made(mark),
        KeptPart::Write(_, _) => is_written(mark),
        KeptPart::Set(name, _) => is_made(mark) || is_set(found.side_of(step.path(), name)),
    }
}

/// Whether what stands at a path is made anew.
fn is_made(mark: Option<Mark>) -> bool
    ensures { result ≡ model.is_made mark }
{
    matches!(mark, Some(Mark::Added | Mark::Kind))
}

/// Whether a file is written anew.
fn is_written(mark: Option<Mark>) -> bool
    ensures { result ≡ model.is_written mark }
{
    matches!(mark, Some(Mark::Added | Mark::Kind | Mark::Bytes))
}

/// Whether an attribute is set.
fn is_set(side: Option<Side>) -> bool
    ensures { result ≡ model.is_set side }
{
    matches!(side, Some(Side::Second | Side::Both))
}
