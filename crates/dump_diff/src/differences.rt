//! The differences of two trees.

ghost use Rattle.std.specs.Prelude.{◌≡◌, ◌↔◌, ◌∷◌, [], IsTrue, OnOk, true, false, length};
ghost use Rattle.std.specs.FinMap.{find, is_sorted};
ghost use Rattle.std.specs.List.{filter};
ghost use Rattle.std.specs.List.Sorted.{IsSearchInRange};
ghost use Rattle.store_model.specs.Paths.{path_cmp};
ghost use Rattle.dump_diff.specs.Differences.{marks_of};
ghost use Rattle.dump_diff.specs.Scripts.{IsAttributePlace, IsPathPlace, attribute_cmp, sides_of};
ghost use Rattle.dump_diff.specs.Gains as gains;
ghost use Rattle.dump_diff.specs.Gains.{changes_by, changes_path, has_path};
ghost use Rattle.dump_diff.specs.Places.{is_first};
ghost use Rattle.dump_diff.specs.Sides.{IsAttributeNoted, with_attribute};
ghost use Rattle.dump_diff.specs.Shown.{FitsSide, IsLastMark, IsNoted, Marks, change_of, change_of_two, noted};

use crate::difference::{AttributeDifference, Difference, Mark, Side};
use crate::losses::Losses;
use dump_streams::{DumpStep, Step};
use path_keys::{AttrName, Path};
use std::alloc::Global;
use std::cmp::Ordering;
use store_base::NoMemory;

/// What is different between two trees.
#[derive(Debug, Drop)]
pub struct Differences {
    paths: Vec<Difference>,
    attributes: Vec<AttributeDifference>,
}

impl Differences {
    /// No difference.
    pub(crate) fn new(alloc: Global) -> Self
        ensures marks { marks_of result.paths.items ≡ [] }
        ensures attributes { result.attributes.items ≡ [] }
    {
        Differences {
            paths: Vec::new(alloc),
            attributes: Vec::new(alloc),
        }
    }

    /// Whether the trees are equal.
    pub fn is_empty(&self) -> bool
        ensures { IsTrue result ↔ (marks_of self.now.paths.items ≡ []) }
    {
        self.paths.is_empty()
    }

    /// The paths at which the trees differ, in their order.
    pub fn paths(&self) -> &[Difference]
        ensures { result.now ≡ self.now.paths.items }
    {
        self.paths.as_slice()
    }

    /// The attributes that differ, of paths at which both trees have a directory or both a file; in the order of paths,
    /// and at one path of names.
    pub fn attributes(&self) -> &[AttributeDifference]
        ensures { result.now ≡ self.now.attributes.items }
    {
        self.attributes.as_slice()
    }

    /// How the trees differ at a path; nothing where they do not.
    pub fn mark_at(&self, path: &Path) -> Option<Mark>
        ensures { IsTrue (is_sorted path_cmp (marks_of self.now.paths.items))
            → result ≡ find path_cmp path.now (marks_of self.now.paths.items) }
    {
        match place_of(self.paths.as_slice(), path) {
            Ok(at) => Some(self.paths[at].mark),
            Err(_) => None,
        }
    }

    /// Which tree has an attribute that differs; nothing where it does not.
    pub fn side_of(&self, path: &Path, name: &AttrName) -> Option<Side>
        ensures { IsTrue (is_sorted attribute_cmp (sides_of self.now.attributes.items))
            → result ≡ find attribute_cmp (path.now, name.now)
            (sides_of self.now.attributes.items) }
    {
        match attribute_place(self.attributes.as_slice(), path, name) {
            Ok(at) => Some(self.attributes[at].side),
            Err(_) => None,
        }
    }

    /// Leaves out what the first tree alone has, its paths and its attributes, but for the losses that count: what is
    /// left is what changes where the second tree is laid over the first, and these go.
    pub fn leave_losses(&mut self, losses: &Losses)
        ensures attributes { sides_of self.new.attributes.items
            ≡ filter (gains.counts (gains.takes losses.now)) (sides_of self.old.attributes.items) }
        ensures paths { IsTrue (is_sorted attribute_cmp (sides_of self.old.attributes.items))
            → marks_of self.new.paths.items ≡ filter
            (changes_path losses.now.paths (gains.takes losses.now) (sides_of self.old.attributes.items))
            (marks_of self.old.paths.items) }
    {
        self.attributes.retain(
            |attribute: &AttributeDifference| -> bool
                ensures { result
                    ≡ gains.counts_by (gains.takes losses.entry.now attribute.now.name) attribute.now.side }
            { counts(losses, attribute) },
        );
        let attributes = self.attributes.as_slice();
        self.paths.retain(
            |difference: &Difference| -> bool
                ensures { IsTrue (is_sorted attribute_cmp (sides_of attributes.entry.now))
                    → result ≡ changes_by losses.entry.now.paths difference.now.mark
                    (has_path attributes.entry.now difference.now.path) }
            { changes_path_of(losses, attributes, difference) },
        );
    }

    /// Notes that a step stands in one of the dumps alone, or that the dumps have other steps at one place. The
    /// places come in their order.
    pub(crate) fn note(
        &mut self,
        side: Side,
        first: &DumpStep,
        second: &DumpStep,
    ) -> Result<(), NoMemory>
        ensures marks { IsNoted side first.now second.now
            (marks_of self.old.paths.items)
            (marks_of self.new.paths.items) result }
        ensures attributes { IsAttributeNoted side
            (noted side first.now second.now)
            (marks_of self.old.paths.items) (marks_of self.new.paths.items)
            self.old.attributes.items self.new.attributes.items result }
    {
        let step = noted_of(side, first, second);
        let mark = self.mark(*step.path(), mark_of(side, first, second))?;
        match step.parts() {
            Step::Set(path, name, _) => self.note_attribute(mark, path, name, side),
            Step::Make(_) | Step::Write(_, _, _) => Ok(()),
        }
    }

    /// Notes how the trees differ at the path that comes next, unless that is known; and tells how they differ.
    fn mark(&mut self, path: Path, mark: Mark) -> Result<Mark, NoMemory>
        ensures marks { Marks (marks_of self.old.paths.items)
            (marks_of self.new.paths.items) path mark result }
        ensures attributes { self.new.attributes ≡ self.old.attributes }
    {
        match self.last_mark(&path) {
            Some(mark) => Ok(mark),
            None => {
                self.paths.push(Difference { path, mark })?;
                Ok(mark)
            }
        }
    }

    /// How the trees differ at the path that comes next, if that is known.
    fn last_mark(&self, path: &Path) -> Option<Mark>
        ensures { IsLastMark (marks_of self.now.paths.items) path.now result }
    {
        let last = self.paths.last()?;
        if last.path == *path {
            Some(last.mark)
        } else {
            None
        }
    }

    /// Notes that an attribute differs, of a path at which the trees differ so.
    fn note_attribute(
        &mut self,
        mark: Mark,
        path: &Path,
        name: &AttrName,
        side: Side,
    ) -> Result<(), NoMemory>
        ensures paths { self.new.paths ≡ self.old.paths }
        ensures attributes { OnOk result (self.new.attributes.items
            ≡ with_attribute self.old.attributes.items mark side path.now name.now) }
    {
        if mark == Mark::Bytes || mark == Mark::Attributes {
            self.attributes.push(AttributeDifference {
                path: *path,
                name: *name,
                side,
            })?;
        }
        Ok(())
    }
}

/// Whether an attribute counts that differs.
fn counts(losses: &Losses, attribute: &AttributeDifference) -> bool
    ensures { result ≡ gains.counts_by (gains.takes losses.now attribute.now.name) attribute.now.side }
{
    match attribute.side {
        Side::First => losses.takes(&attribute.name),
        Side::Second | Side::Both => true,
    }
}

/// Whether a path counts, where these attributes do.
fn changes_path_of(
    losses: &Losses,
    attributes: &[AttributeDifference],
    difference: &Difference,
) -> bool
    ensures { IsTrue (is_sorted attribute_cmp (sides_of attributes.now))
        → result ≡ changes_by losses.now.paths difference.now.mark (has_path attributes.now difference.now.path) }
{
    match difference.mark {
        Mark::Removed => losses.paths,
        Mark::Added | Mark::Kind | Mark::Bytes => true,
        Mark::Attributes => has_path_of(attributes, &difference.path),
    }
}

/// Whether one of these attributes, which rise, is of the path.
fn has_path_of(attributes: &[AttributeDifference], path: &Path) -> bool
    ensures { IsTrue (is_sorted attribute_cmp (sides_of attributes.now))
        → result ≡ has_path attributes.now path.now }
{
    attributes
        .binary_search_by(
            |attribute: &AttributeDifference| -> Ordering
                ensures { result ≡ path_cmp attribute.now.path path.entry.now }
            { attribute.path.cmp(path) },
        )
        .is_ok()
}

/// The place of a path among differences that rise; as the error where it would stand.
fn place_of(paths: &[Difference], path: &Path) -> Result<usize, usize>
    ensures bound { IsSearchInRange result (length paths.now) }
    ensures found { IsPathPlace paths.now path.now result }
{
    paths.binary_search_by(
        |difference: &Difference| -> Ordering
            ensures { result ≡ path_cmp difference.now.path path.entry.now }
        { difference.path.cmp(path) },
    )
}

/// The place of an attribute among those that differ, which rise; as the error where it would stand.
fn attribute_place(
    attributes: &[AttributeDifference],
    path: &Path,
    name: &AttrName,
) -> Result<usize, usize>
    ensures bound { IsSearchInRange result (length attributes.now) }
    ensures found { IsAttributePlace attributes.now (path.now, name.now) result }
{
    attributes.binary_search_by(
        |attribute: &AttributeDifference| -> Ordering
            ensures { result ≡ attribute_cmp (attribute.now.path, attribute.now.name)
                (path.entry.now, name.entry.now) }
        {
            attribute
                .path
                .cmp(path)
                .then(attribute.name.as_bytes().cmp(name.as_bytes()))
        },
    )
}

/// The step that is noted: the one that stands alone, or the first of two.
fn noted_of<'a>(side: Side, first: &'a DumpStep, second: &'a DumpStep) -> &'a DumpStep
    ensures { result.now ≡ noted side first.now second.now }
{
    match side {
        Side::First | Side::Both => first,
        Side::Second => second,
    }
}

/// How two trees differ at a path at which this is the first difference of their dumps: a step that one of them has
/// alone, or one of each at one place.
fn mark_of(side: Side, first: &DumpStep, second: &DumpStep) -> Mark
    ensures { FitsSide side first.now second.now result }
{
    match side {
        Side::First => mark_of_one(first, Mark::Removed),
        Side::Second => mark_of_one(second, Mark::Added),
        Side::Both => mark_of_two(first, second),
    }
}

/// The same for a step that one dump has alone: with the first one of an entry the other tree has no entry there.
fn mark_of_one(step: &DumpStep, alone: Mark) -> Mark
    ensures first { is_first step.now ≡ true → result ≡ alone }
    ensures later { is_first step.now ≡ false → result ≡ change_of step.now }
{
    match step.parts() {
        Step::Make(_) | Step::Write(_, 0, _) => alone,
        Step::Write(_, _, _) => Mark::Bytes,
        Step::Set(_, _, _) => Mark::Attributes,
    }
}

/// The same for two steps at one place.
fn mark_of_two(first: &DumpStep, second: &DumpStep) -> Mark
    ensures { result ≡ change_of_two first.now second.now }
{
    match (first.parts(), second.parts()) {
        (Step::Set(_, _, _), _) => Mark::Attributes,
        (Step::Write(_, _, _), Step::Write(_, _, _)) => Mark::Bytes,
        _ => Mark::Kind,
    }
}
