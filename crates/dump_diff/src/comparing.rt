//! Compares two streams.

ghost use Rattle.std.specs.Prelude.{◌≡◌, ℕ, ◌+◌, OnOk, IfOk, IfErr, true};
ghost use Rattle.std.specs.Bool.{OnTrue, OnFalse};
ghost use Rattle.std.specs.declared.cmp.Ordering.TheVariants.{Less, Equal};
ghost use Rattle.store_model.specs.Trees.{Tree, empty_tree};
ghost use Rattle.dump_streams.specs.Dumps.{after_step};
ghost use Rattle.dump_diff.specs.Differences.{marks_of};
ghost use Rattle.dump_diff.specs.Places.{place_cmp};
ghost use Rattle.dump_diff.specs.Sides.{Judges};
ghost use Rattle.dump_diff.specs.Ahead.{IsAhead, IsMerged, IsBetweenSome, AreFound, AreFoundWith, AreMerged, IsSideOf};
ghost use Rattle.dump_diff.specs.Causes.{NoneFails, FirstFails, SecondFails, OneFails, IsCause};

use crate::difference::Side;
use crate::differences::Differences;
use crate::fault::CompareFault;
use crate::heads::Head;
use crate::keeping::Keeping;
use crate::kept_step::KeptStep;
use crate::order::{order, same};
use dump_streams::DumpStream;
use std::alloc::Global;
use std::cmp::Ordering;

/// What two streams have at hand, and how the trees of what came before differ.
#[derive(Drop)]
struct Merge {
    first: Head,
    second: Head,
    found: Differences,
    kept: Keeping,
}

impl Merge {
    /// Which stream has the step at hand whose place is the lower one; nothing where both dumps are whole.
    fn side(&self) -> Option<Side>
        ensures { IsSideOf self.now result }
    {
        if !self.second.is_there {
            return if self.first.is_there {
                Some(Side::First)
            } else {
                None
            };
        }
        if !self.first.is_there {
            return Some(Side::Second);
        }
        match order(&self.first.step, &self.second.step) {
            Ordering::Less => Some(Side::First),
            Ordering::Equal => Some(Side::Both),
            Ordering::Greater => Some(Side::Second),
        }
    }

    /// Takes a step that the first dump has alone.
    fn take_first<A: DumpStream>(&mut self, first: &mut A) -> Result<(), CompareFault>
        requires there { self.old.first.is_there ≡ true }
        requires lower { self.old.second.is_there ≡ true
            → place_cmp self.old.first.step self.old.second.step
            ≡ Less }
        ensures second { self.new.second ≡ self.old.second }
        ensures on { self.new.kept.is_on ≡ self.old.kept.is_on }
        ensures ahead { (t : Tree) → IsAhead (A.came first.old) (A.whole first.old) self.old.first t
            → OnOk result (IsAhead (A.came first.new)
            (A.whole first.new) self.new.first (after_step t self.old.first.step)) }
        ensures merged { (t u : Tree)
            → IsAhead (A.came first.old) (A.whole first.old) self.old.first t
            → IsMerged self.old t u
            → OnOk result (IsMerged self.new (after_step t self.old.first.step) u) }
        ensures failed { (t : Tree) → IsAhead (A.came first.old) (A.whole first.old) self.old.first t
            → IfErr result (FirstFails (A.fails first.new)) }
        ensures keeps { (start : A) → A.keeps start first.old → A.keeps start first.new }
    {
        self.found
            .note(Side::First, &self.first.step, &self.second.step)?;
        self.first.fetch(first).map_err(CompareFault::First)
    }

    /// Takes a step that the second dump has alone.
    fn take_second<B: DumpStream>(&mut self, second: &mut B) -> Result<(), CompareFault>
        requires there { self.old.second.is_there ≡ true }
        requires lower { self.old.first.is_there ≡ true
            → place_cmp self.old.second.step self.old.first.step
            ≡ Less }
        ensures first { self.new.first ≡ self.old.first }
        ensures on { self.new.kept.is_on ≡ self.old.kept.is_on }
        ensures ahead { (u : Tree)
            → IsAhead (B.came second.old) (B.whole second.old) self.old.second u
            → OnOk result (IsAhead (B.came second.new)
            (B.whole second.new) self.new.second
            (after_step u self.old.second.step)) }
        ensures merged { (t u : Tree)
            → IsAhead (B.came second.old) (B.whole second.old) self.old.second u
            → IsMerged self.old t u
            → OnOk result (IsMerged self.new t (after_step u self.old.second.step)) }
        ensures failed { (u : Tree)
            → IsAhead (B.came second.old) (B.whole second.old) self.old.second u
            → IfErr result (SecondFails (B.fails second.new)) }
        ensures keeps { (start : B) → B.keeps start second.old → B.keeps start second.new }
    {
        self.found
            .note(Side::Second, &self.first.step, &self.second.step)?;
        self.kept.keep(&self.found, &self.second.step)?;
        self.second.fetch(second).map_err(CompareFault::Second)
    }

    /// Notes whether the steps at hand, which have one place, differ.
    fn judge(&mut self) -> Result<(), CompareFault>
        ensures first { self.new.first ≡ self.old.first }
        ensures second { self.new.second ≡ self.old.second }
        ensures kept { self.new.kept ≡ self.old.kept }
        ensures judged { Judges self.old.first.step
            self.old.second.step self.old.found self.new.found result }
        ensures fault { IfErr result NoneFails }
    {
        if same(&self.first.step, &self.second.step) {
            return Ok(());
        }
        self.found
            .note(Side::Both, &self.first.step, &self.second.step)?;
        Ok(())
    }

    /// Takes a step of each dump, which have one place.
    fn take_both<A: DumpStream, B: DumpStream>(
        &mut self,
        first: &mut A,
        second: &mut B,
    ) -> Result<(), CompareFault>
        requires first_there { self.old.first.is_there ≡ true }
        requires second_there { self.old.second.is_there ≡ true }
        requires tied { place_cmp self.old.first.step
            self.old.second.step ≡ Equal }
        ensures on { self.new.kept.is_on ≡ self.old.kept.is_on }
        ensures between { (count : ℕ)
            → IsBetweenSome (A.came first.old) (A.whole first.old) (B.came second.old)
            (B.whole second.old) self.old count
            → OnOk result (IsBetweenSome (A.came first.new) (A.whole first.new) (B.came second.new)
            (B.whole second.new) self.new (count + 1)) }
        ensures failed { (count : ℕ)
            → IsBetweenSome (A.came first.old) (A.whole first.old) (B.came second.old)
            (B.whole second.old) self.old count
            → IfErr result (OneFails (A.fails first.new) (B.fails second.new)) }
        ensures keeps_first { (start : A) → A.keeps start first.old → A.keeps start first.new }
        ensures keeps_second { (start : B) → B.keeps start second.old → B.keeps start second.new }
    {
        self.judge()?;
        self.kept.keep(&self.found, &self.second.step)?;
        self.first.fetch(first).map_err(CompareFault::First)?;
        self.second.fetch(second).map_err(CompareFault::Second)
    }

    /// Takes what has the lower place; `false` where both dumps are whole.
    fn step<A: DumpStream, B: DumpStream>(
        &mut self,
        first: &mut A,
        second: &mut B,
    ) -> Result<bool, CompareFault>
        ensures on { self.new.kept.is_on ≡ self.old.kept.is_on }
        ensures more { (count : ℕ)
            → IsBetweenSome (A.came first.old) (A.whole first.old) (B.came second.old)
            (B.whole second.old) self.old count
            → IfOk result
            (λ more. OnTrue more
            (IsBetweenSome (A.came first.new) (A.whole first.new) (B.came second.new)
            (B.whole second.new) self.new (count + 1))) }
        ensures failed { (count : ℕ)
            → IsBetweenSome (A.came first.old) (A.whole first.old) (B.came second.old)
            (B.whole second.old) self.old count
            → IfErr result (OneFails (A.fails first.new) (B.fails second.new)) }
        ensures whole { (count : ℕ)
            → IsBetweenSome (A.came first.old) (A.whole first.old) (B.came second.old)
            (B.whole second.old) self.old count
            → IfOk result (λ more. OnFalse more
            (AreMerged (A.whole first.new) (B.whole second.new) self.new)) }
        ensures keeps_first { (start : A) → A.keeps start first.old → A.keeps start first.new }
        ensures keeps_second { (start : B) → B.keeps start second.old → B.keeps start second.new }
    {
        match self.side() {
            None => return Ok(false),
            Some(Side::First) => self.take_first(first)?,
            Some(Side::Second) => self.take_second(second)?,
            Some(Side::Both) => self.take_both(first, second)?,
        }
        Ok(true)
    }
}

/// Takes two streams to their ends.
fn merge_all<A: DumpStream, B: DumpStream>(
    alloc: Global,
    first: &mut A,
    second: &mut B,
    keeps: bool,
) -> Result<Merge, CompareFault>
    ensures merged { A.came first.old empty_tree → B.came second.old empty_tree
        → IfOk result (AreMerged (A.whole first.new) (B.whole second.new)) }
    ensures on { IfOk result (λ merge. merge.kept.is_on ≡ keeps) }
    ensures failed { A.came first.old empty_tree → B.came second.old empty_tree
        → IfErr result (IsCause (A.came first.new) (A.whole first.new) (A.fails first.new)
        (B.came second.new) (B.whole second.new) (B.fails second.new)) }
    ensures keeps_first { (start : A) → A.keeps start first.old → A.keeps start first.new }
    ensures keeps_second { (start : B) → B.keeps start second.old → B.keeps start second.new }
{
    let mut merge = Merge {
        first: Head::new(),
        second: Head::new(),
        found: Differences::new(alloc),
        kept: Keeping::new(alloc, keeps),
    };
    merge.first.fetch(first).map_err(CompareFault::First)?;
    merge.second.fetch(second).map_err(CompareFault::Second)?;
    for _ in 0..u64::MAX {
        if !merge.step(first, second)? {
            return Ok(merge);
        }
    }
    Err(CompareFault::TooLong)
}

/// Finds the differences between the trees of two dumps. Nothing came yet of either stream.
///
/// `First`, `Second`: that stream ended before its dump did, by this fault. `TooLong`: more steps came than are
/// compared. `NoMemory`: there was none for the differences.
pub fn compare<A: DumpStream, B: DumpStream>(
    alloc: Global,
    first: &mut A,
    second: &mut B,
) -> Result<Differences, CompareFault>
    ensures found { A.came first.old empty_tree → B.came second.old empty_tree
        → IfOk result (AreFound (A.whole first.new) (B.whole second.new)) }
    ensures failed { A.came first.old empty_tree → B.came second.old empty_tree
        → IfErr result (IsCause (A.came first.new) (A.whole first.new) (A.fails first.new)
        (B.came second.new) (B.whole second.new) (B.fails second.new)) }
    ensures keeps_first { (start : A) → A.keeps start first.old → A.keeps start first.new }
    ensures keeps_second { (start : B) → B.keeps start second.old → B.keeps start second.new }
{
    let merge = merge_all(alloc, first, second, false)?;
    Ok(merge.found)
}

/// What is found of two trees, and kept of the second.
#[derive(Drop)]
pub struct Compared {
    /// How they differ.
    pub found: Differences,
    /// The steps of the second dump that make or write what the first tree has not, or has otherwise.
    pub additions: Vec<KeptStep>,
}

/// Finds the differences as `compare` does, and keeps those steps of the second dump that make or write what the first
/// tree has not, or has otherwise. So one walk over both tells all that leads from the first tree to the second. Beside
/// the steps that it keeps it holds those of one path of the second tree.
///
/// The faults are those of `compare`. `NoMemory`: there was none for the differences or for the steps.
pub fn compare_keeping<A: DumpStream, B: DumpStream>(
    alloc: Global,
    first: &mut A,
    second: &mut B,
) -> Result<Compared, CompareFault>
    ensures found { A.came first.old empty_tree → B.came second.old empty_tree
        → IfOk result (λ compared. AreFoundWith (A.whole first.new) (B.whole second.new)
        compared.found compared.additions.items) }
    ensures failed { A.came first.old empty_tree → B.came second.old empty_tree
        → IfErr result (IsCause (A.came first.new) (A.whole first.new) (A.fails first.new)
        (B.came second.new) (B.whole second.new) (B.fails second.new)) }
    ensures keeps_first { (start : A) → A.keeps start first.old → A.keeps start first.new }
    ensures keeps_second { (start : B) → B.keeps start second.old → B.keeps start second.new }
{
    let merge = merge_all(alloc, first, second, true)?;
    let Merge {
        first: _,
        second: _,
        found,
        kept,
    } = merge;
    let additions = kept.finish(&found)?;
    Ok(Compared { found, additions })
}
