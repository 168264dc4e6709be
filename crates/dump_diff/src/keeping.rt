//! What is kept of the second dump while two are compared: the steps that make or write what the first tree has not.

ghost use Rattle.std.specs.Prelude.{◌≡◌, ◌++◌, true, OnOk, IfOk};
ghost use Rattle.std.specs.List.{filter};
ghost use Rattle.dump_diff.specs.Scripts as model;
ghost use Rattle.dump_diff.specs.Scripts.{AreRising};
ghost use Rattle.dump_diff.specs.Keeping.{KeepsNone, KeepsStep, MakesRoom, Settles, is_of_last};

use crate::differences::Differences;
use crate::kept_step::KeptStep;
use crate::script::is_kept_addition;
use dump_streams::DumpStep;
use path_keys::Path;
use std::alloc::Global;
use store_base::NoMemory;

/// Keeps steps of the second dump as they come. Whether a step is an addition is known once all of its path came: so
/// the steps of the last path are held apart.
#[derive(Drop)]
pub struct Keeping {
    alloc: Global,
    is_on: bool,
    last: Option<Path>,
    steps: Vec<KeptStep>,
    own: Vec<KeptStep>,
}

impl Keeping {
    /// Keeps steps, or none at all.
    pub(crate) fn new(alloc: Global, is_on: bool) -> Self
        ensures { KeepsNone result is_on }
    {
        Keeping {
            alloc,
            is_on,
            last: None,
            steps: Vec::new(alloc),
            own: Vec::new(alloc),
        }
    }

    /// Takes the next step of the dump. What was found tells all of the paths before it.
    pub(crate) fn keep(&mut self, found: &Differences, step: &DumpStep) -> Result<(), NoMemory>
        ensures on { self.new.is_on ≡ self.old.is_on }
        ensures kept { AreRising found.now → self.old.is_on ≡ true
            → OnOk result (KeepsStep found.now step.now self.old self.new) }
    {
        if !self.is_on {
            return Ok(());
        }
        self.make_room(found, step)?;
        self.own.push(KeptStep::of(self.alloc, step)?)?;
        Ok(())
    }

    /// Settles what is kept, unless the step is on the last path.
    fn make_room(&mut self, found: &Differences, step: &DumpStep) -> Result<(), NoMemory>
        ensures on { self.new.is_on ≡ self.old.is_on }
        ensures made { AreRising found.now
            → OnOk result (MakesRoom found.now step.now self.old self.new) }
    {
        if self.is_of_last(step) {
            return Ok(());
        }
        self.settle(found)?;
        self.last = Some(*step.path());
        Ok(())
    }

    /// Whether a step is on the last path.
    fn is_of_last(&self, step: &DumpStep) -> bool
        ensures { result ≡ is_of_last self.now.last step.now }
    {
        match &self.last {
            Some(path) => *path == *step.path(),
            None => false,
        }
    }

    /// Keeps the additions among the steps of the last path, and drops the others.
    fn settle(&mut self, found: &Differences) -> Result<(), NoMemory>
        ensures on { self.new.is_on ≡ self.old.is_on }
        ensures last { self.new.last ≡ self.old.last }
        ensures settled { AreRising found.now → OnOk result (Settles found.now self.old self.new) }
    {
        self.own.retain(
            |step: &KeptStep| -> bool
                ensures { AreRising found.entry.now
                    → result ≡ model.is_addition found.entry.now step.now }
            { is_kept_addition(found, step) },
        );
        self.steps.append(&mut self.own)?;
        Ok(())
    }

    /// The additions, where all of the dump came.
    pub(crate) fn finish(mut self, found: &Differences) -> Result<Vec<KeptStep>, NoMemory>
        ensures { AreRising found.now → IfOk result (λ kept. kept.items
            ≡ self.steps.items ++ filter (model.is_addition found.now) self.own.items) }
    {
        self.settle(found)?;
        let Keeping {
            alloc: _,
            is_on: _,
            last: _,
            steps,
            own: _,
        } = self;
        Ok(steps)
    }
}
