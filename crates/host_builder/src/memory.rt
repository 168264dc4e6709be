//! A builder in memory, some of whose calls fail on purpose. It tells what it holds.

ghost use Rattle.std.specs.Prelude.{◌≡◌, ◌↔◌, ◌∷◌, ◌++◌, [], false, true, Contains, IsErrOf, IfErr, OnOk};
ghost use Rattle.std.specs.Prelude.{if◌then◌else◌};
ghost use Rattle.std.specs.Fmt.{decimal};
ghost use Rattle.store_base.specs.Counts.{raised};
ghost use Rattle.dump_streams.specs.Dumps.DumpStep.{Make, Write, Set};
ghost use Rattle.dump_streams.specs.declared.taker.TakerFault.TheVariants as faults;
ghost use Rattle.host_builder.specs.Builders.{Builds, CarriesOut, Removes, RemovesRoot, told_of_one};
ghost use Rattle.host_builder.specs.Memory.{memory_state, Keeps};
ghost use Rattle.host_builder.specs.HostAttributes.{mode_name, mode_byte, mtime_name, link_name};

use crate::attribute::{HostAttribute, LeftOut};
use crate::builder::Builder;
use dump_streams::TakerFault;
use path_keys::{AttrName, Path};
use std::alloc::Global;

/// What a builder in memory carried out, or was told.
#[derive(Drop)]
pub enum BuiltStep {
    /// A folder was made.
    Folder(Path),
    /// Bytes were written into a file, from an offset on.
    Bytes(Path, u32, Vec<u8>),
    /// A file was ended.
    Ended(Path),
    /// A file may be executed.
    Executes(Path),
    /// The seconds since 1970 of the last change were set.
    Time(Path, u64),
    /// A link that leads to these bytes was made in the place of an empty file.
    Link(Path, Vec<u8>),
    /// A file or a folder was taken away.
    Removed(Path),
    /// The folder itself was taken away.
    RemovedRoot,
    /// An entry is left out, and why.
    LeftOut(Path, LeftOut),
}

/// A builder in memory, which keeps what it carried out. It carries out whatever it is asked for.
#[derive(Drop)]
pub struct MemBuilder {
    alloc: Global,
    steps: Vec<BuiltStep>,
    failing: Vec<u64>,
    calls: u64,
    has_links: bool,
    faults: u64,
    left_out: u64,
}

impl MemBuilder {
    /// A builder that holds nothing. Its calls are numbered from 0, but for those that tell it something, and those
    /// fail whose numbers stand in `failing`. Else a call fails only where memory runs out.
    pub fn new(alloc: Global, failing: Vec<u64>) -> Self
        ensures { memory_state result ≡ record {
          is_observable = true;
          holds = [];
          has_links = false;
          faults = 0;
          left_out = 0;
        } }
    {
        MemBuilder {
            alloc,
            steps: Vec::new(alloc),
            failing,
            calls: 0,
            has_links: false,
            faults: 0,
            left_out: 0,
        }
    }

    /// What it carried out and was told, one step after another.
    pub fn steps(&self) -> &[BuiltStep]
        ensures { result.now ≡ self.now.steps.items }
    {
        &self.steps
    }

    /// Carries a step out.
    fn carry_out(&mut self, step: BuiltStep) -> Result<(), TakerFault>
        ensures keeps { Keeps self.old self.new step result }
        ensures fails { IsErrOf result faults.Failed
            ↔ Contains self.old.failing.items self.old.calls }
    {
        let fails = self.failing.contains(&self.calls);
        self.calls = self.calls.saturating_add(1);
        if fails {
            self.faults = self.faults.saturating_add(1);
            return Err(TakerFault::Failed);
        }
        self.keep(step)
    }

    /// Keeps a step behind the others.
    fn keep(&mut self, step: BuiltStep) -> Result<(), TakerFault>
        ensures kept { OnOk result (self.new.steps.items ≡ self.old.steps.items ++ step ∷ []) }
        ensures same { IfErr result (λ fault. self.new.steps.items ≡ self.old.steps.items) }
        ensures fault { IfErr result (λ fault. fault ≡ faults.NoMemory) }
        ensures failing { self.new.failing ≡ self.old.failing }
        ensures calls { self.new.calls ≡ self.old.calls }
        ensures links { self.new.has_links ≡ self.old.has_links }
        ensures faults { self.new.faults ≡ self.old.faults }
        ensures left_out { self.new.left_out ≡ self.old.left_out }
    {
        match self.steps.push(step) {
            Ok(()) => Ok(()),
            Err(_) => Err(TakerFault::NoMemory),
        }
    }

    /// Takes something away; whether it is gone.
    fn remove(&mut self, step: BuiltStep) -> bool
        ensures faults { self.new.faults
            ≡ (if result then self.old.faults else raised self.old.faults) }
        ensures links { self.new.has_links ≡ self.old.has_links }
        ensures left_out { self.new.left_out ≡ self.old.left_out }
        ensures kept { result ≡ true → self.new.steps.items ≡ self.old.steps.items ++ step ∷ [] }
        ensures same { result ≡ false → self.new.steps.items ≡ self.old.steps.items }
    {
        match self.carry_out(step) {
            Ok(()) => true,
            Err(TakerFault::Failed) => false,
            Err(TakerFault::NoMemory) => {
                self.faults = self.faults.saturating_add(1);
                false
            }
        }
    }
}

impl Builder for MemBuilder {
    ghost state = { memory_state };

    fn make_folder(&mut self, path: &Path) -> Result<(), TakerFault> {
        self.carry_out(BuiltStep::Folder(*path))
    }

    fn write(&mut self, path: &Path, at: u32, bytes: &[u8]) -> Result<(), TakerFault> {
        let Ok(bytes) = Vec::from_slice(self.alloc, bytes) else {
            return Err(TakerFault::NoMemory);
        };
        self.carry_out(BuiltStep::Bytes(*path, at, bytes))
    }

    fn end_file(&mut self, path: &Path) -> Result<(), TakerFault> {
        self.carry_out(BuiltStep::Ended(*path))
    }

    fn let_execute(&mut self, path: &Path) -> Result<(), TakerFault> {
        self.carry_out(BuiltStep::Executes(*path))
    }

    fn set_time(&mut self, path: &Path, seconds: u64) -> Result<(), TakerFault> {
        self.carry_out(BuiltStep::Time(*path, seconds))
    }

    fn make_link(&mut self, path: &Path, target: &[u8]) -> Result<(), TakerFault> {
        let Ok(target) = Vec::from_slice(self.alloc, target) else {
            return Err(TakerFault::NoMemory);
        };
        self.has_links = true;
        self.carry_out(BuiltStep::Link(*path, target))
    }

    fn remove_file(&mut self, path: &Path) -> bool {
        self.remove(BuiltStep::Removed(*path))
    }

    fn remove_folder(&mut self, path: &Path) -> bool {
        self.remove(BuiltStep::Removed(*path))
    }

    fn remove_root(&mut self) -> bool {
        self.remove(BuiltStep::RemovedRoot)
    }

    fn leave_out(&mut self, path: &Path, why: LeftOut) {
        self.left_out = self.left_out.saturating_add(1);
        let _ = self.keep(BuiltStep::LeftOut(*path, why));
    }

    fn leave_attribute_out(&mut self, _: &Path, _: &AttrName, _: Option<HostAttribute>) {}
}
