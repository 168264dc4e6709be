//! A step of a dump that is kept, in as much memory as its bytes take.

ghost use Rattle.std.specs.Prelude.{◌≡◌, IfOk};
ghost use Rattle.script_lines.specs.Sessions.{change_of};
ghost use Rattle.dump_streams.specs.Dumps.{command_of_step, step_path};
ghost use Rattle.dump_diff.specs.Kept.{kept_step};

use dump_streams::{DumpStep, Step};
use path_keys::{AttrName, Path};
use script_lines::Change;
use std::alloc::Global;
use std::marker::Model;
use store_base::{Bytes, NoMemory};

/// What a kept step does at its path.
#[derive(Debug, Drop)]
pub enum KeptPart {
    /// Makes a directory.
    Make,
    /// Writes bytes into a file from an offset on.
    Write(u32, Vec<u8>),
    /// Gives the path an attribute with these bytes.
    Set(AttrName, Vec<u8>),
}

/// A step of a dump that is kept.
#[derive(Debug, Drop)]
pub struct KeptStep {
    path: Path,
    part: KeptPart,
}

impl Model for KeptStep {
    ghost use Rattle.dump_streams.specs.Dumps.{DumpStep};
    ghost use Rattle.dump_diff.specs.Kept.{kept_step, IsShort};

    ghost Value = { DumpStep };

    ghost view = { λ s. kept_step s.path s.part };

    ghost invariant = { λ s. IsShort s.part };
}

impl KeptStep {
    /// Copies a step.
    pub(crate) fn of(alloc: Global, step: &DumpStep) -> Result<Self, NoMemory>
        ensures { IfOk result (λ kept. kept ≡ step.now) }
    {
        let path = *step.path();
        let part = match step.parts() {
            Step::Make(_) => KeptPart::Make,
            Step::Write(_, at, bytes) => {
                KeptPart::Write(at, Vec::from_slice(alloc, bytes.as_slice())?)
            }
            Step::Set(_, name, bytes) => {
                KeptPart::Set(*name, Vec::from_slice(alloc, bytes.as_slice())?)
            }
        };
        Ok(KeptStep { path, part })
    }

    /// The path that it is on.
    pub fn path(&self) -> &Path
        ensures { result.now ≡ step_path self.now }
    {
        &self.path
    }

    /// What it does there.
    pub(crate) fn part(&self) -> &KeptPart
        ensures { kept_step (step_path self.now) result.now ≡ self.now }
    {
        &self.part
    }

    /// The change that carries it out.
    pub fn change(&self) -> Change
        ensures { change_of result ≡ command_of_step self.now }
    {
        match &self.part {
            KeptPart::Make => Change::Make(self.path),
            KeptPart::Write(at, bytes) => {
                Change::Write(self.path, *at, Bytes::new(bytes.as_slice()))
            }
            KeptPart::Set(name, bytes) => {
                Change::Set(self.path, *name, Bytes::new(bytes.as_slice()))
            }
        }
    }
}
