//! Takes the steps of a dump, and has them carried out on the host.

ghost use Rattle.std.specs.Prelude.{◌≡◌, ◌∷◌, ◌++◌, [], false, OnOk, IfOk, IfErr};
ghost use Rattle.dump_streams.specs.Dumps.DumpStep.{Make, Write, Set};
ghost use Rattle.dump_streams.specs.Dumps.{step_path};
ghost use Rattle.dump_streams.specs.Takers.{IsTaken};
ghost use Rattle.host_builder.specs.Builders.{Builds};
ghost use Rattle.dump_streams.specs.declared.taker.TakerFault.TheVariants as faults;
ghost use Rattle.host_builder.specs.HostAttributes.{link_name, IsSpelled};
ghost use Rattle.host_builder.specs.Passing.{begins};
ghost use Rattle.host_builder.specs.Turns.{attribute_turn, later_step, link_steps, link_paths, time_steps};
ghost use Rattle.host_builder.specs.Takes.{TookSteps, TookStep, Puts, Turned, Keeps, Looked, Breaks, BreaksStep};
ghost use Rattle.host_builder.specs.Takes.{IsFresh, CarriesLater, TakesBack, Finishes};

use crate::attribute::{HostAttribute, LeftOut, Links, Wanted, attribute_in};
use crate::builder::Builder;
use crate::plan::{Later, Made, Plan, Standing, Turn};
use dump_streams::{DumpStep, Step, Taker, TakerFault};
use host_names::has_host_text;
use path_keys::{AttrName, Path};
use std::alloc::Global;

/// Has the steps of a dump carried out by a builder. Links and the times of folders wait for `finish`.
#[derive(Drop)]
pub struct BuildTaker<B: Builder> {
    alloc: Global,
    builder: B,
    plan: Plan,
    ghost unlinked: { (B.state builder).has_links ≡ false },
}

impl<B: Builder> BuildTaker<B> {
    /// A taker over a builder that made no link. The host is to have so much.
    pub fn new(alloc: Global, builder: B, wanted: Wanted) -> Self
        requires { (B.state builder).has_links ≡ false }
        ensures builder { result.builder ≡ builder }
        ensures wanted { result.plan.wanted ≡ wanted }
        ensures fresh { IsFresh result.plan }
        ensures none { TookSteps (B.state result.builder) (B.state result.builder)
            result.plan result.plan [] }
    {
        BuildTaker {
            alloc,
            builder,
            plan: Plan::new(alloc, wanted),
        }
    }

    /// Ends the file that was made last, where nothing was made behind it.
    fn end_last(&mut self) -> Result<(), TakerFault>
        ensures builds { Builds (B.state self.old.builder) (B.state self.new.builder) [] result }
        ensures plan { self.new.plan ≡ self.old.plan }
    {
        match self.plan.last_file() {
            Some(path) => self.builder.end_file(&path),
            None => Ok(()),
        }
    }

    /// Makes a folder.
    fn make(&mut self, path: &Path) -> Result<(), TakerFault>
        ensures took { OnOk result (TookStep (B.state self.old.builder)
            (B.state self.new.builder) self.old.plan
            self.new.plan (Make path.now)) }
        ensures broken { IfErr result (Breaks (B.state self.old.builder)
            (B.state self.new.builder) self.old.plan self.new.plan) }
    {
        self.end_last()?;
        self.plan.note(path, true)?;
        if let Err(fault) = self.builder.make_folder(path) {
            self.plan.forget();
            return Err(fault);
        }
        self.plan.made = Made::Folder(*path);
        Ok(())
    }

    /// Writes a piece of a file.
    fn write(&mut self, path: &Path, at: u32, bytes: &[u8]) -> Result<(), TakerFault>
        ensures took { OnOk result (TookStep (B.state self.old.builder)
            (B.state self.new.builder) self.old.plan
            self.new.plan (Write path.now at bytes.now)) }
        ensures broken { IfErr result (Breaks (B.state self.old.builder)
            (B.state self.new.builder) self.old.plan self.new.plan) }
    {
        self.put(path, at, bytes)?;
        self.plan.made = Made::File(*path, at == 0 && bytes.is_empty());
        Ok(())
    }

    /// Puts a piece behind those of the file that was made last, or makes a file.
    fn put(&mut self, path: &Path, at: u32, bytes: &[u8]) -> Result<(), TakerFault>
        ensures put { OnOk result (Puts (B.state self.old.builder)
            (B.state self.new.builder) self.old.plan self.new.plan
            (Write path.now at bytes.now)) }
        ensures broken { IfErr result (Breaks (B.state self.old.builder)
            (B.state self.new.builder) self.old.plan self.new.plan) }
    {
        if at > 0 && self.plan.is_last(path) {
            return self.builder.write(path, at, bytes);
        }
        self.end_last()?;
        self.plan.note(path, false)?;
        if let Err(fault) = self.builder.write(path, at, bytes) {
            self.plan.forget();
            return Err(fault);
        }
        Ok(())
    }

    /// Sets an attribute, or keeps it for `finish`, or tells that it is left out.
    fn set(&mut self, path: &Path, name: &AttrName, bytes: &[u8]) -> Result<(), TakerFault>
        ensures took { OnOk result (TookStep (B.state self.old.builder)
            (B.state self.new.builder) self.old.plan
            self.new.plan (Set path.now name.now bytes.now)) }
        ensures broken { IfErr result (Breaks (B.state self.old.builder)
            (B.state self.new.builder) self.old.plan self.new.plan) }
    {
        let Some(attribute) = attribute_in(name.as_bytes(), bytes) else {
            self.builder.leave_attribute_out(path, name, None);
            self.plan.move_on(Turn::Never);
            return Ok(());
        };
        let turn = self.plan.turn_of(path, attribute);
        self.set_in_turn(turn, attribute, path, name, bytes)?;
        self.plan.move_on(turn);
        Ok(())
    }

    /// Does with an attribute what it has its turn for.
    fn set_in_turn(
        &mut self,
        turn: Turn,
        attribute: HostAttribute,
        path: &Path,
        name: &AttrName,
        bytes: &[u8],
    ) -> Result<(), TakerFault>
        requires spelled { IsSpelled name.now bytes.now attribute }
        requires turn { turn ≡ attribute_turn self.old.plan.wanted self.old.plan.made path.now
            attribute }
        ensures turned { OnOk result (Turned (B.state self.old.builder)
            (B.state self.new.builder) self.old.plan self.new.plan turn
            (Set path.now name.now bytes.now)) }
        ensures broken { IfErr result (Breaks (B.state self.old.builder)
            (B.state self.new.builder) self.old.plan self.new.plan) }
    {
        match (turn, attribute) {
            (Turn::Now, HostAttribute::Executes) => self.builder.let_execute(path),
            (Turn::Now, HostAttribute::Time(seconds)) => self.builder.set_time(path, seconds),
            (Turn::Later, HostAttribute::Time(seconds)) => {
                self.plan.keep(Later::Time(*path, seconds))
            }
            (Turn::Later, HostAttribute::Link) => self.keep_link(path, bytes),
            (Turn::Never | Turn::Now, _) | (Turn::Later, HostAttribute::Executes) => {
                self.builder
                    .leave_attribute_out(path, name, Some(attribute));
                Ok(())
            }
        }
    }

    /// Keeps a link, with a target of its own.
    fn keep_link(&mut self, path: &Path, target: &[u8]) -> Result<(), TakerFault>
        ensures builder { self.new.builder ≡ self.old.builder }
        ensures kept { OnOk result (Keeps self.old.plan self.new.plan
            (Set path.now link_name target.now)) }
        ensures broken { IfErr result (Breaks (B.state self.old.builder)
            (B.state self.new.builder) self.old.plan self.new.plan) }
    {
        let link = link_to(self.alloc, path, target)?;
        self.plan.keep(link)
    }

    /// Whether the step is on a path that is left out since it has none on the host. Where it begins there, the builder
    /// is told; where such are not skipped, that is an obstacle, at which all ends.
    fn is_left_out(&mut self, step: &DumpStep) -> Result<bool, TakerFault>
        ensures looked { IfOk result (Looked (B.state self.old.builder)
            (B.state self.new.builder) self.old.plan self.new.plan step.now) }
        ensures broken { IfErr result (BreaksStep (B.state self.old.builder)
            (B.state self.new.builder) self.old.plan self.new.plan step.now) }
    {
        let (path, begins) = place_of(step);
        if has_host_text(path) {
            return Ok(false);
        }
        if !self.plan.wanted.skips {
            self.builder.leave_out(path, LeftOut::NoName);
            self.plan.obstacle = Some(*path);
            return Err(TakerFault::Failed);
        }
        if begins {
            self.builder.leave_out(path, LeftOut::NoName);
        }
        Ok(true)
    }

    /// Gives the builder back, what was made, and the obstacle that was met, if one was. Nothing is made of what waits.
    pub fn into_parts(self) -> (B, Vec<Standing>, Option<Path>)
        ensures builder { result.0 ≡ self.builder }
        ensures stands { result.1 ≡ self.plan.stands }
        ensures obstacle { result.2 ≡ self.plan.obstacle }
        ensures links { (B.state result.0).has_links ≡ false }
    {
        let BuildTaker {
            alloc: _,
            builder,
            plan,
        } = self;
        (builder, plan.stands, plan.obstacle)
    }

    /// Makes what waited: the links, or leaves them out, and behind them the times of folders. It gives back the
    /// builder, and what was made.
    pub fn finish(self) -> (B, Vec<Standing>, Result<(), TakerFault>)
        ensures finishes { Finishes self.plan.wanted.links (B.state self.builder)
            (B.state result.0) self.plan.later.items result.2 }
        ensures stands { result.1 ≡ self.plan.stands }
    {
        let BuildTaker {
            alloc: _,
            mut builder,
            plan,
        } = self;
        let finished = finish_all(&mut builder, &plan);
        (builder, plan.stands, finished)
    }
}

/// The path that a step is on, and whether it is the first of those that make what stands there.
fn place_of(step: &DumpStep) -> (&Path, bool)
    ensures path { result.0.now ≡ step_path step.now }
    ensures begins { result.1 ≡ begins step.now }
{
    match step.parts() {
        Step::Make(path) => (path, true),
        Step::Write(path, at, _) => (path, at == 0),
        Step::Set(path, _, _) => (path, false),
    }
}

/// Ends the last file, and makes what waited.
fn finish_all<B: Builder>(builder: &mut B, plan: &Plan) -> Result<(), TakerFault>
    requires { (B.state builder.old).has_links ≡ false }
    ensures { Finishes plan.now.wanted.links (B.state builder.old) (B.state builder.new)
        plan.now.later.items result }
{
    if let Some(path) = plan.last_file() {
        builder.end_file(&path)?;
    }
    match plan.wanted.links {
        Links::LeftOut => take_links_back(builder, &plan.later)?,
        Links::Made | Links::Data => make_links(builder, &plan.later)?,
    }
    set_times(builder, &plan.later)
}

/// The link that waits, with a target of its own.
fn link_to(alloc: Global, path: &Path, target: &[u8]) -> Result<Later, TakerFault>
    ensures link { IfOk result (λ later. later_step later ≡ Set path.now link_name target.now) }
    ensures fault { IfErr result (λ fault. fault ≡ faults.NoMemory) }
{
    match Vec::from_slice(alloc, target) {
        Ok(target) => Ok(Later::Link(*path, target)),
        Err(_) => Err(TakerFault::NoMemory),
    }
}

/// Makes the links that waited, one after another.
fn make_links<B: Builder>(builder: &mut B, later: &[Later]) -> Result<(), TakerFault>
    ensures { CarriesLater (B.state builder.old) (B.state builder.new) (link_steps later.now) result }
{
    for one in later {
        match one {
            Later::Link(path, target) => builder.make_link(path, target)?,
            Later::Time(_, _) => {}
        }
    }
    Ok(())
}

/// Takes the empty files away that stand for the links that waited, one after another, and tells that they are left
/// out.
fn take_links_back<B: Builder>(builder: &mut B, later: &[Later]) -> Result<(), TakerFault>
    ensures { TakesBack (B.state builder.old) (B.state builder.new) (link_paths later.now) result }
{
    for one in later {
        match one {
            Later::Link(path, _) => leave_link_out(builder, path)?,
            Later::Time(_, _) => {}
        }
    }
    Ok(())
}

/// Takes an empty file away that stands for a link, and tells that it is left out.
fn leave_link_out<B: Builder>(builder: &mut B, path: &Path) -> Result<(), TakerFault>
    ensures { TakesBack (B.state builder.old) (B.state builder.new) (path.now ∷ []) result }
{
    if !builder.remove_file(path) {
        return Err(TakerFault::Failed);
    }
    builder.leave_out(path, LeftOut::Link);
    Ok(())
}

/// Sets the times that waited, one after another.
fn set_times<B: Builder>(builder: &mut B, later: &[Later]) -> Result<(), TakerFault>
    ensures { CarriesLater (B.state builder.old) (B.state builder.new) (time_steps later.now) result }
{
    for one in later {
        match one {
            Later::Link(_, _) => {}
            Later::Time(path, seconds) => builder.set_time(path, *seconds)?,
        }
    }
    Ok(())
}

impl<B: Builder> Taker for BuildTaker<B> {
    ghost took = { λ first now steps. TookSteps (B.state first.builder)
        (B.state now.builder) first.plan now.plan steps };

    ghost broke = { λ old new step fault. BreaksStep (B.state old.builder)
        (B.state new.builder) old.plan new.plan step fault };

    /// Carries the step out, or keeps it for `finish`, or leaves it out.
    fn take(&mut self, step: &DumpStep) -> Result<(), TakerFault> {
        if self.is_left_out(step)? {
            return Ok(());
        }
        match step.parts() {
            Step::Make(path) => self.make(path),
            Step::Write(path, at, bytes) => self.write(path, at, bytes.as_slice()),
            Step::Set(path, name, bytes) => self.set(path, name, bytes.as_slice()),
        }
    }
}
