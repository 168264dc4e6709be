//! The builder of a folder of the host.

ghost use Rattle.std.specs.Prelude.{◌≡◌, false, IfOk};
ghost use Rattle.std.specs.Prelude.{if◌then◌else◌};
ghost use Rattle.store_base.specs.Counts.{raised};
ghost use Rattle.host_builder.specs.Builders.{untold, faults_after};

use crate::report::Reporter;
use crate::site::{NoFolder, Site};
use dump_streams::TakerFault;
use host_builder::{Builder, HostAttribute, LeftOut};
use path_keys::{AttrName, Path};

/// Makes a tree in a folder of the host. It makes each file and folder where nothing stands, and follows no link. The
/// umask says who may read them. What failed is reported, and what is left out.
#[derive(Drop)]
pub struct HostBuilder<R: Reporter> {
    site: Site<R>,
    counts: Counts,
}

/// What a builder tells of itself.
#[derive(Clone, Copy, Debug)]
struct Counts {
    /// Whether it made a link.
    has_links: bool,
    /// How many calls failed.
    faults: u64,
    /// How many entries were left out.
    left_out: u64,
}

impl Counts {
    /// Counts a call that failed, and hands back how it ended.
    fn counted(&mut self, done: Result<(), TakerFault>) -> Result<(), TakerFault>
        ensures result { result ≡ done }
        ensures faults { self.new.faults ≡ faults_after self.old.faults done }
        ensures links { self.new.has_links ≡ self.old.has_links }
        ensures left_out { self.new.left_out ≡ self.old.left_out }
    {
        if let Err(TakerFault::Failed) = done {
            self.faults = self.faults.saturating_add(1);
        }
        done
    }

    /// Counts a call that took nothing away, and hands back whether it did.
    fn gone(&mut self, is_gone: bool) -> bool
        ensures result { result ≡ is_gone }
        ensures faults { self.new.faults
            ≡ (if is_gone then self.old.faults else raised self.old.faults) }
        ensures links { self.new.has_links ≡ self.old.has_links }
        ensures left_out { self.new.left_out ≡ self.old.left_out }
    {
        if !is_gone {
            self.faults = self.faults.saturating_add(1);
        }
        is_gone
    }
}

impl<R: Reporter + Drop> HostBuilder<R> {
    /// Begins with the folder at a path of the host: it is made, or it is there, empty and no link. After an error the
    /// reporter was told why, and is gone.
    pub fn new(rt: HostRuntime, folder: String, reporter: R) -> Result<Self, NoFolder>
        ensures links { IfOk result (λ builder. builder.counts.has_links ≡ false) }
        ensures faults { IfOk result (λ builder. builder.counts.faults ≡ 0) }
        ensures left_out { IfOk result (λ builder. builder.counts.left_out ≡ 0) }
    {
        let counts = Counts {
            has_links: false,
            faults: 0,
            left_out: 0,
        };
        match Site::begin(rt, folder, reporter) {
            Ok(site) => Ok(HostBuilder { site, counts }),
            Err(why) => Err(why),
        }
    }

    /// How many calls failed.
    pub fn faults(&self) -> u64
        ensures { result ≡ self.now.counts.faults }
    {
        self.counts.faults
    }

    /// How many entries were left out.
    pub fn left_out(&self) -> u64
        ensures { result ≡ self.now.counts.left_out }
    {
        self.counts.left_out
    }

    /// Takes the folder away again where it was made here and nothing stands in it. Nothing is reported.
    pub fn abandon(&mut self) {
        self.site.abandon();
    }
}

impl<R: Reporter + Drop> Builder for HostBuilder<R> {
    ghost state = { λ builder. untold builder.counts.has_links builder.counts.faults
        builder.counts.left_out };

    fn make_folder(&mut self, path: &Path) -> Result<(), TakerFault> {
        let done = self.site.make_folder(path);
        self.counts.counted(done)
    }

    fn write(&mut self, path: &Path, at: u32, bytes: &[u8]) -> Result<(), TakerFault> {
        let done = self.site.write(path, at, bytes);
        self.counts.counted(done)
    }

    fn end_file(&mut self, _: &Path) -> Result<(), TakerFault> {
        let done = self.site.end_file();
        self.counts.counted(done)
    }

    fn let_execute(&mut self, path: &Path) -> Result<(), TakerFault> {
        let done = self.site.let_execute(path);
        self.counts.counted(done)
    }

    fn set_time(&mut self, path: &Path, seconds: u64) -> Result<(), TakerFault> {
        let done = self.site.set_time(path, seconds);
        self.counts.counted(done)
    }

    fn make_link(&mut self, path: &Path, target: &[u8]) -> Result<(), TakerFault> {
        self.counts.has_links = true;
        let done = self.site.make_link(path, target);
        self.counts.counted(done)
    }

    fn remove_file(&mut self, path: &Path) -> bool {
        let is_gone = self.site.remove_file(path);
        self.counts.gone(is_gone)
    }

    fn remove_folder(&mut self, path: &Path) -> bool {
        let is_gone = self.site.remove_folder(path);
        self.counts.gone(is_gone)
    }

    fn remove_root(&mut self) -> bool {
        let is_gone = self.site.remove_root();
        self.counts.gone(is_gone)
    }

    fn leave_out(&mut self, path: &Path, why: LeftOut) {
        self.counts.left_out = self.counts.left_out.saturating_add(1);
        self.site.leave_out(path, why);
    }

    fn leave_attribute_out(&mut self, _: &Path, _: &AttrName, _: Option<HostAttribute>) {}
}
