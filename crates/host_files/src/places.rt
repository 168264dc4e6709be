//! Which entries of a listing can be made on the host, and where.

ghost use Rattle.std.specs.Prelude.{◌≡◌, IfOk};
ghost use Rattle.std.specs.String.{string_bytes};
ghost use Rattle.host_names.specs.HostPaths.{IsHostPath};

use crate::report::{Remark, Reporter, Thing};
use host_names::{HostPathFault, host_text};
use path_keys::Path;
use std::alloc::Global;
use std::io::Error;

/// Where the entries of a listing are made. One whose path is none on the host is left out, and all below it: the first
/// of them is named.
#[derive(Drop)]
pub struct Places<R: Reporter> {
    alloc: Global,
    /// The path of the folder on the host.
    folder: String,
    reporter: R,
    /// The last entry that was named.
    last_named: Option<Path>,
}

impl<R: Reporter + Drop> Places<R> {
    /// The places in the folder at a path of the host.
    pub fn new(alloc: Global, folder: String, reporter: R) -> Self {
        Places {
            alloc,
            folder,
            reporter,
            last_named: None,
        }
    }

    /// The path of the folder.
    pub fn folder(&self) -> &str {
        self.folder.as_str()
    }

    /// The reporter.
    pub fn reporter(&mut self) -> &mut R {
        &mut self.reporter
    }

    /// Reports something of the folder, and what the system answered.
    pub fn report(&mut self, remark: Remark, error: Option<&Error>) {
        let thing = Thing::Host(self.folder.as_str());
        self.reporter.report(&thing, remark, error);
    }

    /// The path on the host of an entry, below the folder, if it has one.
    pub fn text(&self, path: &Path) -> Result<String, HostPathFault>
        ensures { IfOk result
            (λ text. IsHostPath (string_bytes self.now.folder) path.now (string_bytes text)) }
    {
        host_text(self.alloc, self.folder.as_str(), path)
    }

    /// Names an entry that is left out for this reason, where none above it was.
    pub fn leave_out(&mut self, path: &Path, why: HostPathFault)
        ensures { self.new.folder ≡ self.old.folder }
    {
        let remark = match why {
            HostPathFault::NoSpelling => Remark::NoSpelling,
            HostPathFault::NotUtf8 => Remark::NotUtf8,
            HostPathFault::NoMemory => Remark::NoMemory,
        };
        if let Some(named) = &self.last_named
            && path.is_inside(named)
        {
            return;
        }
        self.last_named = Some(*path);
        self.reporter.report(&Thing::Path(path), remark, None);
    }
}
