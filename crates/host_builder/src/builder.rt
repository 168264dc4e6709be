//! The contract of a builder of the host.

ghost use Rattle.std.specs.Prelude.{◌≡◌, ◌∷◌, [], false};
ghost use Rattle.std.specs.Fmt.{decimal};
ghost use Rattle.dump_streams.specs.Dumps.DumpStep.{Make, Write, Set};
ghost use Rattle.host_builder.specs.Builders.{BuilderState, Builds, CarriesOut, Removes, RemovesRoot, told_of_one};
ghost use Rattle.host_builder.specs.HostAttributes.{mode_name, mode_byte, mtime_name, link_name};

use crate::attribute::{HostAttribute, LeftOut};
use dump_streams::TakerFault;
use path_keys::{AttrName, Path};

/// A folder of the host in which a tree is made. Paths lead from it.
///
/// A call answers `Failed` only where the builder's count of faults rose during it, or stands at its last value, and
/// `NoMemory` where memory ran out. After an error a part of what was asked for may have been made, but no path stands
/// that did not stand before. What failed is told by the builder itself.
pub trait Builder {
    /// What it holds, how many of its calls failed, and of how many entries it was told that they are left out.
    ghost state: { Self → BuilderState };

    /// Makes a folder where nothing stands. No link was made yet.
    fn make_folder(&mut self, path: &Path) -> Result<(), TakerFault>
        requires { (state self.old).has_links ≡ false }
        ensures { Builds (state self.old) (state self.new) (Make path.now ∷ []) result };

    /// Writes bytes behind the `at` bytes of the file that was made last; where that is 0, makes a file where nothing
    /// stands. They may wait in the builder until the file is ended. No link was made yet.
    fn write(&mut self, path: &Path, at: u32, bytes: &[u8]) -> Result<(), TakerFault>
        requires { (state self.old).has_links ≡ false }
        ensures { Builds (state self.old) (state self.new) (Write path.now at bytes.now ∷ [])
            result };

    /// Ends the file that was made last: all that was written to it is on the host. No link was made yet.
    fn end_file(&mut self, path: &Path) -> Result<(), TakerFault>
        requires { (state self.old).has_links ≡ false }
        ensures { Builds (state self.old) (state self.new) [] result };

    /// Lets those execute a file that was made who may read it. No link was made yet.
    fn let_execute(&mut self, path: &Path) -> Result<(), TakerFault>
        requires { (state self.old).has_links ≡ false }
        ensures { Builds (state self.old) (state self.new)
            (Set path.now mode_name mode_byte ∷ []) result };

    /// Sets the time of the last change, in seconds since 1970, of a file or a folder that was made.
    fn set_time(&mut self, path: &Path, seconds: u64) -> Result<(), TakerFault>
        ensures { Builds (state self.old) (state self.new)
            (Set path.now mtime_name (decimal seconds) ∷ []) result };

    /// Makes a link that leads to `target` in the place of an empty file that was made. It is not followed.
    fn make_link(&mut self, path: &Path, target: &[u8]) -> Result<(), TakerFault>
        ensures { CarriesOut (state self.old) (state self.new)
            (Set path.now link_name target.now ∷ []) result };

    /// Takes a file that was made away again, or the link in its place, which is not followed; whether nothing stands
    /// there now. Else the count of faults rises.
    fn remove_file(&mut self, path: &Path) -> bool
        ensures { Removes (state self.old) (state self.new) path.now result };

    /// Takes a folder that was made away again, in which nothing stands any more; whether nothing stands there now.
    /// Else the count of faults rises.
    fn remove_folder(&mut self, path: &Path) -> bool
        ensures { Removes (state self.old) (state self.new) path.now result };

    /// Takes the folder itself away where it was made for this; whether it is as it was before. Else the count of
    /// faults rises. It is the last call of those that take away.
    fn remove_root(&mut self) -> bool
        ensures { RemovesRoot (state self.old) (state self.new) result };

    /// Is told that an entry is left out, and why.
    fn leave_out(&mut self, path: &Path, why: LeftOut)
        ensures { state self.new ≡ told_of_one (state self.old) };

    /// Is told that nothing is made of an attribute of what was made last, and what it says of a host, if it says
    /// something.
    fn leave_attribute_out(
        &mut self,
        path: &Path,
        name: &AttrName,
        attribute: Option<HostAttribute>,
    )
        ensures { state self.new ≡ state self.old };
}
