//! The contract of a folder of the host.

ghost use Rattle.host_folders.specs.FolderState.{FolderState, IsListed, IsOpened, IsFileRead, IsAsked};

use crate::fault::FolderFault;
use crate::found::Found;
use crate::target::LinkTarget;
use path_keys::Path;

/// A folder of the host, which tells what stands in it, what its files hold and where its links lead. It may change
/// between two calls: what counts are its answers.
///
/// Each call answers `Unreadable` only where the folder's count of faults rose by one, up to its last value, and
/// `NoMemory` where memory ran out.
pub trait Folder {
    /// What it has told so far, and how many of its calls failed.
    ghost state: { Self → FolderState };

    /// Adds what stands in the folder at a path, in any order, to what was found. What has no place in an image is left
    /// out; the folder keeps for itself what that was.
    fn list(&mut self, path: &Path, found: &mut Vec<Found>) -> Result<(), FolderFault>
        ensures { IsListed (state self.old)
            (state self.new) path.now found.old.items found.new.items result };

    /// Opens the file at a path, in the place of the one that was open, and answers how many bytes it has. It may give
    /// more or fewer when it is read, where it changes meanwhile.
    fn open(&mut self, path: &Path) -> Result<u32, FolderFault>
        ensures { IsOpened (state self.old) (state self.new) path.now result };

    /// Reads the next bytes of the file that is open into the buffer, and answers how many came. For a buffer that is
    /// not empty, no bytes come only at the end of the file.
    fn read(&mut self, into: &mut [u8]) -> Result<usize, FolderFault>
        ensures { IsFileRead (state self.old) (state self.new) into.new result };

    /// Answers where the link at a path leads. It is not followed.
    fn target(&mut self, path: &Path) -> Result<LinkTarget, FolderFault>
        ensures { IsAsked (state self.old) (state self.new) path.now result };
}
