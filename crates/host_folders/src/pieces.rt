//! The pieces of a file.

ghost use Rattle.std.specs.Prelude.{◌<◌, length};
ghost use Rattle.host_folders.specs.FolderState.{IsFilled};
ghost use Rattle.host_folders.specs.Steps.{ReadsPiece};

use crate::fault::FolderFault;
use crate::folder::Folder;
use dump_streams::{DUMP_PIECE, DumpStep};
use path_keys::Path;

/// Reads the next piece of the file that is open, and puts into `into` the step that writes it at this offset of
/// this path. It answers how many bytes the piece has: 2,048, or fewer at the end of the file.
pub(crate) fn read_piece<F: Folder>(
    folder: &mut F,
    path: &Path,
    at: u32,
    into: &mut DumpStep,
) -> Result<usize, FolderFault>
    ensures { ReadsPiece (F.state folder.old) (F.state folder.new) path.now at
        into.new result }
{
    let mut piece = [0; DUMP_PIECE as usize];
    let count = fill(folder, &mut piece)?;
    into.write(*path, at, &piece[..count]);
    Ok(count)
}

/// Fills a buffer from the file that is open, and answers how many bytes came: less than its length only at the end of
/// the file.
fn fill<F: Folder>(folder: &mut F, into: &mut [u8]) -> Result<usize, FolderFault>
    requires { 0 < length into.old }
    ensures { IsFilled (F.state folder.old) (F.state folder.new) into.new result }
{
    let mut count = 0;
    while count < into.len() {
        let more = folder.read(&mut into[count..])?;
        if more == 0 {
            return Ok(count);
        }
        count += more;
    }
    Ok(count)
}
