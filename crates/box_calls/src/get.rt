//! `get`: copies a file of an image.

ghost use Rattle.std.specs.Prelude.{◌≡◌};
ghost use Rattle.dump_streams.specs.Gathered.{gathered_state, IsFlushed};
ghost use Rattle.box_words.specs.declared.status.Status.TheVariants as statuses;
ghost use Rattle.box_calls.specs.Gets.{target_trouble, Gets, got};

use crate::place::{Ended, Place};
use crate::reads::unread;
use crate::telling::{About, ended};
use crate::trouble::Trouble;
use disk_model::Disk;
use dump_streams::GatheredSink;
use image_reads::{FileFound, FileRead, ReadFault, read_file};
use path_keys::Path;
use script_lines::{Sink, SinkFault};

/// Where the bytes of a file go.
#[derive(Clone, Copy, Debug, PartialEq, Eq)]
pub enum Target {
    /// To standard output.
    Output,
    /// To a file.
    File,
}

impl Target {
    /// The trouble where it could not be written.
    fn trouble(self) -> Trouble
        ensures { result ≡ target_trouble self }
    {
        match self {
            Target::Output => Trouble::Output,
            Target::File => Trouble::File,
        }
    }
}

/// What the copy of a file came to that was found so, and whose last bytes were put so.
fn got(
    target: Target,
    found: &Result<FileFound, ReadFault>,
    flushed: Result<(), SinkFault>,
) -> Result<(), Trouble>
    ensures { result ≡ got target found.now flushed }
{
    match found {
        Ok(FileFound::File) => match flushed {
            Ok(()) => Ok(()),
            Err(SinkFault) => Err(target.trouble()),
        },
        Ok(FileFound::Folder) => Err(Trouble::Folder),
        Ok(FileFound::Link(_)) => Err(Trouble::Link),
        Ok(FileFound::Nothing) => Err(Trouble::Nothing),
        Err(ReadFault::Output) => Err(target.trouble()),
        Err(fault) => Err(unread(*fault)),
    }
}

/// What the trouble of a copy is about.
fn about_of<'a>(found: &'a Result<FileFound, ReadFault>, path: &'a Path) -> About<'a> {
    match found {
        Ok(FileFound::Link(target)) => About::Link(path, target.as_bytes()),
        _ => About::Path(path),
    }
}

/// Puts the bytes of the file at a path of an image into the first sink, to the last. Of a folder or a link it puts
/// none, and says of a link where it leads.
pub fn get_file<D: Disk, W: Sink, E: Sink>(
    place: &Place<'_>,
    disk: D,
    path: &Path,
    target: Target,
    out: GatheredSink<W>,
    say: E,
) -> Ended<D, GatheredSink<W>, E>
    ensures gets { Gets path.now target (D.state disk) (D.state result.disk)
        (gathered_state W.state out) (gathered_state W.state result.out) (E.state say)
        (E.state result.say) result.status }
    ensures flushed { result.status ≡ statuses.Done → IsFlushed W.state result.out }
{
    let FileRead { disk, sink, found } = read_file(place.alloc, disk, path, out);
    let (mut out, mut say) = (sink, say);
    let flushed = out.flush();
    let done = got(target, &found, flushed);
    let status = ended(place, done, about_of(&found, path), &mut say);
    Ended {
        status,
        disk,
        out,
        say,
    }
}
