//! Writes the listing of a folder.

ghost use Rattle.std.specs.Prelude.{◌≡◌, OnOk, IfErr};
ghost use Rattle.dump_streams.specs.Draining.{WritesUntil};
ghost use Rattle.host_folders.specs.Packed.{CameOf, IsPacked, EndsBy};
ghost use Rattle.host_folders.specs.Packing.{PacksFolder};

use crate::folder::Folder;
use crate::found::Found;
use crate::stream::FolderStream;
use dump_streams::{DrainFault, write_dump};
use script_lines::Sink;

/// Writes the listing of a folder, in which `found` was found. It gives back the stream, which tells where it ended,
/// and the sink.
/// `Stream`: the folder failed, or no image can hold what was found; the lines of what came before were written.
/// `Taker`: the sink failed.
pub fn pack_folder<F: Folder, W: Sink>(
    folder: F,
    found: Vec<Found>,
    sink: W,
) -> (FolderStream<F>, W, Result<(), DrainFault>)
    ensures packs { OnOk result.2
        (PacksFolder F.state W.state folder result.0.folder found.items sink result.1) }
    ensures first { result.0.first.value ≡ folder }
    ensures found { result.0.found ≡ found }
    ensures stops { IfErr result.2 (WritesUntil (CameOf F.state)
        (IsPacked F.state) (EndsBy F.state) W.state result.0 sink result.1) }
{
    let mut stream = FolderStream::new(folder, found);
    let (sink, written) = write_dump(&mut stream, sink);
    (stream, sink, written)
}
