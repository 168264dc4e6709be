//! Writes the lines of a stream.

ghost use Rattle.entry_lines.specs.Listings.{ListsStream};

use crate::form::ListForm;
use crate::lister::EntryLister;
use dump_streams::{DrainFault, DumpStream, drain};
use dump_views::Standing;
use path_keys::Path;
use script_lines::Sink;
use std::alloc::Global;

/// Writes the lines of what a stream, from which no step came, has at a path: of a file its own, and of a folder those
/// of its children or of all below it, in the order of paths. It gives back the sink, and answers what stands at the
/// path; where nothing does, no line is written.
///
/// `Stream`: the stream ended before its dump did. `Taker`: the sink failed, or memory ran out. After an error the sink
/// may have got the first lines.
pub fn write_entries<S: DumpStream, W: Sink>(
    alloc: Global,
    stream: &mut S,
    top: &Path,
    form: ListForm,
    sink: W,
) -> (W, Result<Standing, DrainFault>)
    ensures lists { ListsStream S.came S.whole S.fails stream.old stream.new form top.now
        (W.state sink) (W.state result.0) result.1 }
    ensures keeps { (start : S) → S.keeps start stream.old → S.keeps start stream.new }
{
    let mut lister = EntryLister::new(alloc, form, *top, sink);
    if let Err(fault) = drain(stream, &mut lister) {
        return (lister.into_sink(), Err(fault));
    }
    let (sink, finished) = lister.finish();
    match finished {
        Ok(standing) => (sink, Ok(standing)),
        Err(fault) => (sink, Err(DrainFault::Taker(fault))),
    }
}
