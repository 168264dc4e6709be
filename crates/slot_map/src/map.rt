//! The call that writes a picture of an image.

ghost use Rattle.gate_journal.specs.Headers.{HasParameters};
ghost use Rattle.slot_map.specs.MapCalls.{ReadsDisk, disk_answer, ShowsDisk};

use crate::fault::MapFault;
use crate::picture::write_picture;
use crate::table::{read_flag, read_marks, read_slots};
use disk_model::Disk;
use gate_journal::Journal;
use script_lines::Sink;
use store_base::{MAX_SLOTS, Params};

/// As `write_map`, for the image of these parameters.
// Some hundred kilobytes are on the stack while it runs, and not in the frame of whoever calls it.
#[inline(never)]
fn write_image<D: Disk, W: Sink>(
    disk: &mut D,
    params: &Params,
    sink: &mut W,
) -> Result<(), MapFault>
    requires { HasParameters (D.state disk.old) params.now }
    ensures disk { ReadsDisk (D.state disk.old) (D.state disk.new) (disk_answer result) }
    ensures sink { ShowsDisk (D.state disk.old) (W.state sink.old) (W.state sink.new) result }
{
    let slots = params.slots();
    let flag = read_flag(disk, slots)?;
    let mut mark_room = [0; MAX_SLOTS as usize + 1];
    let marks = &mut mark_room[..slots as usize + 1];
    read_marks(disk, slots, marks)?;
    let mut slot_room = [0; MAX_SLOTS as usize];
    let chars = &mut slot_room[..slots as usize];
    read_slots(disk, slots, chars)?;
    Ok(write_picture(sink, params, flag, chars, marks)?)
}

/// Writes a picture of the image on a disk to a sink: a line with its parameters, a line with the commit flag, and the
/// slots of the table in rows of 64, a character each.
///
/// `.` is a free slot, all zero; `0` to `7` is the level of the page in it; `?` stands for any other bytes. Where the
/// commit flag or a mark is set, the marks follow in the same rows, `+` where one is set, and the version's in a line
/// of its own. What is shown are the bytes as they stand, not what recovery would leave. The disk is only read, and
/// nothing is put out before all of it was read. No memory is taken.
///
/// `NoImage` comes exactly where the disk's header, as it is read, is that of no image of its length; `Disk` only where
/// the disk failed, and `Sink` only where the sink did. After `NoImage` and `Disk` nothing was put out, and after
/// `Sink` a prefix of the picture.
pub fn write_map<D: Disk, W: Sink>(disk: &mut D, sink: &mut W) -> Result<(), MapFault>
    ensures disk { ReadsDisk (D.state disk.old) (D.state disk.new) (disk_answer result) }
    ensures sink { ShowsDisk (D.state disk.old) (W.state sink.old) (W.state sink.new) result }
{
    match Journal::view_header(disk)? {
        Some(params) => write_image(disk, &params, sink),
        None => Err(MapFault::NoImage),
    }
}
