//! The check of an image on a disk.

ghost use Rattle.image_check.specs.ImageCalls.{FindsImage, ChecksImage};

use crate::contents::Contents;
use crate::fault::AttachFault;
use crate::slots::find_contents;
use crate::verdict::{Verdict, contents_of, verdict_of};
use disk_model::Disk;
use gate_journal::{Journal, View};
use store_base::Fault;

/// Finds what a disk holds as recovery would leave it. The disk is only read, and handed back. `NotImage` is the
/// answer to a disk whose header would then be that of no image of its length, and to no other. `Damaged` is the
/// answer to an image that represents no tree. `Disk` comes only where the disk failed, and `NoMemory` never.
pub fn find_image<D: Disk>(mut disk: D) -> (D, Result<Contents, AttachFault>)
    ensures { FindsImage (D.state disk) (D.state result.0) result.1 }
{
    let params = match Journal::view_header(&mut disk) {
        Ok(Some(params)) => params,
        Ok(None) => return (disk, Err(AttachFault::NotImage)),
        Err(fault) => return (disk, Err(fault.into())),
    };
    let mut view = View::new(disk, &params);
    let found = find_contents(&mut view, &params);
    (view.into_disk(), contents_of(found))
}

/// Checks an image as recovery would leave it; the disk is only read, and handed back. `Clean` is the verdict on an
/// image that represents a tree, and on no other; `NotImage` that on a disk whose header would then be that of no image
/// of its length; `Damaged` that on any other disk. `Fault::Disk` comes only where the disk failed, and
/// `Fault::NoMemory` never.
pub fn check<D: Disk>(disk: D) -> (D, Result<Verdict, Fault>)
    ensures { ChecksImage (D.state disk) (D.state result.0) result.1 }
{
    let (disk, found) = find_image(disk);
    (disk, verdict_of(found))
}
