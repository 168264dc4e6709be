//! Verdicts.

ghost use Rattle.std.specs.Prelude.{◌≡◌};
ghost use Rattle.image_check.specs.SlotCalls.{clean_on, contents_in, verdict_in};

use crate::contents::Contents;
use crate::fault::AttachFault;
use store_base::Fault;

/// What a check says of an image or of its slots.
#[derive(Clone, Copy, Debug, PartialEq, Eq)]
pub enum Verdict {
    /// It represents a tree.
    Clean {
        /// How many slots hold a page.
        pages: u32,
        /// How many directories there are, without the root.
        dirs: u32,
        /// How many files there are.
        files: u32,
        /// How many bytes the files have together.
        bytes: u64,
    },
    /// The disk's header, as recovery would leave it, is that of no image of its length.
    NotImage,
    /// What recovery would leave is the layout of no tree.
    Damaged,
}

/// The verdict on what a tree's layout holds.
fn clean(contents: &Contents) -> Verdict
    ensures { result ≡ clean_on contents.now }
{
    Verdict::Clean {
        pages: contents.used,
        dirs: contents.counts.dirs,
        files: contents.counts.files,
        bytes: contents.counts.bytes,
    }
}

/// The contents of an image by what was found in its slots: it is damaged where they hold no tree.
pub fn contents_of(found: Result<Option<Contents>, Fault>) -> Result<Contents, AttachFault>
    ensures { result ≡ contents_in found }
{
    match found? {
        Some(contents) => Ok(contents),
        None => Err(AttachFault::Damaged),
    }
}

/// The verdict on an image by its contents, or by why there are none.
pub fn verdict_of(found: Result<Contents, AttachFault>) -> Result<Verdict, Fault>
    ensures { result ≡ verdict_in found }
{
    match found {
        Ok(contents) => Ok(clean(&contents)),
        Err(AttachFault::NotImage) => Ok(Verdict::NotImage),
        Err(AttachFault::Damaged) => Ok(Verdict::Damaged),
        Err(AttachFault::Disk) => Err(Fault::Disk),
        Err(AttachFault::NoMemory) => Err(Fault::NoMemory),
    }
}
