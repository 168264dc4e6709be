//! The summary of an image.

ghost use Rattle.std.specs.Prelude.{◌≡◌};
ghost use Rattle.gate_journal.specs.Headers.{HasParameters};
ghost use Rattle.image_summary.specs.Summaries.{Summarizes, fault_of, Digests};

use crate::journal::has_empty_journal;
use disk_model::Disk;
use gate_journal::Journal;
use image_check::{AttachFault, Contents, find_image};
use recovered_store::{into_below, recovered_disk};
use store_base::{DiskFault, Params};
use thiserror::Error;

/// What an image holds, in numbers.
#[derive(Clone, Copy, Debug)]
pub struct Summary {
    /// Its parameters, how many of its slots hold a page, and how many folders without the root, files and bytes of
    /// files its tree has.
    pub contents: Contents,
    /// Whether a recovery is pending: the image's bytes are not those that recovery would leave.
    pub is_pending: bool,
    /// SHA-256 (FIPS 180-4) of the image as recovery would leave it.
    pub digest: [u8; 32],
}

/// Why an image has no summary.
#[derive(Clone, Copy, Debug, PartialEq, Eq, Error)]
pub enum SummaryFault {
    /// The disk's header, as recovery would leave it, is that of no image of its length.
    #[error("this is no image")]
    NotImage,
    /// It is an image, but even recovered it would hold no tree.
    #[error("the image is damaged")]
    Damaged,
    /// The disk failed.
    #[error("the disk failed")]
    Disk,
}

/// Why an image has no summary that was not found to be one. A check takes no memory.
fn fault_of(fault: AttachFault) -> SummaryFault
    ensures { result ≡ fault_of fault }
{
    match fault {
        AttachFault::NotImage => SummaryFault::NotImage,
        AttachFault::Damaged => SummaryFault::Damaged,
        AttachFault::Disk | AttachFault::NoMemory => SummaryFault::Disk,
    }
}

/// SHA-256 of the image as recovery would leave it. The disk is only read, and handed back.
fn digest_recovered<D: Disk>(disk: D, params: &Params) -> (D, Result<[u8; 32], DiskFault>)
    requires { HasParameters (D.state disk) params.now }
    ensures { Digests params.now (D.state disk) (D.state result.0) result.1 }
{
    let mut recovered = recovered_disk(disk, params);
    let digest = Journal::digest(&mut recovered);
    (into_below(recovered), digest)
}

/// Finds what an image holds, in numbers. The disk is only read, and handed back: checked, and then digested.
/// `NotImage` is the answer to a disk whose header, as recovery would leave it, is that of no image of its length, and
/// to no other; `Damaged` to an image that represents no tree. `Disk` comes only where the disk failed. It takes no
/// memory.
pub fn sum_up<D: Disk>(disk: D) -> (D, Result<Summary, SummaryFault>)
    ensures { Summarizes (D.state disk) (D.state result.0) result.1 }
{
    let (mut disk, found) = find_image(disk);
    let contents = match found {
        Ok(contents) => contents,
        Err(fault) => return (disk, Err(fault_of(fault))),
    };
    let Ok(is_empty) = has_empty_journal(&mut disk, &contents.params) else {
        return (disk, Err(SummaryFault::Disk));
    };
    let (disk, digest) = digest_recovered(disk, &contents.params);
    match digest {
        Ok(digest) => {
            let summary = Summary {
                contents,
                is_pending: !is_empty,
                digest,
            };
            (disk, Ok(summary))
        }
        Err(DiskFault) => (disk, Err(SummaryFault::Disk)),
    }
}
