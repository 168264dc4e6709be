//! Why a call did not do all that it was asked for, and what each of the libraries' faults is to a person.

ghost use Rattle.std.specs.Prelude.{◌≡◌};
ghost use Rattle.box_calls.specs.Endings as model;
ghost use Rattle.box_calls.specs.Endings.{status_of, summary_trouble};

use crate::reason::Reason;
use box_words::Status;
use image_summary::SummaryFault;

/// Why a call did not do all that it was asked for.
#[derive(Clone, Copy, Debug, PartialEq, Eq)]
pub enum Trouble {
    /// The file is not an image.
    NotImage,
    /// The image is damaged.
    Damaged,
    /// A read of the image failed.
    Disk,
    /// The image changed while it was read.
    Changed,
    /// Memory ran out.
    NoMemory,
    /// Standard output failed.
    Output,
    /// The file that is written failed.
    File,
    /// Nothing stands at the path.
    Nothing,
    /// A folder stands at the path.
    Folder,
    /// A symbolic link stands at the path.
    Link,
    /// The digest is another one.
    Digest,
    /// A file or a folder of the host failed, or cannot be made, which was said already.
    Host,
    /// So much in a folder cannot be in an image.
    Obstacles,
    /// A folder has more entries than any image.
    TooMany,
    /// What a folder told of a path is no entry of an image: it changed meanwhile.
    Moving,
    /// Standard input failed.
    Input,
    /// What came is no listing, as of a line.
    NoListing,
    /// The listing has more bytes than one may have.
    LongListing,
    /// The image that is made could not be written.
    Unwritten,
    /// A tree needs more slots than its image has.
    Full,
    /// A tree has more than is counted, and so more than any image.
    TooMuch,
    /// A change is refused at a path, for this reason.
    Refused(Reason),
    /// The tree that an image is to hold needs more slots than it has.
    Crowded,
    /// The path in the image would be too long for what is put there.
    LongSource,
    /// The disk failed while the image was changed.
    Failed,
}

impl Trouble {
    /// How a call ends that has this trouble.
    pub fn status(self) -> Status
        ensures { result ≡ status_of self }
    {
        match self {
            Trouble::NotImage => Status::NotImage,
            Trouble::Damaged => Status::Damaged,
            Trouble::Disk | Trouble::Changed | Trouble::Unwritten | Trouble::Failed => {
                Status::Disk
            }
            Trouble::NoMemory => Status::NoMemory,
            Trouble::Output => Status::Output,
            Trouble::Nothing | Trouble::Folder | Trouble::Link | Trouble::Refused(_) => {
                Status::Path
            }
            Trouble::Digest => Status::Differs,
            Trouble::File
            | Trouble::Host
            | Trouble::Obstacles
            | Trouble::TooMany
            | Trouble::Moving
            | Trouble::LongSource => Status::Host,
            Trouble::Input => Status::Input,
            Trouble::NoListing | Trouble::LongListing => Status::BadListing,
            Trouble::Full | Trouble::TooMuch | Trouble::Crowded => Status::Full,
        }
    }

    /// Whether it was said already, by what failed.
    pub fn is_said(self) -> bool
        ensures { result ≡ model.is_said self }
    {
        match self {
            Trouble::Host => true,
            _ => false,
        }
    }
}

/// The trouble that it is that an image has no summary.
pub(crate) fn unsummed(fault: SummaryFault) -> Trouble
    ensures { result ≡ summary_trouble fault }
{
    match fault {
        SummaryFault::NotImage => Trouble::NotImage,
        SummaryFault::Damaged => Trouble::Damaged,
        SummaryFault::Disk => Trouble::Disk,
    }
}
