//! How a call of `top` or `top_pair` ended.

ghost use Rattle.std.specs.Prelude.{◌≡◌};
ghost use Rattle.image_subcommands.specs.Statuses.{row, done_of_work, done_of_verdict, done_of_mirror};
ghost use Rattle.image_subcommands.specs.Endings.{fault_status, journal_status, line_status, attach_status};
ghost use Rattle.image_subcommands.specs.Endings.{apply_status, mirror_status, ended_status};
ghost use Rattle.image_subcommands.specs.declared.status.Status.TheVariants as statuses;

use gate_journal::JournalFault;
use image_check::{ApplyFault, AttachFault};
use mirror_copy::MirrorFault;
use script_lines::{LineFault, SinkFault};
use store_base::{DiskFault, Fault};

/// How a call of `top` or `top_pair` ended. The program ends with its code.
#[derive(Clone, Copy, Debug, PartialEq, Eq)]
pub enum Status {
    /// All was done: the image is formatted, or is found clean, or is scrubbed, or is one of version 2, or the second
    /// image is the first, or the disk is wiped. Or no line of the script is left and every reply is written, or all
    /// commands of a number are carried out and summed up, or the whole dump is printed, or the tree of the listing
    /// is loaded.
    Done = 0,
    /// The words are not served. Nothing was read, written or printed.
    Usage = 2,
    /// A take from the source failed. The image is the layout of the tree after the answered lines; with a load, of
    /// the tree that it had.
    SourceFault = 3,
    /// A put into the sink failed. With `run` and `session` the image is the layout of the tree after the answered
    /// lines, with `big` that of the tree after all commands; with `scrub` it is scrubbed, where scrubbing leaves the
    /// layout of a tree; with `dump` and `load` it is that of the tree that it had; with a mirror the second image is
    /// the first.
    SinkFault = 4,
    /// A read, a write or a sync of a disk failed.
    DiskFault = 5,
    /// As many bytes were taken as a script may have, and one more came. The image is the layout of the tree after
    /// the answered lines; with a load, of the tree that it had.
    TooLong = 6,
    /// The disk's header, as recovery would leave it, is that of no image of its length; with a mirror, that of either
    /// disk. Nothing was written.
    NotImage = 7,
    /// What recovery would leave is the layout of no tree, or for `scrub` what scrubbing would leave; with a mirror, so
    /// it is of the first image. Nothing was written.
    Damaged = 8,
    /// Memory ran out.
    NoMemory = 9,
    /// There is an image on the disk already. Nothing was written.
    AlreadyImage = 10,
    /// The disk has not the length of the image. Nothing was written.
    WrongLength = 11,
    /// The images of a mirror have other parameters, or are of other versions of the format. Nothing was written.
    Unequal = 13,
    /// The image of a load is not empty. It is as it was, and nothing was taken from the source.
    NotEmpty = 14,
    /// What a load was given is no listing. The image is as it was, and the source was read to its end.
    BadListing = 15,
    /// The tree of a listing has more pages than the image has slots. The image is as it was, and both numbers are
    /// printed.
    TooFull = 16,
}

impl Status {
    /// The number that the program ends with.
    pub fn code(self) -> u8
        ensures { result ≡ (row self).code }
    {
        self as u8
    }

    /// How many pieces of work were carried out by `format`, `wipe`, `upgrade`, `dump` or `load`: one or none.
    pub fn done_of_work(self) -> u64
        ensures { result ≡ done_of_work self }
    {
        match self {
            Status::Done => 1,
            _ => 0,
        }
    }

    /// How many verdicts a check or a scrub came to: one or none.
    pub(crate) fn done_of_verdict(self) -> u64
        ensures { result ≡ done_of_verdict self }
    {
        match self {
            Status::Done | Status::NotImage | Status::Damaged | Status::SinkFault => 1,
            _ => 0,
        }
    }

    /// How many images a mirror made equal to another: one or none.
    pub(crate) fn done_of_mirror(self) -> u64
        ensures { result ≡ done_of_mirror self }
    {
        match self {
            Status::Done | Status::SinkFault => 1,
            _ => 0,
        }
    }
}

/// The status of a call whose work ended so.
pub fn ended_status(ended: Result<(), Status>) -> Status
    ensures { result ≡ ended_status ended }
{
    match ended {
        Ok(()) => Status::Done,
        Err(status) => status,
    }
}

impl From<DiskFault> for Status {
    ghost from_gives = { λ _ status. status ≡ statuses.DiskFault };

    fn from(_: DiskFault) -> Self {
        Status::DiskFault
    }
}

impl From<SinkFault> for Status {
    ghost from_gives = { λ _ status. status ≡ statuses.SinkFault };

    fn from(_: SinkFault) -> Self {
        Status::SinkFault
    }
}

impl From<Fault> for Status {
    ghost from_gives = { λ fault status. status ≡ fault_status fault };

    fn from(fault: Fault) -> Self {
        match fault {
            Fault::Disk => Status::DiskFault,
            Fault::NoMemory => Status::NoMemory,
        }
    }
}

impl From<JournalFault> for Status {
    ghost from_gives = { λ fault status. status ≡ journal_status fault };

    fn from(fault: JournalFault) -> Self {
        match fault {
            JournalFault::Disk => Status::DiskFault,
            JournalFault::AlreadyImage => Status::AlreadyImage,
            JournalFault::WrongLength => Status::WrongLength,
        }
    }
}

impl From<LineFault> for Status {
    ghost from_gives = { λ fault status. status ≡ line_status fault };

    fn from(fault: LineFault) -> Self {
        match fault {
            LineFault::Source => Status::SourceFault,
            LineFault::TooLong => Status::TooLong,
        }
    }
}

impl From<AttachFault> for Status {
    ghost from_gives = { λ fault status. status ≡ attach_status fault };

    fn from(fault: AttachFault) -> Self {
        match fault {
            AttachFault::Disk => Status::DiskFault,
            AttachFault::NoMemory => Status::NoMemory,
            AttachFault::NotImage => Status::NotImage,
            AttachFault::Damaged => Status::Damaged,
        }
    }
}

impl From<ApplyFault> for Status {
    ghost from_gives = { λ fault status. status ≡ apply_status fault };

    fn from(fault: ApplyFault) -> Self {
        match fault {
            // what stopped a store was its disk
            ApplyFault::Disk | ApplyFault::Stopped => Status::DiskFault,
            ApplyFault::NoMemory => Status::NoMemory,
        }
    }
}

impl From<MirrorFault> for Status {
    ghost from_gives = { λ fault status. status ≡ mirror_status fault };

    fn from(fault: MirrorFault) -> Self {
        match fault {
            MirrorFault::FromNotImage | MirrorFault::ToNotImage => Status::NotImage,
            MirrorFault::FromDamaged => Status::Damaged,
            MirrorFault::Unequal { .. } => Status::Unequal,
            MirrorFault::FromDisk | MirrorFault::ToDisk => Status::DiskFault,
            MirrorFault::NoMemory => Status::NoMemory,
        }
    }
}
