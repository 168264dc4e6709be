//! Why a stream of steps ends before its dump does.

ghost use Rattle.std.specs.Prelude.{◌≡◌};
ghost use Rattle.dump_streams.specs.Faults.{line_fault};

use script_lines::LineFault;
use thiserror::Error;

/// Why a stream gave no further step, and not because the dump was whole.
#[derive(Clone, Copy, Debug, PartialEq, Eq, Error)]
pub enum StreamFault {
    /// Memory ran out.
    #[error("memory ran out")]
    NoMemory,
    /// What the stream reads from failed.
    #[error("the source cannot be read")]
    Unreadable,
    /// What comes next goes on with no dump.
    #[error("no dump goes on so")]
    NoDump,
    /// The source is longer than a script may be.
    #[error("the listing is too long")]
    TooLong,
}

impl From<LineFault> for StreamFault {
    ghost from_gives = { λ cause fault. fault ≡ line_fault cause };

    fn from(fault: LineFault) -> Self {
        match fault {
            LineFault::Source => StreamFault::Unreadable,
            LineFault::TooLong => StreamFault::TooLong,
        }
    }
}
