//! The contract of a sink: bytes that go out in pieces, by calls that may fail.

ghost use Rattle.script_lines.specs.SinkState.{SinkState, IsPut};

use crate::fault::SinkFault;

/// A place to which bytes go, one piece after another.
pub trait Sink {
    /// What the sink means at this moment: the bytes that were written, and its count of faults.
    ghost state: { Self → SinkState };

    /// Appends the piece.
    /// After `SinkFault` a prefix of the piece, perhaps none or all of it, may have been appended.
    fn put(&mut self, bytes: &[u8]) -> Result<(), SinkFault>
        ensures { IsPut (state self.old) (state self.new) bytes.now result };
}
