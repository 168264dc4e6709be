//! The contract of a source: bytes that come in pieces, from calls that may fail.

ghost use Rattle.script_lines.specs.SourceState.{SourceState, IsTake};

use crate::fault::SourceFault;

/// Bytes that come one after another, in pieces of whatever length.
pub trait Source {
    /// What the source means at this moment: the bytes that it still has, and its count of faults.
    ghost state: { Self → SourceState };

    /// Moves the first bytes that are left into the buffer, and answers how many they are. For a buffer that
    /// is not empty that is 0 exactly where no byte is left: the end of the input.
    /// After `SourceFault` the bytes left are as they were, and the buffer may hold anything.
    fn take(&mut self, into: &mut [u8]) -> Result<usize, SourceFault>
        ensures { IsTake (state self.old) (state self.new) into.new result };
}
