//! What can go wrong with a source or a sink.

use thiserror::Error;

/// A take from a source failed.
/// A call answers it exactly where it raised the source's count of faults by one.
#[derive(Clone, Copy, Debug, PartialEq, Eq, Error)]
#[error("the source failed")]
pub struct SourceFault;

/// A put into a sink failed.
/// A call answers it exactly where it raised the sink's count of faults by one.
#[derive(Clone, Copy, Debug, PartialEq, Eq, Error)]
#[error("the sink failed")]
pub struct SinkFault;
