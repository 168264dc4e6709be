//! What became of a pair.

/// What became of a pair.
#[derive(Clone, Copy, Debug, PartialEq, Eq)]
pub enum Taken {
    /// It gives the next step.
    Step,
    /// It gives no step, and one that comes soon does: it begins a file, or a piece of a file.
    More,
    /// No tree has such a pair behind those that came.
    Refused,
}
