//! The two kinds of draw.

/// How the starts of labels and the levels of keys are drawn.
#[derive(Clone, Copy, Debug, PartialEq, Eq)]
pub enum DrawKind {
    /// By sums and counts of bytes: small images can be worked out by hand.
    Ruler,
    /// By SHA-256 of the seed and the label or key (FIPS 180-4).
    Sha256,
}
