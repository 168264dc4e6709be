//! How a call of `hbox` ended.

ghost use Rattle.std.specs.Prelude.{◌≡◌};
ghost use Rattle.box_words.specs.Statuses.{code_of};

/// How a call of `hbox` ended. The program ends with its code. With each but `Done` and `Differs` the tree of the image
/// is as it was before the call.
#[derive(Clone, Copy, Debug, PartialEq, Eq)]
pub enum Status {
    /// All was done, or what was compared is equal.
    Done = 0,
    /// What was compared differs, or something was left out.
    Differs = 1,
    /// The words are not well formed, or the seed on standard input is not. No image was opened.
    Words = 2,
    /// Standard input could not be read.
    Input = 3,
    /// Standard output could not be written.
    Output = 4,
    /// A read, a write or a sync of an image failed.
    Disk = 5,
    /// A file is not an image.
    NotImage = 7,
    /// An image is damaged.
    Damaged = 8,
    /// Memory ran out.
    NoMemory = 9,
    /// A file could not be opened or made.
    NotOpened = 12,
    /// Two images have other parameters.
    Unequal = 13,
    /// What came is no listing.
    BadListing = 15,
    /// The image has too few slots.
    Full = 16,
    /// A path is missing, stands already, or is of the wrong kind.
    Path = 17,
    /// A file of the host failed, or has no place in an image.
    Host = 18,
    /// Another program has the image.
    Locked = 19,
}

impl Status {
    /// The number that the program ends with.
    pub fn code(self) -> u8
        ensures { result ≡ code_of self }
    {
        self as u8
    }
}

/// No two statuses have one number.
pub fn codes_are_distinct()
    ensures { (status other : Status) → code_of status ≡ code_of other → status ≡ other }
{}
