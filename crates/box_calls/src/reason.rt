//! Why a change of an image is refused at a path.

/// Why a change of an image is refused at a path.
#[derive(Clone, Copy, Debug, PartialEq, Eq)]
pub enum Reason {
    /// It is the root, which is neither made, moved nor removed, and has no attributes.
    Root,
    /// Something stands there, and a folder is to be made.
    Made,
    /// Something stands there, and something else is to be moved there.
    Taken,
    /// A file stands there, and a folder has to.
    FileThere,
    /// A folder stands there, and a file is to.
    FolderThere,
    /// Something stands there that is not to be replaced.
    Kept,
    /// No folder is there that it would be in.
    NoParent,
    /// It is a folder that is not empty, and is not to go with all that is in it.
    NotEmpty,
    /// It is inside of what is to be moved there.
    Inside,
    /// The path, one below it, or one with the name of an attribute would be too long.
    Long,
    /// It would have an attribute, and the image has a version that has none.
    OldVersion,
    /// It has no attribute of the name.
    NoAttribute,
    /// It is a folder that is not empty, a file is to stand there, and nothing is to go.
    Hidden,
}

impl Reason {
    /// What is wrong.
    pub(crate) fn wrong(self) -> &'static str {
        match self {
            Reason::Root => "it is the root of the image",
            Reason::Made | Reason::Taken => "it is there already",
            Reason::Kept => "a file is there, which --no-replace keeps",
            Reason::FileThere => "it is a file, where a folder has to be",
            Reason::FolderThere => "it is a folder, where a file has to be",
            Reason::NoParent => "there is no folder that it could be in",
            Reason::NotEmpty => "the folder is not empty",
            Reason::Inside => "it is inside of the folder that is to be moved there",
            Reason::Long => "it would be too long for an image",
            Reason::OldVersion => "an image of version 1 has no attributes",
            Reason::NoAttribute => "it has no such attribute",
            Reason::Hidden => "a folder that is not empty is a file now",
        }
    }

    /// What to do, where that takes no more than words that stand.
    pub(crate) fn advice(self) -> &'static str {
        match self {
            Reason::Root => "give a path below it",
            Reason::Made => "with -p a folder that is there stays",
            Reason::Taken => "-f replaces a file, and into a folder it goes by its path there",
            Reason::Kept => "give another path, or leave --no-replace out",
            Reason::NotEmpty => "-r removes it with all that is in it",
            Reason::Inside => "give a path outside of it",
            Reason::Long => "give shorter names",
            Reason::Hidden => "--delete replaces it",
            Reason::FileThere
            | Reason::FolderThere
            | Reason::NoParent
            | Reason::OldVersion
            | Reason::NoAttribute => "",
        }
    }
}
