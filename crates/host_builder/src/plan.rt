//! When what the steps of a dump ask for is made.

ghost use Rattle.std.specs.Prelude.{◌≡◌, ◌∷◌, ◌++◌, [], true, List, IsTrue, None, OnOk, IfErr};
ghost use Rattle.dump_streams.specs.declared.taker.TakerFault.TheVariants as faults;
ghost use Rattle.host_builder.specs.declared.plan.Standing.{Standing};
ghost use Rattle.host_builder.specs.Takes.{is_noted};
ghost use Rattle.host_builder.specs.Turns as turns;

use crate::attribute::{HostAttribute, Links, Wanted};
use dump_streams::TakerFault;
use path_keys::Path;
use std::alloc::Global;

/// What was made last.
#[derive(Clone, Copy, Debug)]
pub enum Made {
    /// Nothing.
    Nothing,
    /// A folder at this path.
    Folder(Path),
    /// A file at this path, and whether it is empty.
    File(Path, bool),
}

/// When an attribute of a path is set.
#[derive(Clone, Copy, Debug, PartialEq, Eq)]
pub enum Turn {
    /// At once.
    Now,
    /// Behind all others.
    Later,
    /// Never: it says nothing of the host, or nothing that is wanted.
    Never,
}

/// What was made at a path.
#[derive(Clone, Copy, Debug)]
pub struct Standing {
    pub path: Path,
    pub is_folder: bool,
}

/// What waits.
#[derive(Drop)]
pub enum Later {
    /// A link that leads to these bytes, in the place of the empty file at the path.
    Link(Path, Vec<u8>),
    /// The seconds since 1970 that the folder at the path gets as the time of its last change.
    Time(Path, u64),
}

/// What the host is to have, what was made last, what waits, all that was made, and what ended it.
#[derive(Drop)]
pub struct Plan {
    pub wanted: Wanted,
    pub made: Made,
    pub later: Vec<Later>,
    /// What was made, one behind the other.
    pub stands: Vec<Standing>,
    /// The first path that has none on the host, where such are not skipped.
    pub obstacle: Option<Path>,
}

impl Plan {
    /// A plan before the first step.
    pub fn new(alloc: Global, wanted: Wanted) -> Self
        ensures wanted { result.wanted ≡ wanted }
        ensures made { result.made ≡ Made.Nothing }
        ensures later { result.later.items ≡ [] }
        ensures stands { result.stands.items ≡ [] }
        ensures obstacle { result.obstacle ≡ None }
    {
        Plan {
            wanted,
            made: Made::Nothing,
            later: Vec::new(alloc),
            stands: Vec::new(alloc),
            obstacle: None,
        }
    }

    /// When an attribute of a path is set.
    pub fn turn_of(&self, path: &Path, attribute: HostAttribute) -> Turn
        ensures { result ≡ turns.attribute_turn self.now.wanted self.now.made path.now attribute }
    {
        match &self.made {
            Made::Nothing => Turn::Never,
            Made::Folder(at) => {
                if at == path {
                    turn_of_folder(self.wanted, attribute)
                } else {
                    Turn::Never
                }
            }
            Made::File(at, is_empty) => {
                if at == path {
                    turn_of_file(self.wanted, *is_empty, attribute)
                } else {
                    Turn::Never
                }
            }
        }
    }

    /// Goes on behind an attribute that has this turn: of a file that is to become a link no more is said.
    pub fn move_on(&mut self, turn: Turn)
        ensures made { self.new.made ≡ turns.made_behind self.old.made turn }
        ensures wanted { self.new.wanted ≡ self.old.wanted }
        ensures later { self.new.later ≡ self.old.later }
        ensures stands { self.new.stands ≡ self.old.stands }
        ensures obstacle { self.new.obstacle ≡ self.old.obstacle }
    {
        if let (Made::File(_, _), Turn::Later) = (&self.made, turn) {
            self.made = Made::Nothing;
        }
    }

    /// Keeps what waits, behind what waits already.
    pub fn keep(&mut self, later: Later) -> Result<(), TakerFault>
        ensures kept { OnOk result (self.new.later.items ≡ self.old.later.items ++ later ∷ []) }
        ensures wanted { self.new.wanted ≡ self.old.wanted }
        ensures made { self.new.made ≡ self.old.made }
        ensures stands { self.new.stands ≡ self.old.stands }
        ensures obstacle { self.new.obstacle ≡ self.old.obstacle }
        ensures fault { IfErr result (λ fault. fault ≡ faults.NoMemory) }
    {
        match self.later.push(later) {
            Ok(()) => Ok(()),
            Err(_) => Err(TakerFault::NoMemory),
        }
    }

    /// Notes what is about to be made, behind what was.
    pub fn note(&mut self, path: &Path, is_folder: bool) -> Result<(), TakerFault>
        ensures noted { OnOk result (self.new.stands.items
            ≡ self.old.stands.items ++ record { path = path.now; is_folder = is_folder } ∷ []) }
        ensures wanted { self.new.wanted ≡ self.old.wanted }
        ensures made { self.new.made ≡ self.old.made }
        ensures later { self.new.later ≡ self.old.later }
        ensures obstacle { self.new.obstacle ≡ self.old.obstacle }
        ensures fault { IfErr result (λ fault. fault ≡ faults.NoMemory) }
        ensures same { IfErr result (λ fault. self.new.stands.items ≡ self.old.stands.items) }
    {
        let one = Standing {
            path: *path,
            is_folder,
        };
        match self.stands.push(one) {
            Ok(()) => Ok(()),
            Err(_) => Err(TakerFault::NoMemory),
        }
    }

    /// Forgets what was noted last, which was not made.
    pub fn forget(&mut self)
        ensures stands { (before : List Standing) (one : Standing)
            → self.old.stands.items ≡ before ++ one ∷ [] → self.new.stands.items ≡ before }
        ensures wanted { self.new.wanted ≡ self.old.wanted }
        ensures made { self.new.made ≡ self.old.made }
        ensures later { self.new.later ≡ self.old.later }
        ensures obstacle { self.new.obstacle ≡ self.old.obstacle }
    {
        let _ = self.stands.pop();
    }

    /// Whether the file at this path was noted last.
    pub fn is_last(&self, path: &Path) -> bool
        ensures { result ≡ true → IsTrue (is_noted self.now.stands.items path.now) }
    {
        match self.stands.last() {
            Some(one) => one.path == *path,
            None => false,
        }
    }

    /// The file that was made last, where nothing was made behind it.
    pub fn last_file(&self) -> Option<Path> {
        match self.stands.last() {
            Some(one) if !one.is_folder => Some(one.path),
            _ => None,
        }
    }
}

/// When an attribute of a folder is set.
fn turn_of_folder(wanted: Wanted, attribute: HostAttribute) -> Turn
    ensures { result ≡ turns.folder_turn wanted attribute }
{
    match attribute {
        HostAttribute::Time(_) if wanted.mtime => Turn::Later,
        _ => Turn::Never,
    }
}

/// When an attribute of a file is set.
fn turn_of_file(wanted: Wanted, is_empty: bool, attribute: HostAttribute) -> Turn
    ensures { result ≡ turns.file_turn wanted is_empty attribute }
{
    match attribute {
        HostAttribute::Executes if wanted.mode => Turn::Now,
        HostAttribute::Time(_) if wanted.mtime => Turn::Now,
        HostAttribute::Link if wanted.links != Links::Data && is_empty => Turn::Later,
        _ => Turn::Never,
    }
}
