//! The steps of the dump of a folder.

ghost use Rattle.std.specs.Prelude.{◌≡◌, ◌<◌, ◌+◌, ◌++◌, ◌∷◌, [], take, length, true, false, vec_len, OnOk, IfErr};
ghost use Rattle.store_model.specs.Trees.{Tree, empty_tree};
ghost use Rattle.dump_streams.specs.Reading.{AddsStep};
ghost use Rattle.dump_streams.specs.Streams.{IsNext};
ghost use Rattle.host_folders.specs.Packed.{CameOf, IsFile, IsPacked, IsOfSame, EndsBy};
ghost use Rattle.host_folders.specs.Steps.{path_at, Gives};
ghost use Rattle.host_folders.specs.Steps as steps;

use crate::attribute::attribute_name;
use crate::folder::Folder;
use crate::found::{Found, FoundKind};
use crate::pieces::read_piece;
use crate::target::LinkTarget;
use dump_streams::{DUMP_PIECE, DumpStep, DumpStream, ListingReader, StreamFault};
use path_keys::Path;
use std::snapshot::Snapshot;
use store_base::Version;

/// What comes next.
#[derive(Clone, Copy, Debug)]
enum Place {
    /// What makes the next entry.
    Start,
    /// The piece of this file that begins at this offset.
    Piece(Found, u32),
    /// The attribute at this index among those of this folder or file.
    Attribute(Found, usize),
    /// The attribute of this link, which leads there.
    Target(Found, LinkTarget),
}

/// The steps of the dump of the tree that a folder's answers give: what was found in it, what its files hold when they
/// are read, and where its links lead when they are asked.
#[derive(Drop)]
pub struct FolderStream<F: Folder> {
    folder: F,
    found: Vec<Found>,
    /// How many of what was found were begun.
    at: usize,
    place: Place,
    /// How many bytes the file has that was begun last, as the folder told when it was opened; 0 for that of a link.
    told: u32,
    /// Which step may be the next.
    reader: ListingReader,
    /// The folder before it was asked for the first file or link.
    first: Snapshot<F>,
}

impl<F: Folder> FolderStream<F> {
    /// Makes the stream of a folder, in which `found` was found.
    pub fn new(folder: F, found: Vec<Found>) -> Self
        ensures came { CameOf F.state result empty_tree }
        ensures first { result.first.value ≡ folder }
        ensures found { result.found ≡ found }
        ensures same { result.folder ≡ folder }
    {
        FolderStream {
            first: Snapshot::of(&folder),
            folder,
            found,
            at: 0,
            place: Place::Start,
            told: 0,
            reader: ListingReader::new(Version::Two),
        }
    }

    /// The path of the entry at which the stream is; nothing where all came. After a fault it is that of the entry at
    /// which the fault came.
    pub fn path(&self) -> Option<Path>
        ensures { result ≡ path_at self.now.place self.now.at self.now.found.items }
    {
        match &self.place {
            Place::Start => match self.found.get(self.at) {
                Some(found) => Some(found.path),
                None => None,
            },
            Place::Piece(found, _) | Place::Attribute(found, _) | Place::Target(found, _) => {
                Some(found.path)
            }
        }
    }

    /// How many entries came, the last of them maybe not whole.
    pub fn passed(&self) -> usize
        ensures { (t : Tree) → CameOf F.state self.now t → result ≡ length t }
    {
        self.at
    }

    /// How many entries come in all.
    pub fn len(&self) -> usize
        ensures { result ≡ vec_len self.now.found }
    {
        self.found.len()
    }

    /// How many bytes the file has that was begun last, as the folder told when it was opened; 0 for the empty file of
    /// a link, and where none was begun. What comes of a file may be more or less.
    pub fn told(&self) -> u32
        ensures { result ≡ self.now.told }
    {
        self.told
    }

    /// Gives the folder back.
    pub fn into_folder(self) -> F
        ensures { result ≡ self.folder }
    {
        let FolderStream {
            folder,
            found: _,
            at: _,
            place: _,
            told: _,
            reader: _,
            first: _,
        } = self;
        folder
    }

    /// Begins the next entry, if there is one.
    fn begin(&mut self, into: &mut DumpStep) -> Result<bool, StreamFault>
        requires { self.old.place ≡ Place.Start }
        ensures next { IsNext (CameOf F.state self.old) (CameOf F.state self.new)
            (IsPacked F.state self.new)
            (EndsBy F.state self.new) into.new result }
        ensures same { IsOfSame self.old self.new }
    {
        if self.at >= self.found.len() {
            return Ok(false);
        }
        let found = self.found[self.at];
        match found.kind {
            FoundKind::Folder => self.begin_folder(&found, into)?,
            FoundKind::File(_) => self.begin_file(&found, into)?,
            FoundKind::Link => self.begin_link(&found, into)?,
        }
        Ok(true)
    }

    /// Makes a folder, the next entry.
    fn begin_folder(&mut self, found: &Found, into: &mut DumpStep) -> Result<(), StreamFault>
        requires start { self.old.place ≡ Place.Start }
        requires kind { found.now.kind ≡ FoundKind.Folder }
        requires more { self.old.at < vec_len self.old.found }
        requires here { take (self.old.at + 1) self.old.found.items
            ≡ take self.old.at self.old.found.items ++ found.now ∷ [] }
        ensures gives { Gives (CameOf F.state self.old) (CameOf F.state self.new)
            into.new result }
        ensures failed { (t : Tree) → CameOf F.state self.old t → IfErr result (EndsBy F.state self.new t) }
        ensures same { IsOfSame self.old self.new }
    {
        into.make(found.path);
        self.add(into)?;
        self.at += 1;
        self.place = Place::Attribute(*found, 0);
        Ok(())
    }

    /// Opens a file, the next entry, and writes its first piece.
    fn begin_file(&mut self, found: &Found, into: &mut DumpStep) -> Result<(), StreamFault>
        requires start { self.old.place ≡ Place.Start }
        requires kind { IsFile found.now.kind }
        requires more { self.old.at < vec_len self.old.found }
        requires here { take (self.old.at + 1) self.old.found.items
            ≡ take self.old.at self.old.found.items ++ found.now ∷ [] }
        ensures gives { Gives (CameOf F.state self.old) (CameOf F.state self.new)
            into.new result }
        ensures failed { (t : Tree) → CameOf F.state self.old t → IfErr result (EndsBy F.state self.new t) }
        ensures same { IsOfSame self.old self.new }
    {
        let told = self.folder.open(&found.path)?;
        self.told = told;
        let count = read_piece(&mut self.folder, &found.path, 0, into)?;
        self.add(into)?;
        self.at += 1;
        self.place = place_behind(found, 0, count);
        Ok(())
    }

    /// Asks where a link leads, the next entry, and writes the empty file that stands for it.
    fn begin_link(&mut self, found: &Found, into: &mut DumpStep) -> Result<(), StreamFault>
        requires start { self.old.place ≡ Place.Start }
        requires kind { found.now.kind ≡ FoundKind.Link }
        requires more { self.old.at < vec_len self.old.found }
        requires here { take (self.old.at + 1) self.old.found.items
            ≡ take self.old.at self.old.found.items ++ found.now ∷ [] }
        ensures gives { Gives (CameOf F.state self.old) (CameOf F.state self.new)
            into.new result }
        ensures failed { (t : Tree) → CameOf F.state self.old t → IfErr result (EndsBy F.state self.new t) }
        ensures same { IsOfSame self.old self.new }
    {
        let target = self.folder.target(&found.path)?;
        into.write(found.path, 0, &[]);
        self.add(into)?;
        self.at += 1;
        self.told = 0;
        self.place = Place::Target(*found, target);
        Ok(())
    }

    /// Gives a link its attribute, which says where it leads.
    fn lead(
        &mut self,
        found: &Found,
        target: &LinkTarget,
        into: &mut DumpStep,
    ) -> Result<bool, StreamFault>
        requires { self.old.place ≡ Place.Target found.now target.now }
        ensures next { IsNext (CameOf F.state self.old) (CameOf F.state self.new)
            (IsPacked F.state self.new)
            (EndsBy F.state self.new) into.new result }
        ensures same { IsOfSame self.old self.new }
    {
        into.set(found.path, attribute_name(b"link"), target.as_bytes());
        self.add(into)?;
        self.place = Place::Start;
        Ok(true)
    }

    /// Writes the piece of a file that begins at an offset, if one is there, and else what comes behind the file.
    fn piece(&mut self, found: &Found, at: u32, into: &mut DumpStep) -> Result<bool, StreamFault>
        requires { self.old.place ≡ Place.Piece found.now at }
        ensures next { IsNext (CameOf F.state self.old) (CameOf F.state self.new)
            (IsPacked F.state self.new)
            (EndsBy F.state self.new) into.new result }
        ensures same { IsOfSame self.old self.new }
    {
        let count = read_piece(&mut self.folder, &found.path, at, into)?;
        if count == 0 {
            self.place = Place::Attribute(*found, 0);
            return self.attribute(found, 0, into);
        }
        self.add(into)?;
        self.place = place_behind(found, at, count);
        Ok(true)
    }

    /// Gives the attribute at an index among those of an entry, if one is there, and else what comes behind the entry.
    fn attribute(
        &mut self,
        found: &Found,
        index: usize,
        into: &mut DumpStep,
    ) -> Result<bool, StreamFault>
        requires { self.old.place ≡ Place.Attribute found.now index }
        ensures next { IsNext (CameOf F.state self.old) (CameOf F.state self.new)
            (IsPacked F.state self.new)
            (EndsBy F.state self.new) into.new result }
        ensures same { IsOfSame self.old self.new }
    {
        let Some(attribute) = found.attribute(index) else {
            self.place = Place::Start;
            return self.begin(into);
        };
        attribute.set(found.path, into);
        self.add(into)?;
        self.place = Place::Attribute(*found, index + 1);
        Ok(true)
    }

    /// Takes a step, if some dump goes on with it.
    fn add(&mut self, step: &DumpStep) -> Result<(), StreamFault>
        ensures added { OnOk result
            (AddsStep self.old.reader self.new.reader step.now true) }
        ensures refused { IfErr result
            (λ fault. AddsStep self.old.reader self.new.reader step.now false) }
        ensures fault { IfErr result (λ fault. fault ≡ StreamFault.NoDump) }
        ensures same { self.new ≡ record self.old { reader = self.new.reader } }
    {
        if self.reader.add(step) {
            Ok(())
        } else {
            Err(StreamFault::NoDump)
        }
    }
}

impl<F: Folder> DumpStream for FolderStream<F> {
    ghost came = { CameOf F.state };

    ghost whole = { IsPacked F.state };

    ghost keeps = { IsOfSame };

    ghost fails = { EndsBy F.state };

    /// `NoDump`: no dump goes on with what the entry at `path` asks for. `Unreadable`: the folder answered so, and
    /// counted a fault. `NoMemory`: it answered so.
    fn next(&mut self, into: &mut DumpStep) -> Result<bool, StreamFault> {
        match &self.place {
            Place::Start => self.begin(into),
            Place::Piece(found, at) => {
                let (found, at) = (*found, *at);
                self.piece(&found, at, into)
            }
            Place::Attribute(found, index) => {
                let (found, index) = (*found, *index);
                self.attribute(&found, index, into)
            }
            Place::Target(found, target) => {
                let (found, target) = (*found, *target);
                self.lead(&found, &target, into)
            }
        }
    }
}

/// What comes behind the piece of a file that begins at an offset and has so many bytes. No piece begins behind
/// 16,777,216 bytes, so the offset is one of 32 bits.
fn place_behind(found: &Found, at: u32, count: usize) -> Place
    ensures { result ≡ steps.place_behind found.now at count }
{
    if count < DUMP_PIECE as usize {
        Place::Attribute(*found, 0)
    } else {
        Place::Piece(*found, at.saturating_add(DUMP_PIECE))
    }
}
