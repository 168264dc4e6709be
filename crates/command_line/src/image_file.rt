//! The file of the image, as the words of a command line need it.

ghost use Rattle.std.specs.Prelude.{◌≡◌, ◌↔◌, IfOk, Some};
ghost use Rattle.store_model.specs.Words.{request_of};
ghost use Rattle.store_model.specs.Words.Request.{Check};
ghost use Rattle.command_line.specs.Requests.{request_seen, wanted_by, wanted_of};

use crate::request::Request;
use crate::words::Words;
use store_base::{NoMemory, image_len};

/// The file that the words need.
#[derive(Clone, Copy, Debug, PartialEq, Eq)]
pub enum Wanted {
    /// The words are not well formed.
    Usage,
    /// A file that is there.
    Existing,
    /// A file of so many bytes; where there is none, one is to be made of that many zeros.
    Fresh(u64),
}

/// What is done with the file.
#[derive(Clone, Copy, Debug, PartialEq, Eq)]
pub enum Access {
    /// It is only read.
    Reading,
    /// It is read and written.
    Writing,
}

/// The file that the words need, and what is done with it.
#[derive(Clone, Copy, Debug, PartialEq, Eq)]
pub struct FileRequest {
    /// Which file it is.
    pub wanted: Wanted,
    /// What is done with it. Words that are not well formed need no file, and then this is `Writing`.
    pub access: Access,
}

impl Request {
    /// The file that it needs.
    fn wanted(&self) -> Wanted
        ensures { result ≡ wanted_by (request_seen self.now) }
    {
        match self {
            Request::Format(params) => Wanted::Fresh(image_len(params.slots())),
            _ => Wanted::Existing,
        }
    }

    /// What it does with the file: `check` only reads it.
    fn access(&self) -> Access
        ensures { (result ≡ Access.Reading) ↔ (request_seen self.now ≡ Check) }
    {
        match self {
            Request::Check => Access::Reading,
            _ => Access::Writing,
        }
    }
}

/// Finds the file that the words need, and what is done with it: it is only read exactly where they are the words of
/// a `check`.
/// `NoMemory`: it was not found out.
pub fn wanted_file(words: &Words) -> Result<FileRequest, NoMemory>
    ensures wanted { IfOk result (λ file. file.wanted ≡ wanted_of (request_of words.now)) }
    ensures access { IfOk result (λ file. (file.access ≡ Access.Reading)
        ↔ (request_of words.now ≡ Some Check)) }
{
    let Some(request) = words.request()? else {
        return Ok(FileRequest {
            wanted: Wanted::Usage,
            access: Access::Writing,
        });
    };
    Ok(FileRequest {
        wanted: request.wanted(),
        access: request.access(),
    })
}

/// Finds the file that the words need.
/// `NoMemory`: it was not found out.
pub fn wanted_len(words: &Words) -> Result<Wanted, NoMemory>
    ensures { IfOk result (λ wanted. wanted ≡ wanted_of (request_of words.now)) }
{
    Ok(wanted_file(words)?.wanted)
}
