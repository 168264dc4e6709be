//! The seed of a new image.

use crate::trouble::{Thing, cause, tell, unopened};
use box_words::{Seed, Status, seed_of};
use std::fs::File;
use std::io::{Error, ErrorKind, Read, Stdin};

/// Where the system gives random bytes.
const RANDOM: &str = "/dev/urandom";

/// How many bytes are read of standard input at most: digits, a line feed, and one byte more, which is too many.
const ROOM: usize = 66;

/// What to do where no seed came.
const ADVICE: &str = "give 64 hexadecimal digits on standard input";

/// A seed of random bytes.
fn random_seed(rt: HostRuntime) -> Result<[u8; 32], Error> {
    let mut file = File::open(&rt, RANDOM)?;
    let mut seed = [0; 32];
    file.read_exact(&mut seed)?;
    Ok(seed)
}

/// Reads bytes until their end, or until the buffer is full, and answers how many came.
fn fill<R: Read>(reader: &mut R, into: &mut [u8]) -> Result<usize, Error> {
    let mut count = 0;
    for _ in 0..u64::MAX {
        let Some(rest) = into.get_mut(count..) else {
            return Ok(count);
        };
        match reader.read(rest) {
            Ok(0) => return Ok(count),
            Ok(more) => count = count.saturating_add(more),
            Err(error) if error.kind() == ErrorKind::Interrupted => {}
            Err(error) => return Err(error),
        }
    }
    Ok(count)
}

/// The seed that bytes spell, behind which a line feed may stand.
fn seed_in(bytes: &[u8]) -> Option<[u8; 32]> {
    let digits = bytes.strip_suffix(b"\n").unwrap_or(bytes);
    seed_of(str::from_utf8(digits).ok()?)
}

/// The seed that standard input has.
fn given_seed(rt: HostRuntime, input: Stdin) -> Result<[u8; 32], Status> {
    let thing = Thing::File("standard input");
    let mut input = input;
    let mut bytes = [0; ROOM];
    let count = match fill(&mut input, &mut bytes) {
        Ok(count) => count,
        Err(error) => return Err(tell(rt, Status::Input, &thing, cause(&error), ADVICE)),
    };
    let seed = bytes.get(..count).and_then(seed_in);
    seed.ok_or_else(|| {
        let wrong = "it is not 64 hexadecimal digits";
        tell(rt, Status::Words, &thing, wrong, ADVICE)
    })
}

/// The seed that the words of a call ask for.
pub fn seed_for(rt: HostRuntime, seed: Seed) -> Result<[u8; 32], Status> {
    match seed {
        Seed::Given(seed) => Ok(seed),
        Seed::Random => match random_seed(rt) {
            Ok(seed) => Ok(seed),
            Err(error) => Err(unopened(rt, RANDOM, cause(&error), "give --seed 64 digits")),
        },
        Seed::Input => given_seed(rt, rt.stdin()),
    }
}
