//! Commands that a number gives, to try a store with.

ghost use Rattle.std.specs.Prelude.{◌≡◌, ◌<◌, ◌≤◌, ◌+◌, ◌*◌, ◌/◌, ◌%◌, ◌^◌, ℕ, length, Some, IsSome, Ok, codes};
ghost use Rattle.store_model.specs.Grammar.{parse, path_of};
ghost use Rattle.script_lines.specs.Parsing.{command_of};
ghost use Rattle.script_lines.specs.Generated as model;

use crate::command::Command;
use path_keys::Path;
use std::marker::Model;
use store_base::Bytes;

/// The factor and the summand of a step: those of Knuth's MMIX.
const FACTOR: u64 = 6_364_136_223_846_793_005;

const SUMMAND: u64 = 1_442_695_040_888_963_407;

/// The commands that a number gives, one after another, for ever. Directories are `/d0` to `/d7`, and files
/// `f0` to `f15` in them. No call takes memory.
#[derive(Debug, Drop)]
pub struct Generator {
    state: u64,
}

impl Model for Generator {
    ghost use Rattle.std.specs.Prelude.{ℕ};

    ghost Value = { ℕ };

    ghost view = { λ g. g.state };
}

impl Generator {
    /// The commands of this number, from the first on.
    pub fn new(number: u32) -> Self
        ensures { result ≡ model.state_after number 0 }
    {
        Generator {
            state: u64::from(number),
        }
    }

    /// Gives the next command.
    pub fn next(&mut self) -> Command
        ensures state { (number place : ℕ) → self.old ≡ model.state_after number place
            → self.new ≡ model.state_after number (place + 1) }
        ensures command { (number place : ℕ) → self.old ≡ model.state_after number place
            → command_of result ≡ model.generated number place }
    {
        self.state = next_state(self.state);
        command_of_draw((self.state >> 33) as u32)
    }
}

/// One step of the linear congruential generator of Knuth's MMIX.
fn next_state(state: u64) -> u64
    ensures { result ≡ model.next_state state }
{
    state.wrapping_mul(FACTOR).wrapping_add(SUMMAND)
}

/// The command of a draw.
fn command_of_draw(draw: u32) -> Command
    ensures { command_of result ≡ model.command_of_draw draw }
{
    let directory = (draw % 8) as u8;
    let file = (draw / 8 % 16) as u8;
    match draw / 128 % 8 {
        0 => Command::Make(directory_path(directory)),
        1..=3 => Command::Write(
            file_path(directory, file),
            0,
            Bytes::new(&draw.to_be_bytes()),
        ),
        4 => Command::Cut(file_path(directory, file), 2),
        5 => Command::Remove(file_path(directory, file)),
        6 => {
            let other = (draw / 1024 % 8) as u8;
            Command::Rename(file_path(directory, file), file_path(other, file))
        }
        _ => Command::Read(file_path(directory, file), 0, 4),
    }
}

/// The path of a directory.
fn directory_path(directory: u8) -> Path
    requires { directory < 8 }
    ensures { result ≡ model.directory_path directory }
{
    short_path(&[b'/', b'd', b'0' + directory])
}

/// The path of a file in a directory.
fn file_path(directory: u8, file: u8) -> Path
    requires directory { directory < 8 }
    requires file { file < 16 }
    ensures { result ≡ model.file_path directory file }
{
    let name = b'0' + directory;
    if file < 10 {
        short_path(&[b'/', b'd', name, b'/', b'f', b'0' + file])
    } else {
        short_path(&[b'/', b'd', name, b'/', b'f', b'1', b'0' + (file - 10)])
    }
}

/// The path that a text spells, which is one that a key can hold.
fn short_path(text: &[u8]) -> Path
    requires spells { IsSome (path_of text.now) }
    requires short { length text.now ≤ Path.MAX_LEN }
    ensures { path_of text.now ≡ Some result }
{
    let Ok(path) = Path::parse(text) else {
        unreachable!()
    };
    path
}

/// The first commands of number 0, as another program gave their lines.
pub fn first_commands_of_number_0()
    ensures first { parse (codes "write /d7/f7 0 0a02bdbf") ≡ Ok (model.generated 0 0) }
    ensures second { parse (codes "rename /d0/f1 /d5/f1") ≡ Ok (model.generated 0 1) }
    ensures third { parse (codes "make /d1") ≡ Ok (model.generated 0 2) }
{}
