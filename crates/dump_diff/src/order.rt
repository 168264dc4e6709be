//! The order of the steps of a dump, and whether two are the same.

ghost use Rattle.std.specs.Prelude.{◌≡◌, ◌↔◌, IsTrue};
ghost use Rattle.dump_diff.specs.Places.{part_cmp, place_cmp};

use dump_streams::{DumpStep, Step};
use std::cmp::Ordering;

/// How the places of two steps in a dump compare: their paths, and at one path what the entry has there.
pub fn order(one: &DumpStep, other: &DumpStep) -> Ordering
    ensures { result ≡ place_cmp one.now other.now }
{
    one.path().cmp(other.path()).then(part_order(one, other))
}

/// How the places of two steps in the dump of an entry compare: first come the writes, by offset, and then the
/// attributes, by name.
fn part_order(one: &DumpStep, other: &DumpStep) -> Ordering
    ensures { result ≡ part_cmp one.now other.now }
{
    match (one.parts(), other.parts()) {
        (Step::Set(_, name, _), Step::Set(_, next, _)) => name.as_bytes().cmp(next.as_bytes()),
        (Step::Set(_, _, _), _) => Ordering::Greater,
        (_, Step::Set(_, _, _)) => Ordering::Less,
        (Step::Write(_, at, _), Step::Write(_, offset, _)) => at.cmp(&offset),
        (Step::Write(_, at, _), Step::Make(_)) => at.cmp(&0),
        (Step::Make(_), Step::Write(_, offset, _)) => 0_u32.cmp(&offset),
        (Step::Make(_), Step::Make(_)) => Ordering::Equal,
    }
}

/// Whether two steps are the same.
pub fn same(one: &DumpStep, other: &DumpStep) -> bool
    ensures { IsTrue result ↔ (one.now ≡ other.now) }
{
    match (one.parts(), other.parts()) {
        (Step::Make(path), Step::Make(next)) => *path == *next,
        (Step::Write(path, at, bytes), Step::Write(next, offset, others)) => {
            *path == *next && at == offset && *bytes == *others
        }
        (Step::Set(path, name, bytes), Step::Set(next, other, others)) => {
            *path == *next && name.as_bytes() == other.as_bytes() && *bytes == *others
        }
        _ => false,
    }
}
