//! What an image asks for, before a file is read. The values were worked out by hand.

use super::support::folder_of;
use drawn_levels::KnownLevels;
use host_folders::{Found, find_all};
use image_create::{count_found, ladder};
use std::process::Abort;
use store_base::{DrawKind, Params};
use store_model::Version;
use tests_tools::{NEVER, path_of};

/// The parameters of an image of 64 slots.
fn params(rt: &impl Abort) -> Params {
    let params = Params::new(64, 3, DrawKind::Ruler, [0; 32]).expect(rt, "parameters");
    params.with_version(Version::Two)
}

/// Under `ruler` the first pairs of `/d/fU` and `/mU` and the attributes of the first have level 1. So level 0 has
/// groups of 1, 1, 1, 3 and 11 cells, the last of which takes two pages, and the four keys are on one page of level 1.
#[test]
fn what_was_found_is_counted(rt: HostRuntime) {
    let mut folder = folder_of(&rt, rt.alloc(), 2_100, false, NEVER);
    let found: Vec<Found> = find_all(rt.alloc(), &mut folder)
        .ok()
        .expect(&rt, "a folder");
    let counted = count_found(rt.alloc(), &params(&rt), &found)
        .ok()
        .expect(&rt, "few pairs");
    assert!(&rt; counted.pages == 7 && ladder(counted.pages) == Some(64));
    assert!(&rt; counted.folders == 1 && counted.files == 3 && counted.links == 1);
    assert!(&rt; counted.bytes == 2_102);
}

#[test]
fn levels_are_known_again(rt: HostRuntime) {
    let mut levels = KnownLevels::new(rt.alloc(), &params(&rt));
    let wanted = [("/a", 0), ("/bU", 1), ("/cUU", 2), ("/dUUU", 2)];
    for (path, level) in &wanted[..3] {
        assert!(&rt; levels.draw(&path_of(path).key(0)) == *level, "{path}");
    }
    levels.again(8);
    for (path, level) in &wanted {
        assert!(&rt; levels.level(&path_of(path).key(0)) == *level, "{path}");
    }
}
